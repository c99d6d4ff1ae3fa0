//! What is written of a run.

/// What is written of a run of a script.
#[derive(Clone, Copy, Debug, PartialEq, Eq)]
pub enum Shape {
    /// What each session was answered, the log and the map, as text.
    Text,
    /// The file of the log.
    File,
    /// The image file of a copy that is made beside the sessions.
    Image,
}
