//! What may be wrong with a line.

/// The greatest session that a line may name. The least is 1.
pub const MOST_SCRIPT_SESSIONS: u32 = 64;

const _: () = prove!(MOST_SCRIPT_SESSIONS == 64);

/// What is wrong with a line.
#[derive(Clone, Copy, Debug, PartialEq, Eq)]
pub enum LineKind {
    /// A field that is to be a word is none that may stand there.
    Word,
    /// It has too few or too many fields.
    Fields,
    /// A field is no number.
    Number,
    /// A field is no key.
    Key,
    /// A field is a key that is too long to be found by its value.
    Long,
    /// The session is not 1 to `MOST_SCRIPT_SESSIONS`.
    Session,
    /// A `space` line stands behind another line, or there is no space of its sizes.
    Space,
    /// As many lines of its sort stand before it as there may be.
    Many,
    /// There is no latch of this number.
    Latch,
    /// There is no level of this number.
    Level,
}
