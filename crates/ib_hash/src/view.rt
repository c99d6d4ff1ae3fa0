//! What a seat of the table of guesses knows. No value of it is made: it is a ghost of the rule.

/// The steps of a pass on guesses: how many it has looked at and stored, and the last of each, its slot and its word.
pub struct GuessSteps {
    /// How many guesses it has looked at.
    pub looks: u64,
    /// How many it has stored.
    pub stores: u64,
    /// The last one that it looked at.
    pub looked: Option<(u32, u64)>,
    /// The last one that it stored.
    pub stored: Option<(u32, u64)>,
}
