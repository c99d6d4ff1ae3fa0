//! The token with which a session looks at guesses and stores them.

ghost use Rattle.std.specs.Prelude.{◌≡◌, []};

use crate::view::GuessSteps;
use atomic_table::Seat;
use std::marker::Model;

/// The right of one session to look at the guesses of a table, and to store some. It is drawn by `Guesses::connect`,
/// given back by `Guesses::disconnect`, and may go over to another thread. It tells of its last look and of its last
/// store. It is not dropped.
pub struct GuessPass {
    pub(crate) seat: Seat<(), GuessSteps>,
    pub(crate) looked: Option<(u32, u64)>,
    pub(crate) stored: Option<(u32, u64)>,
}

impl Model for GuessPass {
    ghost use Rattle.ib_hash.specs.Pass.{GuessPassState, guess_pass_state, IsGuessPass};

    ghost Value = { GuessPassState };

    ghost view = { λ p. guess_pass_state p };

    ghost invariant = { λ p. IsGuessPass p };
}

impl GuessPass {
    /// The slot and the word of the last look.
    pub fn looked(&self) -> Option<(u32, u64)>
        ensures { result ≡ self.now.steps.looked }
    {
        self.looked
    }

    /// The slot and the word of the last store.
    pub fn stored(&self) -> Option<(u32, u64)>
        ensures { result ≡ self.now.steps.stored }
    {
        self.stored
    }

    // The seat, for the end of the pass.
    pub(crate) fn into_seat(self) -> Seat<(), GuessSteps>
        ensures table { result.table_id ≡ self.table }
        ensures me { result.me ≡ (self.steps, []) }
    {
        let GuessPass {
            seat,
            looked: _,
            stored: _,
        } = self;
        seat
    }
}
