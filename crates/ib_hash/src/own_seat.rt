//! The table's own seat, in a form that threads may share: nothing reaches it through a `&`.
ghost use Rattle.std.specs.Prelude.{◌≡◌};
ghost use base.Fml.{ftrue};

use crate::view::GuessSteps;
use atomic_table::Seat;
use std::marker::Model;

pub(crate) struct OwnSeat {
    pub(crate) seat: Seat<(), GuessSteps>,
}

impl Model for OwnSeat {
    ghost also_owns = { λ _. ftrue };
}

impl OwnSeat {
    pub(crate) fn new(seat: Seat<(), GuessSteps>) -> OwnSeat
        ensures { result.seat ≡ seat }
    {
        OwnSeat { seat }
    }

    pub(crate) fn into_seat(self) -> Seat<(), GuessSteps>
        ensures { result ≡ self.seat }
    {
        let OwnSeat { seat } = self;
        seat
    }
}

unsafe impl Send for OwnSeat {}

unsafe impl Sync for OwnSeat {}
