//! What may hold a session back between its calls.

ghost use Rattle.std.specs.Prelude.{◌≡◌};
ghost use Rattle.ib_core.specs.Sessions.{idle};

use ib_rule::Pass;
use std::sync::Wait;

/// What is called before each call of a session, and once after the last one. It may hold the session back, and look at
/// its pass. The session holds no latch then, so no other waits for it. It has no meaning of its own.
///
/// That it is called so, and with which number of a call, is by the code: no contract says it.
pub trait Gate {
    /// Before the call of this number, counted from 1, of the session whose pass this is, or after the last one with the
    /// next number.
    fn pause<R: Wait>(&self, rt: &R, pass: &Pass, session: u32, call: u32)
        requires rest { pass.now.view.session ≡ idle }
        requires session { session ≡ pass.now.number };
}

/// The gate that returns at once.
#[derive(Clone, Copy, Debug)]
pub struct OpenGate;

impl Gate for OpenGate {
    fn pause<R: Wait>(&self, _rt: &R, _pass: &Pass, _session: u32, _call: u32) {}
}
