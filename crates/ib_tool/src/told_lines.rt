//! The lines that the program tells of itself.

use ib_io::{Printed, Sink, Writer};

/// How the program is called.
#[derive(Drop)]
pub struct UsageLine;

impl Printed for UsageLine {
    ghost use Rattle.ib_tool.specs.Words.{usage_line};

    ghost text = { λ _. usage_line };

    fn print<K: Sink>(self, writer: &mut Writer<'_, K>) {
        writer.text(b"usage: ib_tool run | raw | latch | replay | gen N SEED SESSIONS\n");
    }
}

/// That the input is longer than what is read.
#[derive(Drop)]
pub struct TooLargeLine;

impl Printed for TooLargeLine {
    ghost use Rattle.ib_tool.specs.Words.{too_large_line};

    ghost text = { λ _. too_large_line };

    fn print<K: Sink>(self, writer: &mut Writer<'_, K>) {
        writer.text(b"too large\n");
    }
}
