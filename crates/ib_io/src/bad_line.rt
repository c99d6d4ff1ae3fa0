//! A bad line, and the one text that tells it.

ghost use Rattle.std.specs.Prelude.{◌≡◌};
ghost use Rattle.ib_io.specs.BadLines.{kind_text};
ghost use Rattle.ib_io.specs.Told.{HasTold, IsOutOfMemoryWhere, OwesFault, Told};
ghost use Rattle.ib_io.specs.Writer.{Puts};

use crate::line_kind::LineKind;
use crate::printed::{Printed, tell};
use crate::sink::Sink;
use crate::status::Status;
use crate::writer::Writer;
use std::alloc::AllocError;
use thiserror::Error;

/// Why a line is not taken.
#[derive(Drop)]
pub enum LineFault {
    /// This is wrong with it.
    Bad(LineKind),
    /// It asks for memory, and there is none.
    OutOfMemory,
}

/// Why an input is not read.
#[derive(Debug, Drop, Error)]
pub enum ScriptFault {
    /// The first bad line, counted from 1 over all lines.
    #[error("line {line} is bad")]
    BadLine { line: u32, kind: LineKind },
    /// Memory ran out, and no line is bad.
    #[error("out of memory")]
    OutOfMemory,
}

impl From<LineKind> for LineFault {
    ghost use Rattle.std.specs.Prelude.{◌≡◌};
    ghost use Rattle.ib_io.specs.declared.bad_line.LineFault.TheVariants.{Bad};

    ghost from_gives = { λ kind e. e ≡ Bad kind };

    fn from(kind: LineKind) -> LineFault {
        LineFault::Bad(kind)
    }
}

impl From<AllocError> for LineFault {
    ghost use Rattle.std.specs.Prelude.{◌≡◌};
    ghost use Rattle.ib_io.specs.declared.bad_line.LineFault.TheVariants.{OutOfMemory};

    ghost from_gives = { λ _ e. e ≡ OutOfMemory };

    fn from(_: AllocError) -> LineFault {
        LineFault::OutOfMemory
    }
}

/// A line, counted from 1 over all lines, and what is wrong with it. Its text is `script: line N: KIND`.
#[derive(Clone, Copy, Debug, PartialEq, Eq)]
pub struct BadLine {
    pub line: u32,
    pub kind: LineKind,
}

fn print_kind<K: Sink>(writer: &mut Writer<'_, K>, kind: LineKind)
    ensures puts { Puts K.written K.faults writer.old writer.new (kind_text kind) }
{
    match kind {
        LineKind::Word => writer.text(b"word"),
        LineKind::Fields => writer.text(b"fields"),
        LineKind::Number => writer.text(b"number"),
        LineKind::Key => writer.text(b"key"),
        LineKind::Long => writer.text(b"long"),
        LineKind::Session => writer.text(b"session"),
        LineKind::Space => writer.text(b"space"),
        LineKind::Many => writer.text(b"many"),
        LineKind::Latch => writer.text(b"latch"),
        LineKind::Level => writer.text(b"level"),
    }
}

impl Printed for BadLine {
    ghost use Rattle.ib_io.specs.BadLines.{fault_text};

    ghost text = { λ bad. fault_text bad.line bad.kind };

    fn print<K: Sink>(self, writer: &mut Writer<'_, K>) {
        writer.word_and_number(b"script: line ", u64::from(self.line));
        writer.text(b": ");
        print_kind(writer, self.kind);
        writer.byte(b'\n');
    }
}

/// Ends for an input that is not read: writes its bad line, or nothing where memory ran out.
pub fn refuse<K: Sink>(sink: &mut K, fault: ScriptFault) -> Status
    ensures { HasTold K.written K.faults (Told (OwesFault fault) (IsOutOfMemoryWhere (fault ≡ ScriptFault.OutOfMemory))) sink.old sink.new result }
{
    match fault {
        ScriptFault::BadLine { line, kind } => {
            tell(sink, BadLine { line, kind }, Status::Script)
        }
        ScriptFault::OutOfMemory => Status::Memory,
    }
}
