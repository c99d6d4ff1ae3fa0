//! What is printed as a whole, through one writer.

ghost use Rattle.std.specs.Prelude.{◌≡◌, ◌≢◌, List, ℕ};
ghost use Rattle.ib_io.specs.Faults.{AppendsAll, HasCause};
ghost use Rattle.ib_io.specs.Told.{HasTold, IsWritten, ends};
ghost use Rattle.ib_io.specs.Writer.{IsFresh, Puts, sink_name, sink_of};

use crate::sink::{Failed, Sink};
use crate::status::Status;
use crate::writer::Writer;

/// A value with a text.
pub trait Printed {
    ghost text: { Self → List ℕ };

    /// Prints the text.
    fn print<K: Sink>(self, writer: &mut Writer<'_, K>)
        ensures puts { Puts K.written K.faults writer.old writer.new (text self) };
}

// The text, through a writer that has printed nothing.
fn print_whole<K: Sink, P: Printed>(writer: &mut Writer<'_, K>, printed: P) -> Result<(), Failed>
    requires { IsFresh (sink_of writer.old) writer.old }
    ensures same_reference { sink_name writer.new ≡ sink_name writer.old }
    ensures bytes { AppendsAll (K.written (sink_of writer.old)) (K.written (sink_of writer.new)) result (P.text printed) }
    ensures cause { HasCause (K.faults (sink_of writer.old)) (K.faults (sink_of writer.new)) result }
{
    printed.print(writer);
    writer.finish()
}

// The text. At `Failed` a front of it was written.
fn write_whole<K: Sink, P: Printed>(sink: &mut K, printed: P) -> Result<(), Failed>
    ensures bytes { AppendsAll (K.written sink.old) (K.written sink.new) result (P.text printed) }
    ensures cause { HasCause (K.faults sink.old) (K.faults sink.new) result }
{
    let mut writer = Writer::new(sink);
    print_whole(&mut writer, printed)
}

/// Writes the text of a value, and ends so: with this status where all of it was written, and else with a fault of the
/// sink behind a front of it.
pub fn tell<K: Sink, P: Printed>(sink: &mut K, printed: P, status: Status) -> Status
    requires { status ≢ Status.WriteFault }
    ensures { HasTold K.written K.faults (IsWritten (ends status (P.text printed))) sink.old sink.new result }
{
    match write_whole(sink, printed) {
        Ok(()) => status,
        Err(_) => Status::WriteFault,
    }
}
