//! The line that tells why an image file is refused.

ghost use Rattle.std.specs.Prelude.{◌++◌, codes};
ghost use Rattle.ib_io.specs.Writer.{Puts};
ghost use Rattle.ib_replay_form.specs.Replaying.{log_fault_text};
ghost use Rattle.ib_image_form.specs.Restoring.{image_fault_text};

use ib_image::ImageFault;
use ib_io::{Printed, Sink, Writer};
use ib_logrec::LogFault;
use ib_replay_form::print_fault as print_log_fault;

// The fault of a tail.
fn print_tail<K: Sink>(writer: &mut Writer<'_, K>, fault: LogFault)
    ensures puts { Puts K.written K.faults writer.old writer.new (codes "tail " ++ log_fault_text fault) }
{
    writer.text(b"tail ");
    print_log_fault(writer, fault);
}

fn print_fault<K: Sink>(writer: &mut Writer<'_, K>, fault: ImageFault)
    ensures puts { Puts K.written K.faults writer.old writer.new (image_fault_text fault) }
{
    match fault {
        ImageFault::OddLength { bytes } => writer.word_and_number(b"odd length ", bytes as u64),
        ImageFault::Short { numbers } => writer.word_and_number(b"short ", u64::from(numbers)),
        ImageFault::BadImage { at, word } => writer.two_numbers(
            b"word at ",
            u64::from(at),
            b" ",
            word,
        ),
        ImageFault::Tail { fault } => print_tail(writer, fault),
        ImageFault::NotATree => writer.text(b"not a tree"),
        ImageFault::OutOfMemory => writer.text(b"out of memory"),
    }
}

/// Why an image file is refused. Its text is `bad image: ` and the fault.
#[derive(Drop)]
pub struct BadImage {
    pub fault: ImageFault,
}

impl Printed for BadImage {
    ghost use Rattle.ib_image_form.specs.Restoring.{bad_image_line};

    ghost text = { λ bad. bad_image_line bad.fault };

    fn print<K: Sink>(self, writer: &mut Writer<'_, K>) {
        writer.text(b"bad image: ");
        print_fault(writer, self.fault);
        writer.byte(b'\n');
    }
}
