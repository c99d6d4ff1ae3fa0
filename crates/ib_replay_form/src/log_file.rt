//! A log written as its file.

ghost use Rattle.ib_io.specs.Told.{HasTold, IsWritten, ends};
ghost use Rattle.ib_io.specs.Writer.{Puts};
ghost use Rattle.ib_replay.specs.Files.{file_of, word_bytes};

use ib_io::{Printed, Sink, Status, Writer, tell};
use ib_replay::{Brought, FILE_FORM};

// The bytes of these words, the highest of each first.
fn print_words<K: Sink>(writer: &mut Writer<'_, K>, words: &[u64])
    ensures puts { Puts K.written K.faults writer.old writer.new (word_bytes words.now) }
{
    for word in words {
        writer.text(&word.to_be_bytes());
    }
}

// A log that was brought over. Its text is its file.
#[derive(Drop)]
struct FileText {
    log: Brought,
}

impl Printed for FileText {
    ghost use Rattle.ib_replay.specs.Files.{file_of};

    ghost text = { λ t. file_of t.log.pages t.log.words };

    fn print<K: Sink>(self, writer: &mut Writer<'_, K>) {
        print_words(writer, &[FILE_FORM, u64::from(self.log.pages())]);
        print_words(writer, self.log.words());
    }
}

/// Writes the file of a log that was brought over.
pub fn write_file<K: Sink>(sink: &mut K, log: Brought) -> Status
    ensures { HasTold K.written K.faults (IsWritten (ends Status.Done (file_of log.pages log.words))) sink.old sink.new result }
{
    tell(sink, FileText { log }, Status::Done)
}
