//! What is printed of an image file: the map that it restores.

ghost use Rattle.std.specs.Prelude.{◌≡◌};
ghost use Rattle.ib_io.specs.Told.{HasTold, IsWritten, ends};
ghost use Rattle.ib_text.specs.Output.{map_text};

use ib_image::Restored;
use ib_io::{Printed, Sink, Status, Writer, tell};
use ib_text::{all_pairs, print_map};

// What an image file restores. Its text is the map.
#[derive(Drop)]
struct MapText {
    restored: Restored,
}

impl Printed for MapText {
    ghost use Rattle.ib_text.specs.Output.{map_text};

    ghost text = { λ t. map_text t.restored.map };

    fn print<K: Sink>(self, writer: &mut Writer<'_, K>) {
        print_map(writer, all_pairs(self.restored.map()));
    }
}

/// Writes the map of what was restored.
pub fn show<K: Sink>(sink: &mut K, restored: Restored) -> Status
    ensures { HasTold K.written K.faults (IsWritten (ends Status.Done (map_text restored.map))) sink.old sink.new result }
{
    tell(sink, MapText { restored }, Status::Done)
}
