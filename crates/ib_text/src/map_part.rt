//! The map as text.

ghost use Rattle.std.specs.Prelude.{◌≡◌, flat_map};
ghost use Rattle.ib_io.specs.Writer.{Puts};
ghost use Rattle.ib_text.specs.Output.{map_line, map_text};

use crate::key::print_pair;
use ib_io::{Sink, Writer};
use ib_map::{Key, PlainMap};

// `K V` on a line.
fn print_map_line<K: Sink>(writer: &mut Writer<'_, K>, key: Key, value: u64)
    ensures puts { Puts K.written K.faults writer.old writer.new (map_line (key, value)) }
{
    print_pair(writer, key, value);
    writer.byte(b'\n');
}

fn print_map_lines<K: Sink>(writer: &mut Writer<'_, K>, pairs: &[(Key, u64)])
    ensures puts { Puts K.written K.faults writer.old writer.new (flat_map map_line pairs.now) }
{
    for pair in pairs {
        print_map_line(writer, pair.0, pair.1);
    }
}

/// The map part: `map N`, and then a line `K V` for each of the N pairs.
pub fn print_map<K: Sink>(writer: &mut Writer<'_, K>, pairs: &[(Key, u64)])
    ensures puts { Puts K.written K.faults writer.old writer.new (map_text pairs.now) }
{
    writer.word_and_number(b"map ", pairs.len() as u64);
    writer.byte(b'\n');
    print_map_lines(writer, pairs);
}

/// All pairs of a map.
pub fn all_pairs(map: &PlainMap) -> &[(Key, u64)]
    ensures { result.now ≡ map.now }
{
    map.range(Key::least(), Key::greatest())
}
