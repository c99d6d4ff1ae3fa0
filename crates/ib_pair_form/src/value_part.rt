//! The keys of a value as text: what a `value` of a script of two trees was answered, and the keys of the second tree.

ghost use Rattle.std.specs.Prelude.{◌≡◌, flat_map};
ghost use Rattle.ib_io.specs.Writer.{Puts};
ghost use Rattle.ib_second_key.specs.SecondKeys.{primary_of};
ghost use Rattle.ib_pair_form.specs.PairOutput.{answer_line, key_line, keys_text, second_line, second_text, value_line};

use ib_io::{Sink, Writer};
use ib_map::{Call, Chunk, Key, Record, Reply};
use ib_second_key::{primary_key, value_of};
use ib_text::{ScanText, print_key, print_record_line};

// The key that a key of the second tree finds; the least one where it has too few bytes to find any.
fn found_key(second: Key) -> Key
    ensures { result ≡ primary_of second }
{
    if second.len() < 8 {
        return Key::least();
    }
    primary_key(second)
}

// `key K` for a key of the second tree: the key that it finds.
fn print_key_line<K: Sink>(writer: &mut Writer<'_, K>, second: Key)
    ensures puts { Puts K.written K.faults writer.old writer.new (key_line second) }
{
    writer.text(b"key ");
    print_key(writer, found_key(second));
    writer.byte(b'\n');
}

fn print_key_lines<K: Sink>(writer: &mut Writer<'_, K>, pairs: &[(Key, u64)])
    ensures puts { Puts K.written K.faults writer.old writer.new (flat_map (λ pair. key_line pair.0) pairs.now) }
{
    for pair in pairs {
        print_key_line(writer, pair.0);
    }
}

// `value V -> N keys`, by the least key of the scan.
fn print_value_line<K: Sink>(writer: &mut Writer<'_, K>, low: Key, count: u32)
    ensures puts { Puts K.written K.faults writer.old writer.new (value_line low count) }
{
    writer.two_numbers(b"value ", value_of(low), b" -> ", u64::from(count));
    writer.text(b" keys\n");
}

/// Scans of the second tree: one is `value V -> N keys`, and each chunk that has keys `at P` with a line `key K` for each.
#[derive(Clone, Copy, Debug)]
pub(crate) struct KeyLines;

impl ScanText for KeyLines {
    ghost line = { answer_line };

    ghost span = { keys_text };

    fn print_line<K: Sink>(writer: &mut Writer<'_, K>, answered: &Record) {
        match (answered.call, answered.reply) {
            (Call::Scan { low, .. }, Reply::Scanned { pairs, .. }) => {
                print_value_line(writer, low, pairs)
            }
            _ => print_record_line(writer, answered),
        }
    }

    fn print_span<K: Sink>(
        writer: &mut Writer<'_, K>,
        first: &Chunk,
        last: &Chunk,
        pairs: &[(Key, u64)],
    ) {
        let end = last.start as usize + last.len as usize;
        let found = &pairs[first.start as usize..end];
        if found.is_empty() {
            return;
        }
        writer.word_and_number(b"at ", u64::from(first.place));
        writer.byte(b'\n');
        print_key_lines(writer, found);
    }
}

fn print_second_lines<K: Sink>(writer: &mut Writer<'_, K>, pairs: &[(Key, u64)])
    ensures puts { Puts K.written K.faults writer.old writer.new (flat_map second_line pairs.now) }
{
    for pair in pairs {
        print_key(writer, pair.0);
        writer.byte(b'\n');
    }
}

// The part of the second tree: `second N`, and then a line for each of its N keys.
pub(crate) fn print_second<K: Sink>(writer: &mut Writer<'_, K>, pairs: &[(Key, u64)])
    ensures puts { Puts K.written K.faults writer.old writer.new (second_text pairs.now) }
{
    writer.word_and_number(b"second ", pairs.len() as u64);
    writer.byte(b'\n');
    print_second_lines(writer, pairs);
}
