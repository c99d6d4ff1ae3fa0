//! The line of a call and its reply.

ghost use Rattle.ib_io.specs.Writer.{Puts};
ghost use Rattle.ib_text.specs.Output.{call_text, place_text, record_line, reply_text};

use crate::key::{print_two_keys, print_word_and_key, print_word_and_pair};
use ib_io::{Sink, Writer};
use ib_map::{Call, Record, Reply};

#[inline(always)]
fn print_call<K: Sink>(writer: &mut Writer<'_, K>, call: Call)
    ensures puts { Puts K.written K.faults writer.old writer.new (call_text call) }
{
    match call {
        Call::Insert { key, value } => print_word_and_pair(writer, b"insert ", key, value),
        Call::Delete { key } => print_word_and_key(writer, b"delete ", key),
        Call::Get { key } => print_word_and_key(writer, b"get ", key),
        Call::Scan { low, high } => print_two_keys(writer, b"scan ", low, b" ", high),
    }
}

#[inline(always)]
fn print_reply<K: Sink>(writer: &mut Writer<'_, K>, reply: Reply)
    ensures puts { Puts K.written K.faults writer.old writer.new (reply_text reply) }
{
    match reply {
        Reply::Inserted => writer.text(b"inserted"),
        Reply::Duplicate => writer.text(b"duplicate"),
        Reply::Deleted { value } => writer.word_and_number(b"deleted ", value),
        Reply::Missing => writer.text(b"missing"),
        Reply::Found { value } => writer.number(value),
        Reply::NotFound => writer.text(b"none"),
        Reply::LogFull { used, cap } => {
            writer.two_numbers(b"log full used ", u64::from(used), b" cap ", u64::from(cap))
        }
        Reply::SpaceFull { free, need } => {
            writer.two_numbers(
                b"space full free ",
                u64::from(free),
                b" need ",
                u64::from(need),
            )
        }
        Reply::TooHigh => writer.text(b"too high"),
        Reply::Scanned { pairs, .. } => {
            writer.number(u64::from(pairs));
            writer.text(b" pairs");
        }
    }
}

#[inline(always)]
fn print_place<K: Sink>(writer: &mut Writer<'_, K>, reply: Reply, place: u32)
    ensures puts { Puts K.written K.faults writer.old writer.new (place_text reply place) }
{
    match reply {
        Reply::Scanned { .. } => {}
        _ => writer.word_and_number(b" at ", u64::from(place)),
    }
}

/// A call, its reply and its place on a line; a scan's chunks are lines of their own.
#[inline(always)]
pub fn print_record_line<K: Sink>(writer: &mut Writer<'_, K>, answered: &Record)
    ensures puts { Puts K.written K.faults writer.old writer.new (record_line answered.now.call answered.now.reply answered.now.place) }
{
    print_call(writer, answered.call);
    writer.text(b" -> ");
    print_reply(writer, answered.reply);
    print_place(writer, answered.reply, answered.place);
    writer.byte(b'\n');
}
