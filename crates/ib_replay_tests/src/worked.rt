//! A worked log, which other tests change.

ghost use Rattle.std.specs.Prelude.{◌<◌};

// The first words of the keys `10` and `11`, which have two bytes.
pub(crate) const TEN: u64 = 0x3130_0000_0000_0000;

pub(crate) const ELEVEN: u64 = 0x3131_0000_0000_0000;

// Session 1 inserts `10` with 100 and then `11` with 110, on page 1. The second entry begins at word 23.
pub(crate) const LOG: [u64; 46] = [
    0x1_0001_0009,
    1,
    TEN,
    2,
    100,
    162,
    1,
    165,
    1,
    167,
    536,
    178,
    276,
    179,
    512,
    180,
    19,
    181,
    TEN,
    182,
    2,
    183,
    100, //
    0x1_0001_0009,
    2,
    ELEVEN,
    2,
    110,
    162,
    2,
    165,
    2,
    167,
    540,
    179,
    768,
    180,
    24,
    184,
    19,
    185,
    ELEVEN,
    186,
    2,
    187,
    110,
];

// The log with another word at this place.
pub(crate) fn changed(at: usize, word: u64) -> [u64; 46]
    requires { at < 46 }
{
    let mut words = LOG;
    words[at] = word;
    words
}
