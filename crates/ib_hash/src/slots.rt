//! The slots of the table, and that of a key.

ghost use Rattle.std.specs.Prelude.{◌≡◌, ◌<◌};
ghost use Rattle.ib_hash.specs.Slots.{slot_for};

use ib_map::Key;

/// How many slots the table has, a prime number.
pub const SLOTS: u32 = 4093;

const _: () = prove!(SLOTS == 4093);

// What the second word of a key weighs.
const SECOND_WEIGHT: u64 = 31;

/// The slot of a key, by its two words (`rec_fold`, and `hash_calc_hash` of hash0hash).
pub fn slot_of(key: Key) -> u32
    ensures slot { result ≡ slot_for key }
    ensures few { result < SLOTS }
{
    let slots = u64::from(SLOTS);
    let (first, second) = key.words();
    ((first % slots + SECOND_WEIGHT * (second % slots)) % slots) as u32
}
