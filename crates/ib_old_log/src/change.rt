//! Changes of version 1, whose keys are numbers.

ghost use Rattle.std.specs.Prelude.{◌≡◌};
ghost use Rattle.ib_old_log.specs.OldHeads.{key_of_number, brought_change};

use ib_map::{Change, Key, key_law};

/// What a session changed, in version 1: a pair that is put in, or a key that is taken out.
#[derive(Clone, Copy, Debug, PartialEq, Eq)]
pub enum OldChange {
    /// A pair is put in, whose key is a number.
    Insert { key: u64, value: u64 },
    /// The pair of a key is taken out.
    Delete { key: u64 },
}

impl OldChange {
    /// The same change, with the key of the number's eight bytes.
    pub fn brought_over(self) -> Change
        ensures { result ≡ brought_change self }
    {
        match self {
            OldChange::Insert { key, value } => Change::Insert {
                key: key_of(key),
                value,
            },
            OldChange::Delete { key } => Change::Delete { key: key_of(key) },
        }
    }
}

// The key of a number's eight bytes, from the highest down.
fn key_of(number: u64) -> Key
    ensures { result ≡ key_of_number number }
{
    key_law();
    Key::of_number(number)
}
