//! A key of given bytes.

use ib_map::Key;
use std::process::Abort;

// The key of these bytes.
pub(crate) fn key(rt: &impl Abort, bytes: &[u8]) -> Key {
    Key::from_bytes(bytes).expect(rt, "it is a key")
}
