//! What sessions share.

use ib_index::Index;
use ib_latch::NoSleep;

/// The latches and pages of one tree, where nobody sleeps inside a call.
pub(crate) type Table = Index<NoSleep>;
