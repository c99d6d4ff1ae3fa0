//! The pairs of a map that lie between two keys, one by one.

ghost use Rattle.std.specs.Prelude.{◌≡◌};
ghost use Rattle.std.specs.Iterator.{YieldsFirst, item_count};

use crate::ordered_key::OrderedKey;
use ib_map::Key;
use std::collections::btree_map::Range;
use std::marker::Model;

/// The pairs of a sorted map that lie between two keys, in order. Contracts see the pairs that are left.
#[derive(Drop)]
pub struct Between<'a> {
    pairs: Range<'a, OrderedKey, u64>,
}

impl<'a> Model for Between<'a> {
    ghost use Rattle.ib_map.specs.Pairs.{Pairs};

    ghost Value = { Pairs };

    ghost view = { λ b. b.pairs };
}

impl<'a> Between<'a> {
    pub(crate) fn new(pairs: Range<'a, OrderedKey, u64>) -> Self
        ensures { result ≡ pairs.entry }
    {
        Between { pairs }
    }
}

impl<'a> Iterator for Between<'a> {
    type Item = (Key, u64);

    ghost next_gives = { YieldsFirst (λ pairs. pairs) };

    ghost remaining = { item_count (λ pairs. pairs) };

    fn next(&mut self) -> Option<(Key, u64)> {
        let (key, value) = self.pairs.next()?;
        Some((key.key(), *value))
    }
}
