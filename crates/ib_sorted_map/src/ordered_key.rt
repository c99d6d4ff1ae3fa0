//! A key with the order of keys as its order.

ghost use Rattle.std.specs.Prelude.{◌≡◌};
ghost use Rattle.std.specs.Ordering.{nat_cmp, on, eq_by_cmp, as_partial_cmp};
ghost use Rattle.std.specs.Cmp.Rules.{comparing};
ghost use borrow.Author.Rules.{rules};
ghost use Rattle.ib_map.specs.Keys.{rank};

use ib_map::{Key, is_below, is_same};
use std::cmp::Ordering;
use std::marker::Model;

// A key, which a search tree compares by the order of keys.
#[derive(Clone, Copy)]
pub(crate) struct OrderedKey {
    key: Key,
}

impl Model for OrderedKey {
    ghost use Rattle.ib_map.specs.Keys.{MapKey};

    ghost Value = { MapKey };

    ghost view = { λ k. k.key };

    ghost inverse = { λ key. record { key = key } };
}

impl OrderedKey {
    pub(crate) fn new(key: Key) -> Self
        ensures { result ≡ key }
    {
        OrderedKey { key }
    }

    pub(crate) fn key(self) -> Key
        ensures { result ≡ self }
    {
        self.key
    }
}

impl PartialEq for OrderedKey {
    ghost eq = { eq_by_cmp (on rank nat_cmp) };

    ghost laws = { Prim.search (comparing, rules) };

    fn eq(&self, other: &OrderedKey) -> bool {
        is_same(self.key, other.key)
    }
}

impl Eq for OrderedKey {
    ghost laws = { Prim.search (comparing, rules) };
}

impl PartialOrd for OrderedKey {
    ghost partial_cmp = { as_partial_cmp (on rank nat_cmp) };

    ghost laws = { Prim.search (comparing, rules) };

    fn partial_cmp(&self, other: &OrderedKey) -> Option<Ordering> {
        Some(self.cmp(other))
    }
}

impl Ord for OrderedKey {
    ghost cmp = { on rank nat_cmp };

    ghost total = { Prim.search (comparing, rules) };

    ghost matches_partial_cmp = { Prim.search (comparing, rules) };

    ghost matches_eq = { Prim.search (comparing, rules) };

    fn cmp(&self, other: &OrderedKey) -> Ordering {
        if is_below(self.key, other.key) {
            return Ordering::Less;
        }
        if is_same(self.key, other.key) {
            return Ordering::Equal;
        }
        Ordering::Greater
    }
}
