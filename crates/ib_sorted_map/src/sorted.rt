//! The sorted map as a search tree.

ghost use Rattle.std.specs.Prelude.{◌≡◌, [], Some, None, length, OnOk, IfOk};
ghost use Rattle.ib_map.specs.Pairs.{put, value_at, cut};
ghost use Rattle.ib_map.specs.Map.{IsMap};
ghost use Rattle.ib_map.specs.Changes.{HasInserted, HasDeleted};

use crate::between::Between;
use crate::ordered_key::OrderedKey;
use ib_map::{Key, MapFault, OutOfMemory, PlainMap, is_below};
use std::alloc::{AllocError, Global};
use std::collections::BTreeMap;
use std::marker::Model;

/// The sorted map as a search tree: an insert and a delete go down the tree, where those of a `PlainMap` move every
/// pair behind the key. Contracts see the pairs, as those of a `PlainMap` do.
#[derive(Drop)]
pub struct SortedMap {
    pairs: BTreeMap<OrderedKey, u64, Global>,
}

impl Model for SortedMap {
    ghost use Rattle.ib_map.specs.Map.{IsMap};
    ghost use Rattle.ib_map.specs.Pairs.{Pairs};

    ghost Value = { Pairs };

    ghost view = { λ m. m.pairs.entries };

    ghost invariant = { λ m. IsMap m.pairs.entries };
}

impl SortedMap {
    /// The empty map. It takes no memory.
    pub fn new(alloc: Global) -> Self
        ensures { result ≡ [] }
    {
        SortedMap {
            pairs: BTreeMap::new(alloc),
        }
    }

    /// How many keys the map has.
    pub fn len(&self) -> usize
        ensures count { result ≡ length self.now }
        ensures ascends { IsMap self.now }
    {
        self.pairs.len()
    }

    /// The value of the key, where the key is there.
    pub fn get(&self, key: Key) -> Option<u64>
        ensures value { result ≡ value_at key self.now }
        ensures ascends { IsMap self.now }
    {
        match self.pairs.get(&OrderedKey::new(key)) {
            Some(value) => Some(*value),
            None => None,
        }
    }

    /// Puts a pair in. Refused as `Duplicate` exactly where the key is there.
    pub fn insert(&mut self, key: Key, value: u64) -> Result<(), MapFault>
        ensures { HasInserted self.old self.new key value result }
    {
        let key = OrderedKey::new(key);
        if self.pairs.contains_key(&key) {
            return Err(MapFault::Duplicate);
        }
        match self.pairs.insert(key, value) {
            Ok(_) => Ok(()),
            Err(_) => Err(MapFault::OutOfMemory),
        }
    }

    /// Takes a key out, and gives its value. Refused as `Missing` exactly where the key is not there,
    /// and for no other reason.
    pub fn delete(&mut self, key: Key) -> Result<u64, MapFault>
        ensures { HasDeleted self.old self.new key result }
    {
        match self.pairs.remove(&OrderedKey::new(key)) {
            Some(value) => Ok(value),
            None => Err(MapFault::Missing),
        }
    }

    /// The pairs from `low` to `high`, both included, in order: none where `low` is above `high`.
    pub fn range(&self, low: Key, high: Key) -> Between<'_>
        ensures pairs { result ≡ cut self.now low high }
        ensures ascends { IsMap self.now }
    {
        let (low_key, high_key) = (OrderedKey::new(low), OrderedKey::new(high));
        if is_below(high, low) {
            // The tree takes no range that ends before it begins.
            return Between::new(self.pairs.range(low_key..low_key));
        }
        Between::new(self.pairs.range(low_key..=high_key))
    }

    /// The same map as a plain list of pairs, put in from the lowest key on. Refused only for want of memory.
    pub fn to_plain(&self, alloc: Global) -> Result<PlainMap, OutOfMemory>
        ensures { IfOk result (λ plain. plain ≡ self.now) }
    {
        let mut plain = PlainMap::new(alloc);
        for (key, value) in &self.pairs {
            put_last(&mut plain, key.key(), *value)?;
        }
        Ok(plain)
    }
}

// Puts a pair in whose key is not there.
fn put_last(map: &mut PlainMap, key: Key, value: u64) -> Result<(), OutOfMemory>
    ensures { OnOk result (map.new ≡ put key value map.old) }
{
    match map.insert(key, value) {
        Ok(()) => Ok(()),
        Err(_) => Err(AllocError),
    }
}
