//! Maps to values that join.

ghost use Rattle.std.specs.Prelude.{◌≡◌, ◌<◌, ◌^◌, ◌↔◌, [], Some, None, IfNone, IfSome, IsSome};
ghost use Rattle.std.specs.Prelude.{IsTrue, OnOk, OnErr, length, slice_get};
ghost use Rattle.std.specs.Fn.{FnOnceReturnsAtMut};
ghost use Rattle.std.specs.Borrow.{MutBor};
ghost use Rattle.std.specs.Option.{option_copied, option_map};
ghost use Rattle.lattice_laws.specs.Map.{stored_at, ChangesOnly, IsMap, JoinsAll, KeepsOtherKeys};
ghost use Rattle.lattice_laws.specs.Map.{MayBeStored, RaisesOnly};

use crate::join::Join;
use held_keys::Held;
use std::alloc::{AllocError, Global};
use std::collections::BTreeMap;
use std::collections::btree_map::Iter;
use std::marker::Model;

// How many keys of another map are joined in place: each stands on the stack until those after it
// are in.
const MOST_IN_PLACE: usize = 256;

/// A value for each key, joined key by key. It has the bottom at an absent key, and stores none.
#[derive(Debug, Drop)]
pub struct MapOf<K: Held, J: Join> {
    map: BTreeMap<K, J>,
}

impl<K: Held, J: Join> Model for MapOf<K, J> {
    ghost use Rattle.std.specs.Prelude.{List};
    ghost use Rattle.lattice_laws.specs.Map.{IsMap};

    ghost Value = { List (K × J) };

    ghost view = { λ m. m.map.entries };

    ghost invariant = { λ m. IsMap K.cmp J.admitted J.order J.bottom m.map.entries };
}

impl<K: Held, J: Join> MapOf<K, J> {
    /// The map without keys. It takes no memory.
    pub fn new(alloc: Global) -> Self
        ensures { result ≡ [] }
    {
        MapOf {
            map: BTreeMap::new(alloc),
        }
    }

    /// The value at a key, if it isn't the bottom. A look-up compares about as many keys as the
    /// number of keys has bits.
    pub fn get(&self, key: &K) -> Option<&J>
        ensures value { option_copied result ≡ stored_at K.cmp self.now key.now }
        ensures stored { IfSome result (λ value. ¬ J.order value.now J.bottom) }
    {
        self.map.get(key)
    }

    /// How many keys have a value.
    pub fn len(&self) -> usize
        ensures value { result ≡ length self.now }
        ensures small { result < 2 ^ 63 }
    {
        self.map.len()
    }

    /// Whether no key has a value.
    pub fn is_empty(&self) -> bool
        ensures { IsTrue result ↔ (self.now ≡ []) }
    {
        self.len() == 0
    }

    /// The keys and their values, in the order of the keys.
    pub fn iter(&self) -> Iter<'_, K, J>
        ensures rest { result ≡ self.now }
        ensures is_map { IsMap K.cmp J.admitted J.order J.bottom self.now }
    {
        self.map.iter()
    }

    /// The key and the value at a place in that order. It goes over the keys before it.
    pub fn at(&self, index: usize) -> Option<(&K, &J)>
        ensures { option_map (λ e. (e.0.now, e.1.now)) result ≡ slice_get self.now index }
    {
        self.map.iter().nth(index)
    }

    /// Changes the value at a key in place, and answers what the change answers. At a key without a
    /// value it answers `None`, and nothing changes. Where the change leaves the bottom, the key
    /// has no value any more.
    pub fn change<R, F: FnOnce(&mut J) -> R>(&mut self, key: &K, change: F) -> Option<R>
        requires { (value : MutBor J)
            → stored_at K.cmp self.old key.now ≡ Some value.now → F.pre change value }
        ensures found { IsSome result ↔ IsSome (stored_at K.cmp self.old key.now) }
        ensures changed { IfSome result (ChangesOnly K.cmp J.admitted J.order J.bottom
            (FnOnceReturnsAtMut F.FnOnce change) self.old self.new key.now) }
        ensures absent { IfNone result (self.new ≡ self.old) }
    {
        let value = self.map.get_mut(key)?;
        let answer = change(value);
        if value.is_bottom() {
            self.map.remove(key);
        }
        Some(answer)
    }

    /// Joins another value into the one at a key, in place. Where memory is refused, all stays as
    /// it was.
    pub fn raise(&mut self, alloc: Global, key: K, value: J) -> Result<(), AllocError>
        ensures ok { OnOk result
            (RaisesOnly K.cmp J.admitted J.order J.bottom self.old self.new key value) }
        ensures err { OnErr result (self.new ≡ self.old) }
    {
        match self.map.get_mut(&key) {
            Some(held) => held.join_in(alloc, value)?,
            None => {
                if !value.is_bottom() {
                    self.map.insert(key, value)?;
                }
            }
        }
        Ok(())
    }

    // Writes over the value at a key that has one.
    fn replace(&mut self, key: &K, value: J)
        requires found { IsSome (stored_at K.cmp self.old key.now) }
        requires stored { MayBeStored K.cmp J.admitted J.order J.bottom value }
        ensures this_key { stored_at K.cmp self.new key.now ≡ Some value }
        ensures other_keys { KeepsOtherKeys K.cmp self.old self.new key.now }
        ensures is_map { IsMap K.cmp J.admitted J.order J.bottom self.new }
    {
        if let Some(held) = self.map.get_mut(key) {
            *held = value;
        }
    }

    // Joins each value of the other map into the one at its key. A value that grows is joined
    // beside the old one while others are still to come, and a new key leaves again where one of
    // those is refused. It calls itself for each key, so the stack bounds how many there may be. A
    // look at the field tells the proof what holds of every map.
    fn take_in(&mut self, alloc: Global, mut other: Self) -> Result<(), AllocError>
        ensures ok { OnOk result
            (JoinsAll K.cmp J.admitted J.order J.bottom self.old other self.new) }
        ensures err { OnErr result (self.new ≡ self.old) }
    {
        let _ = &self.map;
        let Some((key, value)) = other.map.pop_first() else {
            return Ok(());
        };
        if other.map.is_empty() {
            self.raise(alloc, key, value)?;
            let _ = &self.map;
            return Ok(());
        }
        match self.map.get(&key) {
            Some(held) => {
                if value.below(held) {
                    self.take_in(alloc, other)?;
                    return Ok(());
                }
                let joined = held.joined(alloc, &value)?;
                self.take_in(alloc, other)?;
                self.replace(&key, joined);
            }
            None => {
                let taken = key.copied(alloc)?;
                self.map.insert(key, value)?;
                if let Err(refused) = self.take_in(alloc, other) {
                    self.map.remove(&taken);
                    return Err(refused);
                }
            }
        }
        Ok(())
    }

    // Raises each key by what the other map has there. After an error some keys are raised.
    fn raise_all(&mut self, alloc: Global, other: &Self) -> Result<(), AllocError>
        ensures { OnOk result
            (JoinsAll K.cmp J.admitted J.order J.bottom self.old other.now self.new) }
    {
        let _ = &self.map;
        for (key, value) in other.map.iter() {
            let key = key.copied(alloc)?;
            let value = value.copied(alloc)?;
            self.raise(alloc, key, value)?;
        }
        let _ = &self.map;
        Ok(())
    }
}

impl<K: Held, J: Join> Join for MapOf<K, J> {
    ghost use Rattle.lattice_laws.specs.Map.{MapOrder, map_order};

    ghost admitted = { IsMap K.cmp J.admitted J.order J.bottom };

    ghost order = { MapOrder K.cmp J.order J.bottom };

    ghost bottom = { [] };

    ghost laws = { map_order K.cmp J.laws };

    fn joined(&self, alloc: Global, other: &Self) -> Result<Self, AllocError> {
        let mut both = self.copied(alloc)?;
        both.raise_all(alloc, other)?;
        Ok(both)
    }

    fn below(&self, other: &Self) -> bool {
        for (key, value) in self.map.iter() {
            let is_below = match other.map.get(key) {
                Some(held) => value.below(held),
                None => false,
            };
            if !is_below {
                return false;
            }
        }
        true
    }

    fn is_bottom(&self) -> bool {
        self.map.is_empty()
    }

    fn copied(&self, alloc: Global) -> Result<Self, AllocError> {
        let mut copy = MapOf::new(alloc);
        copy.raise_all(alloc, self)?;
        Ok(copy)
    }

    /// Up to 256 keys are joined in place; with more, the joined map takes this one's place.
    fn join_in(&mut self, alloc: Global, other: Self) -> Result<(), AllocError> {
        if other.map.len() > MOST_IN_PLACE {
            *self = self.joined(alloc, &other)?;
            return Ok(());
        }
        self.take_in(alloc, other)
    }
}
