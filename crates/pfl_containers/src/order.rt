//! A map in the order of its keys, in room that is made at once.

mod arena;
mod changes;
pub(crate) mod iter;
mod joins;
mod node;
pub(crate) mod ordered;
mod search;

ghost use Rattle.std.specs.Prelude.{◌≡◌, ◌==◌, ◌<◌, ◌≤◌, ◌-◌, [], IfOk, find, length, slice_get};
ghost use Rattle.std.specs.Ordering.{is_lt};
ghost use Rattle.pfl_edits.specs.Maps as maps;
ghost use Rattle.pfl_edits.specs.Maps.{set_at};
ghost use Rattle.pfl_containers.specs.OrderEntries.{map_of, AreEntries};

use crate::order::arena::Arena;
use crate::order::ordered::Ordered;
use crate::order::search::{first, last, next};
use pfl_edits::NoMemory;
use std::alloc::Allocator;
use std::marker::Model;

/// A map in the order of its keys, whose calls take time in the logarithm of its length. All room is made by `new`.
#[derive(Drop)]
pub struct OrderedMap<K: Ordered, V: Copy, A: Allocator> {
    limit: usize,
    arena: Arena<K, V, A>,
}

impl<K: Ordered, V: Copy, A: Allocator> Model for OrderedMap<K, V, A> {
    ghost use Rattle.pfl_containers.specs.inner.Arenas.{Stores};
    ghost use Rattle.pfl_containers.specs.OrderEntries.{EntryList};
    ghost use Rattle.pfl_containers.specs.inner.Views.{listed};

    ghost Value = { EntryList K V };

    ghost view = { λ m. record { list = listed m.arena; limit = m.limit } };

    ghost invariant = { λ m. Stores K.order m.limit m.arena (listed m.arena) };
}

impl<K: Ordered, V: Copy, A: Allocator> OrderedMap<K, V, A> {
    /// No entries, and room for `limit` of them.
    pub fn new(alloc: A, limit: usize) -> Result<Self, NoMemory>
        ensures limit { IfOk result (λ m. m.limit ≡ limit) }
        ensures empty { IfOk result (λ m. m.list ≡ []) }
    {
        if limit > u32::MAX as usize {
            return Err(NoMemory);
        }
        let arena = Arena::new(alloc, limit)?;
        Ok(OrderedMap { limit, arena })
    }

    /// How many entries there are.
    pub fn len(&self) -> usize
        ensures entries { result ≡ length self.now.list }
        ensures map { result ≡ maps.len (map_of K.order self.now.list) }
    {
        self.arena.len
    }

    /// For how many entries there is room.
    pub fn limit(&self) -> usize
        ensures limit { result ≡ self.now.limit }
    {
        self.limit
    }

    /// There is no room for another entry.
    pub fn is_full(&self) -> bool
        ensures full { result ≡ (length self.now.list == self.now.limit) }
    {
        self.len() == self.limit
    }

    /// The value under a key.
    pub fn get(&self, key: K) -> Option<V>
        ensures found { result ≡ maps.get (map_of K.order self.now.list) key }
    {
        match self.arena.find(key) {
            Some((_place, node)) => Some(node.value),
            None => None,
        }
    }

    /// Sets what stands under a key, in room that was made, and returns what stood there.
    pub fn set(&mut self, key: K, at: Option<V>) -> Option<V>
        requires room { maps.len (set_at (map_of K.order self.old.list) key at) ≤ self.old.limit }
        ensures former { result ≡ maps.get (map_of K.order self.old.list) key }
        ensures map { map_of K.order self.new.list ≡ set_at (map_of K.order self.old.list) key at }
        ensures limit { self.new.limit ≡ self.old.limit }
    {
        let Some(value) = at else {
            return self.arena.remove(key);
        };
        if self.arena.len < self.limit {
            return self.arena.insert(key, value);
        }
        // A full map has the key, since there is room for what stands there afterwards.
        let Some((place, node)) = self.arena.find(key) else {
            return None;
        };
        self.arena.change(place, node, value);
        Some(node.value)
    }

    /// Puts an entry into a map that is not full, and returns what stood under its key.
    pub fn insert(&mut self, key: K, value: V) -> Option<V>
        requires room { maps.len (map_of K.order self.old.list) < self.old.limit }
        ensures former { result ≡ maps.get (map_of K.order self.old.list) key }
        ensures map { map_of K.order self.new.list ≡ maps.insert (map_of K.order self.old.list) key value }
        ensures limit { self.new.limit ≡ self.old.limit }
    {
        self.known();
        self.set(key, Some(value))
    }

    /// Takes what stands under a key out, and returns it.
    pub fn remove(&mut self, key: K) -> Option<V>
        ensures former { result ≡ maps.get (map_of K.order self.old.list) key }
        ensures map { map_of K.order self.new.list ≡ maps.remove (map_of K.order self.old.list) key }
        ensures limit { self.new.limit ≡ self.old.limit }
    {
        self.known();
        self.set(key, None)
    }

    /// The entry with the least key.
    pub fn first(&self) -> Option<(K, V)>
        ensures first { result ≡ slice_get self.now.list 0 }
    {
        first(&self.arena.nodes, self.arena.root, self.arena.len)
    }

    /// The entry with the greatest key.
    pub fn last(&self) -> Option<(K, V)>
        ensures last { result ≡ slice_get self.now.list (length self.now.list - 1) }
    {
        last(&self.arena.nodes, self.arena.root, self.arena.len)
    }

    /// The entry with the least key above this one.
    pub fn after(&self, key: K) -> Option<(K, V)>
        ensures next { result ≡ find (λ e. is_lt (K.order key e.0)) self.now.list }
    {
        next(&self.arena.nodes, self.arena.root, key, self.arena.len)
    }

    /// What is true of each map.
    pub fn known(&self)
        ensures entries { AreEntries K.order self.now }
    {
        let _ = &self.limit;
    }
}

impl<K: Ordered, V: Copy, A: Allocator + Copy> OrderedMap<K, V, A> {
    /// The same map, with room of its own.
    pub fn copy(&self) -> Result<Self, NoMemory>
        ensures same { IfOk result (λ copied. copied ≡ self.now) }
    {
        let arena = self.arena.copy(self.limit)?;
        Ok(OrderedMap {
            limit: self.limit,
            arena,
        })
    }
}
