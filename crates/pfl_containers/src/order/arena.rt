//! Nodes in room that was made at once: a tree in the order of the keys, and the places that are free.
ghost use Rattle.std.specs.Prelude.{◌<◌, ◌^◌, [], IfOk};
ghost use Rattle.pfl_containers.specs.inner.Arenas.{Stores, IsArena, HasRoom, TakesPlace, Locates, Changes, Gains, Loses, Copies};

use crate::order::changes::{Grown, Remaining, inserted, removed, without_first};
use crate::order::node::{NO_PLACE, Node, node_at, put};
use crate::order::ordered::Ordered;
use crate::order::search::found;
use pfl_edits::NoMemory;
use std::alloc::Allocator;

/// The nodes of a tree, and of a second one of the free places, whose left sides are empty.
#[derive(Drop)]
pub(crate) struct Arena<K: Ordered, V: Copy, A: Allocator> {
    pub(crate) nodes: Vec<Node<K, V>, A>,
    pub(crate) root: u32,
    pub(crate) free: u32,
    pub(crate) len: usize,
}

impl<K: Ordered, V: Copy, A: Allocator> Arena<K, V, A> {
    /// No entries, and room for `limit` of them.
    pub(crate) fn new(alloc: A, limit: usize) -> Result<Self, NoMemory>
        requires places { limit < 2 ^ 32 }
        ensures stores { IfOk result (λ a. Stores K.order limit a []) }
    {
        let nodes = Vec::with_capacity(alloc, limit)?;
        Ok(Arena {
            nodes,
            root: NO_PLACE,
            free: NO_PLACE,
            len: 0,
        })
    }

    /// The node with the key, and its place.
    pub(crate) fn find(&self, key: K) -> Option<(u32, Node<K, V>)>
        ensures locates { Locates K.order self.now key result }
    {
        let Some(place) = found(&self.nodes, self.root, key, self.len) else {
            return None;
        };
        let Some(node) = node_at(&self.nodes, place) else {
            return None;
        };
        Some((place, *node))
    }

    /// Puts a new value into the node that stands at a place.
    pub(crate) fn change(&mut self, place: u32, node: Node<K, V>, value: V)
        ensures changes { Changes K.order self.old self.new place node value }
    {
        put(&mut self.nodes, place, Node { value, ..node });
    }

    /// Takes the entry of a key out and returns its value. The place of its node is free then.
    pub(crate) fn remove(&mut self, key: K) -> Option<V>
        requires stored { IsArena K.order self.old }
        ensures loses { Loses K.order self.old self.new key result }
    {
        let nodes = self.nodes.as_mut_slice();
        let Remaining { link, taken } = removed(nodes, self.root, &key, self.len);
        self.root = link;
        let Some(taken) = taken else {
            return None;
        };
        let freed = Node {
            key,
            value: taken.value,
            left: NO_PLACE,
            right: self.free,
            height: 0,
        };
        put(nodes, taken.place, freed);
        self.free = taken.place;
        self.len -= 1;
        Some(taken.value)
    }

    /// Puts an entry in where there is room for one more, and returns what stood under its key.
    pub(crate) fn insert(&mut self, key: K, value: V) -> Option<V>
        requires room { HasRoom K.order self.old }
        ensures gains { Gains K.order self.old self.new key value result }
    {
        let item = Node {
            key,
            value,
            left: NO_PLACE,
            right: NO_PLACE,
            height: 1,
        };
        let place = self.take_place(item);
        let Grown { link, former } = inserted(&mut self.nodes, self.root, place, &item, self.len);
        self.root = link;
        match former {
            Some(value) => {
                let right = self.free;
                put(&mut self.nodes, place, Node { right, ..item });
                self.free = place;
                Some(value)
            }
            None => {
                self.len += 1;
                None
            }
        }
    }

    /// A place that was free, or a new one, at which any node may stand.
    fn take_place(&mut self, item: Node<K, V>) -> u32
        requires room { HasRoom K.order self.old }
        ensures takes { TakesPlace K.order self.old self.new result }
    {
        let steps = self.nodes.len();
        match without_first(&mut self.nodes, self.free, steps) {
            Some(first) => {
                self.free = first.rest;
                first.place
            }
            None => {
                self.nodes.push_reserved(item);
                steps as u32
            }
        }
    }
}

impl<K: Ordered, V: Copy, A: Allocator + Copy> Arena<K, V, A> {
    /// The same entries, with room of their own for `limit` of them.
    pub(crate) fn copy(&self, limit: usize) -> Result<Self, NoMemory>
        ensures copies { IfOk result (Copies K.order limit self.now) }
    {
        let mut nodes = Vec::with_capacity(*self.nodes.allocator(), limit)?;
        nodes.extend_from_slice(&self.nodes)?;
        Ok(Arena {
            nodes,
            root: self.root,
            free: self.free,
            len: self.len,
        })
    }
}
