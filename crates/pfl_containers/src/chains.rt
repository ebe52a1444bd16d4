//! Lists linked in both directions by slot numbers, in room that was made at once and is touched only as slots come into use.

mod rings;

ghost use Rattle.std.specs.Prelude.{ℕ, ◌≡◌, ◌↔◌, ◌+◌, ◌<◌, ◌≤◌, ◌^◌, [], ◌∷◌, ◌++◌, IfOk, IfSome, IsNone, IsTrue, length, map, replicate, vec_capacity};
ghost use Rattle.std.specs.Option.{option_copied};
ghost use Rattle.pfl_containers.specs.Lists.{AreLists, Place, Gap, StandsIn, link, value_of, links_of, with_links, count_of, first_slot, last_slot};
ghost use Rattle.pfl_containers.specs.inner.Rings.{HasRoom, Takes, Fits, node_of, slot_of};

use crate::chains::rings::Rings;
use pfl_edits::{InOrder, NoMemory};
use std::alloc::Allocator;
use std::marker::Model;

/// Several lists of links, with room for a number of links together. All room is made by `new`, and touched as slots come into use.
///
/// A link stands at a slot, whose number stays the same until the link is removed.
#[derive(Drop)]
pub struct Chains<V: Copy, A: Allocator> {
    lists: usize,
    len: usize,
    rings: Rings<A>,
    values: Vec<V, A>,
}

impl<V: Copy, A: Allocator> Model for Chains<V, A> {
    ghost use Rattle.std.specs.Prelude.{suc, length, vec_capacity};
    ghost use Rattle.pfl_containers.specs.Lists.{Lists};

    ghost Value = { Lists V };

    ghost use Rattle.pfl_containers.specs.inner.Rings.{Fits, IsKept, node_of, rings_from};

    ghost view = { λ c. record { lists = rings_from (node_of c.rings) c.values.items (suc c.rings.limit) c.lists; limit = c.rings.limit } };

    ghost invariant = { λ c. IsKept (node_of c.rings) c.values.items c.rings.limit c.lists c.len
        × Fits c.rings (length c.values.items) (vec_capacity c.values) c.lists };
}

impl<V: Copy, A: Allocator + Copy> Chains<V, A> {
    /// `lists` lists, each empty, and room for `limit` links.
    pub fn new(alloc: A, lists: usize, limit: usize) -> Result<Self, NoMemory>
        requires few { limit + lists < 2 ^ 32 }
        ensures limit { IfOk result (λ c. c.limit ≡ limit) }
        ensures empty { IfOk result (λ c. c.lists ≡ replicate lists []) }
    {
        let values = Vec::with_capacity(alloc, limit)?;
        let rings = Rings::new(alloc, limit, lists + 1)?;
        Ok(Chains {
            lists,
            len: 0,
            rings,
            values,
        })
    }
}

impl<V: Copy, A: Allocator> Chains<V, A> {
    /// How many links the lists have together.
    #[inline]
    pub fn len(&self) -> usize
        ensures links { result ≡ count_of self.now.lists }
    {
        self.len
    }

    /// For how many links there is room.
    #[inline]
    pub fn limit(&self) -> usize
        ensures limit { result ≡ self.now.limit }
    {
        self.rings.limit
    }

    /// The lists have no link.
    #[inline]
    pub fn is_empty(&self) -> bool
        ensures none { IsTrue result ↔ (count_of self.now.lists ≡ 0) }
    {
        self.len == 0
    }

    /// There is no room for another link.
    #[inline]
    pub fn is_full(&self) -> bool
        ensures full { IsTrue result ↔ (self.now.limit ≤ count_of self.now.lists) }
    {
        self.len >= self.rings.limit
    }

    /// How many lists there are.
    #[inline]
    pub fn lists(&self) -> usize
        ensures lists { result ≡ length self.now.lists }
    {
        self.lists
    }

    /// The list in which a slot stands, and the value that it has. None for a slot that stands in no list.
    #[inline]
    pub fn get(&self, slot: usize) -> Option<(usize, V)>
        ensures found { IfSome result (λ found. StandsIn self.now slot found.0 found.1) }
        ensures free { IsNone result → Place self.now slot → ⊥ }
    {
        if slot >= self.values.len() {
            return None;
        }
        let ring = self.rings.node(slot).ring as usize;
        if ring == 0 {
            return None;
        }
        Some((ring - 1, self.values[slot]))
    }

    /// The value at a slot, where it is kept. None for a slot that stands in no list.
    pub fn try_at(&self, slot: usize) -> Option<&V>
        ensures found { IfSome (option_copied result) (λ value. (at : Place self.now slot) × (at.value ≡ value)) }
        ensures free { IsNone result → Place self.now slot → ⊥ }
    {
        if slot >= self.values.len() {
            return None;
        }
        if self.rings.node(slot).ring == 0 {
            return None;
        }
        Some(&self.values[slot])
    }

    /// The value at a slot that stands in a list.
    #[inline]
    pub fn value(&self, slot: usize) -> V
        requires stands { Place self.now slot }
        ensures value { (at : Place self.now slot) → result ≡ at.value }
    {
        self.values[slot]
    }

    /// The value at a slot that stands in a list, where it is kept.
    #[inline]
    pub fn at(&self, slot: usize) -> &V
        requires stands { Place self.now slot }
        ensures value { (at : Place self.now slot) → result.now ≡ at.value }
    {
        &self.values[slot]
    }

    /// The values of a list, from its first link to its last.
    #[inline]
    pub fn iter(&self, list: usize) -> InOrder<'_, V>
        requires list { list < length self.now.lists }
        ensures values { result ≡ map value_of (links_of self.now list) }
    {
        let first = self.rings.node(self.rings.limit + 1 + list).next as usize;
        InOrder::linked(&self.rings.nodes, &self.values, first, self.values.len())
    }

    /// The slot of a list's first link.
    #[inline]
    pub fn first(&self, list: usize) -> Option<usize>
        requires list { list < length self.now.lists }
        ensures first { result ≡ first_slot (links_of self.now list) }
    {
        let head = self.rings.limit + 1 + list;
        slot_at(self.rings.node(head).next, self.rings.limit)
    }

    /// The slot of a list's last link.
    #[inline]
    pub fn last(&self, list: usize) -> Option<usize>
        requires list { list < length self.now.lists }
        ensures last { result ≡ last_slot (links_of self.now list) }
    {
        let head = self.rings.limit + 1 + list;
        slot_at(self.rings.node(head).previous, self.rings.limit)
    }

    /// The slot after a slot, in the list where that stands.
    #[inline]
    pub fn next(&self, slot: usize) -> Option<usize>
        requires stands { Place self.now slot }
        ensures next { (at : Place self.now slot) → result ≡ first_slot at.back }
    {
        slot_at(self.rings.node(slot).next, self.rings.limit)
    }

    /// The slot before a slot, in the list where that stands.
    #[inline]
    pub fn previous(&self, slot: usize) -> Option<usize>
        requires stands { Place self.now slot }
        ensures previous { (at : Place self.now slot) → result ≡ last_slot at.front }
    {
        slot_at(self.rings.node(slot).previous, self.rings.limit)
    }

    /// Puts a link after the one at a slot, or with None in front of a list's first link. Returns its slot, which no list had.
    pub fn insert_after(&mut self, list: usize, behind: Option<usize>, value: V) -> usize
        requires list { list < length self.old.lists }
        requires gap { Gap self.old list behind }
        requires room { count_of self.old.lists < self.old.limit }
        ensures inserted { (gap : Gap self.old list behind) → self.new ≡ with_links self.old list (gap.front ++ link result value ∷ gap.back) }
        ensures fresh { Place self.old result → ⊥ }
    {
        let head = self.rings.limit + 1 + list;
        let slot = take_slot(&mut self.rings, &mut self.values, value);
        let place = behind.unwrap_or(head);
        self.rings.insert(list as u32 + 1, slot, place);
        self.len += 1;
        slot
    }

    /// Takes the link at a slot out of its list. The other links keep their order and their slots.
    pub fn remove(&mut self, slot: usize) -> V
        requires stands { Place self.old slot }
        ensures removed { (at : Place self.old slot) → self.new ≡ with_links self.old at.list (at.front ++ at.back) }
        ensures value { (at : Place self.old slot) → result ≡ at.value }
        ensures freed { Place self.new slot → ⊥ }
    {
        let free = self.rings.limit;
        self.rings.unlink(slot);
        self.rings.insert(0, slot, free);
        self.len -= 1;
        self.values[slot]
    }

    /// Writes another value at a slot that stands in a list.
    #[inline]
    pub fn change(&mut self, slot: usize, value: V)
        requires stands { Place self.old slot }
        ensures changed { (at : Place self.old slot) → self.new ≡ with_links self.old at.list (at.front ++ link slot value ∷ at.back) }
    {
        self.values[slot] = value;
    }

    /// What is true of all lists.
    pub fn known(&self)
        ensures lists { AreLists self.now }
    {
        let _ = &self.rings.limit;
    }
}

impl<V: Copy, A: Allocator + Copy> Chains<V, A> {
    /// The same lists, with room of their own.
    pub fn copy(&self) -> Result<Self, NoMemory>
        ensures same { IfOk result (λ copied. copied ≡ self.now) }
    {
        let rings = self.rings.copy()?;
        let mut values = Vec::with_capacity(*self.values.allocator(), self.rings.limit)?;
        values.extend_from_slice(&self.values)?;
        Ok(Chains {
            lists: self.lists,
            len: self.len,
            rings,
            values,
        })
    }
}

/// The slot that a node is. The heads of lists are none.
#[inline]
fn slot_at(node: u32, limit: usize) -> Option<usize>
    ensures slot { result ≡ slot_of limit node }
{
    let slot = node as usize;
    if slot < limit { Some(slot) } else { None }
}

/// Takes a slot that stands in no list, and writes a value there: the last that was given back, or else the next that was never used.
fn take_slot<V: Copy, A: Allocator>(rings: &mut Rings<A>, values: &mut Vec<V, A>, value: V) -> usize
    requires room { (room : HasRoom (node_of rings.old) values.old.items rings.old.limit)
        × Fits rings.old (length values.old.items) (vec_capacity values.old) room.lists }
    ensures taken { (room : HasRoom (node_of rings.old) values.old.items rings.old.limit)
        → Takes (node_of rings.old) (node_of rings.new) values.old.items values.new.items rings.old.limit room.lists result value }
    ensures fits { (lists : ℕ) → Fits rings.old (length values.old.items) (vec_capacity values.old) lists
        → Fits rings.new (length values.new.items) (vec_capacity values.new) lists }
    ensures limit { rings.new.limit ≡ rings.old.limit }
{
    let slot = rings.node(rings.limit).next as usize;
    if slot == rings.limit {
        values.push(value).unwrap();
        return rings.grow();
    }
    rings.unlink(slot);
    values[slot] = value;
    slot
}
