//! Requests in the order in which they were listed, found by their names.
ghost use Rattle.std.specs.Prelude.{◌≡◌, ◌≤◌, ◌<◌, [], IfOk, length, take};
ghost use Rattle.std.specs.VecDeque.Iter.{deque_iter_rest};
ghost use Rattle.std.specs.List.{IsDistinct, insert, list_any, remove};
ghost use Rattle.pfl_base.specs.Names.{is_name};
ghost use Rattle.pfl_edits.specs.Places.{StandsAt, with_position};

use crate::lists::{copied, first, in_order};
use pfl_base::StateName;
use pfl_containers::{ByName, MOST_SLOTS, OrderedMap};
use pfl_edits::{InOrder, NoMemory};
use std::alloc::Allocator;
use std::collections::VecDeque;
use std::collections::vec_deque::Iter;
use std::marker::Model;

/// The names that are asked for, in the order in which they were listed, and a map of them, by which one is found in
/// time in the logarithm of their number. Positions change, so the map keeps none. All room is made by `new` and by
/// `copy`.
#[derive(Drop)]
pub(crate) struct Requests<A: Allocator> {
    listed: VecDeque<StateName, A>,
    names: OrderedMap<ByName, (), A>,
}

impl<A: Allocator> Model for Requests<A> {
    ghost use Rattle.std.specs.VecDeque.{deque_capacity};
    ghost use Rattle.pfl_queue.specs.inner.Asked.{Asked, AreAsked};

    ghost Value = { Asked };

    ghost view = { λ r. record { listed = r.listed.items; limit = r.names.limit } };

    ghost invariant = { λ r. AreAsked r.listed.items (deque_capacity r.listed) r.names };
}

impl<A: Allocator + Copy> Requests<A> {
    /// No requests, and room for `limit` of them. There is no memory for more than 2³⁰.
    pub(crate) fn new(alloc: A, limit: usize) -> Result<Self, NoMemory>
        ensures limit { IfOk result (λ r. r.limit ≡ limit) }
        ensures empty { IfOk result (λ r. r.listed ≡ []) }
    {
        if limit > MOST_SLOTS {
            return Err(NoMemory);
        }
        let names = OrderedMap::new(alloc, limit)?;
        let listed = VecDeque::with_capacity(alloc, limit)?;
        Ok(Requests { listed, names })
    }

    /// The same requests, with room of their own.
    pub(crate) fn copy(&self) -> Result<Self, NoMemory>
        ensures same { IfOk result (λ r. r ≡ self.now) }
    {
        let alloc = *self.listed.allocator();
        let listed = copied(alloc, &self.listed, self.names.limit())?;
        let names = self.names.copy()?;
        Ok(Requests { listed, names })
    }
}

impl<A: Allocator> Requests<A> {
    /// How many requests there are.
    #[inline]
    pub(crate) fn len(&self) -> usize
        ensures many { result ≡ length self.now.listed }
    {
        self.listed.len()
    }

    /// The requests, in the order in which they were listed.
    #[inline]
    pub(crate) fn iter(&self) -> InOrder<'_, StateName>
        ensures requests { result ≡ self.now.listed }
    {
        in_order(&self.listed)
    }

    /// The first `most` requests, or all where there are fewer.
    pub(crate) fn first(&self, most: usize) -> Iter<'_, StateName>
        ensures first { deque_iter_rest result ≡ take most self.now.listed }
    {
        first(&self.listed, most)
    }

    /// The name is asked for.
    #[inline]
    pub(crate) fn contains(&self, name: StateName) -> bool
        ensures contains { result ≡ list_any (is_name name) self.now.listed }
    {
        self.names.get(ByName(name)).is_some()
    }

    /// Changes what stands at a position, in room that was made. None means that the entry is absent, and those after it
    /// move by one.
    pub(crate) fn set(
        &mut self,
        position: usize,
        before: Option<StateName>,
        after: Option<StateName>,
    )
        requires stands { StandsAt self.old.listed position before }
        requires room { length (with_position self.old.listed position before after) ≤ self.old.limit }
        requires once { IsDistinct is_name (with_position self.old.listed position before after) }
        ensures listed { self.new.listed ≡ with_position self.old.listed position before after }
        ensures limit { self.new.limit ≡ self.old.limit }
    {
        match (before, after) {
            (None, None) => {}
            (None, Some(name)) => self.insert(position, name),
            (Some(_), None) => self.remove(position),
            (Some(_), Some(name)) => {
                self.remove(position);
                self.insert(position, name);
            }
        }
    }

    /// Lists a name at a position, in room that was made.
    fn insert(&mut self, position: usize, name: StateName)
        requires within { position ≤ length self.old.listed }
        requires room { length self.old.listed < self.old.limit }
        requires once { IsDistinct is_name (insert self.old.listed position name) }
        ensures listed { self.new.listed ≡ insert self.old.listed position name }
        ensures limit { self.new.limit ≡ self.old.limit }
    {
        self.listed.insert(position, name).unwrap();
        self.names.insert(ByName(name), ());
    }

    /// Takes what stands at a position out, if anything does.
    pub(crate) fn remove(&mut self, position: usize)
        ensures listed { self.new.listed ≡ remove self.old.listed position }
        ensures limit { self.new.limit ≡ self.old.limit }
    {
        if let Some(name) = self.listed.remove(position) {
            self.names.remove(ByName(name));
        }
    }
}
