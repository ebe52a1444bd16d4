//! The order in which rows expire, as they were filed.

ghost use Rattle.std.specs.Prelude.{◌≡◌, ◌<◌, [], IfOk, get_or, nat_lt};
ghost use Rattle.pfl_edits.specs.Maps as maps;
ghost use Rattle.pfl_containers.specs.OrderEntries.{AreEntries, map_of};
ghost use Rattle.pfl_table.specs.inner.Dues.{Files, Unfiles, MayMove, Moves, due_first, entries_of, timed};
ghost use Rattle.pfl_table.specs.inner.Ordering.{expiry_cmp};

use crate::heads::{Head, enter, first_due, leave};
use crate::keys::Expiry;
use crate::row::Row;
use crate::scales::Scales;
use pfl_base::Millis;
use pfl_containers::OrderedMap;
use pfl_edits::{NoMemory, Rows};
use pfl_rules::Adaptive;
use std::alloc::Allocator;
use std::marker::Model;

/// The slots of rows, in the order in which these expire, as they were filed. A row is filed at its last use. It stays there when
/// it is used again, so that the order need not be changed: no row was filed after its last use, and some before it. The first row
/// of each timeout is at hand, since rows of one timeout expire in this order, however timeouts are scaled.
#[derive(Drop)]
pub(crate) struct DueOrder<A: Allocator> {
    order: OrderedMap<Expiry, usize, A>,
    heads: Rows<Head, A>,
    scales: Scales<A>,
    filed: Vec<Millis, A>,
    found: Option<FoundFirst>,
}

/// Which row was found to be due first, for these limits and this number of states. It is dropped when a row comes or goes.
#[derive(Clone, Copy)]
struct FoundFirst {
    adaptive: Adaptive,
    states: usize,
    slot: Option<usize>,
}

impl<A: Allocator> Model for DueOrder<A> {
    ghost use Rattle.std.specs.Prelude.{◌≤◌, IfSome, vec_capacity};
    ghost use Rattle.pfl_table.specs.inner.Dues.{Dues, IsFirst};
    ghost use Rattle.pfl_table.specs.inner.Heads.{AreHeads};

    ghost Value = { Dues };

    ghost view = { λ d. record { list = d.order.list; limit = d.order.limit; filed = d.filed.items } };

    ghost invariant = { λ d. (d.order.limit ≤ vec_capacity d.filed) × AreHeads d.order.list d.order.limit d.heads
        × IfSome d.found (λ f. IsFirst f.adaptive f.states d.order.list f.slot) };
}

impl<A: Allocator + Copy> DueOrder<A> {
    /// No rows, and room for those at `limit` slots.
    pub(crate) fn new(alloc: A, limit: usize) -> Result<Self, NoMemory>
        ensures empty { IfOk result (λ d. d.list ≡ []) }
        ensures limit { IfOk result (λ d. d.limit ≡ limit) }
    {
        let order = OrderedMap::new(alloc, limit)?;
        let heads = Rows::new(alloc, limit)?;
        let scales = Scales::new(alloc, limit)?;
        let filed = Vec::with_capacity(alloc, limit)?;
        Ok(DueOrder {
            order,
            heads,
            scales,
            filed,
            found: None,
        })
    }

    /// The same rows, with room of their own.
    pub(crate) fn copy(&self) -> Result<Self, NoMemory>
        ensures same { IfOk result (λ d. d ≡ self.now) }
    {
        let order = self.order.copy()?;
        let heads = self.heads.copy()?;
        let alloc = *self.filed.allocator();
        let scales = Scales::new(alloc, order.limit())?;
        let mut filed = Vec::with_capacity(alloc, order.limit())?;
        filed.extend_from_slice(&self.filed)?;
        Ok(DueOrder {
            order,
            heads,
            scales,
            filed,
            found: None,
        })
    }
}

impl<A: Allocator> DueOrder<A> {
    /// What is true of its entries.
    pub(crate) fn known(&self)
        ensures entries { AreEntries expiry_cmp (entries_of self.now) }
    {
        self.order.known();
    }

    /// The slot of the row that expires first where timeouts are scaled for this number of states, if no row was used since it was
    /// filed.
    pub(crate) fn first(&self, adaptive: Adaptive, states: usize) -> Option<usize>
        ensures first { result ≡ due_first adaptive states self.now }
    {
        match self.found {
            Some(found) if found.adaptive == adaptive && found.states == states => found.slot,
            _ => self.first_of_heads(adaptive, states),
        }
    }

    /// The same, found among the first rows of all timeouts.
    fn first_of_heads(&self, adaptive: Adaptive, states: usize) -> Option<usize>
        ensures first { result ≡ due_first adaptive states self.now }
    {
        self.order.known();
        let scales = self.scales.for_states(adaptive, states);
        let (_, slot) = first_due(self.heads.as_slice(), scales, adaptive, states)?;
        Some(slot)
    }

    /// Finds which row expires first where timeouts are scaled for this number of states, and keeps that until a row comes or goes,
    /// with what each timeout is scaled to.
    pub(crate) fn find_first(&mut self, adaptive: Adaptive, states: usize)
        ensures same { self.new ≡ self.old }
    {
        self.scales.renew(self.heads.as_slice(), adaptive, states);
        let slot = self.first_of_heads(adaptive, states);
        self.found = Some(FoundFirst {
            adaptive,
            states,
            slot,
        });
    }

    /// When the row at a slot was filed.
    #[inline]
    fn filed_at(&self, slot: usize) -> Millis
        ensures time { result ≡ get_or self.now.filed slot 0 }
    {
        match self.filed.get(slot) {
            Some(time) => *time,
            None => 0,
        }
    }

    /// Notes when the row at a slot was filed, in room that was made.
    fn note(&mut self, slot: usize, time: Millis)
        requires below { slot < self.old.limit }
        ensures list { self.new.list ≡ self.old.list }
        ensures limit { self.new.limit ≡ self.old.limit }
        ensures filed { self.new.filed ≡ timed self.old.filed slot time }
    {
        if slot >= self.filed.len() {
            self.filed.resize(slot + 1, 0).unwrap();
        }
        self.filed[slot] = time;
    }

    /// Whether the row at a slot was used since it was filed.
    pub(crate) fn is_stale(&self, slot: usize, row: &Row) -> bool
        ensures stale { result ≡ nat_lt (get_or self.now.filed slot 0) row.now.state.last }
    {
        self.filed_at(slot) < row.state.last()
    }

    /// Files the row at a slot at its last use.
    pub(crate) fn insert(&mut self, slot: usize, row: &Row)
        requires room { maps.len (map_of expiry_cmp self.old.list) < self.old.limit }
        requires below { slot < self.old.limit }
        ensures files { Files self.old self.new slot row.now }
    {
        let key = Expiry::of(row);
        self.found = None;
        self.order.known();
        self.order.insert(key, slot);
        self.order.known();
        enter(&mut self.heads, key, slot);
        self.note(slot, row.state.last());
    }

    /// Takes the row at a slot out.
    pub(crate) fn remove(&mut self, slot: usize, row: &Row)
        ensures unfiles { Unfiles self.old self.new slot row.now }
    {
        let key = Expiry::at(row, self.filed_at(slot));
        self.found = None;
        self.order.known();
        self.order.remove(key);
        self.order.known();
        leave(&mut self.heads, &self.order, key);
    }

    /// Files the row that comes in place of another one of its name at its last use. Both may be the same.
    pub(crate) fn file_anew(&mut self, slot: usize, was: &Row, row: &Row)
        requires filed { MayMove self.old slot was.now }
        ensures moves { Moves self.old self.new slot was.now row.now }
        ensures filed { self.new.filed ≡ timed self.old.filed slot row.now.state.last }
    {
        self.known();
        self.remove(slot, was);
        self.insert(slot, row);
    }

    /// Keeps the order where a row comes in place of another one of its name. It stands where that one was filed, unless it has
    /// another timeout or was used last before that. A row used no earlier than the other one was used no earlier than that one was
    /// filed, so the filed time is not read.
    #[inline]
    pub(crate) fn change(&mut self, slot: usize, was: &Row, row: &Row)
        requires filed { MayMove self.old slot was.now }
        ensures moves { Moves self.old self.new slot was.now row.now }
    {
        let earlier = row.state.last() < was.state.last();
        if was.timeout != row.timeout || (earlier && row.state.last() < self.filed_at(slot)) {
            self.file_anew(slot, was, row);
        }
    }
}
