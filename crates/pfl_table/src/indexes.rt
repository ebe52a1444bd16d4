//! The slots of rows, by each of their keys.

ghost use Rattle.std.specs.Prelude.{◌≡◌, ◌<◌, ◌≤◌, ◌-◌, ◌^◌, [], IfOk};
ghost use Rattle.pfl_edits.specs.Maps as maps;
ghost use Rattle.pfl_containers.specs.Slots.{HasTag};
ghost use Rattle.pfl_table.specs.inner.Filed.{AreIndexes, MayGain, Gains, Loses, MayChange, Changes, Refiles};

use crate::counts::RuleCounts;
use crate::due_order::DueOrder;
use crate::keys::{tag_of_flow, tag_of_name};
use crate::row::Row;
use pfl_containers::{ByName, OrderedMap, SlotIndex};
use pfl_edits::NoMemory;
use std::alloc::Allocator;

/// The slots of rows, by each of their keys, and how many of them each rule has.
#[derive(Drop)]
pub(crate) struct Indexes<A: Allocator> {
    pub(crate) names: SlotIndex<A>,
    pub(crate) order: OrderedMap<ByName, usize, A>,
    pub(crate) wires: SlotIndex<A>,
    pub(crate) stacks: SlotIndex<A>,
    pub(crate) expiries: DueOrder<A>,
    pub(crate) rules: RuleCounts<A>,
}

impl<A: Allocator + Copy> Indexes<A> {
    /// No slots, and room for `limit` of them.
    pub(crate) fn new(alloc: A, limit: usize) -> Result<Self, NoMemory>
        ensures empty { IfOk result (λ i. AreIndexes limit [] i) }
    {
        let names = SlotIndex::new(alloc, limit)?;
        let order = OrderedMap::new(alloc, limit)?;
        let wires = SlotIndex::new(alloc, limit)?;
        let stacks = SlotIndex::new(alloc, limit)?;
        let expiries = DueOrder::new(alloc, limit)?;
        let rules = RuleCounts::new(alloc)?;
        Ok(Indexes {
            names,
            order,
            wires,
            stacks,
            expiries,
            rules,
        })
    }

    /// The same slots, with room of their own.
    pub(crate) fn copy(&self) -> Result<Self, NoMemory>
        ensures same { IfOk result (λ i. i ≡ self.now) }
    {
        let names = self.names.copy()?;
        let order = self.order.copy()?;
        let wires = self.wires.copy()?;
        let stacks = self.stacks.copy()?;
        let expiries = self.expiries.copy()?;
        let rules = self.rules.copy()?;
        Ok(Indexes {
            names,
            order,
            wires,
            stacks,
            expiries,
            rules,
        })
    }
}

impl<A: Allocator> Indexes<A> {
    /// Names the slot of a row that none of the others shares a key with.
    pub(crate) fn insert(&mut self, slot: usize, row: &Row)
        requires new { MayGain self.old slot row.now }
        ensures gains { Gains self.old self.new slot row.now }
    {
        let name = row.state.name();
        self.names.insert(tag_of_name(name), slot);
        self.order.insert(ByName(name), slot);
        self.wires.insert(tag_of_flow(&row.state.wire()), slot);
        self.stacks.insert(tag_of_flow(&row.state.stack()), slot);
        self.expiries.insert(slot, row);
        self.rules.more(row.state.rule());
    }

    /// Forgets the slot of a row.
    pub(crate) fn remove(&mut self, slot: usize, row: &Row)
        requires stands { MayChange self.old slot row.now }
        ensures loses { Loses self.old self.new slot row.now }
    {
        let name = row.state.name();
        self.names.remove(tag_of_name(name), slot);
        self.order.remove(ByName(name));
        self.wires.remove(tag_of_flow(&row.state.wire()), slot);
        self.stacks.remove(tag_of_flow(&row.state.stack()), slot);
        self.expiries.remove(slot, row);
        self.rules.less(row.state.rule());
    }

    /// Names the slot of a row by the keys of another one of its name, which comes in its place.
    #[inline]
    pub(crate) fn change(&mut self, slot: usize, was: &Row, row: &Row)
        requires changes { MayChange self.old slot was.now }
        ensures changes { Changes self.old self.new slot was.now row.now }
    {
        retag(
            &mut self.wires,
            slot,
            tag_of_flow(&was.state.wire()),
            tag_of_flow(&row.state.wire()),
        );
        retag(
            &mut self.stacks,
            slot,
            tag_of_flow(&was.state.stack()),
            tag_of_flow(&row.state.stack()),
        );
        self.expiries.change(slot, was, row);
        self.rules.less(was.state.rule());
        self.rules.more(row.state.rule());
    }

    /// Keeps the order of expiry where another row comes in the place of one, whose keys and rule are the same.
    #[inline]
    pub(crate) fn refile(&mut self, slot: usize, was: &Row, row: &Row)
        requires changes { MayChange self.old slot was.now }
        ensures refiled { Refiles self.old self.new slot was.now row.now }
    {
        self.expiries.change(slot, was, row);
    }
}

/// Gives a slot another tag.
fn retag<A: Allocator>(index: &mut SlotIndex<A>, slot: usize, was: u32, now: u32)
    requires small { slot < 2 ^ 32 - 1 }
    requires there { HasTag index.old.tags was slot }
    requires few { maps.len index.old.tags ≤ index.old.limit }
    ensures tagged { index.new.tags ≡ maps.insert (maps.remove index.old.tags slot) slot now }
    ensures limit { index.new.limit ≡ index.old.limit }
{
    if was == now {
        return;
    }
    index.remove(was, slot);
    index.insert(now, slot);
}
