//! Rows at slots, in the order of their names, and the indexes of them.

ghost use Rattle.std.specs.Prelude.{◌≡◌, ◌↔◌, ◌<◌, [], find, map, Some, IfOk, IfNone, IfSome, IsSome, IsTrue, length};
ghost use Rattle.std.specs.List.{count_by, slice_get};
ghost use Rattle.std.specs.Ordering.{is_lt};
ghost use Rattle.pfl_base.specs.Lists.{in_order};
ghost use Rattle.pfl_base.specs.Names.{name_cmp};
ghost use Rattle.pfl_containers.specs.Lists.{Place, links_of as links_in};
ghost use Rattle.pfl_containers.specs.NameKeys.{by_name_cmp};
ghost use Rattle.pfl_containers.specs.SlotIndexes.{HasNone, IsIndex, key_of};
ghost use Rattle.pfl_table.specs.Tables.{IsTable, row_before, with_row};
ghost use Rattle.std.specs.Option.{option_copied, option_map};
ghost use Rattle.pfl_edits.specs.Maps as maps;
ghost use Rattle.pfl_edits.specs.Ordered.{IsRising};
ghost use Rattle.pfl_edits.proofs.ForCallers.{row_at};
ghost use Rattle.pfl_track.specs.States.{IsState};
ghost use Rattle.pfl_table.specs.inner.Filed.{AreFiled, FoundAt, GainsRow, LosesRow, ChangesRow, HasNoKey, OthersHaveNoKey, NameGap, SameKeys};
ghost use Rattle.pfl_table.specs.inner.Filed.{link_found, name_of, wire_flow, stack_flow, row_of_link, rows_of, slot_of_link, table_of};
ghost use Rattle.pfl_table.specs.inner.Counts.{has_rule};
ghost use Rattle.pfl_table.specs.inner.Ordering.{by_name, flow_cmp, flow_of};

use crate::due::earliest;
use crate::indexes::Indexes;
use crate::keys::{tag_of_flow, tag_of_name};
use crate::row::Row;
use crate::settle::settle;
use pfl_base::{Dir, Key, PackedKey, StateName};
use pfl_containers::{ByName, Chains, MOST_SLOTS, OrderedMap};
use pfl_edits::{InOrder, NoMemory};
use pfl_rules::Adaptive;
use std::alloc::Allocator;
use std::marker::Model;

/// Where no row stands.
const NO_HINT: usize = usize::MAX;

/// Rows at slots, in the order of their names, and the indexes of them.
#[derive(Drop)]
pub(crate) struct Stored<A: Allocator> {
    rows: Chains<Row, A>,
    indexes: Indexes<A>,
}

impl<A: Allocator> Model for Stored<A> {
    ghost use Rattle.pfl_containers.specs.Lists.{links_of};
    ghost use Rattle.pfl_table.specs.inner.Filed.{Filing, IsStored};

    ghost Value = { Filing };

    ghost view = { λ s. record { links = links_of s.rows 0; limit = s.rows.limit } };

    ghost invariant = { λ s. IsStored s.rows s.indexes };
}

impl<A: Allocator + Copy> Stored<A> {
    /// No rows, and room for `limit` of them.
    pub(crate) fn new(alloc: A, limit: usize) -> Result<Self, NoMemory>
        ensures limit { IfOk result (λ s. s.limit ≡ limit) }
        ensures empty { IfOk result (λ s. s.links ≡ []) }
    {
        if limit > MOST_SLOTS {
            return Err(NoMemory);
        }
        let rows = Chains::new(alloc, 1, limit)?;
        let indexes = Indexes::new(alloc, limit)?;
        Ok(Stored { rows, indexes })
    }

    /// The same rows, with room of their own.
    pub(crate) fn copy(&self) -> Result<Self, NoMemory>
        ensures same { IfOk result (λ s. s ≡ self.now) }
    {
        let rows = self.rows.copy()?;
        let indexes = self.indexes.copy()?;
        Ok(Stored { rows, indexes })
    }
}

impl<A: Allocator> Stored<A> {
    /// What is true of all of them.
    pub(crate) fn known(&self)
        ensures filed { AreFiled self.now }
    {
        self.rows.known();
    }

    /// How many rows there are.
    pub(crate) fn len(&self) -> usize
        ensures rows { result ≡ length self.now.links }
    {
        self.rows.len()
    }

    /// How many rows there is room for.
    pub(crate) fn limit(&self) -> usize
        ensures limit { result ≡ self.now.limit }
    {
        self.rows.limit()
    }

    /// The row at a slot that an index found.
    #[inline]
    fn at(&self, found: Option<usize>) -> Option<&Row>
        requires stands { FoundAt self.now.links found }
        ensures row { (at : FoundAt self.now.links found) → option_copied result ≡ option_map row_of_link at.which }
    {
        match found {
            Some(slot) => Some(self.rows.at(slot)),
            None => None,
        }
    }

    /// The rows, in the order of the names.
    pub(crate) fn iter(&self) -> InOrder<'_, Row>
        ensures rows { result ≡ map row_of_link self.now.links }
    {
        self.rows.iter(0)
    }

    /// How many rows have the rule.
    pub(crate) fn count_of_rule(&self, rule: u16) -> usize
        ensures count { result ≡ count_by (has_rule rule) (map row_of_link self.now.links) }
    {
        self.indexes.rules.count_of(rule)
    }

    /// The row of the name.
    #[inline]
    pub(crate) fn by_name(&self, name: StateName) -> Option<&Row>
        ensures row { option_copied result ≡ option_map row_of_link (row_at name_cmp (key_of name_of) self.now.links name) }
    {
        self.at(self.slot_of_name(name))
    }

    /// The slot of the name's row.
    fn slot_of_name(&self, name: StateName) -> Option<usize>
        ensures slot { result ≡ option_map slot_of_link (row_at name_cmp (key_of name_of) self.now.links name) }
    {
        let rows = &self.rows;
        self.indexes.names.find(
            tag_of_name(name),
            |slot|
                requires { Place rows.now slot }
                ensures { (at : Place rows.entry.now slot) → IsTrue result ↔ (name_of at.value ≡ name) }
            { rows.at(slot).state.name() == name },
        )
    }

    /// The row of the wire key.
    #[inline]
    pub(crate) fn by_wire(&self, key: &Key) -> Option<&Row>
        ensures row { option_copied result ≡ option_map row_of_link (row_at flow_cmp (key_of wire_flow) self.now.links (flow_of key.now)) }
    {
        self.at(self.slot_of_wire(key))
    }

    /// The slot of the wire key's row.
    fn slot_of_wire(&self, key: &Key) -> Option<usize>
        ensures slot { result ≡ option_map slot_of_link (row_at flow_cmp (key_of wire_flow) self.now.links (flow_of key.now)) }
    {
        let rows = &self.rows;
        let packed = PackedKey::of(*key);
        self.indexes.wires.find(
            tag_of_flow(key),
            |slot|
                requires { Place rows.now slot }
                ensures { (at : Place rows.entry.now slot) → IsTrue result ↔ (wire_flow at.value ≡ flow_of packed) }
            { rows.at(slot).state.has_wire(&packed) },
        )
    }

    /// The row of the stack key.
    #[inline]
    pub(crate) fn by_stack(&self, key: &Key) -> Option<&Row>
        ensures row { option_copied result ≡ option_map row_of_link (row_at flow_cmp (key_of stack_flow) self.now.links (flow_of key.now)) }
    {
        self.at(self.slot_of_stack(key))
    }

    /// The slot of the stack key's row.
    fn slot_of_stack(&self, key: &Key) -> Option<usize>
        ensures slot { result ≡ option_map slot_of_link (row_at flow_cmp (key_of stack_flow) self.now.links (flow_of key.now)) }
    {
        let rows = &self.rows;
        let packed = PackedKey::of(*key);
        self.indexes.stacks.find(
            tag_of_flow(key),
            |slot|
                requires { Place rows.now slot }
                ensures { (at : Place rows.entry.now slot) → IsTrue result ↔ (stack_flow at.value ≡ flow_of packed) }
            { rows.at(slot).state.has_stack(&packed) },
        )
    }

    /// The row of a packet's key, and its slot.
    pub(crate) fn found(&self, key: &Key, direction: Dir) -> Option<(usize, &Row)>
        ensures row { option_map (λ r. r.1.now) result ≡ option_map row_of_link (link_found self.now.links (flow_of key.now) direction) }
    {
        let slot = self.slot_found(key, direction)?;
        Some((slot, self.rows.at(slot)))
    }

    /// The slot of a packet's flow.
    fn slot_found(&self, key: &Key, direction: Dir) -> Option<usize>
        ensures slot { result ≡ option_map slot_of_link (link_found self.now.links (flow_of key.now) direction) }
    {
        match direction {
            Dir::Inbound => self.slot_of_wire(key),
            Dir::Outbound => self.slot_of_stack(key),
        }
    }

    /// The row of a name, and its slot, which may be this one.
    pub(crate) fn near(&self, hint: usize, name: StateName) -> Option<(usize, &Row)>
        ensures row { option_map (λ r. r.1.now) result ≡ option_map row_of_link (row_at name_cmp (key_of name_of) self.now.links name) }
    {
        let slot = self.slot_near(hint, name)?;
        Some((slot, self.rows.at(slot)))
    }

    /// The slot of the name's row, which may be this one.
    fn slot_near(&self, hint: usize, name: StateName) -> Option<usize>
        ensures slot { result ≡ option_map slot_of_link (row_at name_cmp (key_of name_of) self.now.links name) }
    {
        if self.is_at(hint, name) {
            return Some(hint);
        }
        self.slot_of_name(name)
    }

    /// The name's row stands at this slot.
    fn is_at(&self, slot: usize, name: StateName) -> bool
        ensures at { IsTrue result → Some slot ≡ option_map slot_of_link (row_at name_cmp (key_of name_of) self.now.links name) }
    {
        match self.rows.try_at(slot) {
            Some(row) => row.state.name() == name,
            None => false,
        }
    }

    /// The row of the first name above this one.
    pub(crate) fn after(&self, name: StateName) -> Option<&Row>
        ensures row { option_copied result ≡ find (λ r. is_lt (name_cmp name r.state.name)) (map row_of_link self.now.links) }
    {
        self.indexes.order.known();
        match self.indexes.order.after(ByName(name)) {
            Some((_, slot)) => self.at(Some(slot)),
            None => None,
        }
    }

    /// The row that expires first where timeouts are scaled for this number of states.
    pub(crate) fn first_expiring(&self, adaptive: Adaptive, states: usize) -> Option<&Row>
        ensures row { option_copied result ≡ slice_get (in_order (row_before adaptive states) (map row_of_link self.now.links)) 0 }
    {
        self.rows.known();
        self.indexes.expiries.known();
        let slot = self.indexes.expiries.first(adaptive, states)?;
        let first = self.rows.at(slot);
        if self.indexes.expiries.is_stale(slot, first) {
            return earliest(self.iter(), adaptive, states);
        }
        Some(first)
    }
}

impl<A: Allocator> Stored<A> {
    /// Puts a row that shares no key with the others.
    pub(crate) fn insert(&mut self, row: Row)
        requires room { length self.old.links < self.old.limit }
        requires stated { IsState row.state }
        requires new { HasNoKey self.old.links row }
        ensures gains { GainsRow self.old self.new row }
    {
        let behind = behind(&self.rows, &self.indexes.order, row.state.name());
        let slot = self.rows.insert_after(0, behind, row);
        self.rows.known();
        self.indexes.insert(slot, &row);
    }

    /// Takes the row of a name out, if there is one: it may stand at this slot.
    pub(crate) fn remove(&mut self, hint: usize, name: StateName) -> Option<Row>
        ensures former { result ≡ option_map row_of_link (row_at name_cmp (key_of name_of) self.old.links name) }
        ensures unchanged { IfNone result (self.new ≡ self.old) }
        ensures loses { IfSome result (λ r. LosesRow self.old self.new r) }
    {
        self.rows.known();
        let slot = self.slot_near(hint, name)?;
        let row = self.rows.remove(slot);
        self.indexes.remove(slot, &row);
        Some(row)
    }

    /// Puts a row in place of the one of its name, if there is one.
    #[inline]
    pub(crate) fn change(&mut self, row: Row) -> Option<Row>
        requires stated { IsState row.state }
        requires new { OthersHaveNoKey self.old.links row }
        ensures former { result ≡ option_map row_of_link (row_at name_cmp (key_of name_of) self.old.links row.state.name) }
        ensures unchanged { IfNone result (self.new ≡ self.old) }
        ensures changes { IfSome result (λ r. ChangesRow self.old self.new r row) }
    {
        self.rows.known();
        let slot = self.slot_of_name(row.state.name())?;
        let was = *self.rows.at(slot);
        self.rows.change(slot, row);
        self.indexes.change(slot, &was, &row);
        Some(was)
    }

    /// Files stale rows anew until the one that is due first is filed at its last use.
    pub(crate) fn settle_first(&mut self, adaptive: Adaptive, states: usize)
        ensures same { self.new ≡ self.old }
    {
        settle(&self.rows, &mut self.indexes.expiries, adaptive, states);
    }
}

impl<A: Allocator> Stored<A> {
    /// Puts a row in place of the one of its name, keys and rule, which may stand at this slot.
    pub(crate) fn renew(&mut self, hint: usize, row: &Row)
        requires table { IsTable (with_row (table_of self.old) row.now.state.name (Some row.now)) }
        requires known { IsSome (maps.get (rows_of self.old.links) row.now.state.name) }
        requires keys { IfSome (maps.get (rows_of self.old.links) row.now.state.name) (λ was. SameKeys was row.now) }
        ensures set { table_of self.new ≡ with_row (table_of self.old) row.now.state.name (Some row.now) }
    {
        row.state.known();
        self.known();
        let Some(slot) = self.slot_near(hint, row.state.name()) else {
            unreachable!();
        };
        self.rows.known();
        let was = *self.rows.at(slot);
        self.rows.change(slot, *row);
        self.indexes.refile(slot, &was, row);
    }

    /// Sets the row that stands under a name, and returns the one that stood there.
    #[inline]
    pub(crate) fn set(&mut self, name: StateName, at: &Option<Row>) -> Option<Row>
        requires table { IsTable (with_row (table_of self.old) name at.now) }
        ensures former { result ≡ maps.get (rows_of self.old.links) name }
        ensures set { table_of self.new ≡ with_row (table_of self.old) name at.now }
    {
        match at {
            Some(row) => self.put(row),
            None => self.take(NO_HINT, name),
        }
    }

    /// Adds a row whose name has none.
    pub(crate) fn add(&mut self, row: &Row)
        requires new { maps.get (rows_of self.old.links) row.now.state.name ≡ None }
        requires table { IsTable (with_row (table_of self.old) row.now.state.name (Some row.now)) }
        ensures set { table_of self.new ≡ with_row (table_of self.old) row.now.state.name (Some row.now) }
    {
        row.state.known();
        self.known();
        self.insert(*row);
    }

    /// Takes the row of a name out, if there is one: it may stand at this slot.
    pub(crate) fn take(&mut self, hint: usize, name: StateName) -> Option<Row>
        ensures former { result ≡ maps.get (rows_of self.old.links) name }
        ensures taken { table_of self.new ≡ with_row (table_of self.old) name None }
    {
        self.known();
        self.remove(hint, name)
    }

    /// Puts a row under its name, and returns the one that stood there.
    #[inline]
    fn put(&mut self, row: &Row) -> Option<Row>
        requires table { IsTable (with_row (table_of self.old) row.now.state.name (Some row.now)) }
        ensures former { result ≡ maps.get (rows_of self.old.links) row.now.state.name }
        ensures set { table_of self.new ≡ with_row (table_of self.old) row.now.state.name (Some row.now) }
    {
        row.state.known();
        self.known();
        match self.change(*row) {
            Some(was) => Some(was),
            None => {
                self.insert(*row);
                None
            }
        }
    }
}

/// The slot after which the row of a name belongs, or none where it comes first.
fn behind<A: Allocator>(
    rows: &Chains<Row, A>,
    order: &OrderedMap<ByName, usize, A>,
    name: StateName,
) -> Option<usize>
    requires one { length rows.now.lists ≡ 1 }
    requires rising { IsRising name_cmp (key_of name_of) (links_in rows.now 0) }
    requires order { IsIndex by_name_cmp by_name (links_in rows.now 0) (maps.from_sorted order.now.list) }
    requires new { HasNone name_cmp name_of (links_in rows.now 0) name }
    ensures gap { NameGap rows.now name result }
{
    order.known();
    match order.after(ByName(name)) {
        Some((_, next)) => rows.previous(next),
        None => rows.last(0),
    }
}
