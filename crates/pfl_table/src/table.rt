//! The table of states.

ghost use Rattle.std.specs.Prelude.{◌≡◌, ℕ, [], ◌∷◌, map, nat_le, Some, None, IfOk, IfErr, IfSome, IfNone, IsSome, OnOk, OnErr, OnSome, MatchOption};
ghost use Rattle.std.specs.Option.{option_copied, option_map};
ghost use Rattle.pfl_edits.specs.Maps as maps;
ghost use Rattle.pfl_edits.specs.Maps.{set_at};
ghost use Rattle.pfl_table.specs.Tables.{Table, IsTable, TableLeadsBack, states_of, by_wire, by_stack, found, count_of_rule, first_expiring};
ghost use Rattle.pfl_table.specs.Tables.{row_after, state_after, put_fault, row_with, with_moved, with_row, edit_of};
ghost use Rattle.pfl_track.specs.Motions.{motion as motion_of};

use crate::edit::TableEdit;
use crate::fault::PutFault;
use crate::row::{Row, row_with};
use crate::slot::Slot;
use crate::stored::Stored;
use pfl_base::{Dir, Key, StateName};
use pfl_edits::{InOrder, NoMemory, Reversible};
use pfl_rules::Adaptive;
use pfl_track::{Motion, State};
use std::alloc::Allocator;
use std::marker::Model;

/// States by name, at most `limit` of them, and no two with one wire key or one stack key.
/// Room for `limit` rows is made by `new` and `copy`.
pub struct StateTable<A: Allocator> {
    stored: Stored<A>,
}

// Written by hand: see docs/ARCHITECTURE.md, "What the prover asks of the code".
impl<A: Allocator> Drop for StateTable<A> {
    fn drop(self) {
        let StateTable { stored: _ } = self;
    }
}

impl<A: Allocator> Model for StateTable<A> {
    ghost use Rattle.pfl_table.specs.Tables.{Table, coded_table};

    ghost Value = { Table };

    ghost coded = { coded_table };

    ghost use Rattle.pfl_table.specs.inner.Filed.{table_of};
    ghost use Rattle.pfl_table.specs.Tables.{IsTable};

    ghost view = { λ t. table_of t.stored };

    ghost invariant = { λ t. IsTable (table_of t.stored) };
}

impl<A: Allocator> StateTable<A> {
    /// What is true of each table.
    pub fn known(&self)
        ensures table { IsTable self.now }
    {
        let _stored = &self.stored;
    }

    /// How many states there are.
    pub fn len(&self) -> usize
        ensures rows { result ≡ maps.len self.now.rows }
        ensures states { result ≡ maps.len (states_of self.now) }
    {
        self.stored.known();
        self.stored.len()
    }

    /// How many states there is room for.
    pub fn limit(&self) -> usize
        ensures limit { result ≡ self.now.limit }
    {
        self.stored.limit()
    }

    /// There is no room for another state.
    pub fn is_full(&self) -> bool
        ensures rows { result ≡ nat_le self.now.limit (maps.len self.now.rows) }
        ensures states { result ≡ nat_le self.now.limit (maps.len (states_of self.now)) }
    {
        self.limit() <= self.len()
    }

    /// The rows, in the order of the names.
    pub fn iter(&self) -> InOrder<'_, Row>
        ensures rows { result ≡ maps.values self.now.rows }
        ensures states { map (λ r. r.state) result ≡ maps.values (states_of self.now) }
        ensures names { map (λ r. r.state.name) result ≡ maps.keys (states_of self.now) }
    {
        self.stored.known();
        self.stored.iter()
    }

    /// The row of the state with the name.
    #[inline]
    pub fn row(&self, name: StateName) -> Option<&Row>
        ensures row { option_copied result ≡ maps.get self.now.rows name }
    {
        self.stored.by_name(name)
    }

    /// The state with the name.
    #[inline]
    pub fn by_name(&self, name: StateName) -> Option<&State>
        ensures state { option_copied result ≡ maps.get (states_of self.now) name }
    {
        state_of(self.row(name))
    }

    /// The state with the wire key.
    #[inline]
    pub fn by_wire(&self, key: &Key) -> Option<&State>
        ensures state { option_copied result ≡ by_wire (states_of self.now) key.now }
    {
        self.stored.known();
        state_of(self.stored.by_wire(key))
    }

    /// The state with the stack key.
    #[inline]
    pub fn by_stack(&self, key: &Key) -> Option<&State>
        ensures state { option_copied result ≡ by_stack (states_of self.now) key.now }
    {
        self.stored.known();
        state_of(self.stored.by_stack(key))
    }

    /// The state of a packet with the key: of an inbound one by the wire key, of an outbound one by the stack key.
    #[inline]
    pub fn found(&self, key: &Key, direction: Dir) -> Option<&State>
        ensures state { option_copied result ≡ found (states_of self.now) key.now direction }
    {
        match direction {
            Dir::Inbound => self.by_wire(key),
            Dir::Outbound => self.by_stack(key),
        }
    }

    /// The state of a packet with the key, as `found` returns it, and where it stands.
    pub fn find(&self, key: &Key, direction: Dir) -> Option<(Slot, &State)>
        ensures state { option_map (λ r. r.1.now) result ≡ found (states_of self.now) key.now direction }
    {
        self.stored.known();
        let (slot, row) = self.stored.found(key, direction)?;
        Some((Slot::of(slot), &row.state))
    }

    /// The row of the state with the name, which may stand at this slot, and where it stands.
    pub fn row_at(&self, slot: Slot, name: StateName) -> Option<(Slot, &Row)>
        ensures row { option_map (λ r. r.1.now) result ≡ maps.get self.now.rows name }
    {
        let (slot, row) = self.stored.near(slot.place(), name)?;
        Some((Slot::of(slot), row))
    }

    /// The row of the first name above this one.
    pub fn after(&self, name: StateName) -> Option<&Row>
        ensures row { option_copied result ≡ row_after self.now name }
        ensures state { option_map (λ r. r.state) (option_copied result) ≡ state_after (states_of self.now) name }
    {
        self.stored.known();
        self.stored.after(name)
    }

    /// The row that expires first where timeouts are scaled for this number of states (pf.conf(5), `adaptive.start`): the one of least
    /// expiry, and among those the one of least name.
    pub fn first_expiring(&self, adaptive: Adaptive, states: usize) -> Option<&Row>
        ensures row { option_copied result ≡ first_expiring adaptive states self.now }
    {
        self.stored.known();
        self.stored.first_expiring(adaptive, states)
    }

    /// Files rows anew that were used since they were filed for expiry, until the one that is due first is filed at its last use: then
    /// `first_expiring` finds it without a look at each. The table stays the same. It takes no memory.
    pub fn settle_first(&mut self, adaptive: Adaptive, states: usize)
        ensures same { self.new ≡ self.old }
    {
        self.stored.settle_first(adaptive, states);
    }

    /// How many states have the rule with this number.
    pub fn count_of_rule(&self, rule: u16) -> usize
        ensures count { result ≡ count_of_rule (states_of self.now) rule }
    {
        self.stored.known();
        self.stored.count_of_rule(rule)
    }

    /// Adds a state with its timeout in seconds, if nothing keeps it from being added. It takes no memory.
    pub fn put(&mut self, state: State, timeout: u32) -> Result<TableEdit, PutFault>
        ensures fault { IfErr result (λ f. put_fault self.old state ≡ Some f) }
        ensures unchanged { OnErr result (self.new ≡ self.old) }
        ensures no_fault { OnOk result (put_fault self.old state ≡ None) }
        ensures put { OnOk result (self.new ≡ with_row self.old state.name (Some (record { state = state; timeout = timeout }))) }
        ensures edit { IfOk result (λ e. e ≡ edit_of self.old state.name (Some (record { state = state; timeout = timeout }))) }
        ensures leads_back { IfOk result (λ e. TableLeadsBack (e ∷ []) self.old self.new) }
    {
        self.known();
        if let Some(fault) = self.put_fault(&state) {
            return Err(fault);
        }
        let name = state.name();
        Ok(self.set(name, Some(state), timeout))
    }

    /// Why the state may not be put, if there is a reason: the first one.
    fn put_fault(&self, state: &State) -> Option<PutFault>
        ensures { result ≡ put_fault self.now state.now }
    {
        if self.is_full() {
            return Some(PutFault::Full);
        }
        if self.by_name(state.name()).is_some() {
            return Some(PutFault::NameInUse);
        }
        if self.by_wire(&state.wire()).is_some() {
            return Some(PutFault::WireInUse);
        }
        if self.by_stack(&state.stack()).is_some() {
            return Some(PutFault::StackInUse);
        }
        None
    }

    /// Gives a state of the table, whose keys stay, other parts and another timeout, in seconds. `None`: no state has its name.
    /// It takes no memory.
    #[inline]
    pub fn change(&mut self, state: State, timeout: u32) -> Option<TableEdit>
        requires wire { IfSome (maps.get (states_of self.old) state.name) (λ s. s.wire ≡ state.wire) }
        requires stack { IfSome (maps.get (states_of self.old) state.name) (λ s. s.stack ≡ state.stack) }
        ensures absent { IfNone result (maps.get (states_of self.old) state.name ≡ None) }
        ensures unchanged { IfNone result (self.new ≡ self.old) }
        ensures known { OnSome result (IsSome (maps.get (states_of self.old) state.name)) }
        ensures changed { OnSome result (self.new ≡ with_row self.old state.name (Some (record { state = state; timeout = timeout }))) }
        ensures edit { IfSome result (λ e. e ≡ edit_of self.old state.name (Some (record { state = state; timeout = timeout }))) }
        ensures leads_back { IfSome result (λ e. TableLeadsBack (e ∷ []) self.old self.new) }
    {
        self.known();
        let name = state.name();
        self.by_name(name)?;
        Some(self.set(name, Some(state), timeout))
    }

    /// Takes the state with the name out. `None`: there is none. It takes no memory.
    pub fn take(&mut self, name: StateName) -> Option<(State, TableEdit)>
        ensures state { MatchOption result (maps.get (states_of self.old) name ≡ None) (λ r. maps.get (states_of self.old) name ≡ Some r.0) }
        ensures unchanged { IfNone result (self.new ≡ self.old) }
        ensures taken { OnSome result (self.new ≡ with_row self.old name None) }
        ensures edit { IfSome result (λ r. r.1 ≡ edit_of self.old name None) }
        ensures leads_back { IfSome result (λ r. TableLeadsBack (r.1 ∷ []) self.old self.new) }
    {
        self.known();
        let edit = self.set(name, None, 0);
        let before = edit.before;
        match before {
            Some(row) => Some((row.state, edit)),
            None => None,
        }
    }

    /// Adds a state that may be put, with its timeout in seconds. It takes no memory.
    pub fn add(&mut self, state: &State, timeout: u32)
        requires may { put_fault self.old state.now ≡ None }
        ensures added { self.new ≡ with_row self.old state.now.name (Some (record { state = state.now; timeout = timeout })) }
    {
        self.known();
        self.stored.add(&Row {
            state: *state,
            timeout,
        });
    }

    /// Moves the state of a name, which may stand at this slot, and gives it another timeout, in seconds. Returns how it was moved
    /// before. `None`: no state has the name. It takes no memory.
    pub fn move_at(
        &mut self,
        slot: Slot,
        name: StateName,
        motion: &Motion,
        timeout: u32,
    ) -> Option<Motion>
        ensures former { result ≡ option_map motion_of (maps.get (states_of self.old) name) }
        ensures moved { self.new ≡ with_moved self.old name motion.now timeout }
    {
        self.known();
        let (place, row) = self.stored.near(slot.place(), name)?;
        let former = row.state.motion();
        let moved = Row {
            state: row.state.with_motion(*motion),
            timeout,
        };
        self.stored.renew(place, &moved);
        Some(former)
    }

    /// Takes the state of a name out, which may stand at this slot. `None`: there is none. It takes no memory.
    pub fn take_at(&mut self, slot: Slot, name: StateName) -> Option<State>
        ensures state { result ≡ maps.get (states_of self.old) name }
        ensures taken { self.new ≡ with_row self.old name None }
    {
        self.known();
        let row = self.stored.take(slot.place(), name)?;
        Some(row.state)
    }

    /// Sets what stands under a name: a state with its timeout in seconds, or none, whatever stood there. It takes no memory.
    #[inline]
    pub fn set(&mut self, name: StateName, state: Option<State>, timeout: u32) -> TableEdit
        requires table { IsTable (with_row self.old name (row_with state timeout)) }
        ensures set { self.new ≡ with_row self.old name (row_with state timeout) }
        ensures states { states_of self.new ≡ set_at (states_of self.old) name state }
        ensures edit { result ≡ edit_of self.old name (row_with state timeout) }
        ensures leads_back { TableLeadsBack (result ∷ []) self.old self.new }
    {
        self.set_row(name, &row_with(state, timeout))
    }

    /// Sets the row that stands under a name.
    #[inline]
    fn set_row(&mut self, name: StateName, at: &Option<Row>) -> TableEdit
        requires { IsTable (with_row self.old name at.now) }
        ensures set { self.new ≡ with_row self.old name at.now }
        ensures edit { result ≡ edit_of self.old name at.now }
        ensures leads_back { TableLeadsBack (result ∷ []) self.old self.new }
    {
        let before = self.stored.set(name, at);
        TableEdit {
            name,
            before,
            after: *at,
        }
    }
}

impl<A: Allocator + Copy> StateTable<A> {
    /// No states, and room for `limit` of them.
    pub fn new(alloc: A, limit: usize) -> Result<Self, NoMemory>
        ensures limit { IfOk result (λ t. t.limit ≡ limit) }
        ensures empty { IfOk result (λ t. t.rows ≡ maps.empty) }
    {
        let stored = Stored::new(alloc, limit)?;
        Ok(StateTable { stored })
    }

    /// An equal table, with room of its own.
    pub fn copy(&self) -> Result<Self, NoMemory>
        ensures same { IfOk result (λ copied. copied ≡ self.now) }
    {
        let stored = self.stored.copy()?;
        Ok(StateTable { stored })
    }
}

/// The state of the row.
#[inline]
fn state_of(row: Option<&Row>) -> Option<&State>
    ensures { option_copied result ≡ option_map (λ r. r.state) (option_copied row.entry) }
{
    match row {
        Some(row) => Some(&row.state),
        None => None,
    }
}

impl<A: Allocator> Reversible for StateTable<A> {
    ghost use Rattle.pfl_table.specs.Tables.{IsTable, Finds, FindsFormer, put_back, redone};
    ghost use Rattle.pfl_table.specs.inner.BothWays.{table-both_ways};

    type Edit = TableEdit;

    ghost finds = { Finds };

    ghost finds_former = { FindsFormer };

    ghost put_back = { put_back };

    ghost redone = { redone };

    ghost allows = { IsTable };

    fn undo(&mut self, edit: TableEdit) {
        self.set_row(edit.name, &edit.before);
    }

    ghost both_ways = { table-both_ways };
}
