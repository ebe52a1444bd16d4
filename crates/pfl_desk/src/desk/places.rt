//! The places of a node, each changed by itself and recorded.

ghost use Rattle.std.specs.Prelude.{◌≡◌, ◌≤◌, ◌<◌, ◌+◌, true, false, None, OnOk, OnErr, length};
ghost use Rattle.pfl_defer.specs.Deferring.{held_of, with_held};
ghost use Rattle.pfl_desk.specs.Changes as to;
ghost use Rattle.pfl_desk.specs.Drafts.{Writes};
ghost use Rattle.pfl_desk.specs.Edits.{count_of, with_count};
ghost use Rattle.pfl_desk.specs.inner.Drafting.{Wrote};
ghost use Rattle.pfl_desk.specs.inner.Kept.{MayAdd, MayMark, MayReplace};
ghost use Rattle.pfl_desk.specs.Nodes.{IsGiven, AreParts, AskedAt, ServesSince, is_overfull, last_millisecond};

use crate::desk::Desk;
use crate::edit::{Counter, NodeEdit};
use crate::parts::judge::Overfull;
use pfl_base::{Millis, Packet, StateName};
use pfl_bulk::{BulkClient, BulkServer};
use pfl_edits::Change;
use pfl_queue::Kind;
use pfl_table::Slot;
use pfl_track::State;
use std::alloc::Allocator;

impl<A: Allocator> Desk<A> {
    /// Adds a state under a name that no state has.
    pub fn add_state(&mut self, state: State)
        requires room { 0 < self.old.edits.spare }
        requires parts { AreParts (to.put_state self.old.node state) }
        requires may { MayAdd self.old.node state }
        ensures node { self.new.node ≡ to.put_state self.old.node state }
        ensures writes { Writes 1 self.old self.new }
    {
        let edit = self.parts.add_state(state);
        self.edits.push(edit);
    }

    /// Puts a state in the place of one of its name and keys, which may stand at this slot. Nothing is recorded where it is the same
    /// one.
    pub fn replace_state(&mut self, slot: Slot, state: State)
        requires room { 0 < self.old.edits.spare }
        requires may { MayReplace self.old.node state }
        ensures node { self.new.node ≡ to.put_state self.old.node state }
        ensures writes { Writes 1 self.old self.new }
    {
        let edit = self.parts.replace_state(slot, state);
        record_if(&mut self.edits, edit);
    }

    /// Takes the state of a name out, which may stand at this slot. Nothing is recorded where there is none.
    pub(crate) fn take_state(&mut self, slot: Slot, name: StateName)
        requires room { 0 < self.old.edits.spare }
        requires parts { AreParts (to.without_state self.old.node name) }
        ensures node { self.new.node ≡ to.without_state self.old.node name }
        ensures writes { Writes 1 self.old self.new }
    {
        let edit = self.parts.take_state(slot, name);
        record_if(&mut self.edits, edit);
    }

    /// Makes the state that expires first quick to find, where timeouts are scaled for that many states. It changes nothing that is
    /// seen of the node.
    pub fn order_expiries(&mut self, states: usize)
        ensures same { self.new ≡ self.old }
    {
        self.parts.order_expiries(states);
    }

    /// Puts a name on a queue, with the next number.
    pub fn mark(&mut self, name: StateName, kind: Kind) -> Result<(), Overfull>
        requires room { 0 < self.old.edits.spare }
        requires may { MayMark self.old.node name kind }
        ensures full { OnErr result (is_overfull (to.mark self.old.node name kind) ≡ true) }
        ensures node { OnOk result (self.new.node ≡ to.mark self.old.node name kind) }
        ensures parts { OnOk result (AreParts self.new.node) }
        ensures writes { Writes 1 self.old self.new }
    {
        let edit = self.parts.mark(name, kind)?;
        self.edits.push(edit);
        self.parts.known();
        Ok(())
    }

    /// Takes a name off its queue. Nothing is recorded where it is on none.
    pub(crate) fn unmark(&mut self, name: StateName)
        requires room { 0 < self.old.edits.spare }
        ensures node { self.new.node ≡ to.unmark self.old.node name }
        ensures parts { AreParts self.new.node }
        ensures writes { Writes 1 self.old self.new }
    {
        let edit = self.parts.unmark(name);
        record_if(&mut self.edits, edit);
        self.parts.known();
    }

    /// Wants a frame soon from now on, or no more. Nothing is recorded where it is so already.
    pub fn set_push(&mut self, wanted: bool)
        requires room { 0 < self.old.edits.spare }
        ensures node { self.new.node ≡ record self.old.node { push = wanted } }
        ensures writes { Writes 1 self.old self.new }
    {
        let edit = self.parts.set_push(wanted);
        record_if(&mut self.edits, edit);
    }

    /// Wants a frame soon, if it is asked for.
    pub fn push_if(&mut self, asked: bool)
        requires room { 0 < self.old.edits.spare }
        ensures node { self.new.node ≡ to.push_if asked self.old.node }
        ensures writes { Writes 1 self.old self.new }
    {
        if asked {
            self.set_push(true);
        }
    }

    /// Holds a packet of a name from now on, where there is room.
    pub fn keep(&mut self, name: StateName, packet: &Packet)
        requires room { 0 < self.old.edits.spare }
        requires given { IsGiven self.old.node name }
        requires free { length self.old.node.held.list < self.old.node.held.limit }
        requires fresh { held_of self.old.node.held name ≡ None }
        ensures node { self.new.node ≡ record self.old.node { held = with_held self.old.node.held name packet.now self.old.node.clock } }
        ensures writes { Writes 1 self.old self.new }
    {
        let edit = self.parts.keep(name, packet);
        self.edits.push(edit);
    }

    /// Lets the packet of a name go, if one is held, and says whether.
    pub(crate) fn let_go(&mut self, name: StateName) -> bool
        requires room { 0 < self.old.edits.spare }
        ensures held { result ≡ to.is_held self.old.node name }
        ensures unchanged { result ≡ false → self.new.node ≡ self.old.node }
        ensures node { result ≡ true → self.new.node ≡ to.without_held self.old.node name }
        ensures writes { Writes 1 self.old self.new }
    {
        match self.parts.let_go(name) {
            Some(edit) => {
                self.edits.push(edit);
                true
            }
            None => false,
        }
    }

    /// Counts one more.
    pub fn count(&mut self, counter: Counter)
        requires room { 0 < self.old.edits.spare }
        ensures node { self.new.node ≡ record self.old.node {
          counters = with_count counter self.old.node.counters (count_of counter self.old.node.counters + 1);
        } }
        ensures writes { Writes 1 self.old self.new }
    {
        let edit = self.parts.count(counter);
        self.edits.push(edit);
    }

    /// Takes the next id.
    pub fn use_id(&mut self)
        requires room { 0 < self.old.edits.spare }
        ensures node { self.new.node ≡ record self.old.node { next_id = self.old.node.next_id + 1 } }
        ensures writes { Writes 1 self.old self.new }
    {
        let edit = self.parts.use_id();
        self.edits.push(edit);
    }

    /// Sets where the bulk server stands. Nothing is recorded where it stands there already.
    pub fn set_server(&mut self, server: BulkServer)
        requires room { 0 < self.old.edits.spare }
        requires past { ServesSince self.old.node server }
        ensures node { self.new.node ≡ record self.old.node { server = server } }
        ensures writes { Writes 1 self.old self.new }
    {
        let edit = self.parts.set_server(server);
        record_if(&mut self.edits, edit);
    }

    /// Sets where the bulk client stands. Nothing is recorded where it stands there already.
    pub fn set_client(&mut self, client: BulkClient)
        requires room { 0 < self.old.edits.spare }
        requires past { AskedAt self.old.node client }
        ensures node { self.new.node ≡ record self.old.node { client = client } }
        ensures parts { AreParts self.new.node }
        ensures writes { Writes 1 self.old self.new }
    {
        let edit = self.parts.set_client(client);
        record_if(&mut self.edits, edit);
        self.parts.known();
    }

    /// Sets the clock.
    pub fn set_clock(&mut self, clock: Millis)
        requires room { 0 < self.old.edits.spare }
        requires later { self.old.node.clock ≤ clock }
        requires within { clock ≤ last_millisecond }
        ensures node { self.new.node ≡ record self.old.node { clock = clock } }
        ensures writes { Writes 1 self.old self.new }
    {
        let edit = self.parts.set_clock(clock);
        self.edits.push(edit);
    }
}

/// Records an edit, if there is one, in room that was made.
pub(crate) fn record_if<A: Allocator>(edits: &mut Change<NodeEdit, A>, edit: Option<NodeEdit>)
    requires room { 0 < edits.old.spare }
    ensures { Wrote edit edits.old edits.new }
{
    if let Some(edit) = edit {
        edits.push(edit);
    }
}
