//! The small changes that events are made of: held packets that go, states that change, states that go, and when that is announced to the peer
//! (pfsync(4), if_pfsync.c).

ghost use Rattle.std.specs.Prelude.{◌≡◌, ◌≤◌, ◌<◌, ◌+◌, true, false, None, OnOk, OnErr, ◌||◌, not, Some};
ghost use Rattle.pfl_edits.specs.Maps as maps;
ghost use Rattle.pfl_desk.specs.Changes as to;
ghost use Rattle.pfl_desk.specs.Drafts.{Writes};
ghost use Rattle.pfl_desk.specs.inner.Kept.{MayReplace};
ghost use Rattle.pfl_desk.specs.Nodes.{is_overfull};
ghost use Rattle.pfl_queue.specs.Queues.{kind_of};
ghost use Rattle.pfl_desk.specs.Weights.{freed_edits, released_edits, changed_edits, taken_out_edits, forgotten_edits, deleted_edits};

use crate::desk::Desk;
use crate::edit::Counter;
use crate::parts::judge::Overfull;
use pfl_base::{Proto, StateName};
use pfl_queue::Kind;
use pfl_table::Slot;
use pfl_track::State;
use std::alloc::Allocator;

impl<A: Allocator> Desk<A> {
    /// Lets the packet of a name go out, if one is held, and counts it.
    pub fn free(&mut self, name: StateName)
        requires room { freed_edits ≤ self.old.edits.spare }
        ensures node { self.new.node ≡ to.freed self.old.node name }
        ensures writes { Writes freed_edits self.old self.new }
    {
        if self.let_go(name) {
            self.count(Counter::Freed);
        }
    }

    /// Drops the packet of a name, if one is held, and counts it.
    pub fn drop_held(&mut self, name: StateName)
        requires room { freed_edits ≤ self.old.edits.spare }
        ensures node { self.new.node ≡ to.lost self.old.node name }
        ensures writes { Writes freed_edits self.old self.new }
    {
        if self.let_go(name) {
            self.count(Counter::Lost);
        }
    }

    /// The state of a name waits for no acknowledgement, if there is one.
    fn stop_waiting(&mut self, name: StateName)
        requires room { 0 < self.old.edits.spare }
        ensures node { self.new.node ≡ to.not_waiting self.old.node name }
        ensures writes { Writes 1 self.old self.new }
    {
        let Some(state) = self.parts().states().by_name(name).copied() else {
            return;
        };
        self.replace_state(Slot::UNKNOWN, state.with_ack_wanted(false));
    }

    /// Lets the packet of a name go out, if one is held, and its state waits no more.
    pub fn release(&mut self, name: StateName)
        requires room { released_edits ≤ self.old.edits.spare }
        ensures node { self.new.node ≡ to.released self.old.node name }
        ensures writes { Writes released_edits self.old self.new }
    {
        self.free(name);
        self.stop_waiting(name);
    }

    /// Puts a state in the place of one, which may stand at this slot, and announces it to the peer. Where that is too much, what was
    /// changed until then stays on the desk, and `conclude` takes it back.
    pub fn change_state(&mut self, slot: Slot, state: State) -> Result<(), Overfull>
        requires room { changed_edits ≤ self.old.edits.spare }
        requires known { MayReplace self.old.node state }
        ensures full { OnErr result (is_overfull (to.changed self.old.node state) ≡ true) }
        ensures node { OnOk result (self.new.node ≡ to.changed self.old.node state) }
        ensures writes { Writes changed_edits self.old self.new }
    {
        let recent = self.is_recent(&state);
        if state.no_sync() {
            self.replace_state(slot, state);
            return Ok(());
        }
        self.announce(slot, state)?;
        self.push_if(recent);
        Ok(())
    }

    /// Puts a state in the place of one, and announces it to the peer by an update, unless its deletion is pending.
    fn announce(&mut self, slot: Slot, state: State) -> Result<(), Overfull>
        requires room { 2 ≤ self.old.edits.spare }
        requires known { MayReplace self.old.node state }
        requires told { state.no_sync ≡ false }
        ensures full { OnErr result (is_overfull (to.told self.old.node state) ≡ true) }
        ensures node { OnOk result (self.new.node ≡ to.told self.old.node state) }
        ensures writes { Writes 2 self.old self.new }
    {
        let name = state.name();
        if self.is_unannounced(name) {
            self.replace_state(slot, state.with_updates(0));
            return self.mark(name, Kind::UpdateShort);
        }
        self.count_update(slot, state);
        Ok(())
    }

    /// Puts a state in the place of one whose name is on a queue already.
    fn count_update(&mut self, slot: Slot, state: State)
        requires room { 2 ≤ self.old.edits.spare }
        requires known { MayReplace self.old.node state }
        ensures node { self.new.node ≡ to.counted self.old.node state }
        ensures writes { Writes 2 self.old self.new }
    {
        match state.proto() {
            Proto::Tcp => {
                let updates = state.updates().saturating_add(1);
                let many = self.parts().limits().maxupd <= u32::from(updates);
                self.replace_state(slot, state.with_updates(updates));
                self.push_if(many);
            }
            Proto::Udp | Proto::Icmp | Proto::Other(_) => self.replace_state(slot, state),
        }
    }

    /// The name is on no queue, or only to be acknowledged.
    fn is_unannounced(&self, name: StateName) -> bool
        ensures unannounced { result ≡ to.is_unannounced (kind_of self.now.node.queue name) }
    {
        match self.parts().queue().kind_of(name) {
            None | Some(Kind::InsertAck) => true,
            Some(_) => false,
        }
    }

    /// The peer changed the state less than two seconds ago.
    fn is_recent(&self, state: &State) -> bool
        ensures recent { result ≡ to.is_recent self.now.node state.now }
    {
        match state.peer_change() {
            Some(time) => self.parts().clock().saturating_sub(time) < 2000,
            None => false,
        }
    }

    /// Deletes the state by itself, which may stand at this slot, and announces it to the peer. Where that is too much, what was
    /// changed until then stays on the desk, and `conclude` takes it back.
    pub fn delete(&mut self, slot: Slot, state: &State) -> Result<(), Overfull>
        requires room { deleted_edits ≤ self.old.edits.spare }
        requires stands { maps.get self.old.node.states state.now.name ≡ Some state.now }
        ensures full { OnErr result (is_overfull (to.deleted self.old.node state.now) ≡ true) }
        ensures node { OnOk result (self.new.node ≡ to.deleted self.old.node state.now) }
        ensures writes { Writes deleted_edits self.old self.new }
    {
        self.drop_held(state.name());
        self.announce_deletion(slot, state)
    }

    /// Takes the state out, and announces it to the peer.
    fn announce_deletion(&mut self, slot: Slot, state: &State) -> Result<(), Overfull>
        requires room { 3 ≤ self.old.edits.spare }
        requires stands { maps.get self.old.node.states state.now.name ≡ Some state.now }
        ensures full { OnErr result (is_overfull (to.deletion_announced (to.without_state self.old.node state.now.name) state.now) ≡ true) }
        ensures node { OnOk result (self.new.node ≡ to.deletion_announced (to.without_state self.old.node state.now.name) state.now) }
        ensures writes { Writes 3 self.old self.new }
    {
        self.known();
        let name = state.name();
        let kind = self.parts().queue().kind_of(name);
        let told = is_deletion_announced(kind, state);
        self.take_out(slot, name);
        if !told {
            return Ok(());
        }
        self.mark(name, Kind::Delete)
    }

    /// Drops the packet of a name, takes its state out and sends the peer nothing. The name goes off its queue; with `revive` a pending
    /// deletion stays.
    pub fn forget(&mut self, name: StateName)
        requires room { forgotten_edits ≤ self.old.edits.spare }
        ensures node { self.new.node ≡ to.forgotten self.old.node name }
        ensures writes { Writes forgotten_edits self.old self.new }
    {
        self.drop_held(name);
        self.take_out(Slot::UNKNOWN, name);
    }

    /// Takes the state of a name out, which may stand at this slot, and the name off its queue; with `revive` a pending deletion stays.
    fn take_out(&mut self, slot: Slot, name: StateName)
        requires room { taken_out_edits ≤ self.old.edits.spare }
        ensures node { self.new.node ≡ to.withdraw (to.without_state self.old.node name) name }
        ensures writes { Writes taken_out_edits self.old self.new }
    {
        self.known();
        if !self.parts().keeps_deletion(name) {
            self.unmark(name);
        }
        self.take_state(slot, name);
    }
}

/// The deletion of the state, whose name is on this queue, is announced to the peer: not if the peer has not heard of the state or is
/// never told of it, nor if a deletion is pending already.
fn is_deletion_announced(kind: Option<Kind>, state: &State) -> bool
    ensures { result ≡ not (to.is_insert kind || to.is_delete kind || state.now.no_sync) }
{
    match kind {
        Some(Kind::Insert | Kind::Delete) => false,
        None | Some(_) => !state.no_sync(),
    }
}
