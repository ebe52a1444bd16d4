//! The places of a node, each changed by itself. What changes is returned as an edit.

ghost use Rattle.std.specs.Option.{option_map};
ghost use Rattle.std.specs.Prelude.{◌≡◌, ◌≤◌, ◌<◌, ◌+◌, true, None, OnOk, OnErr, IfOk, length, Some, ◌∷◌, [], IfNone, IfSome, MatchOption, is_some};
ghost use Rattle.pfl_defer.specs.Deferring.{held_of, with_held};
ghost use Rattle.pfl_edits.specs.Maps as maps;
ghost use Rattle.pfl_edits.specs.Maps.{set_at};
ghost use Rattle.pfl_track.specs.declared.state.State.{State};
ghost use Rattle.pfl_desk.specs.Changes as to;
ghost use Rattle.pfl_desk.specs.declared.edit.NodeEdit.TheVariants.{Moved};
ghost use Rattle.pfl_desk.specs.Edits.{count_of, moved_at, total, with_count};
ghost use Rattle.pfl_desk.specs.inner.Drafting.{Makes, MakesIf};
ghost use Rattle.pfl_desk.specs.inner.Kept.{MayAdd, MayMark, MayReplace, Replaces, timeout_by};
ghost use Rattle.pfl_desk.specs.Nodes.{Node as Whole, IsGiven, AreParts, AskedAt, ServesSince, is_overfull, last_millisecond};
ghost use Rattle.pfl_queue.specs.Queues.{most_numbers};

use crate::edit::{Counter, MotionEdit, NodeEdit, StateEdit};
use crate::parts::Parts;
use crate::parts::judge::Overfull;
use pfl_base::{Class, Millis, Packet, StateName};
use pfl_bulk::{BulkClient, BulkServer};
use pfl_queue::Kind;
use pfl_table::{Row, Slot};
use pfl_track::{Motion, State};
use std::alloc::Allocator;

impl<A: Allocator> Parts<A> {
    /// Adds a state under a name that no state has.
    pub(crate) fn add_state(&mut self, state: State) -> NodeEdit
        requires parts { AreParts (to.put_state self.old state) }
        requires may { MayAdd self.old state }
        ensures node { self.new ≡ to.put_state self.old state }
        ensures makes { Makes (result ∷ []) self.old self.new }
    {
        let timeout = self.rule_timeout(&state);
        self.table.add(&state, timeout);
        NodeEdit::OfState(StateEdit {
            name: state.name(),
            before: None,
            after: Some(state),
        })
    }

    /// Puts a state in the place of one of its name and keys, which may stand at this slot. There is no edit where it is the same one.
    pub(crate) fn replace_state(&mut self, slot: Slot, state: State) -> Option<NodeEdit>
        requires may { MayReplace self.old state }
        ensures node { self.new ≡ to.put_state self.old state }
        ensures makes { MakesIf result self.old self.new }
    {
        self.known();
        let edit = self.replaced_by(slot, &state)?;
        let name = state.name();
        if let Some(moved) = moved_in(&edit) {
            self.set_motion(moved.slot, name, moved.after);
            return Some(edit);
        }
        self.set_state(name, Some(state));
        Some(edit)
    }

    /// What is recorded where a state takes the place of one of its name and keys, which may stand at this slot.
    fn replaced_by(&self, slot: Slot, state: &State) -> Option<NodeEdit>
        requires may { MayReplace self.now state.now }
        ensures same { IfNone result (maps.get self.now.states state.now.name ≡ Some state.now) }
        ensures replaced { IfSome result (λ edit. (former : State) × (maps.get self.now.states state.now.name ≡ Some former) × Replaces former state.now edit) }
    {
        let Some((slot, row)) = self.table.row_at(slot, state.name()) else {
            unreachable!();
        };
        replacement(slot, &row.state, state)
    }

    /// Takes the state of a name out, which may stand at this slot. There is no edit where there is no state.
    pub(crate) fn take_state(&mut self, slot: Slot, name: StateName) -> Option<NodeEdit>
        requires parts { AreParts (to.without_state self.old name) }
        ensures node { self.new ≡ to.without_state self.old name }
        ensures makes { MakesIf result self.old self.new }
    {
        let state = self.table.take_at(slot, name)?;
        Some(NodeEdit::OfState(StateEdit {
            name,
            before: Some(state),
            after: None,
        }))
    }

    /// Sets what stands under a name.
    pub(crate) fn set_state(&mut self, name: StateName, at: Option<State>)
        requires node { AreParts (record self.old { states = set_at self.old.states name at }) }
        ensures node { self.new ≡ record self.old { states = set_at self.old.states name at } }
    {
        let timeout = self.timeout_of(&at);
        self.table.set(name, at, timeout);
    }

    /// Moves the state of a name so, if there is one: it may stand at this slot.
    pub(crate) fn set_motion(&mut self, slot: Slot, name: StateName, motion: Motion)
        requires node { AreParts (record self.old { states = moved_at self.old.states name motion }) }
        ensures node { self.new ≡ record self.old { states = moved_at self.old.states name motion } }
    {
        let Some((slot, row)) = self.table.row_at(slot, name) else {
            return;
        };
        let timeout = self.timeout_after(row, motion.class);
        self.table.move_at(slot, name, &motion, timeout);
    }

    /// The timeout of a row of the table under another class, in seconds.
    fn timeout_after(&self, row: &Row, class: Class) -> u32
        requires timely { row.now.timeout ≡ timeout_by self.now.rules row.now.state }
        ensures timeout { result ≡ timeout_by self.now.rules (record row.now.state { class = class }) }
    {
        if row.state.class() == class {
            row.timeout
        } else {
            self.rules.timeout(row.state.rule(), class)
        }
    }

    /// Files states that were used since they were filed for expiry, until the one that expires first is filed at its last use, where
    /// timeouts are scaled for that many states. It changes nothing that is seen of the node.
    pub(crate) fn order_expiries(&mut self, states: usize)
        ensures same { self.new ≡ self.old }
    {
        let adaptive = self.limits.adaptive();
        self.table.settle_first(adaptive, states);
    }

    /// The timeout of the state under the node's rules, if it is one, in seconds.
    fn timeout_of(&self, at: &Option<State>) -> u32
        ensures timeout { IfSome at.now (λ s. result ≡ timeout_by self.now.rules s) }
    {
        match at {
            Some(state) => self.rule_timeout(state),
            None => 0,
        }
    }

    /// The timeout of a state under the node's rules, in seconds.
    fn rule_timeout(&self, state: &State) -> u32
        ensures timeout { result ≡ timeout_by self.now.rules state.now }
    {
        self.rules.timeout(state.rule(), state.class())
    }

    /// Puts a name on a queue, with the next number.
    pub(crate) fn mark(&mut self, name: StateName, kind: Kind) -> Result<NodeEdit, Overfull>
        requires countable { total self.old < most_numbers }
        requires may { MayMark self.old name kind }
        ensures full { OnErr result (is_overfull (to.mark self.old name kind) ≡ true) }
        ensures unchanged { OnErr result (self.new ≡ self.old) }
        ensures node { OnOk result (self.new ≡ to.mark self.old name kind) }
        ensures makes { IfOk result (λ edit. Makes (edit ∷ []) self.old self.new) }
    {
        let Ok(edit) = self.queue.mark_on(name, kind) else {
            return Err(Overfull);
        };
        Ok(NodeEdit::OfQueue(edit))
    }

    /// Takes a name off its queue. There is no edit where it is on none.
    pub(crate) fn unmark(&mut self, name: StateName) -> Option<NodeEdit>
        ensures node { self.new ≡ to.unmark self.old name }
        ensures makes { MakesIf result self.old self.new }
    {
        let edit = self.queue.unmark(name)?;
        Some(NodeEdit::OfQueue(edit))
    }

    /// Wants a frame soon from now on, or no more. There is no edit where it is so already.
    pub(crate) fn set_push(&mut self, wanted: bool) -> Option<NodeEdit>
        ensures node { self.new ≡ record self.old { push = wanted } }
        ensures makes { MakesIf result self.old self.new }
    {
        let before = self.push;
        if before == wanted {
            return None;
        }
        self.push = wanted;
        Some(NodeEdit::Push {
            before,
            after: wanted,
        })
    }

    /// Holds a packet of a name from now on, where there is room.
    pub(crate) fn keep(&mut self, name: StateName, packet: &Packet) -> NodeEdit
        requires given { IsGiven self.old name }
        requires free { length self.old.held.list < self.old.held.limit }
        requires fresh { held_of self.old.held name ≡ None }
        ensures node { self.new ≡ record self.old { held = with_held self.old.held name packet.now self.old.clock } }
        ensures makes { Makes (result ∷ []) self.old self.new }
    {
        let now = self.clock;
        let (_, edits) = self.held.hold(name, *packet, now);
        NodeEdit::OfHeld(edits.held)
    }

    /// Lets the packet of a name go, if one is held.
    pub(crate) fn let_go(&mut self, name: StateName) -> Option<NodeEdit>
        ensures held { is_some result ≡ to.is_held self.old name }
        ensures node { MatchOption result (self.new ≡ self.old) (λ edit. self.new ≡ to.without_held self.old name) }
        ensures makes { MakesIf result self.old self.new }
    {
        let (_, edit) = self.held.release(name)?;
        Some(NodeEdit::OfHeld(edit))
    }

    /// Counts one more.
    pub(crate) fn count(&mut self, counter: Counter) -> NodeEdit
        requires countable { total self.old < most_numbers }
        ensures node { self.new ≡ record self.old { counters = with_count counter self.old.counters (count_of counter self.old.counters + 1) } }
        ensures makes { Makes (result ∷ []) self.old self.new }
    {
        let before = self.counters.get(counter);
        let after = before + 1;
        self.counters.set(counter, after);
        NodeEdit::Count {
            counter,
            before,
            after,
        }
    }

    /// Takes the next id.
    pub(crate) fn use_id(&mut self) -> NodeEdit
        requires countable { total self.old < most_numbers }
        ensures node { self.new ≡ record self.old { next_id = self.old.next_id + 1 } }
        ensures makes { Makes (result ∷ []) self.old self.new }
    {
        let before = self.next_id;
        let after = before + 1;
        self.next_id = after;
        NodeEdit::NextId { before, after }
    }

    /// Sets where the bulk server stands. There is no edit where it stands there already.
    pub(crate) fn set_server(&mut self, server: BulkServer) -> Option<NodeEdit>
        requires past { ServesSince self.old server }
        ensures node { self.new ≡ record self.old { server = server } }
        ensures makes { MakesIf result self.old self.new }
    {
        let before = self.server;
        if before == server {
            return None;
        }
        self.server = server;
        Some(NodeEdit::Server {
            before,
            after: server,
        })
    }

    /// Sets where the bulk client stands. There is no edit where it stands there already.
    pub(crate) fn set_client(&mut self, client: BulkClient) -> Option<NodeEdit>
        requires past { AskedAt self.old client }
        ensures node { self.new ≡ record self.old { client = client } }
        ensures makes { MakesIf result self.old self.new }
    {
        let before = self.client;
        if before == client {
            return None;
        }
        self.client = client;
        Some(NodeEdit::Client {
            before,
            after: client,
        })
    }

    /// Sets the clock.
    pub(crate) fn set_clock(&mut self, clock: Millis) -> NodeEdit
        requires later { self.old.clock ≤ clock }
        requires within { clock ≤ last_millisecond }
        ensures node { self.new ≡ record self.old { clock = clock } }
        ensures makes { Makes (result ∷ []) self.old self.new }
    {
        let before = self.clock;
        self.clock = clock;
        NodeEdit::Clock {
            before,
            after: clock,
        }
    }
}

/// What is recorded where a state takes the place of one of its name and keys: nothing where it is the same one, and what moved where
/// nothing else changed.
fn replacement(slot: Slot, former: &State, state: &State) -> Option<NodeEdit>
    requires name { state.now.name ≡ former.now.name }
    requires wire { state.now.wire ≡ former.now.wire }
    requires stack { state.now.stack ≡ former.now.stack }
    ensures { MatchOption result (state.now ≡ former.now) (Replaces former.now state.now) }
{
    let name = state.name();
    if !state.only_moved(former) {
        return Some(NodeEdit::OfState(StateEdit {
            name,
            before: Some(*former),
            after: Some(*state),
        }));
    }
    let (before, after) = (former.motion(), state.motion());
    if after.same(&before) {
        return None;
    }
    Some(NodeEdit::Moved(MotionEdit {
        name,
        slot,
        before,
        after,
    }))
}

/// What packets moved of a state, where the edit says no more.
fn moved_in(edit: &NodeEdit) -> Option<MotionEdit>
    ensures { IfSome result (λ moved. edit.now ≡ Moved moved) }
{
    if let NodeEdit::Moved(moved) = *edit {
        Some(moved)
    } else {
        None
    }
}
