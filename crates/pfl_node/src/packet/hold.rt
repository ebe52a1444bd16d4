//! A packet that is held back until the peer knows of its state (ifconfig(8), `defer`).

ghost use Rattle.std.specs.Prelude.{◌≡◌, ◌≤◌, ◌<◌, None, Some, length, true};
ghost use Rattle.pfl_receive.specs.defer.Deferring as deferring;
ghost use Rattle.pfl_edits.specs.Maps as maps;
ghost use Rattle.pfl_receive.specs.desk.Drafts.{Writes};
ghost use Rattle.pfl_receive.specs.desk.inner.Kept.{MayReplace};
ghost use Rattle.pfl_receive.specs.desk.Nodes.{Node as Whole, AreParts};
ghost use Rattle.pfl_node.specs.Starting as starting;

use pfl_base::{Dir, Packet};
use pfl_language::Fate;
use pfl_receive::{Desk, Parts, Slot};
use pfl_track::State;
use std::alloc::Allocator;

/// A packet is held on its way out, where deferring is on.
pub(crate) fn is_deferred<A: Allocator>(parts: &Parts<A>, dir: Dir) -> bool
    ensures deferred { result ≡ starting.is_deferred parts.now dir }
{
    match dir {
        Dir::Outbound => parts.limits().defer,
        Dir::Inbound => false,
    }
}

/// Holds the packet of a new state that is announced to the peer. A full list lets its oldest packet go.
pub(crate) fn hold_back<A: Allocator>(desk: &mut Desk<A>, state: State, packet: &Packet) -> Fate
    requires room { 6 ≤ desk.old.edits.spare }
    requires parts { AreParts desk.old.node }
    requires stands { maps.get desk.old.node.states state.name ≡ Some state }
    requires fresh { deferring.held_of desk.old.node.held state.name ≡ None }
    ensures step { record { fate = result; node = desk.new.node } ≡ starting.hold (starting.with_room desk.old.node) state packet.now }
    ensures writes { Writes 6 desk.old desk.new }
{
    let waiting = state.with_ack_wanted(true);
    make_room(desk);
    hold(desk, waiting, packet)
}

/// Lets the oldest packet go, if as many are held as may be.
fn make_room<A: Allocator>(desk: &mut Desk<A>)
    requires room { 3 ≤ desk.old.edits.spare }
    ensures node { desk.new.node ≡ starting.with_room desk.old.node }
    ensures writes { Writes 3 desk.old desk.new }
{
    let Some(held) = desk.parts().held().pushed_out() else {
        return;
    };
    desk.release(held.name);
}

/// Holds the first packet of a state, which waits for the peer, where there is room.
fn hold<A: Allocator>(desk: &mut Desk<A>, waiting: State, packet: &Packet) -> Fate
    requires room { 3 ≤ desk.old.edits.spare }
    requires waits { waiting.ack_wanted ≡ true }
    requires known { MayReplace desk.old.node waiting }
    requires free { length desk.old.node.held.list < desk.old.node.held.limit }
    requires fresh { deferring.held_of desk.old.node.held waiting.name ≡ None }
    ensures step { record { fate = result; node = desk.new.node } ≡ starting.hold desk.old.node waiting packet.now }
    ensures writes { Writes 3 desk.old desk.new }
{
    let name = waiting.name();
    desk.keep(name, packet);
    desk.replace_state(Slot::UNKNOWN, waiting);
    desk.push_if(true);
    Fate::Held(name)
}
