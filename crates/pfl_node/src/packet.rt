//! A packet at a node (pf.c).

mod hold;
pub(crate) mod ruling;
pub(crate) mod start;

ghost use Rattle.std.specs.Prelude.{◌≡◌, ◌≤◌, ◌<◌, ◌+◌, [], ◌∷◌, None, Some, false, IfOk, IfErr, OnOk, OnErr, length};
ghost use Rattle.pfl_base.specs.Keys.{key as flow_of};
ghost use Rattle.pfl_base.specs.Packets.{IsPacket};
ghost use Rattle.pfl_edits.specs.Maps as maps;
ghost use Rattle.pfl_receive.specs.desk.Changes as to;
ghost use Rattle.pfl_language.specs.declared.node_event.NodeOutcome.TheVariants as outcome;
ghost use Rattle.pfl_node.specs.Weights.{packet_edits};
ghost use Rattle.pfl_node.specs.inner.Carried.{Carries, Handles, IsIdle, Tried};
ghost use Rattle.pfl_receive.specs.desk.inner.Kept.{MayReplace};
ghost use Rattle.pfl_receive.specs.desk.Nodes.{Node as Whole, AreParts};
ghost use Rattle.pfl_node.specs.Packets.{handled, packet_meaning, packet_points, followed, on_the_way, accepted, tracked_at};
ghost use Rattle.pfl_node.specs.Starting.{judged, pass};
ghost use Rattle.pfl_receive.specs.table.Tables.{found};

use crate::packet::start::{drop_packet, judge, pass};
use pfl_base::{Dir, Packet, Refusal, key};
use pfl_language::{Fate, Reason};
use pfl_receive::{Desk, Overfull, Slot, judged};
use pfl_track::{State, Tracked, track_by};
use std::alloc::Allocator;

/// What becomes of a packet that comes to the node, or leaves its host.
pub(crate) fn packet<A: Allocator>(
    desk: &mut Desk<A>,
    dir: Dir,
    packet: &Packet,
) -> Result<Fate, Refusal>
    requires idle { IsIdle desk.old }
    ensures { Carries packet_edits (packet_meaning desk.old.node dir packet.now) outcome.Handled result desk.old desk.new }
{
    judged(handle(desk, dir, packet))
}

/// What becomes of a packet, and whether at one of its points a number was too high.
fn handle<A: Allocator>(
    desk: &mut Desk<A>,
    dir: Dir,
    packet: &Packet,
) -> Result<(Fate, bool), Overfull>
    requires parts { AreParts desk.old.node }
    requires room { 14 ≤ desk.old.edits.spare }
    ensures done { Handles result desk.old desk.new (handled desk.old.node dir packet.now) (packet_points desk.old.node dir packet.now) }
{
    let Some((slot, state)) = desk.parts().states().find(&key(packet, dir), dir) else {
        let fate = judge(desk, dir, packet)?;
        return Ok((fate, desk.is_overcounted()));
    };
    let state = *state;
    follow(desk, slot, &state, dir, packet)
}

/// A packet of a state, which may stand at this slot.
fn follow<A: Allocator>(
    desk: &mut Desk<A>,
    slot: Slot,
    state: &State,
    dir: Dir,
    packet: &Packet,
) -> Result<(Fate, bool), Overfull>
    requires parts { AreParts desk.old.node }
    requires packet { IsPacket packet.now }
    requires found { found desk.old.node.states (flow_of packet.now dir) dir ≡ Some state.now }
    requires room { 14 ≤ desk.old.edits.spare }
    ensures done { Handles result desk.old desk.new
        (followed desk.old.node dir packet.now state.now (tracked_at desk.old.node state.now packet.now dir))
        ((followed desk.old.node dir packet.now state.now (tracked_at desk.old.node state.now packet.now dir)).node
        ∷ on_the_way desk.old.node state.now (tracked_at desk.old.node state.now packet.now dir)) }
{
    let parts = desk.parts();
    match track_by(parts.kernel(), state, packet, dir, parts.clock()) {
        Tracked::Moved(state) => {
            let fate = accept(desk, slot, state)?;
            Ok((fate, desk.is_overcounted()))
        }
        Tracked::OutOfWindow => {
            let fate = drop_packet(desk, Reason::Window);
            Ok((fate, desk.is_overcounted()))
        }
        Tracked::Reused => reuse(desk, slot, state, dir, packet),
    }
}

/// A packet was accepted on a state, which then is this one, and may stand at this slot.
fn accept<A: Allocator>(desk: &mut Desk<A>, slot: Slot, state: State) -> Result<Fate, Overfull>
    requires room { 6 ≤ desk.old.edits.spare }
    requires known { MayReplace desk.old.node state }
    ensures done { Tried 6 result desk.old desk.new (accepted desk.old.node state) }
{
    let name = state.name();
    desk.free(name);
    desk.change_state(slot, state.with_ack_wanted(false))?;
    Ok(pass(desk, Some(name)))
}

/// A new connection over a closed one: the state of that is deleted, and the packet is one that no state takes.
fn reuse<A: Allocator>(
    desk: &mut Desk<A>,
    slot: Slot,
    closed: &State,
    dir: Dir,
    packet: &Packet,
) -> Result<(Fate, bool), Overfull>
    requires packet { IsPacket packet.now }
    requires stands { maps.get desk.old.node.states closed.now.name ≡ Some closed.now }
    requires room { 14 ≤ desk.old.edits.spare }
    ensures done { Handles result desk.old desk.new (judged (to.deleted desk.old.node closed.now) dir packet.now)
        ((judged (to.deleted desk.old.node closed.now) dir packet.now).node ∷ to.deleted desk.old.node closed.now ∷ []) }
{
    desk.delete(slot, closed)?;
    let before = desk.is_overcounted();
    let fate = judge(desk, dir, packet)?;
    Ok((fate, desk.is_overcounted() | before))
}
