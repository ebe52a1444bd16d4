//! Why packets have their fates: by a state, or by rules (pf.c, pf.conf(5)).

ghost use Rattle.std.specs.Prelude.{◌≡◌, true, None, Some, IfOk, if◌then◌else◌};
ghost use Rattle.pfl_base.specs.Keys.{key as flow_of};
ghost use Rattle.pfl_base.specs.Packets.{IsPacket};
ghost use Rattle.pfl_edits.specs.Maps as maps;
ghost use Rattle.pfl_world.specs.desk.Changes.{deleted};
ghost use Rattle.pfl_world.specs.node.Starting as starting;
ghost use Rattle.pfl_world.specs.table.Tables.{by_stack, by_wire};
ghost use Rattle.pfl_world.specs.table.Translating.{fits_translation};
ghost use Rattle.pfl_world.specs.Worlds.{node_at};
ghost use Rattle.pfl_reasons.specs.Packets as meant;

use crate::packet_reason::{Judged, PacketReason};
use pfl_base::{Dir, Kernel, NodeId, Packet, Proto, key};
use pfl_edits::NoMemory;
use pfl_language::{Event, NodeEvent};
use pfl_track::{Judgement, State, Tracked, track_by, window_test_by};
use pfl_world::{Parts, Ruling, World, ask_rules};
use std::alloc::Allocator;

/// Why a packet has its fate at the node.
pub(crate) fn packet_reason<A: Allocator + Copy>(
    world: &mut World<A>,
    id: NodeId,
    dir: Dir,
    packet: &Packet,
) -> Result<PacketReason, NoMemory>
    ensures reason { IfOk result (λ r. r ≡ meant.packet_reason (node_at world.old id) dir packet.now) }
    ensures still { world.new ≡ world.old }
{
    let node = world.node(id).parts();
    node.known();
    let Some(state) = node.states().found(&key(packet, dir), dir).copied() else {
        let judged = judged(node, dir, packet);
        return Ok(PacketReason::ByRules {
            closed: None,
            judged,
        });
    };
    let kernel = node.kernel();
    match track_by(kernel, &state, packet, dir, node.clock()) {
        Tracked::Reused => reuse_reason(world, id, &state, dir, packet),
        _ => Ok(PacketReason::OfState {
            name: state.name(),
            judgement: tested(kernel, &state, packet, dir),
        }),
    }
}

/// What the packet of the state is tested against, for TCP.
fn tested(kernel: Kernel, state: &State, packet: &Packet, dir: Dir) -> Option<Judgement>
    ensures { result ≡ meant.tested kernel state.now dir packet.now }
{
    match packet.proto() {
        Proto::Tcp => Some(window_test_by(kernel, state, packet, dir)),
        Proto::Udp | Proto::Icmp | Proto::Other(_) => None,
    }
}

/// A new connection over a closed one: the rules decide as if that had been killed, so it is killed, and then this is undone.
fn reuse_reason<A: Allocator + Copy>(
    world: &mut World<A>,
    id: NodeId,
    closed: &State,
    dir: Dir,
    packet: &Packet,
) -> Result<PacketReason, NoMemory>
    requires packet { IsPacket packet.now }
    requires stands { maps.get (node_at world.old id).states closed.now.name ≡ Some closed.now }
    ensures reason { IfOk result (λ r. r
        ≡ PacketReason.ByRules (Some closed.now.name) (meant.judged_reason (deleted (node_at world.old id) closed.now) dir packet.now)) }
    ensures still { world.new ≡ world.old }
{
    let name = closed.name();
    let kill = Event::At {
        node: id,
        event: NodeEvent::Kill { name },
    };
    // The packet is accepted, and so is this, since the packet does as much: only memory can be wanting.
    let Ok((_, change)) = world.apply(&kill) else {
        return Err(NoMemory);
    };
    let judged = judged(world.node(id).parts(), dir, packet);
    world.revert(change);
    Ok(PacketReason::ByRules {
        closed: Some(name),
        judged,
    })
}

/// What the rules make of a packet that no state takes.
#[tactic(auto, unfolding(crate::specs::Packets::judged_reason))]
fn judged<A: Allocator>(node: &Parts<A>, dir: Dir, packet: &Packet) -> Judged
    requires packet { IsPacket packet.now }
    ensures { result ≡ meant.judged_reason node.now dir packet.now }
{
    shown(&ask_rules(node, dir, packet))
}

/// What is shown of what the rules make of a packet.
fn shown(ruling: &Ruling) -> Judged
    ensures { result ≡ meant.shown_ruling ruling.now }
{
    match *ruling {
        Ruling::Unmatched => Judged::Unmatched,
        Ruling::Blocked { rule } => Judged::Blocked { rule },
        Ruling::AtMax { rule, most, states } => Judged::AtMax { rule, most, states },
        Ruling::Full {
            rule,
            limit,
            states,
        } => Judged::Full {
            rule,
            limit,
            states,
        },
        Ruling::WireInUse { rule, name } => Judged::WireInUse { rule, name },
        Ruling::StackInUse { rule, name } => Judged::StackInUse { rule, name },
        Ruling::Starts { rule, state } => Judged::Makes {
            rule,
            name: state.name(),
        },
    }
}
