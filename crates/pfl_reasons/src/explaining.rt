//! Explanations of events.

ghost use Rattle.std.specs.Prelude.{◌≡◌, IfOk, IsOk, OnErr};
ghost use Rattle.pfl_world.specs.Events.{step};
ghost use Rattle.pfl_world.specs.Worlds.{node_at};
ghost use Rattle.pfl_reasons.specs.Explaining.{came_of, explained, explained_at, explained_of, explained_of_frame, explained_outcome};
ghost use Rattle.pfl_language.specs.declared.event.FrameEvent.TheVariants as frame;
ghost use Rattle.pfl_language.specs.declared.node_event.NodeEvent.TheVariants as at_node;

use crate::against::against_of;
use crate::expiry::expiries;
use crate::explained::Explained;
use crate::packet::packet_reason;
use crate::records::fates_of;
use pfl_base::{NodeId, Refusal};
use pfl_edits::NoMemory;
use pfl_language::{Event, FrameEvent, NodeEvent, Outcome};
use pfl_wire::FrameBytes;
use pfl_world::{Parts, World};
use std::alloc::Allocator;

/// What would come of an event, its outcome or its refusal, and why. The world stays as it is, whatever the answer. `alloc` lends
/// memory, which an event that is refused does not need.
pub fn explain<A: Allocator + Copy>(
    alloc: A,
    world: &mut World<A>,
    event: &Event,
) -> Result<(Result<Outcome, Refusal>, Explained<A>), NoMemory>
    ensures came { IfOk result (λ r. r.0 ≡ came_of (step world.old event.now)) }
    ensures explained { IfOk result (λ r. explained_of r.1 ≡ explained world.old event.now) }
    ensures memory { OnErr result (IsOk (step world.old event.now)) }
    ensures still { world.new ≡ world.old }
{
    match world.apply(event) {
        Ok((outcome, change)) => {
            world.revert(change);
            let reason = reason_of(alloc, world, event)?;
            Ok((Ok(outcome), reason))
        }
        Err(why) => match why {
            Refusal::NoMemory => Err(NoMemory),
            _ => Ok((Err(why), Explained::Stopped(against_of(world, event, why)))),
        },
    }
}

/// Why an event that is accepted has its outcome.
fn reason_of<A: Allocator + Copy>(
    alloc: A,
    world: &mut World<A>,
    event: &Event,
) -> Result<Explained<A>, NoMemory>
    ensures explained { IfOk result (λ r. explained_of r ≡ explained_outcome world.old event.now) }
    ensures still { world.new ≡ world.old }
{
    match event {
        Event::At { node, event } => reason_at(alloc, world, *node, event),
        Event::Of { ticket, event } => reason_of_frame(alloc, world, *ticket, event),
        _ => Ok(Explained::Plain),
    }
}

/// Why an event of a frame in flight has its outcome.
fn reason_of_frame<A: Allocator + Copy>(
    alloc: A,
    world: &mut World<A>,
    ticket: u32,
    event: &FrameEvent,
) -> Result<Explained<A>, NoMemory>
    ensures explained { IfOk result (λ r. explained_of r ≡ explained_of_frame world.old ticket event.now) }
    ensures still { world.new ≡ world.old }
{
    match event {
        FrameEvent::Deliver => reason_of_delivery(alloc, world, ticket),
        _ => Ok(Explained::Plain),
    }
}

/// Why an event at a node by itself has its outcome.
fn reason_at<A: Allocator + Copy>(
    alloc: A,
    world: &mut World<A>,
    node: NodeId,
    event: &NodeEvent,
) -> Result<Explained<A>, NoMemory>
    ensures explained { IfOk result (λ r. explained_of r ≡ explained_at (node_at world.old node) event.now) }
    ensures still { world.new ≡ world.old }
{
    match event {
        NodeEvent::Packet { dir, packet } => {
            let reason = packet_reason(world, node, *dir, packet)?;
            Ok(Explained::Packet(reason))
        }
        NodeEvent::Purge => purge_reason(alloc, world.node(node).parts()),
        _ => Ok(Explained::Plain),
    }
}

/// What a purge looks at.
fn purge_reason<A: Allocator + Copy>(alloc: A, node: &Parts<A>) -> Result<Explained<A>, NoMemory>
    ensures explained { IfOk result (λ r. explained_of r ≡ explained_at node.now at_node.Purge) }
{
    node.known();
    let list = expiries(alloc, node)?;
    Ok(Explained::Expiries {
        clock: node.clock(),
        states: node.states().len(),
        adaptive: node.limits().adaptive(),
        list,
    })
}

/// What becomes of the records of a frame in flight, where it can be read.
fn reason_of_delivery<A: Allocator + Copy>(
    alloc: A,
    world: &mut World<A>,
    ticket: u32,
) -> Result<Explained<A>, NoMemory>
    ensures explained { IfOk result (λ r. explained_of r ≡ explained_of_frame world.old ticket frame.Deliver) }
    ensures still { world.new ≡ world.old }
{
    let Some(frame) = world.link().get(ticket) else {
        return Ok(Explained::Plain);
    };
    // The receiver takes the records until that is undone, so the bytes are copied.
    let to = frame.to();
    let bytes = Vec::from_slice(alloc, frame.bytes().as_slice())?;
    match FrameBytes::read(bytes.as_slice()) {
        Ok(frame) => Ok(Explained::Records(fates_of(alloc, world, to, &frame)?)),
        Err(_) => Ok(Explained::Plain),
    }
}
