//! What stands against events that are refused, as data.

ghost use Rattle.std.specs.Prelude.{◌≡◌};
ghost use Rattle.std.specs.Option.{option_map};
ghost use Rattle.pfl_edits.specs.Maps as maps;
ghost use Rattle.pfl_link.specs.Links.{InFlight};
ghost use Rattle.pfl_reasons.specs.Against as meant;

use pfl_base::{LAST_MILLISECOND, Millis, NodeId, Refusal};
use pfl_bulk::BulkClient;
use pfl_language::{Event, NodeEvent};
use pfl_world::{Parts, World};
use std::alloc::Allocator;

/// What stands against an event that is refused, in numbers, as the pair is before the event.
#[derive(Clone, Copy, Debug, PartialEq, Eq)]
pub enum Against {
    /// No frame in flight has the ticket. The next frame gets this one.
    Ticket { next: u32 },
    /// The link carries as many frames as it may.
    Frames { limit: usize, frames: usize },
    /// At some point of the event more would be pending at the node than may be; before the event it is this many.
    Pending { limit: usize, pending: usize },
    /// The node's clock would pass the last millisecond that it can reach.
    Clock { clock: Millis, last: Millis },
    /// It is too early by the node's clock: the oldest packet that the node holds may go out, or its client may ask again, only then.
    Due { clock: Millis, due: Millis },
    /// No numbers: the refusal says it all.
    Nothing,
}

/// What stands against the event, where it is refused for this.
#[tactic(auto, unfolding(crate::specs::Against::against))]
pub(crate) fn against_of<A: Allocator>(world: &World<A>, event: &Event, why: Refusal) -> Against
    ensures { result ≡ meant.against world.now event.now why }
{
    match why {
        Refusal::NoSuchFrame => Against::Ticket {
            next: world.link().next(),
        },
        Refusal::LinkFull => Against::Frames {
            limit: world.link().limit(),
            frames: world.link().len(),
        },
        Refusal::QueueFull => pending_against(world, event),
        Refusal::ClockFull => clock_against(world, event),
        Refusal::TooEarly => due_against(world, event),
        _ => Against::Nothing,
    }
}

/// The node that the event is about: its own, or the receiver of its frame, if that is in flight.
fn node_of<A: Allocator>(world: &World<A>, event: &Event) -> Option<NodeId>
    ensures { result ≡ meant.node_of world.now event.now }
{
    match event {
        Event::At { node, .. } | Event::Flush { node } | Event::Restart { node } => Some(*node),
        Event::Of { ticket, .. } => receiver(world, *ticket),
    }
}

/// The receiver of the frame, if it is in flight.
fn receiver<A: Allocator>(world: &World<A>, ticket: u32) -> Option<NodeId>
    ensures { result ≡ option_map (λ (f : InFlight). f.to) (maps.get world.now.link.frames ticket) }
{
    match world.link().get(ticket) {
        Some(frame) => Some(frame.to()),
        None => None,
    }
}

/// What is pending at the event's node, and how much may be.
fn pending_against<A: Allocator>(world: &World<A>, event: &Event) -> Against
    ensures { result ≡ meant.at_its_node world.now event.now meant.pending_against }
{
    let Some(id) = node_of(world, event) else {
        return Against::Nothing;
    };
    let queue = world.node(id).parts().queue();
    Against::Pending {
        limit: queue.limit(),
        pending: queue.len(),
    }
}

/// The clock of the event's node, and the last millisecond that it can reach.
fn clock_against<A: Allocator>(world: &World<A>, event: &Event) -> Against
    ensures { result ≡ meant.at_its_node world.now event.now meant.clock_against }
{
    let Some(id) = node_of(world, event) else {
        return Against::Nothing;
    };
    Against::Clock {
        clock: world.node(id).parts().clock(),
        last: LAST_MILLISECOND,
    }
}

/// When the time of the event comes, if it has one.
fn due_against<A: Allocator>(world: &World<A>, event: &Event) -> Against
    ensures { result ≡ meant.due_against world.now event.now }
{
    match event {
        Event::At { node, event } => due_at(world.node(*node).parts(), event),
        _ => Against::Nothing,
    }
}

/// When the time of an event at the node comes, if it has one.
fn due_at<A: Allocator>(node: &Parts<A>, event: &NodeEvent) -> Against
    ensures { result ≡ meant.due_at node.now event.now }
{
    match event {
        NodeEvent::Release => release_against(node),
        NodeEvent::BulkRetry => asking_against(node),
        _ => Against::Nothing,
    }
}

/// When the oldest packet may go out that the node holds, if it holds one.
fn release_against<A: Allocator>(node: &Parts<A>) -> Against
    ensures { result ≡ meant.release_against node.now }
{
    node.known();
    match node.held().as_slice().first() {
        Some(held) => Against::Due {
            clock: node.clock(),
            due: held.held_at + Millis::from(node.limits().defer_ms),
        },
        None => Against::Nothing,
    }
}

/// When the node's client may ask again, if it waits.
fn asking_against<A: Allocator>(node: &Parts<A>) -> Against
    ensures { result ≡ meant.asking_against node.now node.now.client }
{
    node.known();
    match node.client() {
        BulkClient::Waiting { asked, .. } => Against::Due {
            clock: node.clock(),
            due: asked + Millis::from(node.limits().bulk_ms),
        },
        BulkClient::Idle => Against::Nothing,
    }
}
