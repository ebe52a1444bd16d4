//! The order in which events that commute are tried.

ghost use Rattle.std.specs.Prelude.{◌≡◌};
ghost use Rattle.pfl_search.specs.Orders.{comes_first, frame_rank, in_phase, is_in_turn, kind_of, last_of, may_pass, node_rank, rank, stood_at};

use pfl_base::NodeId;
use pfl_language::{Event, FrameEvent};
use pfl_world::World;
use std::alloc::Allocator;

/// What the order of an event depends on.
#[derive(Clone, Copy, Debug, PartialEq, Eq)]
pub enum EventKind {
    /// It happens at a node by itself.
    AtNode,
    /// A node sends a frame, under the next ticket.
    Flush,
    /// A frame comes to its receiver.
    Delivery,
    /// A frame is lost.
    Loss,
    /// A node begins anew, with the next boot number.
    Restart,
    /// A frame is copied or cut: it keeps its place among the others.
    Fixed,
}

/// What is kept of the event that came last.
#[derive(Clone, Copy, Debug)]
pub struct Last {
    /// Of two events that commute that of the lower rank is tried first.
    pub rank: u64,
    /// Its kind.
    pub kind: EventKind,
    /// The next ticket when it came.
    pub next: u32,
}

/// The kind of an event.
fn kind_of(event: &Event) -> EventKind
    ensures { result ≡ kind_of event.now }
{
    match event {
        Event::At { .. } => EventKind::AtNode,
        Event::Flush { .. } => EventKind::Flush,
        Event::Of { event, .. } => match event {
            FrameEvent::Deliver => EventKind::Delivery,
            FrameEvent::Lose => EventKind::Loss,
            FrameEvent::Repeat | FrameEvent::Cut { .. } => EventKind::Fixed,
        },
        Event::Restart { .. } => EventKind::Restart,
    }
}

/// The rank of what happens at the node.
fn node_rank(node: NodeId) -> u64
    ensures { result ≡ node_rank node }
{
    match node {
        NodeId::A => 4_294_967_296,
        NodeId::B => 4_294_967_297,
    }
}

/// The rank of what happens to the frame in flight under the ticket.
fn frame_rank<A: Allocator>(world: &World<A>, ticket: u32, event: &FrameEvent) -> u64
    ensures { result ≡ frame_rank world.now ticket event.now }
{
    match event {
        FrameEvent::Deliver => match world.link().get(ticket) {
            Some(frame) => node_rank(frame.to()),
            None => 0,
        },
        _ => u64::from(ticket),
    }
}

/// The rank of an event.
fn rank<A: Allocator>(world: &World<A>, event: &Event) -> u64
    ensures { result ≡ rank world.now event.now }
{
    match event {
        Event::At { node, .. } => node_rank(*node),
        Event::Flush { node } => node_rank(*node),
        Event::Of { ticket, event } => frame_rank(world, *ticket, event),
        Event::Restart { node } => node_rank(*node),
    }
}

/// What is kept of an event that comes in this world.
pub(crate) fn last_of<A: Allocator>(world: &World<A>, event: &Event) -> Last
    ensures { result ≡ last_of world.now event.now }
{
    Last {
        rank: rank(world, event),
        kind: kind_of(event),
        next: world.link().next(),
    }
}

/// Whether an event of the second kind may come before one of the first, at another node or frame.
fn may_pass(last: EventKind, kind: EventKind) -> bool
    ensures { result ≡ may_pass last kind }
{
    match last {
        EventKind::AtNode | EventKind::Loss => match kind {
            EventKind::Fixed => false,
            _ => true,
        },
        EventKind::Flush | EventKind::Delivery => match kind {
            EventKind::Flush | EventKind::Fixed => false,
            _ => true,
        },
        EventKind::Restart => match kind {
            EventKind::Restart | EventKind::Fixed => false,
            _ => true,
        },
        EventKind::Fixed => false,
    }
}

/// Whether the frame that the event is about was in flight when this ticket was the next one.
fn stood_at(next: u32, event: &Event) -> bool
    ensures { result ≡ stood_at next event.now }
{
    match event {
        Event::Of { ticket, .. } => *ticket < next,
        _ => true,
    }
}

/// Whether the event may as well come before the last one, and is tried there.
fn comes_first<A: Allocator>(last: &Last, world: &World<A>, event: &Event) -> bool
    ensures { result ≡ comes_first last.now world.now event.now }
{
    rank(world, event) < last.rank
        && may_pass(last.kind, kind_of(event))
        && stood_at(last.next, event)
}

/// Whether the event is tried in this world, to which the last one led, if there was one.
pub(crate) fn is_in_turn<A: Allocator>(last: Option<Last>, world: &World<A>, event: &Event) -> bool
    ensures { result ≡ is_in_turn last world.now event.now }
{
    match last {
        Some(last) => !comes_first(&last, world, event),
        None => true,
    }
}

/// The last event, if it came in the phase that has begun and this one is of that phase too: else the order of the two stays.
pub(crate) fn in_phase(last: Option<Last>, begun: u32, phase: u32) -> Option<Last>
    ensures { result ≡ in_phase last begun phase }
{
    if begun == phase { last } else { None }
}
