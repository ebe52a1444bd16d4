//! Events as a list of them keeps them.

ghost use Rattle.std.specs.Prelude.{◌≡◌};
ghost use Rattle.pfl_events.specs.inner.KeptEvents.{kept_at, kept_of, packet_at, packet_of, plain_event};

use pfl_base::{Dir, Millis, NodeId, Packet, StateName};
use pfl_language::{Event, FrameEvent, NodeEvent};
use std::mem::size_of;

/// An event without a packet. The name of a state is kept as its two numbers, which take fewer bytes side by side.
#[derive(Clone, Copy)]
pub(crate) enum PlainEvent {
    Tick { node: NodeId, ms: Millis },
    Purge { node: NodeId },
    Release { node: NodeId },
    Kill { node: NodeId, creator: u32, id: u64 },
    Clear { node: NodeId },
    BulkTurn { node: NodeId },
    BulkRetry { node: NodeId },
    Flush { node: NodeId },
    Of { ticket: u32, event: FrameEvent },
    Restart { node: NodeId },
}

/// An event as it is kept. Of one with a packet it is kept where among the packets that one lies.
#[derive(Clone, Copy)]
pub(crate) enum KeptEvent {
    Packet {
        node: NodeId,
        dir: Dir,
        index: usize,
    },
    Plain(PlainEvent),
}

// How many bytes an event takes at most beside its packet.
const _: () = prove!(size_of::<KeptEvent>() <= 24);

impl PlainEvent {
    /// The event.
    pub fn event(self) -> Event
        ensures event { result ≡ plain_event self }
    {
        match self {
            PlainEvent::Tick { node, ms } => at(node, NodeEvent::Tick { ms }),
            PlainEvent::Purge { node } => at(node, NodeEvent::Purge),
            PlainEvent::Release { node } => at(node, NodeEvent::Release),
            PlainEvent::Kill { node, creator, id } => {
                let name = StateName { creator, id };
                at(node, NodeEvent::Kill { name })
            }
            PlainEvent::Clear { node } => at(node, NodeEvent::Clear),
            PlainEvent::BulkTurn { node } => at(node, NodeEvent::BulkTurn),
            PlainEvent::BulkRetry { node } => at(node, NodeEvent::BulkRetry),
            PlainEvent::Flush { node } => Event::Flush { node },
            PlainEvent::Of { ticket, event } => Event::Of { ticket, event },
            PlainEvent::Restart { node } => Event::Restart { node },
        }
    }
}

/// What happens at the node by itself.
fn at(node: NodeId, event: NodeEvent) -> Event
    ensures event { result ≡ Event.At node event }
{
    Event::At { node, event }
}

/// An event at a node as it is kept, and its packet, if it has one, which is to lie at the index among the packets.
fn parted_at(node: NodeId, event: &NodeEvent, index: usize) -> (KeptEvent, Option<Packet>)
    ensures kept { result.0 ≡ kept_at node event.now index }
    ensures packet { result.1 ≡ packet_at event.now }
{
    let plain = match *event {
        NodeEvent::Packet { dir, packet } => {
            return (KeptEvent::Packet { node, dir, index }, Some(packet));
        }
        NodeEvent::Tick { ms } => PlainEvent::Tick { node, ms },
        NodeEvent::Purge => PlainEvent::Purge { node },
        NodeEvent::Release => PlainEvent::Release { node },
        NodeEvent::Kill { name } => PlainEvent::Kill {
            node,
            creator: name.creator,
            id: name.id,
        },
        NodeEvent::Clear => PlainEvent::Clear { node },
        NodeEvent::BulkTurn => PlainEvent::BulkTurn { node },
        NodeEvent::BulkRetry => PlainEvent::BulkRetry { node },
    };
    (KeptEvent::Plain(plain), None)
}

/// The event as it is kept, and its packet, if it has one, which is to lie at the index among the packets.
pub(crate) fn parted(event: &Event, index: usize) -> (KeptEvent, Option<Packet>)
    ensures kept { result.0 ≡ kept_of event.now index }
    ensures packet { result.1 ≡ packet_of event.now }
{
    let plain = match event {
        Event::At { node, event } => return parted_at(*node, event, index),
        Event::Flush { node } => PlainEvent::Flush { node: *node },
        Event::Of { ticket, event } => PlainEvent::Of {
            ticket: *ticket,
            event: *event,
        },
        Event::Restart { node } => PlainEvent::Restart { node: *node },
    };
    (KeptEvent::Plain(plain), None)
}
