//! Events in few bytes.

ghost use Rattle.std.specs.Prelude.{◌≡◌};
ghost use Rattle.pfl_session.specs.inner.Kept.{event_in};

use pfl_base::{Dir, Millis, NodeId, Packet, StateName};
use pfl_language::{Event, FrameEvent, NodeEvent};

/// An event in 64 bytes, where an [`Event`] takes 72: one tag and the small fields fit in front of a packet.
#[derive(Drop)]
pub(crate) enum JournalEvent {
    Packet {
        node: NodeId,
        dir: Dir,
        packet: Packet,
    },
    Tick {
        node: NodeId,
        ms: Millis,
    },
    Purge {
        node: NodeId,
    },
    Release {
        node: NodeId,
    },
    Kill {
        node: NodeId,
        name: StateName,
    },
    Clear {
        node: NodeId,
    },
    BulkTurn {
        node: NodeId,
    },
    BulkRetry {
        node: NodeId,
    },
    Flush {
        node: NodeId,
    },
    Deliver {
        ticket: u32,
    },
    Lose {
        ticket: u32,
    },
    Repeat {
        ticket: u32,
    },
    Cut {
        ticket: u32,
        len: u32,
    },
    Restart {
        node: NodeId,
    },
}

/// Something happens at the node.
fn at(node: &NodeId, event: NodeEvent) -> Event
    ensures { result ≡ Event.At node.now event }
{
    Event::At { node: *node, event }
}

/// Something happens to the frame of the ticket.
fn of(ticket: &u32, event: FrameEvent) -> Event
    ensures { result ≡ Event.Of ticket.now event }
{
    Event::Of {
        ticket: *ticket,
        event,
    }
}

impl JournalEvent {
    /// What happens at this node.
    fn at_node(node: NodeId, event: &NodeEvent) -> JournalEvent
        ensures { event_in result ≡ Event.At node event.now }
    {
        match event {
            NodeEvent::Packet { dir, packet } => JournalEvent::Packet {
                node,
                dir: *dir,
                packet: *packet,
            },
            NodeEvent::Tick { ms } => JournalEvent::Tick { node, ms: *ms },
            NodeEvent::Purge => JournalEvent::Purge { node },
            NodeEvent::Release => JournalEvent::Release { node },
            NodeEvent::Kill { name } => JournalEvent::Kill { node, name: *name },
            NodeEvent::Clear => JournalEvent::Clear { node },
            NodeEvent::BulkTurn => JournalEvent::BulkTurn { node },
            NodeEvent::BulkRetry => JournalEvent::BulkRetry { node },
        }
    }

    /// What happens to the frame of this ticket.
    fn of_frame(ticket: u32, event: &FrameEvent) -> JournalEvent
        ensures { event_in result ≡ Event.Of ticket event.now }
    {
        match event {
            FrameEvent::Deliver => JournalEvent::Deliver { ticket },
            FrameEvent::Lose => JournalEvent::Lose { ticket },
            FrameEvent::Repeat => JournalEvent::Repeat { ticket },
            FrameEvent::Cut { len } => JournalEvent::Cut { ticket, len: *len },
        }
    }

    /// The same event.
    pub(crate) fn of(event: &Event) -> JournalEvent
        ensures { event_in result ≡ event.now }
    {
        match event {
            Event::At { node, event } => JournalEvent::at_node(*node, event),
            Event::Flush { node } => JournalEvent::Flush { node: *node },
            Event::Of { ticket, event } => JournalEvent::of_frame(*ticket, event),
            Event::Restart { node } => JournalEvent::Restart { node: *node },
        }
    }

    /// The same event.
    pub(crate) fn event(&self) -> Event
        ensures { result ≡ event_in self.now }
    {
        match self {
            JournalEvent::Packet { node, dir, packet } => at(
                node,
                NodeEvent::Packet {
                    dir: *dir,
                    packet: *packet,
                },
            ),
            JournalEvent::Tick { node, ms } => at(node, NodeEvent::Tick { ms: *ms }),
            JournalEvent::Purge { node } => at(node, NodeEvent::Purge),
            JournalEvent::Release { node } => at(node, NodeEvent::Release),
            JournalEvent::Kill { node, name } => at(node, NodeEvent::Kill { name: *name }),
            JournalEvent::Clear { node } => at(node, NodeEvent::Clear),
            JournalEvent::BulkTurn { node } => at(node, NodeEvent::BulkTurn),
            JournalEvent::BulkRetry { node } => at(node, NodeEvent::BulkRetry),
            JournalEvent::Flush { node } => Event::Flush { node: *node },
            JournalEvent::Deliver { ticket } => of(ticket, FrameEvent::Deliver),
            JournalEvent::Lose { ticket } => of(ticket, FrameEvent::Lose),
            JournalEvent::Repeat { ticket } => of(ticket, FrameEvent::Repeat),
            JournalEvent::Cut { ticket, len } => of(ticket, FrameEvent::Cut { len: *len }),
            JournalEvent::Restart { node } => Event::Restart { node: *node },
        }
    }
}
