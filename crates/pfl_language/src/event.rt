//! What happens to the pair.

use crate::node_event::NodeEvent;
use pfl_base::NodeId;

/// What happens to the pair.
#[derive(Clone, Copy, Debug, PartialEq, Eq)]
pub enum Event {
    /// Something happens at a node by itself.
    At { node: NodeId, event: NodeEvent },
    /// A node sends one frame.
    Flush { node: NodeId },
    /// Something happens to the frame that is in flight under the ticket.
    Of { ticket: u32, event: FrameEvent },
    /// A node begins anew, with its clock and its rules.
    Restart { node: NodeId },
}

/// What happens to a frame in flight.
#[derive(Clone, Copy, Debug, PartialEq, Eq)]
pub enum FrameEvent {
    /// It comes to its receiver.
    Deliver,
    /// It is lost.
    Lose,
    /// It is copied under the next ticket.
    Repeat,
    /// It keeps this many of its first bytes.
    Cut { len: u32 },
}
