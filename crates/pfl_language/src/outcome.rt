//! What comes of events.

use crate::node_event::NodeOutcome;
use pfl_wire::BadFrame;

/// What comes of an event that is accepted.
#[derive(Clone, Copy, Debug, PartialEq, Eq)]
pub enum Outcome {
    /// What the event at the node by itself gives.
    At(NodeOutcome),
    /// A frame of this many bytes is in flight under this ticket.
    Sent { ticket: u32, len: usize },
    /// This many records of the frame were taken.
    Taken(usize),
    /// The frame cannot be read, and is counted.
    Broken(BadFrame),
    /// The frame is lost.
    Lost,
    /// The frame has this many bytes now.
    CutTo(usize),
    /// The node began anew as this boot.
    Boot(u32),
}
