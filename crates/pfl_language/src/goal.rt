//! What is asked of the pairs that runs lead to.

use crate::event::Event;
use crate::node_event::NodeEvent;
use pfl_base::NodeId;

/// What is asked of a pair.
#[derive(Clone, Copy, Debug)]
pub enum Question {
    /// Do the nodes not have states of the same names?
    Apart,
    /// Is a state at both nodes with another level, sequence number, window or scale of an end, or another class? A state that is
    /// `no-sync` at either node is left out.
    Differ,
    /// Would the packet that this event brings go on at once?
    Passed(Event),
    /// Would it not, since the event is refused or brings none, or the packet is held or dropped?
    Unpassed(Event),
    /// Would the packet that this event brings be dropped?
    Dropped(Event),
    /// Would the packet that this event brings go on at once or be held, and so not be dropped?
    Admitted(Event),
    /// Would the packet that the event brings be dropped at this node, and admitted at the other?
    Split { node: NodeId, event: NodeEvent },
}

/// In which pairs a question is asked.
#[derive(Clone, Copy, Debug)]
pub enum Scope {
    /// In every pair.
    Everywhere,
    /// Where no frame is in flight.
    Landed,
    /// Where no frame is in flight, nothing is pending at either node, and neither serves a bulk update. One may wait for what was
    /// lost.
    Quiet,
    /// Where no frame is in flight, nothing is pending at either node, and no bulk update is under way.
    Settled,
}

/// A question, and in which pairs it is asked.
#[derive(Clone, Copy, Debug)]
pub struct Goal {
    pub question: Question,
    pub scope: Scope,
}
