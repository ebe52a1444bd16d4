//! What happens at a node by itself, and what that gives.

use crate::fate::Fate;
use crate::retried::Retried;
use pfl_base::{Dir, Millis, Packet, StateName};

/// What happens at a node, whatever its peer does. A frame that goes out or comes in concerns the link too, and is none of these.
#[derive(Clone, Copy, Debug, PartialEq, Eq)]
pub enum NodeEvent {
    /// A packet comes to the node, or leaves its host.
    Packet { dir: Dir, packet: Packet },
    /// Its clock goes on.
    Tick { ms: Millis },
    /// It deletes what has expired.
    Purge,
    /// It lets the held packets go out that are due.
    Release,
    /// It deletes a state.
    Kill { name: StateName },
    /// It gives up all its states.
    Clear,
    /// It queues the next states of a bulk update.
    BulkTurn,
    /// It asks for a bulk update again, or gives up.
    BulkRetry,
}

/// What an event at a node gives.
#[derive(Clone, Copy, Debug, PartialEq, Eq)]
pub enum NodeOutcome {
    /// What became of the packet.
    Handled(Fate),
    /// The clock's new time.
    Clock(Millis),
    /// How many states were deleted.
    Purged(usize),
    /// How many packets went out.
    Released(usize),
    /// The state was deleted.
    Killed,
    /// How many states were given up.
    Cleared(usize),
    /// How many states were queued.
    Queued(usize),
    /// What the client did.
    Tried(Retried),
}
