//! What a record from the peer comes to at a node, as plain data: all that was tested, and all that it takes to do it.

use pfl_base::StateName;
use pfl_merge::Merged;
use pfl_track::State;
use pfl_wire::BulkStatus;

/// Why a record cannot be used: the first reason in this order.
#[derive(Clone, Copy, Debug, PartialEq, Eq)]
pub enum BadRecord {
    /// The node has no state of the name.
    Unknown,
    /// The node has a state of the name.
    Known,
    /// The node itself gives the name, and has not yet.
    NotGiven,
    /// The node deleted the state, and the peer does not know that yet.
    Deleting,
    /// This state has its wire key.
    WireInUse(StateName),
    /// This state has its stack key.
    StackInUse(StateName),
    /// The node has as many states as it may.
    Full,
}

/// What a record comes to at the node that it comes to.
#[derive(Clone, Copy, Debug, PartialEq, Eq)]
pub enum Decision {
    /// It cannot be used, and is counted.
    Bad(BadRecord),
    /// This state is taken over, and acknowledged if that is wanted.
    Import { state: State, ack_wanted: bool },
    /// What a merge gave takes the place of the node's state. Where an end was older than the node's, it is sent back, unless its
    /// deletion is pending.
    Merge(Merged),
    /// The whole state is asked for.
    Ask(StateName),
    /// The whole state is queued for the peer.
    Queue(StateName),
    /// The bulk update begins that the peer asked for, or is over at once, since there is no state.
    Serve { begins: bool },
    /// The state waits no longer for its acknowledgement, and its packet goes out.
    Release(StateName),
    /// The state is deleted.
    Delete(StateName),
    /// The states of the creator with an id of at most the bound are deleted.
    Clear { creator: u32, bound: u64 },
    /// The client that waits for a bulk update hears of its start or its end.
    Hear(BulkStatus),
    /// Nothing changes.
    Nothing,
}
