//! What becomes of the records of a frame, as plain data.

use pfl_base::Millis;
use pfl_wire::Message;
use pfl_world::BadRecord;

/// Which ends of a record are taken.
#[derive(Clone, Copy, Debug, PartialEq, Eq)]
pub struct TakenEnds {
    /// The end that sent the first packet.
    pub src: bool,
    /// The other end.
    pub dst: bool,
}

/// What becomes of a record at the node that it comes to.
#[derive(Clone, Copy, Debug, PartialEq, Eq)]
pub enum RecordFate {
    /// It cannot be used.
    Bad(BadRecord),
    /// The state is taken over, and counts as last used then.
    Imported {
        last: Millis,
    },
    /// It is merged into the node's state: which ends are older than those of the node, and when the state counts as last used then.
    /// By the profile the ends are taken that are not older; where the rule `merge` is the kernel's, `taken` says which are.
    Merged {
        stale_src: bool,
        stale_dst: bool,
        last: Millis,
        taken: Option<TakenEnds>,
    },
    /// The state is not known, and is asked for.
    Asked,
    /// The whole state is queued for the peer.
    Queued,
    /// The bulk update begins that the peer asked for, or is over at once, since there is no state.
    Bulk {
        begins: bool,
    },
    /// The state waits no longer for its acknowledgement.
    Acknowledged,
    /// The state is deleted.
    Deleted,
    /// As many states are deleted.
    Cleared(usize),
    /// The client that waits for a bulk update heard of its start or its end.
    Heard,
    /// Nothing changes.
    Nothing,
}

/// A record, and what became of it.
#[derive(Clone, Copy, Debug, PartialEq, Eq)]
pub struct TakenRecord {
    pub message: Message,
    pub fate: RecordFate,
}
