//! Changes of nodes, each of one place.

use pfl_base::{Millis, StateName};
use pfl_bulk::{BulkClient, BulkServer};
use pfl_defer::DeferEdit;
use pfl_edits::OfPart;
use pfl_queue::QueueEdit;
use pfl_table::Slot;
use pfl_track::{Motion, State};

/// What stands under a name among the states of a node. A state's timeout follows from the rules.
#[derive(Clone, Copy, Debug)]
pub struct StateEdit {
    pub name: StateName,
    pub before: Option<State>,
    pub after: Option<State>,
}

/// What packets move of the state of a name, which stays. The slot is where it stood, a hint for who takes the edit back.
#[derive(Clone, Copy, Debug)]
pub struct MotionEdit {
    pub name: StateName,
    pub slot: Slot,
    pub before: Motion,
    pub after: Motion,
}

/// Which number of a node's counters.
#[derive(Clone, Copy, Debug, PartialEq, Eq)]
pub enum Counter {
    Passed,
    Blocked,
    Freed,
    Lost,
    Bad,
    Stale,
    Broken,
}

/// A change of one place of a node.
#[derive(Clone, Copy, Debug)]
pub enum NodeEdit {
    OfState(StateEdit),
    Moved(MotionEdit),
    OfQueue(QueueEdit),
    OfHeld(DeferEdit),
    Server {
        before: BulkServer,
        after: BulkServer,
    },
    Client {
        before: BulkClient,
        after: BulkClient,
    },
    Clock {
        before: Millis,
        after: Millis,
    },
    NextId {
        before: u64,
        after: u64,
    },
    Push {
        before: bool,
        after: bool,
    },
    Count {
        counter: Counter,
        before: u64,
        after: u64,
    },
}

/// A node by itself is the whole, and an edit of it is recorded as it is.
impl OfPart<NodeEdit> for NodeEdit {
    type Part = ();

    ghost of = { λ _ edit. edit };

    fn of_part(_part: (), edit: NodeEdit) -> NodeEdit {
        edit
    }
}
