//! Changes of the pending queues.
ghost use Rattle.std.specs.Prelude.{◌≡◌};

use crate::{Cleared, Mark};
use pfl_base::StateName;
use pfl_wire::BulkStatus;
use std::mem::swap;

/// A change of one place of the pending queues.
///
/// In a list a place is a position, counted from 0: none there means that the entry is absent, and those after it move by one.
#[derive(Clone, Copy, Debug)]
pub enum QueueEdit {
    /// What stands under a name, together with the next queueing number: both were set.
    OfMark {
        name: StateName,
        before: Option<Mark>,
        after: Option<Mark>,
        next_before: u64,
        next_after: u64,
    },
    /// What stands under a name, alone: no number was set.
    OfName {
        name: StateName,
        before: Option<Mark>,
        after: Option<Mark>,
    },
    /// What stands at a position of the list of requests.
    OfRequest {
        position: usize,
        before: Option<StateName>,
        after: Option<StateName>,
    },
    /// What stands at a position of the list of bulk statuses.
    OfStatus {
        position: usize,
        before: Option<BulkStatus>,
        after: Option<BulkStatus>,
    },
    /// What stands at a position of the list of clears.
    OfClear {
        position: usize,
        before: Option<Cleared>,
        after: Option<Cleared>,
    },
}

impl QueueEdit {
    ghost use Rattle.pfl_queue.specs.Edits.{reversed};

    /// The edit with its former value and its new one exchanged.
    pub(crate) fn reversed(mut self) -> QueueEdit
        ensures reversed { result ≡ reversed self }
    {
        match &mut self {
            QueueEdit::OfMark {
                before,
                after,
                next_before,
                next_after,
                ..
            } => {
                swap(before, after);
                swap(next_before, next_after);
            }
            QueueEdit::OfName { before, after, .. } => swap(before, after),
            QueueEdit::OfRequest { before, after, .. } => swap(before, after),
            QueueEdit::OfStatus { before, after, .. } => swap(before, after),
            QueueEdit::OfClear { before, after, .. } => swap(before, after),
        }
        self
    }
}
