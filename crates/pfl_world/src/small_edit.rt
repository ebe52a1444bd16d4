//! Changes of the pair that take few bytes, and those of middle size: what packets move, and what changes in the queues.

ghost use Rattle.std.specs.Prelude.{◌≡◌, MatchOption};
ghost use Rattle.pfl_world.specs.inner.SmallEdits.{edit_of, edit_of_middle, node_of, node_of_middle, IsLarger, IsNotMiddle};

use crate::edit::WorldEdit;
use pfl_base::{Millis, NodeId};
use pfl_edits::{Packed, Packing};
use pfl_node::{BulkClient, Counter, MotionEdit, NodeEdit, QueueEdit};
use std::alloc::Allocator;
use std::mem::size_of;

/// A change of one place of a node, of which both values are small.
///
/// A tape keeps it in place of the change of the pair that it is, since that has the size of the largest.
#[derive(Clone, Copy, Debug)]
pub enum SmallEdit {
    Clock {
        node: NodeId,
        before: Millis,
        after: Millis,
    },
    NextId {
        node: NodeId,
        before: u64,
        after: u64,
    },
    Push {
        node: NodeId,
        before: bool,
        after: bool,
    },
    Count {
        node: NodeId,
        counter: Counter,
        before: u64,
        after: u64,
    },
}

/// A change of a node of middle size: what a packet moved of a state that stays, a change of the queues, or of where a bulk update
/// that it asked for stands.
#[derive(Clone, Copy, Debug)]
pub enum MiddleEdit {
    Moved {
        node: NodeId,
        edit: MotionEdit,
    },
    OfQueue {
        node: NodeId,
        edit: QueueEdit,
    },
    Client {
        node: NodeId,
        before: BulkClient,
        after: BulkClient,
    },
}

// How many bytes each takes at most.
const _: () = prove!(size_of::<SmallEdit>() <= 24);

const _: () = prove!(size_of::<MiddleEdit>() <= 128);

/// The change of a node as a small one, unless it is larger.
fn small_of(node: NodeId, edit: &NodeEdit) -> Option<SmallEdit>
    ensures small { MatchOption result (IsLarger edit.now) (λ small. (node_of small ≡ node) × (edit_of small ≡ edit.now)) }
{
    match *edit {
        NodeEdit::Clock { before, after } => Some(SmallEdit::Clock {
            node,
            before,
            after,
        }),
        NodeEdit::NextId { before, after } => Some(SmallEdit::NextId {
            node,
            before,
            after,
        }),
        NodeEdit::Push { before, after } => Some(SmallEdit::Push {
            node,
            before,
            after,
        }),
        NodeEdit::Count {
            counter,
            before,
            after,
        } => Some(SmallEdit::Count {
            node,
            counter,
            before,
            after,
        }),
        NodeEdit::OfState(_)
        | NodeEdit::Moved(_)
        | NodeEdit::OfQueue(_)
        | NodeEdit::OfHeld(_)
        | NodeEdit::Client { .. }
        | NodeEdit::Server { .. } => None,
    }
}

/// The change of a node as one of middle size, or none where it is of another size.
fn middle_of(node: NodeId, edit: &NodeEdit) -> Option<MiddleEdit>
    ensures middle { MatchOption result (IsNotMiddle edit.now) (λ middle. (node_of_middle middle ≡ node) × (edit_of_middle middle ≡ edit.now)) }
{
    match *edit {
        NodeEdit::Moved(edit) => Some(MiddleEdit::Moved { node, edit }),
        NodeEdit::OfQueue(edit) => Some(MiddleEdit::OfQueue { node, edit }),
        NodeEdit::Client { before, after } => Some(MiddleEdit::Client {
            node,
            before,
            after,
        }),
        _ => None,
    }
}

impl<A: Allocator> Packed for WorldEdit<A> {
    ghost use Rattle.pfl_world.specs.inner.SmallEdits.{whole_edit, whole_middle};

    type Small = SmallEdit;

    type Middle = MiddleEdit;

    ghost whole_small = { whole_edit };

    ghost whole_middle = { whole_middle };

    fn pack(self) -> Packing<SmallEdit, MiddleEdit, Self> {
        if let WorldEdit::OfNode(node, edit) = &self {
            if let Some(middle) = middle_of(*node, edit) {
                return Packing::Middle(middle);
            }
            if let Some(small) = small_of(*node, edit) {
                return Packing::Small(small);
            }
        }
        Packing::Large(self)
    }

    fn unpack_middle(middle: MiddleEdit) -> Self {
        match middle {
            MiddleEdit::Moved { node, edit } => WorldEdit::OfNode(node, NodeEdit::Moved(edit)),
            MiddleEdit::OfQueue { node, edit } => WorldEdit::OfNode(node, NodeEdit::OfQueue(edit)),
            MiddleEdit::Client {
                node,
                before,
                after,
            } => WorldEdit::OfNode(node, NodeEdit::Client { before, after }),
        }
    }

    fn unpack_small(small: SmallEdit) -> Self {
        match small {
            SmallEdit::Clock {
                node,
                before,
                after,
            } => WorldEdit::OfNode(node, NodeEdit::Clock { before, after }),
            SmallEdit::NextId {
                node,
                before,
                after,
            } => WorldEdit::OfNode(node, NodeEdit::NextId { before, after }),
            SmallEdit::Push {
                node,
                before,
                after,
            } => WorldEdit::OfNode(node, NodeEdit::Push { before, after }),
            SmallEdit::Count {
                node,
                counter,
                before,
                after,
            } => {
                let edit = NodeEdit::Count {
                    counter,
                    before,
                    after,
                };
                WorldEdit::OfNode(node, edit)
            }
        }
    }
}
