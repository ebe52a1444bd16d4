//! Changes of the pair, each of one place.

ghost use Rattle.std.specs.Prelude.{◌≡◌, IfOk};

use crate::restart_edit::RestartEdit;
use pfl_base::NodeId;
use pfl_edits::{Change, Copied, NoMemory, OfPart, Tape};
use pfl_link::LinkEdit;
use pfl_node::NodeEdit;
use std::alloc::Allocator;

/// A change of one place of the pair.
#[derive(Drop)]
pub enum WorldEdit<A: Allocator> {
    /// Of a node.
    OfNode(NodeId, NodeEdit),
    /// Of the link.
    OfLink(LinkEdit<A>),
    /// Of a node that began anew, and the next boot.
    OfRestart(RestartEdit<A>),
}

impl<A: Allocator + Copy> Copied for WorldEdit<A> {
    #[inline]
    fn copied(&self) -> Result<WorldEdit<A>, NoMemory> {
        match self {
            WorldEdit::OfNode(node, edit) => Ok(WorldEdit::OfNode(*node, *edit)),
            WorldEdit::OfLink(edit) => Ok(WorldEdit::OfLink(edit.copy()?)),
            WorldEdit::OfRestart(edit) => Ok(WorldEdit::OfRestart(edit.copy()?)),
        }
    }
}

/// An edit of a node is recorded with the node's name.
impl<A: Allocator> OfPart<NodeEdit> for WorldEdit<A> {
    ghost use Rattle.pfl_world.specs.declared.edit.WorldEdit.TheVariants.{OfNode};

    type Part = NodeId;

    ghost of = { λ id edit. OfNode id edit };

    fn of_part(node: NodeId, edit: NodeEdit) -> WorldEdit<A> {
        WorldEdit::OfNode(node, edit)
    }
}

/// What an event changed, by which it can be taken back.
pub type WorldChange<A> = Change<WorldEdit<A>, A>;

/// What many events changed, one after another, by which the newest can be taken back.
pub type WorldTape<A> = Tape<WorldEdit<A>, A>;
