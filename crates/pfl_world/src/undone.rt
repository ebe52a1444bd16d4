//! Changes of the pair that are taken back for a while, and redone.

ghost use Rattle.std.specs.Prelude.{◌≡◌};
ghost use Rattle.pfl_node.specs.desk.Edits as nodes;
ghost use Rattle.pfl_world.specs.WorldEdits.{Finds, FindsFormer, put_back, redone, undone};
ghost use Rattle.pfl_world.specs.Worlds.{IsWorld, node_at, with_node};

use crate::edit::WorldEdit;
use crate::restart_undone::RestartUndone;
use crate::world::World;
use pfl_base::NodeId;
use pfl_edits::{Redoable, Reversible};
use pfl_link::LinkUndone;
use pfl_node::NodeEdit;
use std::alloc::Allocator;

/// What is kept of a change of the pair that is taken back for a while.
#[derive(Drop)]
pub enum WorldUndone<A: Allocator> {
    /// Of a node: the edit itself, which has both values.
    OfNode(NodeId, NodeEdit),
    /// Of the link.
    OfLink(LinkUndone<A>),
    /// Of a node that began anew, and the next boot.
    OfRestart(RestartUndone<A>),
}

impl<A: Allocator> Redoable for World<A> {
    ghost use Rattle.pfl_world.specs.WorldEdits.{undone};

    type Undone = WorldUndone<A>;

    ghost undone = { undone };

    fn set_aside(&mut self, edit: WorldEdit<A>) -> WorldUndone<A> {
        self.take_back_edit(edit)
    }

    fn redo(&mut self, kept: WorldUndone<A>) -> WorldEdit<A> {
        self.redo_edit(kept)
    }
}

impl<A: Allocator> World<A> {
    /// Takes a change back as `undo` does, and keeps what redoes it. It takes no memory.
    pub(crate) fn take_back_edit(&mut self, edit: WorldEdit<A>) -> WorldUndone<A>
        requires found { Finds edit self.old }
        requires allowed { IsWorld (put_back edit self.old) }
        ensures value { self.new ≡ put_back edit self.old }
        ensures kept { result ≡ undone edit }
    {
        match edit {
            WorldEdit::OfNode(node, edit) => self.take_back_at(node, &edit),
            WorldEdit::OfLink(edit) => WorldUndone::OfLink(self.link.take_back(edit)),
            WorldEdit::OfRestart(edit) => WorldUndone::OfRestart(self.take_back_restart(edit)),
        }
    }

    /// Redoes a change that was taken back, and returns its edit again. It takes no memory.
    pub(crate) fn redo_edit(&mut self, kept: WorldUndone<A>) -> WorldEdit<A>
        requires edit { (e : WorldEdit A) × (undone e ≡ kept) × FindsFormer e self.old × IsWorld (redone e self.old) }
        ensures redone { (e : WorldEdit A) → undone e ≡ kept → FindsFormer e self.old → (self.new ≡ redone e self.old) × (result ≡ e) }
    {
        match kept {
            WorldUndone::OfNode(node, edit) => self.redo_at(node, &edit),
            WorldUndone::OfLink(kept) => WorldEdit::OfLink(self.link.redo(kept)),
            WorldUndone::OfRestart(kept) => WorldEdit::OfRestart(self.redo_restart(kept)),
        }
    }

    /// Takes an edit of a node back, and keeps it.
    fn take_back_at(&mut self, node: NodeId, edit: &NodeEdit) -> WorldUndone<A>
        requires found { nodes.Finds edit.now (node_at self.old node) }
        requires allowed { IsWorld (with_node self.old node (nodes.put_back edit.now (node_at self.old node))) }
        ensures value { self.new ≡ with_node self.old node (nodes.put_back edit.now (node_at self.old node)) }
        ensures kept { result ≡ WorldUndone.OfNode node edit.now }
    {
        self.nodes.at_mut(node).undo(*edit);
        WorldUndone::OfNode(node, *edit)
    }

    /// Redoes an edit of a node, and returns it again.
    fn redo_at(&mut self, node: NodeId, edit: &NodeEdit) -> WorldEdit<A>
        requires found { nodes.FindsFormer edit.now (node_at self.old node) }
        requires allowed { IsWorld (with_node self.old node (nodes.redone edit.now (node_at self.old node))) }
        ensures value { self.new ≡ with_node self.old node (nodes.redone edit.now (node_at self.old node)) }
        ensures edit { result ≡ WorldEdit.OfNode node edit.now }
    {
        self.nodes.at_mut(node).redo(*edit);
        WorldEdit::OfNode(node, *edit)
    }
}
