//! Restarts that are taken back for a while, and redone.

ghost use Rattle.std.specs.Prelude.{◌≡◌, ◌+◌};
ghost use Rattle.pfl_node.specs.Events.{restarted};
ghost use Rattle.pfl_world.specs.Restarts.{undone};
ghost use Rattle.pfl_world.specs.WorldEdits.{Boots, with_boot};
ghost use Rattle.pfl_world.specs.Worlds.{IsWorld, node_at};

use crate::restart_edit::RestartEdit;
use crate::world::World;
use pfl_base::NodeId;
use pfl_node::Node;
use std::alloc::Allocator;
use std::marker::Model;
use std::mem::swap;

/// What is kept of a restart that is taken back for a while.
///
/// It owns the node that the restart made, on the heap, where the edit had the one from before. That one stands in the pair again.
pub struct RestartUndone<A: Allocator> {
    node: NodeId,
    anew: Box<Node<A>, A>,
    boot: u32,
}

// Written by hand: see docs/ARCHITECTURE.md, "What the prover asks of the code".
impl<A: Allocator> Drop for RestartUndone<A> {
    fn drop(self) {
        let RestartUndone {
            node: _,
            anew: _,
            boot: _,
        } = self;
    }
}

impl<A: Allocator> Model for RestartUndone<A> {
    ghost use Rattle.pfl_world.specs.Restarts.{RestartUndone, coded_restart_undone};

    ghost Value = { RestartUndone };

    ghost coded = { coded_restart_undone };

    ghost view = { λ u. record { node = u.node; anew = u.anew.value; boot = u.boot } };
}

impl<A: Allocator> RestartUndone<A> {
    /// What is kept of a restart as this boot.
    fn new(node: NodeId, anew: Box<Node<A>, A>, boot: u32) -> RestartUndone<A>
        ensures kept { result ≡ record { node = node; anew = anew.value; boot = boot } }
    {
        RestartUndone { node, anew, boot }
    }

    /// The node that began anew, as the restart made it, and as which boot.
    fn into_parts(self) -> (NodeId, Box<Node<A>, A>, u32)
        ensures node { result.0 ≡ self.node }
        ensures anew { result.1.value ≡ self.anew }
        ensures boot { result.2 ≡ self.boot }
    {
        let RestartUndone { node, anew, boot } = self;
        (node, anew, boot)
    }
}

impl<A: Allocator> World<A> {
    /// Puts the node from before a restart back, and the number of its boot, and keeps the node that it made. It takes no memory.
    pub(crate) fn take_back_restart(&mut self, edit: RestartEdit<A>) -> RestartUndone<A>
        requires found { Boots edit.node (restarted edit.former edit.boot) (edit.boot + 1) self.old }
        requires allowed { IsWorld (with_boot self.old edit.node edit.former edit.boot) }
        ensures value { self.new ≡ with_boot self.old edit.node edit.former edit.boot }
        ensures kept { result ≡ undone edit }
    {
        let (node, mut other, boot) = edit.into_parts();
        swap(self.nodes.at_mut(node), other.as_mut());
        self.next_boot = boot;
        RestartUndone::new(node, other, boot)
    }

    /// Puts the node that a restart made in place again, and the number of the next boot on. The edit has the node that stood there
    /// meanwhile. It takes no memory.
    pub(crate) fn redo_restart(&mut self, kept: RestartUndone<A>) -> RestartEdit<A>
        requires allowed { IsWorld (with_boot self.old kept.node kept.anew (kept.boot + 1)) }
        ensures value { self.new ≡ with_boot self.old kept.node kept.anew (kept.boot + 1) }
        ensures edit { result ≡ record { node = kept.node; former = node_at self.old kept.node; boot = kept.boot } }
    {
        let (node, mut other, boot) = kept.into_parts();
        swap(self.nodes.at_mut(node), other.as_mut());
        self.next_boot = boot + 1;
        RestartEdit::new(node, other, boot)
    }
}
