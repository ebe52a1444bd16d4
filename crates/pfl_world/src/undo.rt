//! Undoing at the pair.

ghost use Rattle.std.specs.Prelude.{◌≡◌};
ghost use Rattle.pfl_edits.specs.Changes.{Fits, back};
ghost use Rattle.pfl_world.specs.WorldEdits.{Finds, put_back};
ghost use Rattle.pfl_world.specs.Worlds.{IsWorld};

use crate::edit::{WorldChange, WorldEdit};
use crate::world::World;
use pfl_edits::{Reversible, undo_all};
use std::alloc::Allocator;

impl<A: Allocator> Reversible for World<A> {
    ghost use Rattle.pfl_world.specs.Worlds.{IsWorld};
    ghost use Rattle.pfl_world.specs.WorldEdits.{Finds, FindsFormer, put_back, redone};
    ghost use Rattle.pfl_world.specs.inner.BothWays.{edit-both_ways};

    type Edit = WorldEdit<A>;

    ghost finds = { Finds };

    ghost finds_former = { FindsFormer };

    ghost put_back = { put_back };

    ghost redone = { redone };

    ghost allows = { IsWorld };

    fn undo(&mut self, edit: WorldEdit<A>) {
        match edit {
            WorldEdit::OfNode(node, edit) => self.nodes.at_mut(node).undo(edit),
            WorldEdit::OfLink(edit) => self.link.undo(edit),
            WorldEdit::OfRestart(edit) => self.undo_restart(edit),
        }
    }

    ghost both_ways = { edit-both_ways };
}

impl<A: Allocator> World<A> {
    /// Takes what an event changed back, without memory.
    pub fn revert(&mut self, change: WorldChange<A>)
        requires fits { Fits Finds IsWorld put_back change.list self.old }
        ensures reverted { self.new ≡ back put_back change.list self.old }
    {
        undo_all(self, change);
    }
}
