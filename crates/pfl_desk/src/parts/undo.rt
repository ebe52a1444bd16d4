//! An edit is taken back at the parts of a node, or redone.

ghost use Rattle.std.specs.Prelude.{◌≡◌};
ghost use Rattle.pfl_desk.specs.Edits.{FindsFormer, redone};
ghost use Rattle.pfl_desk.specs.Nodes.{AreParts};

use crate::edit::NodeEdit;
use crate::parts::Parts;
use pfl_edits::Reversible;
use std::alloc::Allocator;

impl<A: Allocator> Reversible for Parts<A> {
    ghost use Rattle.pfl_desk.specs.Nodes.{AreParts};
    ghost use Rattle.pfl_desk.specs.Edits.{Finds, FindsFormer, put_back, redone};
    ghost use Rattle.pfl_desk.specs.inner.BothWays.{edit-both_ways};

    type Edit = NodeEdit;

    ghost finds = { Finds };

    ghost finds_former = { FindsFormer };

    ghost put_back = { put_back };

    ghost redone = { redone };

    ghost allows = { AreParts };

    fn undo(&mut self, edit: NodeEdit) {
        match edit {
            NodeEdit::OfState(edit) => self.set_state(edit.name, edit.before),
            NodeEdit::Moved(edit) => self.set_motion(edit.slot, edit.name, edit.before),
            NodeEdit::OfQueue(edit) => self.queue.undo(edit),
            NodeEdit::OfHeld(edit) => self.held.undo(edit),
            NodeEdit::Server { before, .. } => self.server = before,
            NodeEdit::Client { before, .. } => self.client = before,
            NodeEdit::Clock { before, .. } => self.clock = before,
            NodeEdit::NextId { before, .. } => self.next_id = before,
            NodeEdit::Push { before, .. } => self.push = before,
            NodeEdit::Count {
                counter,
                before,
                ..
            } => self.counters.set(counter, before),
        }
    }

    ghost both_ways = { edit-both_ways };
}

impl<A: Allocator> Parts<A> {
    /// Puts the new value of an edit that was undone into its place again. It returns nothing, so it cannot want memory.
    pub(crate) fn redo(&mut self, edit: NodeEdit)
        requires found { FindsFormer edit self.old }
        requires allowed { AreParts (redone edit self.old) }
        ensures redone { self.new ≡ redone edit self.old }
    {
        match edit {
            NodeEdit::OfState(edit) => self.set_state(edit.name, edit.after),
            NodeEdit::Moved(edit) => self.set_motion(edit.slot, edit.name, edit.after),
            NodeEdit::OfQueue(edit) => self.queue.redo(edit),
            NodeEdit::OfHeld(edit) => self.held.redo(edit),
            NodeEdit::Server { after, .. } => self.server = after,
            NodeEdit::Client { after, .. } => self.client = after,
            NodeEdit::Clock { after, .. } => self.clock = after,
            NodeEdit::NextId { after, .. } => self.next_id = after,
            NodeEdit::Push { after, .. } => self.push = after,
            NodeEdit::Count { counter, after, .. } => self.counters.set(counter, after),
        }
    }
}
