//! What is pending is taken out for a frame (if_pfsync.c), and what the frame carries is sent no more.

ghost use Rattle.std.specs.Option.{option_map_or};
ghost use Rattle.std.specs.Prelude.{◌≡◌, ◌≤◌, ◌<◌, ◌+◌, ◌++◌, length, IfOk, OnOk};
ghost use Rattle.pfl_edits.specs.Maps as maps;
ghost use Rattle.pfl_desk.specs.Changes as to;
ghost use Rattle.pfl_desk.specs.Drafts.{Writes};
ghost use Rattle.pfl_desk.specs.Nodes.{AreParts};
ghost use Rattle.pfl_desk.specs.inner.Taking.{of_queue, taken_from};
ghost use Rattle.pfl_queue.specs.Taking.{next_frame};

use crate::desk::Desk;
use crate::edit::NodeEdit;
use pfl_base::StateName;
use pfl_edits::{Change, NoMemory};
use pfl_queue::{Entry, QueueEdit};
use pfl_table::Slot;
use std::alloc::Allocator;

impl<A: Allocator + Copy> Desk<A> {
    /// Takes the entries of the next frame out of what is pending.
    pub fn take_entries(&mut self) -> Result<Vec<Entry, A>, NoMemory>
        requires room { length (next_frame self.old.node.queue self.old.node.limits.mtu) ≤ self.old.edits.spare }
        ensures entries { IfOk result (λ es. es.items ≡ next_frame self.old.node.queue self.old.node.limits.mtu) }
        ensures node { OnOk result (self.new.node ≡ taken_from self.old.node) }
        ensures parts { OnOk result (AreParts self.new.node) }
        ensures writes { Writes (length (next_frame self.old.node.queue self.old.node.limits.mtu)) self.old self.new }
    {
        let (entries, taken) = self.parts.take_entries()?;
        record_all(&mut self.edits, taken);
        self.parts.known();
        Ok(entries)
    }
}

impl<A: Allocator> Desk<A> {
    /// The state of a name, if there is one, has no updates left to announce.
    pub fn clear_updates(&mut self, name: StateName)
        requires room { 0 < self.old.edits.spare }
        ensures node { self.new.node ≡ option_map_or (λ s. to.put_state self.old.node (record s { updates = 0 }))
            (maps.get self.old.node.states name) self.old.node }
        ensures writes { Writes 1 self.old self.new }
    {
        let Some(state) = self.parts().states().by_name(name).copied() else {
            return;
        };
        self.replace_state(Slot::UNKNOWN, state.with_updates(0));
    }
}

/// Records what was taken out of what is pending, in room that was made.
fn record_all<A: Allocator>(edits: &mut Change<NodeEdit, A>, taken: Change<QueueEdit, A>)
    requires room { length taken.list ≤ edits.old.spare }
    ensures list { edits.new.list ≡ edits.old.list ++ of_queue taken.list }
    ensures spare { edits.new.spare + length taken.list ≡ edits.old.spare }
{
    for edit in taken.into_edits() {
        edits.push(NodeEdit::OfQueue(edit));
    }
}
