//! What is pending is taken out for a frame (if_pfsync.c), and returned with its edits.

ghost use Rattle.std.specs.Prelude.{◌≡◌, IfOk, OnOk, OnErr, length};
ghost use Rattle.pfl_desk.specs.inner.Drafting.{Makes};
ghost use Rattle.pfl_desk.specs.Nodes.{Node as Whole};
ghost use Rattle.pfl_desk.specs.inner.Taking.{of_queue, taken_from};
ghost use Rattle.pfl_queue.specs.Taking.{next_frame};

use crate::parts::Parts;
use pfl_edits::{Change, NoMemory};
use pfl_queue::{Entry, QueueEdit};
use std::alloc::Allocator;

impl<A: Allocator + Copy> Parts<A> {
    /// Takes the entries of the next frame out of what is pending.
    pub(crate) fn take_entries(&mut self) -> Result<(Vec<Entry, A>, Change<QueueEdit, A>), NoMemory>
        ensures unchanged { OnErr result (self.new ≡ self.old) }
        ensures entries { IfOk result (λ r. r.0.items ≡ next_frame self.old.queue self.old.limits.mtu) }
        ensures node { OnOk result (self.new ≡ taken_from self.old) }
        ensures few { IfOk result (λ r. length r.1.list ≡ length (next_frame self.old.queue self.old.limits.mtu)) }
        ensures makes { IfOk result (λ r. Makes (of_queue r.1.list) self.old self.new) }
    {
        let mtu = self.limits.mtu;
        let (entries, taken) = self.queue.next_frame(mtu)?;
        Ok((entries, taken))
    }
}
