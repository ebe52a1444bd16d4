//! What is asked of or sent to the peer beside the queues of names: requests, bulk statuses and clears (if_pfsync.c), each listed by
//! itself. What is listed is returned as an edit.

ghost use Rattle.std.specs.Prelude.{◌≡◌, true, OnOk, OnErr, IfOk, ◌∷◌, [], is_some, not};
ghost use Rattle.pfl_desk.specs.Changes as to;
ghost use Rattle.pfl_desk.specs.inner.Drafting.{Makes, MakesIf};
ghost use Rattle.pfl_desk.specs.Nodes.{Node as Whole, is_overfull};
ghost use Rattle.pfl_queue.specs.Queues.{is_requested};

use crate::edit::NodeEdit;
use crate::parts::Parts;
use crate::parts::judge::Overfull;
use pfl_base::StateName;
use pfl_wire::BulkStatus;
use std::alloc::Allocator;

impl<A: Allocator> Parts<A> {
    /// Lists a request, once. There is an edit where it is new.
    pub(crate) fn list_request(&mut self, name: StateName) -> Result<Option<NodeEdit>, Overfull>
        ensures full { OnErr result (is_overfull (to.list_request self.old name) ≡ true) }
        ensures unchanged { OnErr result (self.new ≡ self.old) }
        ensures is_new { IfOk result (λ edit. is_some edit ≡ not (is_requested self.old.queue name)) }
        ensures node { OnOk result (self.new ≡ to.list_request self.old name) }
        ensures makes { IfOk result (λ edit. MakesIf edit self.old self.new) }
    {
        let Ok(edit) = self.queue.request(name) else {
            return Err(Overfull);
        };
        let Some(edit) = edit else {
            return Ok(None);
        };
        Ok(Some(NodeEdit::OfQueue(edit)))
    }

    /// Lists a bulk status.
    pub(crate) fn list_status(&mut self, status: BulkStatus) -> Result<NodeEdit, Overfull>
        ensures full { OnErr result (is_overfull (to.list_status self.old status) ≡ true) }
        ensures unchanged { OnErr result (self.new ≡ self.old) }
        ensures node { OnOk result (self.new ≡ to.list_status self.old status) }
        ensures makes { IfOk result (λ edit. Makes (edit ∷ []) self.old self.new) }
    {
        let Ok(edit) = self.queue.status(status) else {
            return Err(Overfull);
        };
        Ok(NodeEdit::OfQueue(edit))
    }

    /// Lists a clear.
    pub(crate) fn list_clear(&mut self, creator: u32, bound: u64) -> Result<NodeEdit, Overfull>
        ensures full { OnErr result (is_overfull (to.list_clear self.old creator bound) ≡ true) }
        ensures unchanged { OnErr result (self.new ≡ self.old) }
        ensures node { OnOk result (self.new ≡ to.list_clear self.old creator bound) }
        ensures makes { IfOk result (λ edit. Makes (edit ∷ []) self.old self.new) }
    {
        let Ok(edit) = self.queue.clear(creator, bound) else {
            return Err(Overfull);
        };
        Ok(NodeEdit::OfQueue(edit))
    }
}
