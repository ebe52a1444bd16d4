//! What is asked of or sent to the peer beside the queues of names: requests, bulk statuses and clears (if_pfsync.c). For each that is
//! new a frame is wanted soon.

ghost use Rattle.std.specs.Prelude.{◌≡◌, ◌≤◌, ◌<◌, true, OnOk, OnErr, IfOk, not};
ghost use Rattle.pfl_desk.specs.Changes as to;
ghost use Rattle.pfl_desk.specs.Drafts.{Writes};
ghost use Rattle.pfl_desk.specs.Nodes.{Node as Whole, is_overfull};
ghost use Rattle.pfl_queue.specs.Queues.{is_requested};
ghost use Rattle.pfl_desk.specs.Weights.{listed_edits};

use crate::desk::Desk;
use crate::desk::places::record_if;
use crate::parts::judge::Overfull;
use pfl_base::StateName;
use pfl_wire::BulkStatus;
use std::alloc::Allocator;

impl<A: Allocator> Desk<A> {
    /// Asks the peer for the state of a name, soon. Nothing is recorded where it is asked for already.
    pub fn ask(&mut self, name: StateName) -> Result<(), Overfull>
        requires room { listed_edits ≤ self.old.edits.spare }
        ensures full { OnErr result (is_overfull (to.ask self.old.node name) ≡ true) }
        ensures node { OnOk result (self.new.node ≡ to.ask self.old.node name) }
        ensures writes { Writes listed_edits self.old self.new }
    {
        let is_new = self.list_request(name)?;
        self.push_if(is_new);
        Ok(())
    }

    /// Sends the peer a bulk status, soon.
    pub fn announce_status(&mut self, status: BulkStatus) -> Result<(), Overfull>
        requires room { listed_edits ≤ self.old.edits.spare }
        ensures full { OnErr result (is_overfull (to.announce_status self.old.node status) ≡ true) }
        ensures node { OnOk result (self.new.node ≡ to.announce_status self.old.node status) }
        ensures writes { Writes listed_edits self.old self.new }
    {
        self.list_status(status)?;
        self.push_if(true);
        Ok(())
    }

    /// Announces to the peer, soon, that the states of a creator with an id of at most the bound are to go.
    pub fn announce_clear(&mut self, creator: u32, bound: u64) -> Result<(), Overfull>
        requires room { listed_edits ≤ self.old.edits.spare }
        ensures full { OnErr result (is_overfull (to.announce_clear self.old.node creator bound) ≡ true) }
        ensures node { OnOk result (self.new.node ≡ to.announce_clear self.old.node creator bound) }
        ensures writes { Writes listed_edits self.old self.new }
    {
        self.list_clear(creator, bound)?;
        self.push_if(true);
        Ok(())
    }

    /// Lists a request, once, and says whether it is new.
    fn list_request(&mut self, name: StateName) -> Result<bool, Overfull>
        requires room { 0 < self.old.edits.spare }
        ensures full { OnErr result (is_overfull (to.list_request self.old.node name) ≡ true) }
        ensures is_new { IfOk result (λ is_new. is_new ≡ not (is_requested self.old.node.queue name)) }
        ensures node { OnOk result (self.new.node ≡ to.list_request self.old.node name) }
        ensures writes { Writes 1 self.old self.new }
    {
        let edit = self.parts.list_request(name)?;
        let is_new = edit.is_some();
        record_if(&mut self.edits, edit);
        Ok(is_new)
    }

    /// Lists a bulk status.
    fn list_status(&mut self, status: BulkStatus) -> Result<(), Overfull>
        requires room { 0 < self.old.edits.spare }
        ensures full { OnErr result (is_overfull (to.list_status self.old.node status) ≡ true) }
        ensures node { OnOk result (self.new.node ≡ to.list_status self.old.node status) }
        ensures writes { Writes 1 self.old self.new }
    {
        let edit = self.parts.list_status(status)?;
        self.edits.push(edit);
        Ok(())
    }

    /// Lists a clear.
    fn list_clear(&mut self, creator: u32, bound: u64) -> Result<(), Overfull>
        requires room { 0 < self.old.edits.spare }
        ensures full { OnErr result (is_overfull (to.list_clear self.old.node creator bound) ≡ true) }
        ensures node { OnOk result (self.new.node ≡ to.list_clear self.old.node creator bound) }
        ensures writes { Writes 1 self.old self.new }
    {
        let edit = self.parts.list_clear(creator, bound)?;
        self.edits.push(edit);
        Ok(())
    }
}
