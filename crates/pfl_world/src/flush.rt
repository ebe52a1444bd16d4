//! A node's frame goes out to the other node (if_pfsync.c).

ghost use Rattle.std.specs.Prelude.{◌≡◌, ◌<◌, ◌≤◌, ◌+◌, ◌*◌, None, IfOk, IfErr, OnOk, OnErr, length};
ghost use Rattle.pfl_base.specs.Nodes.{other_node};
ghost use Rattle.pfl_edits.specs.Changes.{Fits};
ghost use Rattle.pfl_node.specs.Flushing as flushing;
ghost use Rattle.pfl_node.specs.desk.Edits as nodes;
ghost use Rattle.pfl_node.specs.desk.Nodes.{IsNode, IsRefusal};
ghost use Rattle.pfl_link.specs.Faults.{room_fault};
ghost use Rattle.pfl_link.specs.Links.{sent};
ghost use Rattle.pfl_world.specs.Flushing.{flush_refusal, sent_frame, flush_work};
ghost use Rattle.pfl_world.specs.Values.{HoldsLittle};
ghost use Rattle.pfl_world.specs.inner.Recording.{Recorded};
ghost use Rattle.pfl_world.specs.inner.WorldEdits.{before_node};
ghost use Rattle.pfl_world.specs.Worlds.{node_at, with_node, with_link};

use crate::edit::WorldEdit;
use crate::world::World;
use pfl_base::{NodeId, Refusal};
use pfl_edits::{Change, NoMemory, Recorder, undo_all};
use pfl_language::Outcome;
use pfl_link::Bytes;
use pfl_node::NodeEdit;
use std::alloc::Allocator;

impl<A: Allocator> World<A> {
    /// Why no frame goes out of a node, if there is a reason. It takes no memory.
    fn flush_refusal(&self, node: NodeId) -> Option<Refusal>
        ensures refusal { result ≡ flush_refusal self.now node }
    {
        if let Some(refusal) = self.node(node).send_refusal() {
            return Some(refusal);
        }
        match self.link.room_fault() {
            Some(fault) => Some(Refusal::from(fault)),
            None => None,
        }
    }
}

impl<A: Allocator + Copy> World<A> {
    /// A frame goes out of a node.
    pub(crate) fn flush<R: Recorder<WorldEdit<A>>>(
        &mut self,
        node: NodeId,
        to: &mut R,
    ) -> Result<Outcome, Refusal>
        ensures refused { IfErr result (IsRefusal (flush_refusal self.old node)) }
        ensures unchanged { OnErr result (self.new ≡ self.old) }
        ensures unrecorded { OnErr result (R.list to.new ≡ R.list to.old) }
        ensures not_refused { OnOk result (flush_refusal self.old node ≡ None) }
        ensures world { OnOk result (self.new ≡ with_link (with_node self.old node (flushing.flushed (node_at self.old node)))
            (sent self.old.link (sent_frame self.old node))) }
        ensures outcome { IfOk result (λ outcome. outcome ≡ Outcome.Sent self.old.link.next (length (sent_frame self.old node).bytes)) }
        ensures recorded { OnOk result (Recorded HoldsLittle self.old self.new (R.list to.old) (R.list to.new)) }
        ensures few { OnOk result (length (R.list to.new) ≤ length (R.list to.old) + (2 + 2 * flush_work self.old node)) }
        ensures room { R.spare to.old + length (R.list to.old) ≤ R.spare to.new + length (R.list to.new) }
    {
        if let Some(refusal) = self.flush_refusal(node) {
            return Err(refusal);
        }
        let (bytes, change) = self.nodes.at_mut(node).flush()?;
        match self.send(node, Bytes::from(bytes), change, to) {
            Ok(outcome) => Ok(outcome),
            Err(_) => Err(Refusal::NoMemory),
        }
    }

    /// The link takes the frame of a node, and what was changed for it is recorded. Where there is no memory, the node is as it was,
    /// and nothing is recorded.
    fn send<R: Recorder<WorldEdit<A>>>(
        &mut self,
        node: NodeId,
        bytes: Bytes<A>,
        change: Change<NodeEdit, A>,
        to: &mut R,
    ) -> Result<Outcome, NoMemory>
        requires fits { Fits nodes.Finds IsNode nodes.put_back change.list (node_at self.old node) }
        requires room { room_fault self.old.link ≡ None }
        requires short { length bytes ≤ self.old.link.mtu }
        ensures undone { OnErr result (self.new ≡ before_node self.old node change.list) }
        ensures unrecorded { OnErr result (R.list to.new ≡ R.list to.old) }
        ensures world { OnOk result (self.new ≡ with_link self.old (sent self.old.link (record { to = other_node node; bytes = bytes }))) }
        ensures outcome { IfOk result (λ outcome. outcome ≡ Outcome.Sent self.old.link.next (length bytes)) }
        ensures recorded { OnOk result (Recorded HoldsLittle (before_node self.old node change.list) self.new (R.list to.old) (R.list to.new)) }
        ensures few { OnOk result (length (R.list to.new) ≤ length (R.list to.old) + (length change.list + 1)) }
        ensures room { R.spare to.old + length (R.list to.old) ≤ R.spare to.new + length (R.list to.new) }
    {
        self.known();
        if reserve_one_more(to, change.len()).is_err() {
            self.undo_at(node, change);
            return Err(NoMemory);
        }
        let len = bytes.len();
        let Ok((ticket, edit)) = self.link.send(node.other(), bytes) else {
            self.undo_at(node, change);
            return Err(NoMemory);
        };
        change.record_in(node, to);
        to.push(WorldEdit::OfLink(edit));
        Ok(Outcome::Sent { ticket, len })
    }

    /// Takes what a node changed back, without memory.
    fn undo_at(&mut self, node: NodeId, change: Change<NodeEdit, A>)
        requires fits { Fits nodes.Finds IsNode nodes.put_back change.list (node_at self.old node) }
        ensures undone { self.new ≡ before_node self.old node change.list }
    {
        undo_all(self.nodes.at_mut(node), change);
    }
}

/// Makes room for `n` edits and one more. Where that is no number, there is no memory for them either.
fn reserve_one_more<E, R: Recorder<E>>(to: &mut R, n: usize) -> Result<(), NoMemory>
    ensures list { R.list to.new ≡ R.list to.old }
    ensures room { OnOk result (n < R.spare to.new) }
    ensures kept { R.spare to.old ≤ R.spare to.new }
{
    match n.checked_add(1) {
        Some(more) => to.reserve(more),
        None => Err(NoMemory),
    }
}
