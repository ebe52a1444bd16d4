//! The desk on which an event changes a node: the parts of the node, and what was recorded since the event began. Each place by
//! itself (places), what is asked of or sent to the peer beside the queues of names (lists), the small changes that events are made of
//! (changes), what a frame takes out (taking), and what ends an event (ending). What is read of the node is read of its parts.

mod changes;
mod ending;
mod lists;
pub(crate) mod places;
mod taking;

ghost use Rattle.std.specs.Prelude.{◌≡◌, ◌≤◌, false, IfOk, []};
ghost use Rattle.pfl_language.specs.Limits.{AreLimits};
ghost use Rattle.pfl_desk.specs.Edits.{Finds, FindsFormer, put_back, redone};
ghost use Rattle.pfl_desk.specs.inner.Drafting.{IsDraft, most_room};
ghost use Rattle.pfl_desk.specs.Nodes.{AreParts, is_overcounted, new_node};

use crate::edit::NodeEdit;
use crate::parts::Parts;
use pfl_edits::{Change, NoMemory, Reversible};
use pfl_language::Limits;
use pfl_rules::RuleSet;
use std::alloc::Allocator;
use std::marker::Model;

/// The parts of a node, and what was recorded of them since an event began: the edits lead back to where it began, and there is room
/// for those that it still makes. So nothing that is changed here goes unrecorded, and no number comes near the last one that the code
/// has.
pub struct Desk<A: Allocator> {
    parts: Parts<A>,
    edits: Change<NodeEdit, A>,
}

// Written by hand: see docs/ARCHITECTURE.md, "What the prover asks of the code".
impl<A: Allocator> Drop for Desk<A> {
    fn drop(self) {
        let Desk { parts: _, edits: _ } = self;
    }
}

impl<A: Allocator> Model for Desk<A> {
    ghost use Rattle.pfl_desk.specs.Drafts.{Draft};
    ghost use Rattle.pfl_desk.specs.inner.Drafting.{IsDraft};

    ghost Value = { Draft };

    ghost view = { λ d. record { node = d.parts; edits = d.edits } };

    ghost invariant = { λ d. IsDraft (record { node = d.parts; edits = d.edits }) };
}

impl<A: Allocator + Copy> Desk<A> {
    /// A desk with a node that has seen nothing, and with room for this many edits. The node's creator is the number of its boot, and
    /// its next id and its next queueing number are `next`.
    pub fn new(
        alloc: A,
        limits: Limits,
        rules: RuleSet<A>,
        creator: u32,
        next: u32,
        room: usize,
    ) -> Result<Self, NoMemory>
        requires limits { AreLimits limits }
        requires room { room ≤ most_room }
        ensures new { IfOk result (λ d. d.node ≡ new_node limits rules creator next 0) }
        ensures none { IfOk result (λ d. d.edits.list ≡ []) }
        ensures room { IfOk result (λ d. d.edits.spare ≡ room) }
        ensures parts { IfOk result (λ d. AreParts d.node) }
    {
        let parts = Parts::new(alloc, limits, rules, creator, next)?;
        let edits = Change::with_room(alloc, room)?;
        Ok(Desk { parts, edits })
    }

    /// A desk with an equal node, between events, with memory of its own and room for this many edits.
    pub fn copy(&self, alloc: A, room: usize) -> Result<Self, NoMemory>
        requires between { self.now.edits.list ≡ [] }
        requires room { room ≤ most_room }
        ensures same { IfOk result (λ d. d.node ≡ self.now.node) }
        ensures none { IfOk result (λ d. d.edits.list ≡ []) }
        ensures room { IfOk result (λ d. d.edits.spare ≡ room) }
    {
        let parts = self.parts.copy()?;
        let edits = Change::with_room(alloc, room)?;
        Ok(Desk { parts, edits })
    }
}

impl<A: Allocator> Desk<A> {
    /// The parts of the node, to be read.
    pub fn parts(&self) -> &Parts<A>
        ensures parts { result.now ≡ self.now.node }
    {
        &self.parts
    }

    /// States for proofs what is true of each desk. It does nothing.
    pub fn known(&self)
        ensures parts { AreParts self.now.node }
        ensures draft { IsDraft self.now }
    {
        self.parts.known();
    }

    /// Takes an edit of an earlier event back, between events.
    pub fn undo(&mut self, edit: NodeEdit)
        requires between { self.old.edits.list ≡ [] }
        requires found { Finds edit self.old.node }
        requires allowed { AreParts (put_back edit self.old.node) }
        requires counted { is_overcounted (put_back edit self.old.node) ≡ false }
        ensures node { self.new.node ≡ put_back edit self.old.node }
        ensures edits { self.new.edits ≡ self.old.edits }
    {
        self.parts.undo(edit);
    }

    /// Redoes an edit of an earlier event that was taken back, between events.
    pub fn redo(&mut self, edit: NodeEdit)
        requires between { self.old.edits.list ≡ [] }
        requires found { FindsFormer edit self.old.node }
        requires allowed { AreParts (redone edit self.old.node) }
        requires counted { is_overcounted (redone edit self.old.node) ≡ false }
        ensures node { self.new.node ≡ redone edit self.old.node }
        ensures edits { self.new.edits ≡ self.old.edits }
    {
        self.parts.redo(edit);
    }
}
