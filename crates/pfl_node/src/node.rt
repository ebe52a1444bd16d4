//! The node.

ghost use Rattle.std.specs.Prelude.{◌≡◌, IfOk};
ghost use Rattle.pfl_language.specs.Limits.{AreLimits};
ghost use Rattle.pfl_node.specs.inner.Room.{most_edits as most};
ghost use Rattle.pfl_receive.specs.desk.Edits.{FindsFormer, redone};
ghost use Rattle.pfl_receive.specs.desk.Nodes.{Node as Whole, IsNode, new_node};

use pfl_edits::{NoMemory, Reversible};
use pfl_language::Limits;
use pfl_receive::{Desk, NodeEdit, Parts};
use pfl_rules::RuleSet;
use std::alloc::Allocator;
use std::marker::Model;

/// One firewall of the pair: its states, what it has to send to its peer, and what it counts. Its limits and rules never
/// change. All room is made by `new`, also that for the edits of an event while it is carried out and judged.
pub struct Node<A: Allocator> {
    pub(crate) alloc: A,
    pub(crate) desk: Desk<A>,
}

// Written by hand: see docs/ARCHITECTURE.md, "What the prover asks of the code".
impl<A: Allocator> Drop for Node<A> {
    fn drop(self) {
        let Node { alloc: _, desk: _ } = self;
    }
}

impl<A: Allocator> Model for Node<A> {
    ghost use Rattle.pfl_receive.specs.desk.Nodes.{Node, IsNode};
    ghost use Rattle.pfl_receive.specs.desk.Codes.{coded_node};
    ghost use Rattle.pfl_node.specs.inner.Room.{IsReady};

    ghost Value = { Node };

    ghost coded = { coded_node };

    ghost view = { λ n. n.desk.node };

    ghost invariant = { λ n. IsNode n.desk.node × IsReady n.desk.node.limits n.desk.edits };
}

impl<A: Allocator + Copy> Node<A> {
    /// A node that has seen nothing. Its creator is the number of its boot, and its ids and queueing numbers begin with 1.
    pub fn new(alloc: A, limits: Limits, rules: RuleSet<A>, creator: u32) -> Result<Self, NoMemory>
        requires limits { AreLimits limits }
        ensures new { IfOk result (λ n. n ≡ new_node limits rules creator 1 0) }
    {
        Node::new_at(alloc, limits, rules, creator, 1)
    }

    /// A node that has seen nothing, whose next id and next queueing number are `next`. Its creator is the number of its boot.
    pub fn new_at(
        alloc: A,
        limits: Limits,
        rules: RuleSet<A>,
        creator: u32,
        next: u32,
    ) -> Result<Self, NoMemory>
        requires limits { AreLimits limits }
        ensures new { IfOk result (λ n. n ≡ new_node limits rules creator next 0) }
    {
        let room = most_edits(&limits);
        let desk = Desk::new(alloc, limits, rules, creator, next, room)?;
        Ok(Node { alloc, desk })
    }

    /// An equal node, with memory of its own.
    pub fn copy(&self) -> Result<Self, NoMemory>
        ensures same { IfOk result (λ copied. copied ≡ self.now) }
    {
        let room = most_edits(&self.parts().limits());
        let desk = self.desk.copy(self.alloc, room)?;
        Ok(Node {
            alloc: self.alloc,
            desk,
        })
    }
}

impl<A: Allocator> Node<A> {
    /// What is read of it.
    pub fn parts(&self) -> &Parts<A>
        ensures parts { result.now ≡ self.now }
    {
        self.desk.parts()
    }

    /// States for proofs what is true of each node. It does nothing.
    pub fn known(&self)
        ensures node { IsNode self.now }
    {
        let _desk = &self.desk;
    }

    /// Puts the new value of an edit that was undone into its place again. It returns nothing, so it cannot want memory.
    pub fn redo(&mut self, edit: NodeEdit)
        requires found { FindsFormer edit self.old }
        requires allowed { IsNode (redone edit self.old) }
        ensures redone { self.new ≡ redone edit self.old }
    {
        self.desk.redo(edit);
    }
}

/// How many edits an event records at most: five for each state, two for each entry that is pending, and those of a packet; or
/// those of the longest frame, one for each four of its bytes, and eight, beside four for each state; or three for each held packet
/// that goes out.
pub(crate) fn most_edits(limits: &Limits) -> usize
    ensures most { result ≡ most limits.now }
{
    let told = 5 * limits.states as usize + 2 * limits.queue as usize + 14;
    let taken = 4 * limits.states as usize + limits.mtu as usize / 4 + 8;
    told.max(taken.max(3 * limits.held as usize))
}

impl<A: Allocator> Reversible for Node<A> {
    ghost use Rattle.pfl_receive.specs.desk.Nodes.{IsNode};
    ghost use Rattle.pfl_receive.specs.desk.Edits.{Finds, FindsFormer, put_back, redone};
    ghost use Rattle.pfl_receive.specs.desk.inner.BothWays.{edit-both_ways};

    type Edit = NodeEdit;

    ghost finds = { Finds };

    ghost finds_former = { FindsFormer };

    ghost put_back = { put_back };

    ghost redone = { redone };

    ghost allows = { IsNode };

    fn undo(&mut self, edit: NodeEdit) {
        self.desk.undo(edit);
    }

    ghost both_ways = { edit-both_ways };
}
