//! The two nodes of a pair, distinguished by their names.

ghost use Rattle.std.specs.Prelude.{◌≡◌, IfOk};
ghost use Rattle.std.specs.Borrow.{sem};
ghost use Rattle.pfl_language.specs.Limits.{AreLimits};
ghost use Rattle.pfl_node.specs.desk.Nodes.{IsNode, new_node};
ghost use Rattle.pfl_world.specs.Worlds.{of_name};

use pfl_base::NodeId;
use pfl_edits::NoMemory;
use pfl_language::Limits;
use pfl_node::Node;
use pfl_rules::RuleSet;
use std::alloc::Allocator;
use std::marker::Model;

/// The two nodes of a pair.
#[derive(Drop)]
pub(crate) struct Nodes<A: Allocator> {
    pub(crate) a: Node<A>,
    pub(crate) b: Node<A>,
}

impl<A: Allocator> Model for Nodes<A> {
    ghost use Rattle.pfl_world.specs.Worlds.{Nodes};
    ghost use Rattle.pfl_world.specs.Codes.{coded_nodes};

    ghost Value = { Nodes };

    ghost coded = { coded_nodes };

    ghost view = { λ ns. record { a = ns.a; b = ns.b } };
}

impl<A: Allocator + Copy> Nodes<A> {
    /// The nodes of a pair before any event, with a rule set each. Their first boots have the numbers 1 and 2; their next ids and
    /// queueing numbers are `next`.
    pub(crate) fn new(
        alloc: A,
        limits: Limits,
        rules_a: RuleSet<A>,
        rules_b: RuleSet<A>,
        next: u32,
    ) -> Result<Self, NoMemory>
        requires limits { AreLimits limits }
        ensures a { IfOk result (λ ns. ns.a ≡ new_node limits rules_a 1 next 0) }
        ensures b { IfOk result (λ ns. ns.b ≡ new_node limits rules_b 2 next 0) }
    {
        let a = Node::new_at(alloc, limits, rules_a, 1, next)?;
        let b = Node::new_at(alloc, limits, rules_b, 2, next)?;
        Ok(Nodes { a, b })
    }

    /// Equal nodes, with memory of their own.
    pub(crate) fn copy(&self) -> Result<Self, NoMemory>
        ensures same { IfOk result (λ copied. copied ≡ self.now) }
    {
        Ok(Nodes {
            a: self.a.copy()?,
            b: self.b.copy()?,
        })
    }
}

impl<A: Allocator> Nodes<A> {
    ghost use Rattle.pfl_world.specs.inner.Lending.{LendsNode};

    /// States for proofs what is true of each node. It does nothing.
    pub(crate) fn known(&self)
        ensures a { IsNode self.now.a }
        ensures b { IsNode self.now.b }
    {
        self.a.known();
        self.b.known();
    }

    /// The node of the name.
    pub(crate) fn at(&self, id: NodeId) -> &Node<A>
        ensures node { result.now ≡ of_name id self.now.a self.now.b }
    {
        match id {
            NodeId::A => &self.a,
            NodeId::B => &self.b,
        }
    }

    /// The node of the name, to be changed.
    pub(crate) fn at_mut(&mut self, id: NodeId) -> &mut Node<A>
        ensures* writes_back { sem 𝓛 (LendsNode A.row A.Allocator self.entry id result) }
        ensures node { result.now ≡ of_name id self.old.a self.old.b }
    {
        match id {
            NodeId::A => &mut self.a,
            NodeId::B => &mut self.b,
        }
    }
}
