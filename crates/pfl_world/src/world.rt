//! The pair of nodes.

ghost use Rattle.std.specs.Prelude.{◌≡◌, ◌≤◌, None, IfOk, IfErr, OnOk};
ghost use Rattle.pfl_language.specs.Limits.{AreLimits};
ghost use Rattle.pfl_world.specs.Worlds.{IsWorld, IsFault, new_world, new_world_at, node_at, opening_world, world_fault};

use crate::fault::{WorldFault, fault_of};
use crate::nodes::Nodes;
use pfl_base::NodeId;
use pfl_edits::NoMemory;
use pfl_language::Limits;
use pfl_link::Link;
use pfl_node::Node;
use pfl_rules::RuleSet;
use std::alloc::Allocator;
use std::marker::Model;

/// The pair of nodes and the link between them. Both nodes and the link have the same limits, which never change.
pub struct World<A: Allocator> {
    pub(crate) alloc: A,
    pub(crate) nodes: Nodes<A>,
    pub(crate) link: Link<A>,
    pub(crate) next_boot: u32,
}

// Written by hand: see docs/ARCHITECTURE.md, "What the prover asks of the code".
impl<A: Allocator> Drop for World<A> {
    fn drop(self) {
        let World {
            alloc: _,
            nodes: _,
            link: _,
            next_boot: _,
        } = self;
    }
}

impl<A: Allocator> Model for World<A> {
    ghost use Rattle.pfl_world.specs.Worlds.{World, PartsAgree, joined};
    ghost use Rattle.pfl_world.specs.Codes.{coded_world};

    ghost Value = { World };

    ghost coded = { coded_world };

    ghost view = { λ w. joined w.nodes w.link w.next_boot };

    ghost invariant = { λ w. PartsAgree (joined w.nodes w.link w.next_boot) };
}

impl<A: Allocator + Copy> World<A> {
    /// The pair before any event, the nodes with a rule set each.
    pub fn new(
        alloc: A,
        limits: Limits,
        rules_a: RuleSet<A>,
        rules_b: RuleSet<A>,
    ) -> Result<Self, WorldFault>
        ensures refused { IfErr result (IsFault (world_fault limits)) }
        ensures not_refused { OnOk result (world_fault limits ≡ None) }
        ensures new { IfOk result (λ w. w ≡ new_world limits rules_a rules_b) }
    {
        if let Some(fault) = fault_of(&limits) {
            return Err(fault);
        }
        Ok(World::opening(alloc, limits, rules_a, rules_b, 1, 3)?)
    }

    /// The pair before any event, the nodes with a rule set each. The next id and queueing number of both nodes, the next ticket and
    /// the number of the next boot are all `start`.
    pub fn new_at(
        alloc: A,
        limits: Limits,
        rules_a: RuleSet<A>,
        rules_b: RuleSet<A>,
        start: u32,
    ) -> Result<Self, WorldFault>
        requires later { 3 ≤ start }
        ensures refused { IfErr result (IsFault (world_fault limits)) }
        ensures not_refused { OnOk result (world_fault limits ≡ None) }
        ensures new { IfOk result (λ w. w ≡ new_world_at limits rules_a rules_b start) }
    {
        if let Some(fault) = fault_of(&limits) {
            return Err(fault);
        }
        Ok(World::opening(alloc, limits, rules_a, rules_b, start, start)?)
    }

    /// The pair before any event, within these limits.
    fn opening(
        alloc: A,
        limits: Limits,
        rules_a: RuleSet<A>,
        rules_b: RuleSet<A>,
        next: u32,
        next_boot: u32,
    ) -> Result<Self, NoMemory>
        requires limits { AreLimits limits }
        ensures new { IfOk result (λ w. w ≡ opening_world limits rules_a rules_b next next_boot) }
    {
        // The link comes first: where the nodes find no memory, it is all that has to be given back.
        let link = Link::new_at(alloc, limits.frames as usize, limits.mtu as usize, next)?;
        let nodes = Nodes::new(alloc, limits, rules_a, rules_b, next)?;
        Ok(World {
            alloc,
            nodes,
            link,
            next_boot,
        })
    }

    /// An equal world, with memory of its own.
    pub fn copy(&self) -> Result<Self, NoMemory>
        ensures same { IfOk result (λ copied. copied ≡ self.now) }
    {
        let link = self.link.copy_all()?;
        let nodes = self.nodes.copy()?;
        Ok(World {
            alloc: self.alloc,
            nodes,
            link,
            next_boot: self.next_boot,
        })
    }
}

impl<A: Allocator> World<A> {
    /// States for proofs what is true of each world. It does nothing.
    pub fn known(&self)
        ensures world { IsWorld self.now }
    {
        self.nodes.known();
        self.link.known();
    }

    /// The node of the name.
    pub fn node(&self, id: NodeId) -> &Node<A>
        ensures node { result.now ≡ node_at self.now id }
    {
        self.nodes.at(id)
    }

    /// The link between the nodes.
    pub fn link(&self) -> &Link<A>
        ensures link { result.now ≡ self.now.link }
    {
        &self.link
    }

    /// The number of the next boot.
    pub fn next_boot(&self) -> u32
        ensures boot { result ≡ self.now.next_boot }
    {
        self.next_boot
    }
}
