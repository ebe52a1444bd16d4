//! Rings of nodes, each of which has the number of the node before it and of the one after it.
ghost use Rattle.std.specs.Prelude.{◌≡◌, ◌≢◌, ◌+◌, ◌<◌, ◌≤◌, ◌^◌, IfOk, [], length, vec_capacity};
ghost use Rattle.pfl_containers.specs.inner.Rings.{node_of, next_of, previous_of, IsNode, IsSlot, AreSized, SetsNext, SetsPrevious, Grows, Unlinks};
ghost use Rattle.pfl_containers.specs.inner.Rings.{Inserts, AreAlone};

use pfl_edits::Node;
use std::alloc::{AllocError, Allocator};

/// Nodes, each of which stands in a ring: one for each slot that was ever used, and one for each ring, its head, at which it begins and
/// ends. Below `limit` the number of a node is its slot. The head of ring r has the number `limit + r`.
#[derive(Drop)]
pub(crate) struct Rings<A: Allocator> {
    pub(crate) limit: usize,
    pub(crate) nodes: Vec<Node, A>,
    heads: Vec<Node, A>,
}

impl<A: Allocator + Copy> Rings<A> {
    /// `count` rings, each of its head alone, and room for the nodes of `limit` slots, none of which was used.
    pub(crate) fn new(alloc: A, limit: usize, count: usize) -> Result<Self, AllocError>
        requires small { limit + count ≤ 2 ^ 32 }
        ensures limit { IfOk result (λ rings. rings.limit ≡ limit) }
        ensures unused { IfOk result (λ rings. rings.nodes.items ≡ []) }
        ensures room { IfOk result (λ rings. limit ≤ vec_capacity rings.nodes) }
        ensures heads { IfOk result (λ rings. length rings.heads.items ≡ count) }
        ensures alone { IfOk result (λ rings. AreAlone (node_of rings) rings.limit count) }
    {
        let nodes = Vec::with_capacity(alloc, limit)?;
        let mut heads = Vec::with_capacity(alloc, count)?;
        for ring in 0..count {
            let head = (limit + ring) as u32;
            heads.push(Node {
                ring: 0,
                previous: head,
                next: head,
            })?;
        }
        Ok(Rings {
            limit,
            nodes,
            heads,
        })
    }

    /// The same nodes, with room of their own.
    pub(crate) fn copy(&self) -> Result<Self, AllocError>
        ensures limit { IfOk result (λ rings. rings.limit ≡ self.now.limit) }
        ensures nodes { IfOk result (λ rings. rings.nodes.items ≡ self.now.nodes.items) }
        ensures heads { IfOk result (λ rings. rings.heads.items ≡ self.now.heads.items) }
        ensures room { IfOk result (λ rings. self.now.limit ≤ vec_capacity rings.nodes) }
    {
        let alloc = *self.nodes.allocator();
        let mut nodes = Vec::with_capacity(alloc, self.limit)?;
        nodes.extend_from_slice(&self.nodes)?;
        let mut heads = Vec::with_capacity(alloc, self.heads.len())?;
        heads.extend_from_slice(&self.heads)?;
        Ok(Rings {
            limit: self.limit,
            nodes,
            heads,
        })
    }
}

impl<A: Allocator> Rings<A> {
    /// The node with a number.
    #[inline]
    pub(crate) fn node(&self, at: usize) -> Node
        requires node { IsNode self.now at }
        ensures node { result ≡ node_of self.now at }
    {
        if at < self.limit {
            self.nodes[at]
        } else {
            self.heads[at - self.limit]
        }
    }

    /// Makes the node of the next slot that was never used, and returns the slot.
    #[inline]
    pub(crate) fn grow(&mut self) -> usize
        requires below { length self.old.nodes.items < self.old.limit }
        requires small { self.old.limit ≤ 2 ^ 32 }
        requires room { self.old.limit ≤ vec_capacity self.old.nodes }
        ensures slot { result ≡ length self.old.nodes.items }
        ensures grown { Grows self.old self.new }
    {
        let slot = self.nodes.len();
        let alone = Node {
            ring: 0,
            previous: slot as u32,
            next: slot as u32,
        };
        self.nodes.push(alone).unwrap();
        slot
    }

    /// Takes a slot's node out from between its neighbours.
    pub(crate) fn unlink(&mut self, slot: usize)
        requires slot { IsSlot self.old slot }
        requires previous { IsNode self.old (previous_of (node_of self.old) slot) }
        requires next { IsNode self.old (next_of (node_of self.old) slot) }
        ensures unlinked { Unlinks (node_of self.old) (node_of self.new) slot }
        ensures sized { AreSized self.old self.new }
    {
        let Node {
            previous,
            next,
            ring: _,
        } = self.nodes[slot];
        self.set_next(previous as usize, next);
        self.set_previous(next as usize, previous);
    }

    /// Puts a slot's node into a ring, after another node.
    pub(crate) fn insert(&mut self, ring: u32, slot: usize, after: usize)
        requires slot { IsSlot self.old slot }
        requires after { IsNode self.old after }
        requires next { IsNode self.old (next_of (node_of self.old) after) }
        requires apart { slot ≢ after }
        requires loose { slot ≢ next_of (node_of self.old) after }
        requires small { self.old.limit + length self.old.heads.items ≤ 2 ^ 32 }
        ensures inserted { Inserts (node_of self.old) (node_of self.new) ring slot after }
        ensures sized { AreSized self.old self.new }
    {
        let next = self.node(after).next;
        self.set_next(after, slot as u32);
        self.nodes[slot] = Node {
            ring,
            previous: after as u32,
            next,
        };
        self.set_previous(next as usize, slot as u32);
    }

    /// Writes the number of the node after a node.
    #[inline]
    fn set_next(&mut self, at: usize, next: u32)
        requires node { IsNode self.old at }
        ensures set { SetsNext (node_of self.old) (node_of self.new) at next }
        ensures sized { AreSized self.old self.new }
    {
        if at < self.limit {
            self.nodes[at].next = next;
        } else {
            self.heads[at - self.limit].next = next;
        }
    }

    /// Writes the number of the node before a node.
    #[inline]
    fn set_previous(&mut self, at: usize, previous: u32)
        requires node { IsNode self.old at }
        ensures set { SetsPrevious (node_of self.old) (node_of self.new) at previous }
        ensures sized { AreSized self.old self.new }
    {
        if at < self.limit {
            self.nodes[at].previous = previous;
        } else {
            self.heads[at - self.limit].previous = previous;
        }
    }
}
