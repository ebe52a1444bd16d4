//! What takes a restart back.

ghost use Rattle.std.specs.Prelude.{◌≡◌, IfOk};

use pfl_base::NodeId;
use pfl_edits::NoMemory;
use pfl_node::Node;
use std::alloc::Allocator;
use std::marker::Model;

/// A restart of a node. Its place is the node together with the number of the next boot.
///
/// It owns the node from before, which the new one follows from. That stands on the heap: a node is larger than what any other
/// edit holds.
pub struct RestartEdit<A: Allocator> {
    node: NodeId,
    former: Box<Node<A>, A>,
    boot: u32,
}

// Written by hand: see docs/ARCHITECTURE.md, "What the prover asks of the code".
impl<A: Allocator> Drop for RestartEdit<A> {
    fn drop(self) {
        let RestartEdit {
            node: _,
            former: _,
            boot: _,
        } = self;
    }
}

impl<A: Allocator> Model for RestartEdit<A> {
    ghost use Rattle.pfl_world.specs.Restarts.{RestartEdit, coded_restart};

    ghost Value = { RestartEdit };

    ghost coded = { coded_restart };

    ghost view = { λ e. record { node = e.node; former = e.former.value; boot = e.boot } };
}

impl<A: Allocator> RestartEdit<A> {
    /// The edit of a restart as this boot.
    pub(crate) fn new(node: NodeId, former: Box<Node<A>, A>, boot: u32) -> RestartEdit<A>
        ensures edit { result ≡ record { node = node; former = former.value; boot = boot } }
    {
        RestartEdit { node, former, boot }
    }

    /// The node that began anew.
    pub(crate) fn node(&self) -> NodeId
        ensures node { result ≡ self.now.node }
    {
        self.node
    }

    /// As which boot.
    pub(crate) fn boot(&self) -> u32
        ensures boot { result ≡ self.now.boot }
    {
        self.boot
    }

    /// The node that began anew, as it was before, and as which boot it began.
    pub(crate) fn into_parts(self) -> (NodeId, Box<Node<A>, A>, u32)
        ensures node { result.0 ≡ self.node }
        ensures former { result.1.value ≡ self.former }
        ensures boot { result.2 ≡ self.boot }
    {
        let RestartEdit { node, former, boot } = self;
        (node, former, boot)
    }

    /// The node as it was before.
    pub(crate) fn into_former(self) -> Node<A>
        ensures former { result ≡ self.former }
    {
        let RestartEdit {
            node: _,
            former,
            boot: _,
        } = self;
        Box::into_inner(former)
    }
}

impl<A: Allocator + Copy> RestartEdit<A> {
    /// An equal edit, with memory of its own.
    pub fn copy(&self) -> Result<RestartEdit<A>, NoMemory>
        ensures same { IfOk result (λ copied. copied ≡ self.now) }
    {
        let former = self.former.as_ref().copy()?;
        let former = boxed(*Box::allocator(&self.former), former)?;
        Ok(RestartEdit {
            node: self.node,
            former,
            boot: self.boot,
        })
    }
}

/// A node on the heap.
pub(crate) fn boxed<A: Allocator>(alloc: A, node: Node<A>) -> Result<Box<Node<A>, A>, NoMemory>
    ensures value { IfOk result (λ b. b.value ≡ node) }
{
    match Box::new(alloc, node) {
        Ok(boxed) => Ok(boxed),
        Err(_) => Err(NoMemory),
    }
}
