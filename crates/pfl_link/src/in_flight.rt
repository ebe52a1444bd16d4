//! A frame in flight.
ghost use Rattle.std.specs.Prelude.{◌≡◌, IfOk};
ghost use Rattle.pfl_link.specs.Links.{cut_to};

use crate::bytes::Bytes;
use pfl_base::NodeId;
use pfl_edits::NoMemory;
use std::alloc::Allocator;
use std::marker::Model;

/// A frame on its way to a node.
#[derive(Drop)]
pub struct InFlight<A: Allocator> {
    to: NodeId,
    bytes: Bytes<A>,
}

impl<A: Allocator> Model for InFlight<A> {
    ghost use Rattle.pfl_link.specs.Links.{InFlight, coded_in_flight};

    ghost Value = { InFlight };

    ghost coded = { coded_in_flight };

    ghost view = { λ f. record { to = f.to; bytes = f.bytes } };
}

impl<A: Allocator> InFlight<A> {
    /// A frame to this node.
    pub(crate) fn new(to: NodeId, bytes: Bytes<A>) -> InFlight<A>
        ensures frame { result ≡ record { to = to; bytes = bytes } }
    {
        InFlight { to, bytes }
    }

    /// The node that it goes to.
    pub fn to(&self) -> NodeId
        ensures to { result ≡ self.now.to }
    {
        self.to
    }

    /// Its bytes.
    pub fn bytes(&self) -> &Bytes<A>
        ensures bytes { result.now ≡ self.now.bytes }
    {
        &self.bytes
    }
}

impl<A: Allocator + Copy> InFlight<A> {
    /// The same frame, in memory of its own.
    pub fn copy(&self) -> Result<InFlight<A>, NoMemory>
        ensures same { IfOk result (λ copied. copied ≡ self.now) }
    {
        let bytes = self.bytes.copy()?;
        Ok(InFlight { to: self.to, bytes })
    }

    /// The frame with its first `count` bytes, or all if it has fewer, in memory of its own.
    pub(crate) fn first(&self, count: usize) -> Result<InFlight<A>, NoMemory>
        ensures cut { IfOk result (λ kept. kept ≡ cut_to self.now count) }
    {
        let bytes = self.bytes.first(count)?;
        Ok(InFlight { to: self.to, bytes })
    }
}
