//! Frames.

ghost use Rattle.std.specs.Prelude.{◌≡◌};

use crate::message::Message;
use std::alloc::Allocator;
use std::marker::Model;

/// A frame: the checksum of the sender's rules, which is the MD5 of their text, and groups of records. Clauses see a
/// group as the list of its records.
#[derive(Drop)]
pub struct Frame<A: Allocator> {
    print: [u8; 16],
    groups: Vec<Vec<Message, A>, A>,
}

impl<A: Allocator> Model for Frame<A> {
    ghost use Rattle.pfl_wire.specs.Frames.{Frame as FrameValue, lists};

    ghost Value = { FrameValue };

    ghost view = { λ f. record { print = f.print; groups = lists f.groups.items } };
}

impl<A: Allocator> Frame<A> {
    ghost use Rattle.pfl_wire.specs.Frames.{lists};

    /// The frame of a checksum and of groups in their order.
    pub fn new(print: [u8; 16], groups: Vec<Vec<Message, A>, A>) -> Self
        ensures print { result.print ≡ print }
        ensures groups { result.groups ≡ lists groups.items }
    {
        Frame { print, groups }
    }

    /// The checksum of the sender's rules.
    pub fn print(&self) -> &[u8; 16]
        ensures { result.now ≡ self.now.print }
    {
        &self.print
    }

    /// The groups, each with its records.
    pub fn groups(&self) -> &[Vec<Message, A>]
        ensures { lists result.now ≡ self.now.groups }
    {
        &self.groups
    }
}
