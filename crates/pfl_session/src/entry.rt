//! The entries of a journal.

ghost use Rattle.std.specs.Prelude.{◌≡◌};

use crate::kept::KeptEntry;
use pfl_language::Command;
use pfl_timeline::{Reply, Timeline};
use std::alloc::Allocator;

/// One call: the session that made it, its command, and its reply. Sessions count from 1.
#[derive(Drop)]
pub struct Entry<A: Allocator> {
    pub session: u32,
    pub command: Command,
    pub reply: Reply<A>,
}

impl<A: Allocator> Entry<A> {
    /// The entry of these parts.
    pub(crate) fn new(session: u32, command: Command, reply: Reply<A>) -> Self
        ensures { result ≡ record { session = session; command = command; reply = reply } }
    {
        Entry {
            session,
            command,
            reply,
        }
    }
}

/// What is left of a lab: the timeline, and the journal that led to it.
#[derive(Drop)]
pub struct Closed<A: Allocator> {
    pub timeline: Timeline<A>,
    pub journal: Vec<KeptEntry<A>, A>,
}
