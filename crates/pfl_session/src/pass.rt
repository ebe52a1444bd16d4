//! What one session has seen.

ghost use Rattle.std.specs.Prelude.{◌≡◌, ◌≤◌, ◌+◌, length};
ghost use Rattle.pfl_session.specs.Journals.{count_of};
ghost use Rattle.pfl_session.specs.Passes.{seen_in};

use crate::mark::Mark;
use pfl_publish::{Half, Told, ViewerSeat};
use std::alloc::Allocator;
use std::marker::Model;

/// The right of one session to ask and to look. Its seats are out only while a call runs. Contracts see the session's number,
/// its half of the count of its entries, and what it has seen.
pub struct Pass<A: Allocator> {
    pub(crate) session: u32,
    pub(crate) half: Option<Half>,
    pub(crate) viewer: Option<ViewerSeat<Mark<A>>>,
}

// Written by hand: see docs/ARCHITECTURE.md, "What the prover asks of the code".
impl<A: Allocator> Drop for Pass<A> {
    fn drop(self) {
        let Pass {
            session: _,
            half: _,
            viewer: _,
        } = self;
    }
}

impl<A: Allocator> Model for Pass<A> {
    ghost use Rattle.std.specs.Prelude.{◌≡◌, ◌≤◌, Some, false};
    ghost use Rattle.pfl_publish.specs.Count.{Count};
    ghost use Rattle.pfl_publish.specs.Seats.{Viewer};
    ghost use Rattle.pfl_session.specs.declared.mark.Mark.{Mark};
    ghost use Rattle.pfl_session.specs.Journals.{calls_in, count_of};
    ghost use Rattle.pfl_session.specs.Passes.{Seen, seen_of};

    ghost Value = { Seen A };

    ghost view = { λ p. seen_of p.session p.half p.viewer };

    ghost invariant = { λ p. (v : Viewer (Mark A)) × (h : Count) × (p.viewer ≡ Some v) × (p.half ≡ Some h) × (v.trying ≡ false)
        × (h.count ≤ count_of p.session (calls_in v.seen)) × (1 ≤ p.session) };
}

impl<A: Allocator> Pass<A> {
    /// The session's number, from 1. The session has called no more than the pass has seen of its entries.
    pub fn session(&self) -> u32
        ensures number { result ≡ self.now.session }
        ensures first { 1 ≤ result }
        ensures called { self.now.half.count ≤ count_of self.now.session (seen_in self.now) }
    {
        self.session
    }

    /// The floor of what it has seen, for another session to learn.
    pub fn told(&self) -> Told
        ensures { result.number + 1 ≡ length self.now.viewer.seen }
    {
        let Some(viewer) = &self.viewer else {
            unreachable!();
        };
        viewer.told()
    }
}
