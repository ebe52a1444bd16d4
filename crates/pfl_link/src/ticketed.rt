//! A frame under its ticket.
ghost use Rattle.std.specs.Prelude.{◌≡◌, IfOk};

use crate::in_flight::InFlight;
use pfl_edits::{Keyed, NoMemory};
use std::alloc::Allocator;
use std::cmp::Ordering;
use std::marker::Model;

/// A frame under its ticket.
#[derive(Drop)]
pub struct Ticketed<A: Allocator> {
    ticket: u32,
    frame: InFlight<A>,
}

impl<A: Allocator> Model for Ticketed<A> {
    ghost use Rattle.pfl_link.specs.Framed.{Ticketed, coded_ticketed};

    ghost Value = { Ticketed };

    ghost coded = { coded_ticketed };

    ghost view = { λ t. record { ticket = t.ticket; frame = t.frame } };
}

impl<A: Allocator> Keyed for Ticketed<A> {
    ghost use Rattle.std.specs.Ordering.{nat_cmp};
    ghost use Rattle.std.proofs.lemmas.Cmp.{nat_cmp_total};
    ghost use Rattle.std.proofs.lemmas.Map.Lookups.{exact_unsigned};
    ghost use Rattle.pfl_link.specs.Framed.{ticket_of};

    type Key = u32;

    ghost key = { ticket_of };

    ghost order = { nat_cmp };

    fn key(&self) -> u32 {
        self.ticket
    }

    fn compare(a: u32, b: u32) -> Ordering {
        a.cmp(&b)
    }

    ghost total = { nat_cmp_total };

    ghost exact = { exact_unsigned };
}

impl<A: Allocator> Ticketed<A> {
    /// A frame under this ticket.
    pub(crate) fn new(ticket: u32, frame: InFlight<A>) -> Ticketed<A>
        ensures row { result ≡ record { ticket = ticket; frame = frame } }
    {
        Ticketed { ticket, frame }
    }

    /// The ticket.
    pub fn ticket(&self) -> u32
        ensures ticket { result ≡ self.now.ticket }
    {
        self.ticket
    }

    /// The frame.
    pub fn frame(&self) -> &InFlight<A>
        ensures frame { result.now ≡ self.now.frame }
    {
        &self.frame
    }

    /// The frame, out of its ticket.
    pub(crate) fn into_frame(self) -> InFlight<A>
        ensures frame { result ≡ self.frame }
    {
        let Ticketed { ticket: _, frame } = self;
        frame
    }
}

impl<A: Allocator + Copy> Ticketed<A> {
    /// The same frame under the same ticket, in memory of its own.
    pub(crate) fn copy(&self) -> Result<Ticketed<A>, NoMemory>
        ensures same { IfOk result (λ copied. copied ≡ self.now) }
    {
        let frame = self.frame.copy()?;
        Ok(Ticketed {
            ticket: self.ticket,
            frame,
        })
    }
}
