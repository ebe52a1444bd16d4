//! Why a link refuses.
use crate::bytes::Bytes;
use pfl_base::Refusal;
use pfl_edits::NoMemory;
use std::alloc::Allocator;

/// Why the link refuses. The first of these that applies is reported.
#[derive(Clone, Copy, Debug, PartialEq, Eq)]
pub enum LinkFault {
    /// No frame in flight has this ticket.
    NoSuchFrame,
    /// The link has no room for another frame.
    LinkFull,
    /// The next ticket is the last number.
    CountFull,
    /// The allocator had no memory to give.
    NoMemory,
}

impl From<LinkFault> for Refusal {
    ghost use Rattle.std.specs.Prelude.{◌≡◌};
    ghost use Rattle.pfl_link.specs.Faults.{refusal_of};

    ghost from_gives = { λ fault refusal. refusal ≡ refusal_of fault };

    fn from(fault: LinkFault) -> Refusal {
        match fault {
            LinkFault::NoSuchFrame => Refusal::NoSuchFrame,
            LinkFault::LinkFull => Refusal::LinkFull,
            LinkFault::CountFull => Refusal::CountFull,
            LinkFault::NoMemory => Refusal::NoMemory,
        }
    }
}

impl From<NoMemory> for LinkFault {
    ghost use Rattle.std.specs.Prelude.{◌≡◌};
    ghost use Rattle.pfl_link.specs.declared.fault.LinkFault.TheVariants as fault;

    ghost from_gives = { λ _ refused. refused ≡ fault.NoMemory };

    fn from(_error: NoMemory) -> LinkFault {
        LinkFault::NoMemory
    }
}

/// A frame that the link did not take, with its bytes.
#[derive(Drop)]
pub struct Refused<A: Allocator> {
    pub fault: LinkFault,
    pub bytes: Bytes<A>,
}
