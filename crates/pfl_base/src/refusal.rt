//! Why an event is refused.

ghost use Rattle.std.specs.Prelude.{◌≡◌, Some};

use std::error::Error;
use std::fmt;

/// Why an event is refused. The first of these that applies is reported, want of memory last.
#[derive(Clone, Copy, Debug, PartialEq, Eq)]
pub enum Refusal {
    /// No frame with this number is on the link.
    NoSuchFrame = 1,
    /// A flush with nothing queued, or a release with nothing held.
    NothingPending,
    /// The node has no state with this name.
    NoSuchState,
    /// The link has no room for another frame.
    LinkFull,
    /// At some point of the event, the node's queues would hold more than their limit.
    QueueFull,
    /// The clock would pass its greatest value.
    ClockFull,
    /// A number or a counter would pass 4294967295.
    CountFull,
    /// A bulk turn of an idle server, or a retry of a client that does not wait.
    NotSyncing,
    /// A retry before its time, or a release with nothing due.
    TooEarly,
    /// The allocator had no memory to give.
    NoMemory,
}

impl Refusal {
    ghost use Rattle.pfl_base.specs.Refusals.{refusal_number};
    ghost use Rattle.pfl_base.specs.Texts.{refusal_text};

    /// The number by which a reply names the refusal, from 1 to 10.
    pub fn number(self) -> u8
        ensures { result ≡ refusal_number self }
    {
        self as u8
    }

    /// The word by which a reply names the refusal.
    pub fn word(self) -> &'static str
        ensures { result.now ≡ refusal_text self }
    {
        match self {
            Refusal::NoSuchFrame => "NoSuchFrame",
            Refusal::NothingPending => "NothingPending",
            Refusal::NoSuchState => "NoSuchState",
            Refusal::LinkFull => "LinkFull",
            Refusal::QueueFull => "QueueFull",
            Refusal::ClockFull => "ClockFull",
            Refusal::CountFull => "CountFull",
            Refusal::NotSyncing => "NotSyncing",
            Refusal::TooEarly => "TooEarly",
            Refusal::NoMemory => "NoMemory",
        }
    }
}

impl fmt::Display for Refusal {
    ghost use Rattle.pfl_base.specs.Texts.{refusal_text};

    ghost output = { λ r. Some (refusal_text r) };

    fn fmt<W: fmt::Write>(&self, f: &mut fmt::Formatter<W>) -> fmt::Result {
        f.write_str(self.word())
    }
}

impl Error for Refusal {}
