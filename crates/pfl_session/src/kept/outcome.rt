//! Outcomes in few bytes.

ghost use Rattle.std.specs.Prelude.{◌≡◌};
ghost use Rattle.pfl_session.specs.inner.Kept.{outcome_in};

use pfl_base::Millis;
use pfl_language::{Fate, NodeOutcome, Outcome, Reason, Retried};
use pfl_wire::BadFrame;

/// An outcome that names no state in 16 bytes, where an [`Outcome`] takes 48.
#[derive(Drop)]
pub(crate) enum KeptOutcome {
    /// The packet goes on, by no state.
    Free,
    Dropped(Reason),
    Clock(Millis),
    Purged(usize),
    Released(usize),
    Killed,
    Cleared(usize),
    Queued(usize),
    Tried(Retried),
    Sent { ticket: u32, len: usize },
    Taken(usize),
    Broken(BadFrame),
    Lost,
    CutTo(usize),
    Boot(u32),
}

/// What an event at a node gives.
fn at(outcome: NodeOutcome) -> Outcome
    ensures { result ≡ Outcome.At outcome }
{
    Outcome::At(outcome)
}

impl KeptOutcome {
    /// The same outcome.
    pub(crate) fn outcome(self) -> Outcome
        ensures { result ≡ outcome_in self }
    {
        match self {
            KeptOutcome::Free => at(NodeOutcome::Handled(Fate::Pass(None))),
            KeptOutcome::Dropped(reason) => at(NodeOutcome::Handled(Fate::Dropped(reason))),
            KeptOutcome::Clock(ms) => at(NodeOutcome::Clock(ms)),
            KeptOutcome::Purged(count) => at(NodeOutcome::Purged(count)),
            KeptOutcome::Released(count) => at(NodeOutcome::Released(count)),
            KeptOutcome::Killed => at(NodeOutcome::Killed),
            KeptOutcome::Cleared(count) => at(NodeOutcome::Cleared(count)),
            KeptOutcome::Queued(count) => at(NodeOutcome::Queued(count)),
            KeptOutcome::Tried(retried) => at(NodeOutcome::Tried(retried)),
            KeptOutcome::Sent { ticket, len } => Outcome::Sent { ticket, len },
            KeptOutcome::Taken(records) => Outcome::Taken(records),
            KeptOutcome::Broken(fault) => Outcome::Broken(fault),
            KeptOutcome::Lost => Outcome::Lost,
            KeptOutcome::CutTo(len) => Outcome::CutTo(len),
            KeptOutcome::Boot(boot) => Outcome::Boot(boot),
        }
    }
}
