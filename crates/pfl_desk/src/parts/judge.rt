//! What an event is judged by.

ghost use Rattle.std.specs.Prelude.{◌≡◌, false, Ok, IfOk};
ghost use Rattle.pfl_desk.specs.inner.Judging.{judged_as, judgement};
ghost use Rattle.pfl_desk.specs.Nodes.{Node as Whole, is_overcounted, is_overfull};

use crate::parts::Parts;
use pfl_base::{GREATEST_NUMBER, Refusal};
use std::alloc::Allocator;

/// Too much would be pending, so that an event cannot go on.
#[derive(Clone, Copy, Debug)]
pub struct Overfull;

/// Judges an event that was carried out: `tried` is its answer and whether at one of its points a number was too high, or that it
/// stopped where too much was pending.
pub fn judged<T: Copy>(tried: Result<(T, bool), Overfull>) -> Result<T, Refusal>
    ensures refused { judged_as result ≡ judgement tried }
    ensures answer { IfOk result (λ answer. tried ≡ Ok (answer, false)) }
{
    match tried {
        Ok((answer, false)) => Ok(answer),
        Ok((_, true)) => Err(Refusal::CountFull),
        Err(Overfull) => Err(Refusal::QueueFull),
    }
}

impl<A: Allocator> Parts<A> {
    /// The next id, the next queueing number or a counter is past the greatest.
    pub(crate) fn is_overcounted(&self) -> bool
        ensures counted { result ≡ is_overcounted self.now }
        ensures room { is_overfull self.now ≡ false }
    {
        GREATEST_NUMBER < self.next_id
            || GREATEST_NUMBER < self.queue.next()
            || GREATEST_NUMBER < self.counters.passed
            || GREATEST_NUMBER < self.counters.blocked
            || GREATEST_NUMBER < self.counters.freed
            || GREATEST_NUMBER < self.counters.lost
            || GREATEST_NUMBER < self.counters.bad
            || GREATEST_NUMBER < self.counters.stale
            || GREATEST_NUMBER < self.counters.broken
    }
}
