//! Scaled timeouts, kept so that a purge need not divide for each.

ghost use Rattle.std.specs.List.{All};
ghost use Rattle.std.specs.Option.{option_copied};
ghost use Rattle.std.specs.Prelude.{◌≡◌, IfSome};
ghost use Rattle.pfl_rules.specs.Scaling.{scaled as scaled_timeout};
ghost use Rattle.pfl_table.specs.inner.Scales.{IsScaled};

use crate::heads::Head;
use pfl_edits::NoMemory;
use pfl_rules::{Adaptive, scaled};
use std::alloc::Allocator;
use std::marker::Model;

/// A timeout of a rule and what it is scaled to, in seconds.
#[derive(Clone, Copy)]
pub(crate) struct ScaledTimeout {
    timeout: u32,
    seconds: u32,
}

/// What some timeouts are scaled to for one number of states. No answer depends on which timeouts are kept.
#[derive(Drop)]
pub(crate) struct Scales<A: Allocator> {
    adaptive: Adaptive,
    states: usize,
    timeouts: Vec<ScaledTimeout, A>,
}

impl<A: Allocator> Model for Scales<A> {
    ghost use Rattle.std.specs.List.{All};
    ghost use Rattle.pfl_table.specs.inner.Scales.{IsScaled};

    ghost Value = { Unit {0} };

    ghost view = { λ s. tt };

    ghost invariant = { λ s. All (IsScaled s.adaptive s.states) s.timeouts.items };
}

impl<A: Allocator> Scales<A> {
    /// No timeouts, and room for `limit` of them.
    pub(crate) fn new(alloc: A, limit: usize) -> Result<Self, NoMemory> {
        Ok(Scales {
            adaptive: Adaptive { start: 0, end: 0 },
            states: 0,
            timeouts: Vec::with_capacity(alloc, limit)?,
        })
    }

    /// The timeouts kept, if they were scaled for this number of states; else none.
    pub(crate) fn for_states(&self, adaptive: Adaptive, states: usize) -> &[ScaledTimeout]
        ensures scaled { All (IsScaled adaptive states) result.now }
    {
        if self.adaptive == adaptive && self.states == states {
            &self.timeouts
        } else {
            &[]
        }
    }

    /// Scales the timeouts of these heads, as far as there is room, unless as many as there are heads are kept for this number of states,
    /// be they those of other heads.
    pub(crate) fn renew(&mut self, heads: &[Head], adaptive: Adaptive, states: usize) {
        if self.for_states(adaptive, states).len() == heads.len() {
            return;
        }
        self.adaptive = adaptive;
        self.states = states;
        scale_all(&mut self.timeouts, heads, adaptive, states);
    }
}

/// Scales the timeouts of heads, as far as there is room.
fn scale_all<A: Allocator>(
    timeouts: &mut Vec<ScaledTimeout, A>,
    heads: &[Head],
    adaptive: Adaptive,
    states: usize,
)
    ensures scaled { All (IsScaled adaptive states) timeouts.new.items }
{
    timeouts.clear();
    for head in heads {
        if timeouts.len() == timeouts.capacity() {
            return;
        }
        let timeout = head.timeout();
        timeouts
            .push(ScaledTimeout {
                timeout,
                seconds: scaled(timeout, adaptive, states),
            })
            .unwrap();
    }
}

/// What a timeout is scaled to: as kept, if what is kept is for this timeout.
#[inline]
pub(crate) fn seconds_of(
    kept: Option<&ScaledTimeout>,
    timeout: u32,
    adaptive: Adaptive,
    states: usize,
) -> u32
    requires scaled { IfSome (option_copied kept) (IsScaled adaptive states) }
    ensures { result ≡ scaled_timeout timeout adaptive states }
{
    match kept {
        Some(kept) if kept.timeout == timeout => kept.seconds,
        _ => scaled(timeout, adaptive, states),
    }
}
