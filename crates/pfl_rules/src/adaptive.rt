//! Timeouts that shorten as the table of states fills.

ghost use Rattle.std.specs.Prelude.{◌≡◌};
ghost use Rattle.pfl_rules.specs.Scaling.{scaled as scaled_timeout};

/// The numbers of states between which timeouts shrink (pf.conf(5), `adaptive.start` and `adaptive.end`).
#[derive(Clone, Copy, Debug, PartialEq, Eq)]
pub struct Adaptive {
    /// Above this number of states a timeout shrinks.
    pub start: u32,
    /// From this number of states on it is 0. Where it is not above `start`, no timeout ever shrinks.
    pub end: u32,
}

/// The seconds of a timeout where there are this many states, truncated (pf.conf(5)).
pub fn scaled(timeout: u32, adaptive: Adaptive, states: usize) -> u32
    ensures { result ≡ scaled_timeout timeout adaptive states }
{
    let start = adaptive.start as usize;
    let end = adaptive.end as usize;
    if states <= start || end <= start {
        return timeout;
    }
    // From the end on nothing is left.
    let left = end.saturating_sub(states);
    (timeout as usize * left / (end - start)) as u32
}
