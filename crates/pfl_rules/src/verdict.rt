//! Verdicts.

/// What rules say of a packet.
#[derive(Clone, Copy, Debug, PartialEq, Eq)]
pub struct Verdict {
    /// The number of the rule that decided, the first being 0; none if no rule matched.
    pub rule: Option<u16>,
    /// Whether the packet goes on.
    pub pass: bool,
}
