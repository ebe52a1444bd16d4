//! What rules make of packets, as plain data.

use pfl_base::StateName;
use pfl_track::State;

/// What the rules make of a packet that no state takes. Rules are named by their numbers, the first being 0.
#[derive(Clone, Copy, Debug, PartialEq, Eq)]
pub enum Ruling {
    /// No rule matches: it goes on without a state.
    Unmatched,
    /// The rule blocks it.
    Blocked {
        rule: u16,
    },
    /// The rule passes it, and has as many states as it may, or more.
    AtMax {
        rule: u16,
        most: u32,
        states: usize,
    },
    /// The rule passes it, and the node has as many states as it may.
    Full {
        rule: u16,
        limit: u32,
        states: usize,
    },
    /// The rule passes it, and this state has the wire key of the new one.
    WireInUse {
        rule: u16,
        name: StateName,
    },
    /// The rule passes it, and this state has the stack key of the new one.
    StackInUse {
        rule: u16,
        name: StateName,
    },
    /// The rule passes it, and it makes this state.
    Starts {
        rule: u16,
        state: State,
    },
}
