//! Why packets have their fates, as plain data.

use pfl_base::StateName;
use pfl_track::Judgement;

/// What the rules made of a packet that no state took. Rules are named by their numbers, the first being 0.
#[derive(Clone, Copy, Debug, PartialEq, Eq)]
pub enum Judged {
    /// No rule matches: it goes on without a state.
    Unmatched,
    /// The rule blocks it.
    Blocked {
        rule: u16,
    },
    /// The rule passes it, and has as many states as it may, or more.
    AtMax {
        rule: u16,
        most: u32,
        states: usize,
    },
    /// The rule passes it, and the node has as many states as it may.
    Full {
        rule: u16,
        limit: u32,
        states: usize,
    },
    /// The rule passes it, and this state has the wire key of the new one.
    WireInUse {
        rule: u16,
        name: StateName,
    },
    /// The rule passes it, and this state has the stack key of the new one.
    StackInUse {
        rule: u16,
        name: StateName,
    },
    /// The rule passes it, and it makes this state.
    Makes {
        rule: u16,
        name: StateName,
    },
}

/// Why a packet has its fate.
#[derive(Clone, Copy, Debug, PartialEq, Eq)]
pub enum PacketReason {
    /// The state has its key. A packet of TCP goes on if there is a way in which it passes what it is tested against, and any other
    /// goes on.
    OfState {
        name: StateName,
        judgement: Option<Judgement>,
    },
    /// No state takes it, so its rules decide; over a closed connection a new one begins, and the state of that is deleted first.
    ByRules {
        closed: Option<StateName>,
        judged: Judged,
    },
}
