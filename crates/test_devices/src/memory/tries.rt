//! Calls whose requests are refused in turn.

/// What came of a call while one request was refused.
#[derive(Clone, Copy, Debug, PartialEq, Eq)]
pub enum Try {
    /// The request came, and the answer is want of memory.
    Wanting,
    /// The request came, and the call did without it: the answer is what it always is.
    Spared,
    /// The request did not come, as the call makes fewer. The answer is what it always is.
    Whole,
}

/// How many requests a call makes.
#[derive(Clone, Copy, Debug, PartialEq, Eq)]
pub struct Requests {
    /// Without these the answer is want of memory.
    pub wanted: u64,
    /// The call does without these, where memory is there for what it asks instead.
    pub spared: u64,
}

/// More requests than a call makes.
const MOST: u64 = 100_000;

/// Tries a call while its first request is refused, then anew while its second one is, and so on until none comes: how many
/// there are. `call` tries it while the request of that number is refused; it returns `None` where something is not as it
/// should be, which ends the tries.
pub fn requests_of<F: FnMut(u64) -> Option<Try>>(mut call: F) -> Option<Requests>
    requires { F.IsAlwaysCallable call }
{
    let mut all = Requests {
        wanted: 0,
        spared: 0,
    };
    for n in 1..MOST {
        match call(n)? {
            Try::Wanting => all.wanted = all.wanted.saturating_add(1),
            Try::Spared => all.spared = all.spared.saturating_add(1),
            Try::Whole => return Some(all),
        }
    }
    None
}
