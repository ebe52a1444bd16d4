//! Why a search has no answer.

use pfl_edits::NoMemory;

/// Why a search has no answer.
#[derive(Clone, Copy, Debug, PartialEq, Eq)]
pub enum Stopped {
    /// The allocator had no memory to give.
    NoMemory,
    /// More worlds were to be visited than might be.
    TooMany,
}

impl From<NoMemory> for Stopped {
    ghost use Rattle.std.specs.Prelude.{◌≡◌};
    ghost use Rattle.pfl_search.specs.declared.stopped.Stopped.TheVariants as stopped;

    ghost from_gives = { λ _ given. given ≡ stopped.NoMemory };

    fn from(_want: NoMemory) -> Stopped {
        Stopped::NoMemory
    }
}
