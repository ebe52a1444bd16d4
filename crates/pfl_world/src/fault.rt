//! Why limits are none.

ghost use Rattle.std.specs.Prelude.{◌≡◌};
ghost use Rattle.pfl_world.specs.Worlds.{world_fault};

use pfl_edits::NoMemory;
use pfl_language::{LimitFault, Limits};
use std::error::Error;
use std::fmt;

/// Why limits are none: the first that applies.
#[derive(Clone, Copy, Debug, PartialEq, Eq)]
pub enum WorldFault {
    /// A limit is below its range.
    TooSmall = 1,
    /// A limit is above its range.
    TooLarge,
    /// There is no memory for tables of this size.
    NoMemory,
}

impl WorldFault {
    ghost use Rattle.pfl_world.specs.Faults.{fault_number};

    /// The number by which a program names the fault, from 1 to 3.
    pub fn number(self) -> u8
        ensures { result ≡ fault_number self }
    {
        self as u8
    }
}

impl fmt::Display for WorldFault {
    ghost use Rattle.std.specs.Prelude.{Some};
    ghost use Rattle.pfl_world.specs.Faults.{fault_text};

    ghost output = { λ fault. Some (fault_text fault) };

    fn fmt<W: fmt::Write>(&self, f: &mut fmt::Formatter<W>) -> fmt::Result {
        f.write_str(match self {
            WorldFault::TooSmall => "a limit below its range",
            WorldFault::TooLarge => "a limit above its range",
            WorldFault::NoMemory => "no memory",
        })
    }
}

impl Error for WorldFault {}

impl From<NoMemory> for WorldFault {
    ghost use Rattle.std.specs.Prelude.{◌≡◌};
    ghost use Rattle.pfl_world.specs.declared.fault.WorldFault.TheVariants as fault;

    ghost from_gives = { λ _ given. given ≡ fault.NoMemory };

    fn from(_error: NoMemory) -> WorldFault {
        WorldFault::NoMemory
    }
}

/// Why these limits are none, if there is a reason.
#[tactic(auto, using(crate::proofs::LimitFaults::too_small, crate::proofs::LimitFaults::too_large, crate::proofs::LimitFaults::no_fault))]
pub(crate) fn fault_of(limits: &Limits) -> Option<WorldFault>
    ensures fault { result ≡ world_fault limits.now }
{
    match limits.fault() {
        Some(LimitFault::TooSmall) => Some(WorldFault::TooSmall),
        Some(LimitFault::TooLarge) => Some(WorldFault::TooLarge),
        None => None,
    }
}
