//! Why rules are refused.

ghost use Rattle.std.specs.Prelude.{◌≡◌, Some};

use std::alloc::AllocError;
use std::error::Error;
use std::fmt;

/// Why rules are no rule set: the first of these that holds of any of them.
#[derive(Clone, Copy, Debug, PartialEq, Eq)]
pub enum RuleFault {
    /// More than [`MAX_RULES`](crate::MAX_RULES).
    TooMany = 1,
    /// A translation on a rule that is not `out`.
    NatNotOut,
    /// A limit of no states.
    ZeroMax,
    /// The rules have no fault, and the allocator had no memory to give.
    NoMemory,
    /// A redirection on a rule that is not `in`. It is looked for last, and reported before want of memory.
    RdrNotIn,
}

impl RuleFault {
    ghost use Rattle.pfl_rules.specs.Faults.{fault_number};

    /// The number by which a program names the fault, from 1 to 5.
    pub fn number(self) -> u8
        ensures { result ≡ fault_number self }
    {
        self as u8
    }
}

impl fmt::Display for RuleFault {
    ghost use Rattle.pfl_rules.specs.Faults.{fault_text};

    ghost output = { λ fault. Some (fault_text fault) };

    fn fmt<W: fmt::Write>(&self, f: &mut fmt::Formatter<W>) -> fmt::Result {
        f.write_str(match self {
            RuleFault::TooMany => "more than 256 rules",
            RuleFault::NatNotOut => "a translation on a rule that is not out",
            RuleFault::ZeroMax => "a limit of no states",
            RuleFault::NoMemory => "no memory",
            RuleFault::RdrNotIn => "a redirection on a rule that is not in",
        })
    }
}

impl Error for RuleFault {}

impl From<AllocError> for RuleFault {
    ghost use Rattle.pfl_rules.specs.declared.fault.RuleFault.TheVariants.{NoMemory};

    ghost from_gives = { λ _ fault. fault ≡ NoMemory };

    fn from(_error: AllocError) -> RuleFault {
        RuleFault::NoMemory
    }
}
