//! Why no setup was read.

use pfl_lines::LineFault;
use pfl_reader::ReadFault;
use pfl_rules::RuleFault;

/// Why no setup was read. Lines count from 1, those that are passed over too.
#[derive(Clone, Copy, Debug, PartialEq, Eq)]
pub enum SetupFault {
    /// This line has a fault.
    Line(u64, LineFault),
    /// The rules have a fault that is not want of memory; the line is that of `open`.
    Rule(u64, RuleFault),
    /// The lines ended, after this many, before `open`.
    NoOpen(u64),
    /// The reader failed.
    Read,
    /// More calls of `read` were wanted than one setup may make.
    TooManyTurns,
    /// There was no memory for the rules.
    NoMemory,
}

impl From<ReadFault> for SetupFault {
    ghost use Rattle.std.specs.Prelude.{◌≡◌};
    ghost use Rattle.pfl_script.specs.Readers.{setup_of_read};

    ghost from_gives = { λ read fault. fault ≡ setup_of_read read };

    fn from(fault: ReadFault) -> SetupFault {
        match fault {
            ReadFault::Read => SetupFault::Read,
            ReadFault::TooManyTurns => SetupFault::TooManyTurns,
        }
    }
}
