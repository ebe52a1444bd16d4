//! Why there is no lab, and why a call is not taken.
use std::alloc::AllocError;
use std::error::Error;
use std::fmt;

/// Why there is no such lab: the first that applies.
#[derive(Clone, Copy, Debug, PartialEq, Eq)]
pub enum LabFault {
    /// There are fewer sessions than 1, or more than 8.
    Sessions = 1,
    /// The journal would have room for no entry, or for more than 1000000.
    Journal,
    /// There is no memory.
    NoMemory,
}

impl fmt::Display for LabFault {
    ghost use Rattle.std.specs.Prelude.{Some};
    ghost use Rattle.pfl_session.specs.Faults.{lab_fault_text};

    ghost output = { λ fault. Some (lab_fault_text fault) };

    fn fmt<W: fmt::Write>(&self, f: &mut fmt::Formatter<W>) -> fmt::Result {
        f.write_str(match self {
            LabFault::Sessions => "no such number of sessions",
            LabFault::Journal => "no such limit of the journal",
            LabFault::NoMemory => "no memory",
        })
    }
}

impl Error for LabFault {}

impl From<AllocError> for LabFault {
    ghost use Rattle.std.specs.Prelude.{◌≡◌};
    ghost use Rattle.pfl_session.specs.declared.fault.LabFault.TheVariants as fault;

    ghost from_gives = { λ _ given. given ≡ fault.NoMemory };

    fn from(_error: AllocError) -> LabFault {
        LabFault::NoMemory
    }
}

impl From<pfl_publish::NoMemory> for LabFault {
    ghost use Rattle.std.specs.Prelude.{◌≡◌};
    ghost use Rattle.pfl_session.specs.declared.fault.LabFault.TheVariants as fault;

    ghost from_gives = { λ _ given. given ≡ fault.NoMemory };

    fn from(_error: pfl_publish::NoMemory) -> LabFault {
        LabFault::NoMemory
    }
}

/// Why a call is not taken: the first that applies.
#[derive(Clone, Copy, Debug, PartialEq, Eq)]
pub enum AskFault {
    /// The journal has as many entries as it may have.
    JournalFull = 1,
    /// There is no memory.
    NoMemory,
}

impl fmt::Display for AskFault {
    ghost use Rattle.std.specs.Prelude.{Some};
    ghost use Rattle.pfl_session.specs.Faults.{ask_fault_text};

    ghost output = { λ fault. Some (ask_fault_text fault) };

    fn fmt<W: fmt::Write>(&self, f: &mut fmt::Formatter<W>) -> fmt::Result {
        f.write_str(match self {
            AskFault::JournalFull => "the journal is full",
            AskFault::NoMemory => "no memory",
        })
    }
}

impl Error for AskFault {}

impl From<pfl_edits::NoMemory> for AskFault {
    ghost use Rattle.std.specs.Prelude.{◌≡◌};
    ghost use Rattle.pfl_session.specs.declared.fault.AskFault.TheVariants as fault;

    ghost from_gives = { λ _ given. given ≡ fault.NoMemory };

    fn from(_error: pfl_edits::NoMemory) -> AskFault {
        AskFault::NoMemory
    }
}
