//! Why a run of lines stopped.

use pfl_reader::ReadFault;
use thiserror::Error;

/// Why a run of lines stopped before their end.
#[derive(Clone, Copy, Debug, PartialEq, Eq, Error)]
pub enum EngineFault {
    /// The reader failed.
    #[error("read")]
    Read,
    /// The writer failed.
    #[error("write")]
    Write,
    /// More calls of `read` were wanted than one run may make.
    #[error("too many turns")]
    TooManyTurns,
    /// There was no memory for a reply.
    #[error("no memory")]
    NoMemory,
}

impl From<ReadFault> for EngineFault {
    ghost use Rattle.std.specs.Prelude.{◌≡◌};
    ghost use Rattle.pfl_script.specs.Readers.{of_read};

    ghost from_gives = { λ read fault. fault ≡ of_read read };

    fn from(fault: ReadFault) -> EngineFault {
        match fault {
            ReadFault::Read => EngineFault::Read,
            ReadFault::TooManyTurns => EngineFault::TooManyTurns,
        }
    }
}
