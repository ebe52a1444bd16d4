//! Why a state is not put.

ghost use Rattle.std.specs.Prelude.{◌≡◌, Some};

use std::error::Error;
use std::fmt;

/// Why a state is not put. The first of these that applies is reported.
#[derive(Clone, Copy, Debug, PartialEq, Eq)]
pub enum PutFault {
    /// The table has no room for another state.
    Full = 1,
    /// A state has this name.
    NameInUse,
    /// A state has this wire key.
    WireInUse,
    /// A state has this stack key.
    StackInUse,
}

impl PutFault {
    ghost use Rattle.pfl_table.specs.Tables.{put_fault_number};

    /// The fault's number, from 1 to 4.
    pub fn number(self) -> u8
        ensures { result ≡ put_fault_number self }
    {
        self as u8
    }
}

impl fmt::Display for PutFault {
    ghost use Rattle.pfl_table.specs.Tables.{put_fault_text};

    ghost output = { λ fault. Some (put_fault_text fault) };

    fn fmt<W: fmt::Write>(&self, f: &mut fmt::Formatter<W>) -> fmt::Result {
        f.write_str(match self {
            PutFault::Full => "the table is full",
            PutFault::NameInUse => "the name is in use",
            PutFault::WireInUse => "the wire key is in use",
            PutFault::StackInUse => "the stack key is in use",
        })
    }
}

impl Error for PutFault {}
