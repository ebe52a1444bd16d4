//! Why bytes are not read as a frame.

ghost use Rattle.std.specs.Prelude.{◌≡◌, Some};

use std::error::Error;
use std::fmt;

/// Why bytes are no frame: the first of these faults in reading order.
#[derive(Clone, Copy, Debug, PartialEq, Eq)]
pub enum BadFrame {
    /// Fewer than the 20 bytes of a header.
    Short,
    /// The version is not 5.
    Version,
    /// The header's length is not the number of bytes, or 1 to 3 bytes are left where a group begins.
    Length,
    /// No action has the group's number.
    Action,
    /// A group counts no record, or more records than bytes are left for.
    Count,
    /// A pad byte is not 0; a family, a direction or a status is not listed; flags are above 1, a level above 10, a
    /// class above 13, or a scale above 14 and not 255; or bytes after an IPv4 address are not 0.
    Value,
}

/// Why a frame was not decoded: its bytes are none, or memory is wanting.
#[derive(Clone, Copy, Debug, PartialEq, Eq)]
pub enum FrameFault {
    /// [`BadFrame::Short`].
    Short = 1,
    /// [`BadFrame::Version`].
    Version,
    /// [`BadFrame::Length`].
    Length,
    /// [`BadFrame::Action`].
    Action,
    /// [`BadFrame::Count`].
    Count,
    /// [`BadFrame::Value`].
    Value,
    /// The bytes are a frame, and there is no memory for it.
    NoMemory,
}

impl FrameFault {
    ghost use Rattle.pfl_wire.specs.Faults.{fault_number, fault_text};

    /// The number by which a reply names the fault, from 1 to 7.
    pub fn number(self) -> u8
        ensures { result ≡ fault_number self }
    {
        self as u8
    }

    /// The fault's word.
    pub fn word(self) -> &'static str
        ensures { result.now ≡ fault_text self }
    {
        match self {
            FrameFault::Short => "Short",
            FrameFault::Version => "Version",
            FrameFault::Length => "Length",
            FrameFault::Action => "Action",
            FrameFault::Count => "Count",
            FrameFault::Value => "Value",
            FrameFault::NoMemory => "NoMemory",
        }
    }
}

impl fmt::Display for FrameFault {
    ghost use Rattle.pfl_wire.specs.Faults.{fault_text};

    ghost output = { λ fault. Some (fault_text fault) };

    fn fmt<W: fmt::Write>(&self, f: &mut fmt::Formatter<W>) -> fmt::Result {
        f.write_str(self.word())
    }
}

impl Error for FrameFault {}

impl From<BadFrame> for FrameFault {
    ghost use Rattle.pfl_wire.specs.Faults.{frame_fault};

    ghost from_gives = { λ bad fault. fault ≡ frame_fault bad };

    fn from(bad: BadFrame) -> FrameFault {
        match bad {
            BadFrame::Short => FrameFault::Short,
            BadFrame::Version => FrameFault::Version,
            BadFrame::Length => FrameFault::Length,
            BadFrame::Action => FrameFault::Action,
            BadFrame::Count => FrameFault::Count,
            BadFrame::Value => FrameFault::Value,
        }
    }
}
