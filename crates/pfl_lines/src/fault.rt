//! What is wrong with a line.

ghost use Rattle.std.specs.Prelude.{◌≡◌};
ghost use Rattle.pfl_lines.specs.Faults.{fault_number};

use pfl_base::BadPacket;

/// Why a line says nothing. The first two are looked for first; then the words are read from the left, and the first fault counts.
#[derive(Clone, Copy, Debug, PartialEq, Eq)]
pub enum LineFault {
    /// The line has more than 512 bytes.
    Long,
    /// A byte is neither a tab nor printable.
    NotAscii,
    /// There is no such command, event, setup word, option or limit.
    Unknown,
    /// A word is wanted and not there.
    Missing,
    /// A word is not of its form.
    Number,
    /// A word is left over, or out of its place.
    Extra,
    /// The fields are no packet.
    Packet(BadPacket),
}

impl LineFault {
    /// The number by which a reply names the fault, from 1 to 7.
    pub fn number(self) -> u8
        ensures { result ≡ fault_number self }
    {
        match self {
            LineFault::Long => 1,
            LineFault::NotAscii => 2,
            LineFault::Unknown => 3,
            LineFault::Missing => 4,
            LineFault::Number => 5,
            LineFault::Extra => 6,
            LineFault::Packet(_) => 7,
        }
    }
}
