//! Flags of TCP packets (RFC 9293, 3.1).

ghost use Rattle.std.specs.Prelude.{⊤, ◌≡◌, ◌<◌, ◌==◌, [], ◌∷◌, codes, bit_or};
ghost use Rattle.pfl_base.specs.Flags.{has};

use bitflags::{Flag, Flags, bitflag_items};
use std::marker::Model;

#[derive(Clone, Copy, Debug, PartialEq, Eq)]
struct FlagBits(u8);

bitflag_items! {
    impl FlagBits: u8 {
        const FIN = 1;
        const SYN = 2;
        const RST = 4;
        const PSH = 8;
        const ACK = 16;
        const URG = 32;
    }
}

impl Flags for FlagBits {
    type Bits = u8;

    ghost exact = { ⊤ };

    ghost table = { (codes "FIN", 1) ∷ (codes "SYN", 2) ∷ (codes "RST", 4) ∷ (codes "PSH", 8) ∷ (codes "ACK", 16) ∷ (codes "URG", 32) ∷ [] };

    ghost set_of = { λ f. f.0 };

    fn flags<'a>() -> &'a [Flag<FlagBits>] {
        FlagBits::FLAGS
    }

    fn bits(&self) -> u8 {
        self.0
    }

    fn from_bits_retain(bits: u8) -> FlagBits {
        FlagBits(bits)
    }
}

/// The flags of a TCP packet: a set of FIN 1, SYN 2, RST 4, PSH 8, ACK 16 and URG 32.
#[derive(Clone, Copy, Debug, PartialEq, Eq)]
pub struct TcpFlags {
    set: FlagBits,
}

impl Model for TcpFlags {
    ghost use Rattle.std.specs.Prelude.{ℕ, ◌<◌};

    ghost Value = { ℕ };

    ghost view = { λ f. f.set.0 };

    ghost invariant = { λ f. f.set.0 < 64 };

    ghost inverse = { λ n. record { set = record { 0 = n } } };
}

impl TcpFlags {
    /// No flag.
    pub const NONE: TcpFlags = TcpFlags { set: FlagBits(0) };

    /// The sender has no more data.
    pub const FIN: TcpFlags = TcpFlags { set: FlagBits::FIN };

    /// Opens the connection, and announces the first sequence number.
    pub const SYN: TcpFlags = TcpFlags { set: FlagBits::SYN };

    /// Resets the connection.
    pub const RST: TcpFlags = TcpFlags { set: FlagBits::RST };

    /// The data is to be handed on at once.
    pub const PSH: TcpFlags = TcpFlags { set: FlagBits::PSH };

    /// The acknowledgment number counts.
    pub const ACK: TcpFlags = TcpFlags { set: FlagBits::ACK };

    /// The urgent pointer counts.
    pub const URG: TcpFlags = TcpFlags { set: FlagBits::URG };

    /// The sum of the flags' values.
    pub fn bits(self) -> u8
        ensures bits { result ≡ self }
        ensures known { result < 64 }
    {
        self.set.bits()
    }

    /// Whether no flag is set.
    pub fn is_empty(self) -> bool
        ensures { result ≡ (self == 0) }
    {
        self.set.is_empty()
    }

    /// Whether each flag of the other set is one of this.
    pub fn contains(self, other: TcpFlags) -> bool
        ensures { result ≡ has self other }
    {
        self.set.contains(other.set)
    }

    /// The flags of both sets.
    pub fn with(self, other: TcpFlags) -> TcpFlags
        ensures { result ≡ bit_or self other }
    {
        let (these, those) = (self.set, other.set);
        TcpFlags {
            set: these.union(those),
        }
    }
}
