//! Numbers of addresses as bytes, which may lie at any place in memory.

ghost use Rattle.std.specs.Prelude.{◌≡◌, nat_eq};
ghost use Rattle.std.specs.Cmp.Rules.{comparing};
ghost use Rattle.std.proofs.Common.{rules};

use std::marker::Model;

/// An address of IPv4, which is a number in host order (RFC 791).
#[derive(Clone, Copy, Debug)]
pub(crate) struct Ipv4 {
    bytes: [u8; 4],
}

impl Model for Ipv4 {
    ghost use Rattle.std.specs.Prelude.{ℕ};
    ghost use Rattle.std.specs.Int.{w32, to_be_bytes, from_be_bytes};

    ghost Value = { ℕ };

    ghost view = { λ address. from_be_bytes w32 address.bytes };

    ghost use Rattle.pfl_base.specs.inner.Bytes.{AreBytes, bytes_4_kept};

    ghost invariant = { λ address. AreBytes 4 address.bytes };

    ghost inverse = { λ number. record { bytes = to_be_bytes w32 number } };

    ghost inverse_ok = { λ address h i. record { bytes = bytes_4_kept address.bytes h i } };
}

impl PartialEq for Ipv4 {
    ghost eq = { nat_eq };

    ghost laws = { Prim.search (comparing, rules) };

    fn eq(&self, other: &Ipv4) -> bool {
        self.number() == other.number()
    }
}

impl Eq for Ipv4 {
    ghost laws = { Prim.search (comparing, rules) };
}

impl Ipv4 {
    /// The address with a number.
    pub fn of(number: u32) -> Ipv4
        ensures { result ≡ number }
    {
        Ipv4 {
            bytes: number.to_be_bytes(),
        }
    }

    /// The number of the address.
    pub fn number(self) -> u32
        ensures { result ≡ self }
    {
        u32::from_be_bytes(self.bytes)
    }
}

/// An address of IPv6, which is a number in host order (RFC 8200).
#[derive(Clone, Copy, Debug)]
pub(crate) struct Ipv6 {
    high: [u8; 8],
    low: [u8; 8],
}

impl Model for Ipv6 {
    ghost use Rattle.std.specs.Prelude.{ℕ, ◌+◌, ◌*◌, ◌/◌, ◌%◌, ◌^◌};
    ghost use Rattle.std.specs.Int.{w64, to_be_bytes, from_be_bytes};

    ghost Value = { ℕ };

    ghost view = { λ address. from_be_bytes w64 address.high * 2 ^ 64 + from_be_bytes w64 address.low };

    ghost use Rattle.pfl_base.specs.inner.Bytes.{AreBytes, high_kept, low_kept};

    ghost invariant = { λ address. AreBytes 8 address.high × AreBytes 8 address.low };

    ghost inverse = { λ number. record { high = to_be_bytes w64 (number / 2 ^ 64); low = to_be_bytes w64 (number % 2 ^ 64) } };

    ghost inverse_ok = { λ address h i. record {
      high = high_kept address.high address.low h.0 h.1 i;
      low = low_kept address.high address.low h.0 h.1 i;
    } };
}

impl PartialEq for Ipv6 {
    ghost eq = { nat_eq };

    ghost laws = { Prim.search (comparing, rules) };

    fn eq(&self, other: &Ipv6) -> bool {
        self.number() == other.number()
    }
}

impl Eq for Ipv6 {
    ghost laws = { Prim.search (comparing, rules) };
}

impl Ipv6 {
    /// The address with a number.
    pub fn of(number: u128) -> Ipv6
        ensures { result ≡ number }
    {
        let high = (number >> 64) as u64;
        let low = (number % (1 << 64)) as u64;
        Ipv6 {
            high: high.to_be_bytes(),
            low: low.to_be_bytes(),
        }
    }

    /// The number of the address.
    pub fn number(self) -> u128
        ensures { result ≡ self }
    {
        let high = u64::from_be_bytes(self.high);
        let low = u64::from_be_bytes(self.low);
        u128::from(high) * (1 << 64) + u128::from(low)
    }
}
