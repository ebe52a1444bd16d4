//! Addresses and ends of flows.

ghost use Rattle.std.specs.Prelude.{◌≡◌};

/// An IP address, as a number in host order (RFC 791, RFC 8200).
#[derive(Clone, Copy, Debug, PartialEq, Eq)]
pub enum Addr {
    /// An address of IPv4.
    V4(u32),
    /// An address of IPv6.
    V6(u128),
}

impl Addr {
    ghost use Rattle.pfl_base.specs.Ends.{is_v4, same_family};

    /// Whether the address is one of IPv4.
    pub fn is_v4(self) -> bool
        ensures { result ≡ is_v4 self }
    {
        matches!(self, Addr::V4(_))
    }

    /// Whether both are of one family.
    pub fn same_family(self, other: Addr) -> bool
        ensures { result ≡ same_family self other }
    {
        matches!(
            (self, other),
            (Addr::V4(_), Addr::V4(_)) | (Addr::V6(_), Addr::V6(_))
        )
    }
}

/// An address with a port. A protocol without ports has port 0, and ICMP echo its identifier.
#[derive(Clone, Copy, Debug, PartialEq, Eq)]
pub struct End {
    /// The address of the host.
    pub addr: Addr,
    /// The port, in host order.
    pub port: u16,
}
