//! Nets of addresses.

ghost use Rattle.std.specs.Prelude.{◌≡◌, Some};

use pfl_base::Addr;
use std::fmt;
use std::marker::Model;

/// An address and a number of bits, before they are judged.
#[derive(Clone, Copy, Debug, PartialEq, Eq)]
struct NetFields {
    addr: Addr,
    len: u8,
}

/// The addresses of one family that begin with the first `len` bits of `addr`; what follows them does not matter. It
/// prints as `ADDR/LEN`.
#[derive(Clone, Copy, Debug, PartialEq, Eq)]
pub struct Net {
    fields: NetFields,
}

impl Model for Net {
    ghost use Rattle.pfl_rules.specs.declared.net.NetFields.{NetFields};

    ghost Value = { NetFields };

    ghost use Rattle.pfl_rules.specs.Nets.{IsNet};

    ghost view = { λ n. n.fields };

    ghost invariant = { λ n. IsNet n.fields };

    ghost inverse = { λ fields. record { fields = fields } };
}

impl Net {
    ghost use Rattle.pfl_rules.specs.Nets.{in_net, net_of, IsNet};

    /// The net of the first `len` bits of `addr`, if an address of its family has that many: 32, or 128.
    pub fn new(addr: Addr, len: u8) -> Option<Net>
        ensures { result ≡ net_of addr len }
    {
        let bits = match addr {
            Addr::V4(_) => 32,
            Addr::V6(_) => 128,
        };
        if len <= bits {
            Some(Net {
                fields: NetFields { addr, len },
            })
        } else {
            None
        }
    }

    /// The address whose first bits are the net's.
    pub fn addr(self) -> Addr
        ensures { result ≡ self.addr }
    {
        self.fields.addr
    }

    /// How many bits the net's addresses share.
    pub fn len(self) -> u8
        ensures len { result ≡ self.len }
        ensures known { IsNet self }
    {
        self.fields.len
    }

    /// Whether the address is one of the net's; none of the other family is.
    pub fn contains(self, addr: Addr) -> bool
        ensures { result ≡ in_net self.addr self.len addr }
    {
        let NetFields { addr: net, len } = self.fields;
        match (net, addr) {
            (Addr::V4(net), Addr::V4(addr)) => len == 0 || net >> (32 - len) == addr >> (32 - len),
            (Addr::V6(net), Addr::V6(addr)) => {
                len == 0 || net >> (128 - len) == addr >> (128 - len)
            }
            _ => false,
        }
    }
}

impl fmt::Display for Net {
    ghost use Rattle.pfl_rules.specs.Texts.{net_text};

    ghost output = { λ net. Some (net_text net) };

    fn fmt<W: fmt::Write>(&self, f: &mut fmt::Formatter<W>) -> fmt::Result {
        let NetFields { addr, len } = self.fields;
        write!(f, "{addr}/{len}")
    }
}
