//! How addresses and ends print.

ghost use Rattle.std.specs.Prelude.{Some};
ghost use Rattle.pfl_base.specs.Texts.{address_text, end_text, group_text, groups_text};

use crate::addr::{Addr, End};
use std::fmt;

/// Two bytes of an IPv6 address, which print as four hexadecimal digits.
#[derive(Clone, Copy)]
struct Group(u16);

impl fmt::Display for Group {
    ghost output = { λ g. Some (group_text g.0) };

    #[tactic(auto, using(std::proofs::lemmas::Fmt::hex_byte))]
    fn fmt<W: fmt::Write>(&self, f: &mut fmt::Formatter<W>) -> fmt::Result {
        let high = self.0 >> 8;
        let low = self.0 % 256;
        write!(f, "{high:02x}{low:02x}")
    }
}

/// Half of an IPv6 address.
#[derive(Clone, Copy)]
struct Groups(u64);

impl fmt::Display for Groups {
    ghost output = { λ g. Some (groups_text g.0) };

    fn fmt<W: fmt::Write>(&self, f: &mut fmt::Formatter<W>) -> fmt::Result {
        let first = Group((self.0 >> 48) as u16);
        let second = Group(((self.0 >> 32) % 0x1_0000) as u16);
        let third = Group(((self.0 >> 16) % 0x1_0000) as u16);
        let last = Group((self.0 % 0x1_0000) as u16);
        write!(f, "{first}:{second}:{third}:{last}")
    }
}

impl fmt::Display for Addr {
    ghost output = { λ addr. Some (address_text addr) };

    fn fmt<W: fmt::Write>(&self, f: &mut fmt::Formatter<W>) -> fmt::Result {
        match *self {
            Addr::V4(number) => {
                let first = number >> 24;
                let second = (number >> 16) % 256;
                let third = (number >> 8) % 256;
                let last = number % 256;
                write!(f, "{first}.{second}.{third}.{last}")
            }
            Addr::V6(number) => {
                let high = Groups((number >> 64) as u64);
                let low = Groups((number % (1 << 64)) as u64);
                write!(f, "{high}:{low}")
            }
        }
    }
}

impl fmt::Display for End {
    ghost output = { λ end. Some (end_text end) };

    fn fmt<W: fmt::Write>(&self, f: &mut fmt::Formatter<W>) -> fmt::Result {
        let End { addr, port } = self;
        match addr {
            Addr::V4(_) => write!(f, "{addr}:{port}"),
            Addr::V6(_) => write!(f, "[{addr}]:{port}"),
        }
    }
}
