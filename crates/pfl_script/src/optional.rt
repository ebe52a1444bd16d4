//! Numbers that may be none.

ghost use Rattle.std.specs.Prelude.{◌≡◌, Some};
ghost use Rattle.std.specs.Fmt.{decimal};
ghost use Rattle.pfl_script.specs.Texts.{or_dash};

use std::fmt;

/// A number, or a dash for none.
#[derive(Clone, Copy)]
pub struct OptionalNumber(pub Option<u64>);

impl OptionalNumber {
    /// A number of 8 bits, if there is one.
    pub fn of_u8(n: Option<u8>) -> OptionalNumber
        ensures { result.0 ≡ n }
    {
        OptionalNumber(n.map(u64::from))
    }

    /// A number of 16 bits, if there is one.
    pub fn of_u16(n: Option<u16>) -> OptionalNumber
        ensures { result.0 ≡ n }
    {
        OptionalNumber(n.map(u64::from))
    }

    /// A number of 32 bits, if there is one.
    pub fn of_u32(n: Option<u32>) -> OptionalNumber
        ensures { result.0 ≡ n }
    {
        OptionalNumber(n.map(u64::from))
    }
}

impl fmt::Display for OptionalNumber {
    ghost output = { λ n. Some (or_dash decimal n.0) };

    fn fmt<W: fmt::Write>(&self, f: &mut fmt::Formatter<W>) -> fmt::Result {
        match self.0 {
            None => f.write_str("-"),
            Some(n) => write!(f, "{n}"),
        }
    }
}
