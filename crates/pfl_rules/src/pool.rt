//! What translation puts in the place of an end.

ghost use Rattle.std.specs.Prelude.{◌≡◌, Some};

use crate::ports::Ports;
use pfl_base::{Addr, End};
use std::fmt;

/// An address with the ports of which translation takes one (pf.conf(5), `-> 192.0.2.1 port 1024:65535`). It prints as an end that has
/// the ports in the place of its port.
#[derive(Clone, Copy, Debug, PartialEq, Eq)]
pub struct Pool {
    /// The address that replaces another one.
    pub addr: Addr,
    /// The ports, of which the first free one is taken.
    pub ports: Ports,
}

impl Pool {
    ghost use Rattle.pfl_rules.specs.Pools.{end_at};

    /// The end at the port, be it one of the pool or not.
    pub fn end(&self, port: u16) -> End
        ensures { result ≡ end_at self.now port }
    {
        End {
            addr: self.addr,
            port,
        }
    }
}

impl fmt::Display for Pool {
    ghost use Rattle.pfl_rules.specs.Texts.{pool_text};

    ghost output = { λ pool. Some (pool_text pool) };

    fn fmt<W: fmt::Write>(&self, f: &mut fmt::Formatter<W>) -> fmt::Result {
        let Pool { addr, ports } = self;
        match addr {
            Addr::V4(_) => write!(f, "{addr}:{ports}"),
            Addr::V6(_) => write!(f, "[{addr}]:{ports}"),
        }
    }
}
