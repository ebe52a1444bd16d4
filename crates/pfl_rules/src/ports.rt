//! Ranges of ports.

ghost use Rattle.std.specs.Prelude.{◌≡◌, Some};

use std::fmt;
use std::marker::Model;

/// A first and a last port, before they are judged.
#[derive(Clone, Copy, Debug, PartialEq, Eq)]
struct PortsFields {
    first: u16,
    last: u16,
}

/// The ports from a first to a last one, both among them (pf.conf(5), `port 1024:65535`). It prints as `FIRST:LAST`, and a single
/// port as its number.
#[derive(Clone, Copy, Debug, PartialEq, Eq)]
pub struct Ports {
    fields: PortsFields,
}

impl Model for Ports {
    ghost use Rattle.pfl_rules.specs.declared.ports.PortsFields.{PortsFields};

    ghost Value = { PortsFields };

    ghost use Rattle.pfl_rules.specs.Ports.{ArePorts};

    ghost view = { λ p. p.fields };

    ghost invariant = { λ p. ArePorts p.fields };

    ghost inverse = { λ fields. record { fields = fields } };
}

impl Ports {
    ghost use Rattle.pfl_rules.specs.Ports.{in_ports, ports_of};

    /// The ports from `first` to `last`, unless `last` comes before `first`.
    pub fn new(first: u16, last: u16) -> Option<Ports>
        ensures { result ≡ ports_of first last }
    {
        if first <= last {
            Some(Ports {
                fields: PortsFields { first, last },
            })
        } else {
            None
        }
    }

    /// The first port.
    pub fn first(self) -> u16
        ensures { result ≡ self.first }
    {
        self.fields.first
    }

    /// The last port.
    pub fn last(self) -> u16
        ensures { result ≡ self.last }
    {
        self.fields.last
    }

    /// Whether the port is one of them.
    pub fn contains(self, port: u16) -> bool
        ensures { result ≡ in_ports self.first self.last port }
    {
        self.fields.first <= port && port <= self.fields.last
    }
}

impl fmt::Display for Ports {
    ghost use Rattle.pfl_rules.specs.Texts.{ports_text};

    ghost output = { λ ports. Some (ports_text ports) };

    fn fmt<W: fmt::Write>(&self, f: &mut fmt::Formatter<W>) -> fmt::Result {
        let PortsFields { first, last } = self.fields;
        if first == last {
            write!(f, "{first}")
        } else {
            write!(f, "{first}:{last}")
        }
    }
}
