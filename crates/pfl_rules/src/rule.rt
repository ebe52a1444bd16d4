//! Rules.

ghost use Rattle.std.specs.Prelude.{◌≡◌, ◌&&◌, ◌==◌, false, is_some, not};
ghost use Rattle.std.specs.Option.{option_map_or};
ghost use Rattle.pfl_base.specs.Ends.{same_family};
ghost use Rattle.pfl_rules.specs.Matching.{if_said};
ghost use Rattle.pfl_rules.specs.Nets.{in_net};
ghost use Rattle.pfl_rules.specs.Ports.{in_ports};
ghost use Rattle.pfl_rules.specs.Rules.{said_timeout};

use crate::action::Action;
use crate::net::Net;
use crate::pool::Pool;
use crate::ports::Ports;
use crate::rule_dir::RuleDir;
use pfl_base::{Addr, Class, Dir, Packet, Proto};

/// A rule of a filter (pf.conf(5)). What is not said matches every packet. On a block rule the last six parts have no
/// effect, though their faults count.
#[derive(Clone, Copy, Debug, PartialEq, Eq)]
pub struct Rule {
    /// What it does with the packets that it matches.
    pub action: Action,
    /// Which way they go.
    pub direction: RuleDir,
    /// No later rule is asked about them.
    pub quick: bool,
    /// Their protocol.
    pub proto: Option<Proto>,
    /// Where they come from.
    pub from: Option<Net>,
    /// Their source ports. Such a rule matches only TCP and UDP.
    pub from_port: Option<Ports>,
    /// Where they go to.
    pub to: Option<Net>,
    /// Their destination ports. Such a rule matches only TCP and UDP.
    pub to_port: Option<Ports>,
    /// A pass rule matches every TCP packet, and not only those with SYN and without ACK.
    pub any_flags: bool,
    /// The rule's states are not announced to the peer.
    pub no_sync: bool,
    /// With this many states of the rule, a packet makes no other.
    pub max: Option<u32>,
    /// What replaces the near end of its states on the wire. Only packets of its family are matched.
    pub nat: Option<Pool>,
    /// What replaces the near end of its states on the stack. Only packets of its family are matched.
    pub rdr: Option<Pool>,
    /// Seconds after which its states expire, by their class, in the order of the classes' numbers.
    pub timeouts: [Option<u32>; 14],
}

impl Rule {
    ghost use Rattle.pfl_base.specs.Ends.{proto_number};
    ghost use Rattle.pfl_rules.specs.Matching.{can_start, if_said, matches, ports_match};
    ghost use Rattle.pfl_rules.specs.Nets.{in_net};
    ghost use Rattle.pfl_rules.specs.Rules.{is_in, is_out, own_timeout};

    /// Whether the rule matches the packet on its way.
    pub fn matches(&self, packet: &Packet, dir: Dir) -> bool
        ensures { result ≡ matches self.now packet.now dir }
    {
        self.direction.goes(dir)
            && self.proto_matches(packet)
            && in_said(self.from, packet.src().addr)
            && in_said(self.to, packet.dst().addr)
            && self.ports_match(packet)
            && (!self.action.is_pass() || self.can_start(packet))
    }

    /// Seconds after which the rule lets a state of the class expire, if it says so. A block rule says nothing.
    pub(crate) fn own_timeout(&self, class: Class) -> Option<u32>
        ensures { result ≡ own_timeout self.now class }
    {
        if self.action.is_pass() {
            said_timeout(&self.timeouts, class)
        } else {
            None
        }
    }

    /// Whether it translates without being for the way out alone.
    pub(crate) fn nats_not_out(&self) -> bool
        ensures { result ≡ (is_some self.now.nat && not (is_out self.now.direction)) }
    {
        self.nat.is_some() && !self.direction.is_out()
    }

    /// Whether it redirects without being for the way in alone.
    pub(crate) fn redirects_not_in(&self) -> bool
        ensures { result ≡ (is_some self.now.rdr && not (is_in self.now.direction)) }
    {
        self.rdr.is_some() && !self.direction.is_in()
    }

    /// Whether it may have no states.
    pub(crate) fn has_zero_max(&self) -> bool
        ensures { result ≡ option_map_or (λ n. n == 0) self.now.max false }
    {
        self.max.is_some_and(|max| max == 0)
    }

    fn proto_matches(&self, packet: &Packet) -> bool
        ensures { result ≡ if_said self.now.proto (λ q. proto_number q == proto_number packet.now.proto) }
    {
        let number = packet.proto().number();
        match self.proto {
            Some(proto) => proto.number() == number,
            None => true,
        }
    }

    fn ports_match(&self, packet: &Packet) -> bool
        ensures { result ≡ ports_match self.now packet.now }
    {
        let has_ports = matches!(packet.proto(), Proto::Tcp | Proto::Udp);
        (has_ports || (self.from_port.is_none() && self.to_port.is_none()))
            && in_said_ports(self.from_port, packet.src().port)
            && in_said_ports(self.to_port, packet.dst().port)
    }

    fn can_start(&self, packet: &Packet) -> bool
        ensures { result ≡ can_start self.now packet.now }
    {
        let is_tcp = matches!(packet.proto(), Proto::Tcp);
        let addr = packet.src().addr;
        (!is_tcp || self.any_flags || packet.is_request())
            && pool_fits(self.nat, addr)
            && pool_fits(self.rdr, addr)
    }
}

/// What timeouts, in the order of the classes' numbers, say of the class.
pub(crate) fn said_timeout(timeouts: &[Option<u32>], class: Class) -> Option<u32>
    ensures { result ≡ said_timeout timeouts.now class }
{
    timeouts.get(usize::from(class.number())).copied().flatten()
}

/// Whether the address is one of the net's, if there is a net.
fn in_said(net: Option<Net>, addr: Addr) -> bool
    ensures { result ≡ if_said net (λ n. in_net n.addr n.len addr) }
{
    match net {
        Some(net) => net.contains(addr),
        None => true,
    }
}

/// Whether the pool has an address of the other's family, if there is a pool.
fn pool_fits(pool: Option<Pool>, addr: Addr) -> bool
    ensures { result ≡ if_said pool (λ e. same_family e.addr addr) }
{
    match pool {
        Some(pool) => pool.addr.same_family(addr),
        None => true,
    }
}

/// Whether the port is one of these, if there are any.
fn in_said_ports(ports: Option<Ports>, port: u16) -> bool
    ensures { result ≡ if_said ports (λ n. in_ports n.first n.last port) }
{
    match ports {
        Some(ports) => ports.contains(port),
        None => true,
    }
}
