//! The keys of a new state, where its rule translates one end (pf.conf(5), `nat` and `rdr`).

ghost use Rattle.std.specs.Prelude.{◌≡◌, true};
ghost use Rattle.pfl_base.specs.Keys.{key as flow_of};
ghost use Rattle.pfl_table.specs.Tables.{states_of};
ghost use Rattle.pfl_table.specs.Translating.{fits_translation, is_taken, keys_to, new_keys};
ghost use Rattle.pfl_table.specs.inner.Translated.{free_port, own_in_use, takes_port, translated_in_use, translated_of, with_port};
ghost use Rattle.pfl_track.specs.Keys.{AreKeys, fits_family};

use crate::table::StateTable;
use pfl_base::{Dir, End, Key, Packet, Proto};
use pfl_rules::{Ports, Rule};
use pfl_track::KeyPair;
use std::alloc::Allocator;

impl<A: Allocator> StateTable<A> {
    /// The keys that the rule gives a new state of the packet. Where it translates one end, they are the first that are both free, from
    /// the first port of its pool on; where none are, those of the last port.
    pub fn new_keys(&self, rule: &Rule, packet: &Packet, dir: Dir) -> KeyPair
        requires fits { fits_translation (flow_of packet.now dir) rule.now ≡ true }
        ensures keys { result ≡ new_keys (states_of self.now) rule.now (flow_of packet.now dir) }
    {
        let Some(pool) = rule.rdr.or(rule.nat) else {
            return keys_at(rule, packet, dir, None);
        };
        let keys = keys_at(rule, packet, dir, Some(pool.end(pool.ports.first())));
        // Keys without a port are the same at every port of the pool.
        if !takes_port(packet.proto()) || !self.has_either(&keys) {
            return keys;
        }
        let port = if self.has_own(rule, &keys) {
            pool.ports.last()
        } else {
            self.free_port(rule, translated(rule, &keys), pool.ports)
        };
        keys_at(rule, packet, dir, Some(pool.end(port)))
    }

    /// The first of the ports with which no state has the translated key, or the last port.
    fn free_port(&self, rule: &Rule, mut key: Key, ports: Ports) -> u16
        ensures { result ≡ free_port (states_of self.now) rule.now key ports }
    {
        let mut port = ports.first();
        while port < ports.last() {
            set_port(&mut key, port);
            if !self.has_translated(rule, &key) {
                return port;
            }
            port += 1;
        }
        ports.last()
    }

    /// A state has the packet's own key, which the rule does not translate.
    fn has_own(&self, rule: &Rule, keys: &KeyPair) -> bool
        ensures { result ≡ own_in_use (states_of self.now) rule.now keys.now }
    {
        if rule.rdr.is_some() {
            self.by_wire(&keys.wire()).is_some()
        } else {
            self.by_stack(&keys.stack()).is_some()
        }
    }

    /// A state has the key, which the rule translates.
    fn has_translated(&self, rule: &Rule, key: &Key) -> bool
        ensures { result ≡ translated_in_use (states_of self.now) rule.now key.now }
    {
        if rule.rdr.is_some() {
            self.by_stack(key).is_some()
        } else {
            self.by_wire(key).is_some()
        }
    }

    /// A state has one of the two keys.
    pub fn has_either(&self, keys: &KeyPair) -> bool
        ensures taken { result ≡ is_taken (states_of self.now) keys.now }
        ensures keys { AreKeys keys.now.wire keys.now.stack }
    {
        self.by_wire(&keys.wire()).is_some() || self.by_stack(&keys.stack()).is_some()
    }
}

/// Translation puts a port into the keys of the protocol.
fn takes_port(proto: Proto) -> bool
    ensures { result ≡ takes_port proto }
{
    match proto {
        Proto::Tcp | Proto::Udp | Proto::Icmp => true,
        Proto::Other(_) => false,
    }
}

/// The one of the two keys that the rule translates.
fn translated(rule: &Rule, keys: &KeyPair) -> Key
    ensures { result ≡ translated_of rule.now keys.now }
{
    if rule.rdr.is_some() {
        keys.stack()
    } else {
        keys.wire()
    }
}

/// Gives the translated key another port of the pool.
fn set_port(key: &mut Key, port: u16)
    ensures { key.new ≡ with_port key.old port key.old.proto }
{
    match key.proto {
        Proto::Icmp => {
            key.far.port = port;
            key.near.port = port;
        }
        Proto::Other(_) => {}
        Proto::Tcp | Proto::Udp => key.near.port = port,
    }
}

/// The keys of the packet's flow, where its near end is translated to this one, if to any.
fn keys_at(rule: &Rule, packet: &Packet, dir: Dir, to: Option<End>) -> KeyPair
    requires fits { fits_family (flow_of packet.now dir) to ≡ true }
    ensures { result ≡ keys_to rule.now (flow_of packet.now dir) to }
{
    let Some(keys) = KeyPair::of_packet(packet, dir, to) else {
        unreachable!();
    };
    if rule.rdr.is_some() {
        keys.exchanged()
    } else {
        keys
    }
}
