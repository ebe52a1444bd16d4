//! The two keys of a state.

ghost use Rattle.std.specs.Prelude.{◌≡◌, Some, None, if◌then◌else◌};

use crate::keys::{are_keys, wire_key};
use pfl_base::{Dir, End, Key, PackedKey, Packet, key};
use std::marker::Model;

/// What the keys of a state are made from.
#[derive(Clone, Copy, Debug, PartialEq, Eq)]
pub struct KeyFields {
    /// The flow as it is on the wire.
    pub wire: Key,
    /// The flow as this side of the node has it, before translation.
    pub stack: Key,
}

/// The two keys of a state: of one protocol, and all four ends of one family.
#[derive(Clone, Copy, Debug, PartialEq, Eq)]
pub struct KeyPair {
    wire: PackedKey,
    stack: PackedKey,
}

impl Model for KeyPair {
    ghost use Rattle.pfl_track.specs.declared.key_pair.KeyFields.{KeyFields};

    ghost Value = { KeyFields };

    ghost use Rattle.pfl_track.specs.Keys.{AreKeys};

    ghost view = { λ k. record { wire = k.wire; stack = k.stack } };

    ghost invariant = { λ k. AreKeys k.wire k.stack };

    ghost inverse = { λ fields. record { wire = fields.wire; stack = fields.stack } };
}

impl KeyPair {
    ghost use Rattle.pfl_track.specs.declared.key_pair.KeyFields.{KeyFields};
    ghost use Rattle.pfl_base.specs.Keys.{key as flow_of};
    ghost use Rattle.pfl_track.specs.Keys.{AreKeys, are_keys as may_be_keys, fits_family, wire_key as wire_of};

    /// The two keys; none where they are of two protocols, or their ends not all of one family.
    pub fn of(wire: Key, stack: Key) -> Option<KeyPair>
        ensures { let fields : KeyFields = record { wire = wire; stack = stack } in result ≡ (if may_be_keys wire stack then Some fields else None) }
    {
        if are_keys(&wire, &stack) {
            Some(KeyPair::with(KeyFields { wire, stack }))
        } else {
            None
        }
    }

    /// The keys of a packet, where the end `nat` takes the place of the near end on the wire (pf.conf(5), `nat`); none
    /// where that end is of another family than the packet.
    pub fn of_packet(packet: &Packet, dir: Dir, nat: Option<End>) -> Option<KeyPair>
        ensures { let fields : KeyFields = record { wire = wire_of (flow_of packet.now dir) nat; stack = flow_of packet.now dir } in result
            ≡ (if fits_family (flow_of packet.now dir) nat then Some fields else None) }
    {
        let stack = key(packet, dir);
        let wire = wire_key(&stack, nat);
        KeyPair::of(wire, stack)
    }

    /// The pair that has either key in the place of the other: a translation of the wire key becomes one of the stack key (pf.conf(5),
    /// `rdr`).
    pub fn exchanged(&self) -> KeyPair
        ensures { let fields : KeyFields = record { wire = self.now.stack; stack = self.now.wire } in result ≡ fields }
    {
        KeyPair {
            wire: self.stack,
            stack: self.wire,
        }
    }

    /// The pair of two keys that are known to be a state's.
    pub(crate) fn with(fields: KeyFields) -> KeyPair
        requires { AreKeys fields.wire fields.stack }
        ensures { result ≡ fields }
    {
        KeyPair {
            wire: PackedKey::of(fields.wire),
            stack: PackedKey::of(fields.stack),
        }
    }

    /// The pair of two kept keys that are known to be a state's.
    pub(crate) fn packed(wire: PackedKey, stack: PackedKey) -> KeyPair
        requires { AreKeys wire stack }
        ensures wire { result.wire ≡ wire }
        ensures stack { result.stack ≡ stack }
    {
        KeyPair { wire, stack }
    }

    /// The flow as it is on the wire.
    pub fn wire(&self) -> Key
        ensures wire { result ≡ self.now.wire }
        ensures keys { AreKeys self.now.wire self.now.stack }
    {
        self.wire.key()
    }

    /// The flow before translation.
    pub fn stack(&self) -> Key
        ensures { result ≡ self.now.stack }
    {
        self.stack.key()
    }
}
