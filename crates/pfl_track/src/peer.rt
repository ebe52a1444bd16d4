//! Ends of connections.

ghost use Rattle.std.specs.Prelude.{◌≡◌, ◌≤◌, Some, None, IfSome, if◌then◌else◌};

use pfl_base::MAX_SCALE;
use std::marker::Model;

/// The greatest level: TIME-WAIT of TCP (RFC 9293, 3.3.2).
pub const MAX_LEVEL: u8 = 10;

/// What one end of a connection is made from.
#[derive(Clone, Copy, Debug, PartialEq, Eq)]
pub struct PeerFields {
    /// The level: of TCP from CLOSED 0 to TIME-WAIT 10, of other protocols from no traffic 0 to multiple 2.
    pub level: u8,
    /// The shift of its windows, where it offered one (RFC 7323).
    pub scale: Option<u8>,
    /// The greatest window that it offered, not scaled.
    pub window: u16,
    /// Where its first packet began, then the greatest end of one.
    pub lo: u32,
    /// The sequence number after what it may send.
    pub hi: u32,
}

/// One end of a connection: its level is at most 10, its scale at most 14.
#[derive(Clone, Copy, Debug, PartialEq, Eq)]
pub struct Peer {
    fields: PeerFields,
}

impl Model for Peer {
    ghost use Rattle.pfl_track.specs.declared.peer.PeerFields.{PeerFields};

    ghost Value = { PeerFields };

    ghost use Rattle.pfl_track.specs.Peers.{IsPeer};

    ghost view = { λ e. e.fields };

    ghost invariant = { λ e. IsPeer e.fields };

    ghost inverse = { λ fields. record { fields = fields } };
}

impl Peer {
    ghost use Rattle.pfl_track.specs.Peers.{IsPeer, is_peer};
    ghost use Rattle.pfl_track.specs.Tracking.{silent as nothing_heard};

    /// The end with these fields; none where the level is above [`MAX_LEVEL`] or the scale above [`MAX_SCALE`].
    pub fn of(fields: PeerFields) -> Option<Peer>
        ensures { result ≡ (if is_peer fields then Some fields else None) }
    {
        if fields.level <= MAX_LEVEL && !fields.scale.is_some_and(|scale| scale > MAX_SCALE) {
            Some(Peer { fields })
        } else {
            None
        }
    }

    /// An end that was not heard of.
    pub fn silent() -> Peer
        ensures { result ≡ nothing_heard }
    {
        Peer {
            fields: PeerFields {
                level: 0,
                scale: None,
                window: 0,
                lo: 0,
                hi: 0,
            },
        }
    }

    /// The end with fields that are known to be one's.
    pub(crate) fn with(fields: PeerFields) -> Peer
        requires { IsPeer fields }
        ensures { result ≡ fields }
    {
        Peer { fields }
    }

    /// What the end was made from.
    pub fn fields(&self) -> PeerFields
        ensures fields { result ≡ self.now }
        ensures peer { IsPeer result }
    {
        let Peer { fields } = *self;
        fields
    }

    /// The level, at most 10.
    pub fn level(&self) -> u8
        ensures { result ≡ self.now.level }
    {
        self.fields.level
    }

    /// The shift of its windows, at most 14, where it offered one (RFC 7323).
    pub fn scale(&self) -> Option<u8>
        ensures scale { result ≡ self.now.scale }
        ensures range { IfSome result (λ s. s ≤ 14) }
    {
        self.fields.scale
    }

    /// The greatest window that it offered, not scaled.
    pub fn window(&self) -> u16
        ensures { result ≡ self.now.window }
    {
        self.fields.window
    }

    /// Where its first packet began, then the greatest end of one.
    pub fn lo(&self) -> u32
        ensures { result ≡ self.now.lo }
    {
        self.fields.lo
    }

    /// The sequence number after what it may send.
    pub fn hi(&self) -> u32
        ensures { result ≡ self.now.hi }
    {
        self.fields.hi
    }
}
