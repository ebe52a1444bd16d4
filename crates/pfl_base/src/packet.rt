//! Packets.

ghost use Rattle.std.specs.Prelude.{◌≡◌, ◌≤◌, None, Some, IfSome, MatchResult};

use crate::addr::End;
use crate::fields::{BadPacket, PacketFields};
use crate::flags::TcpFlags;
use crate::packed::PackedEnd;
use crate::proto::Proto;
use std::marker::Model;

/// A packet as it is kept: the same fields, the ends in few bytes.
#[derive(Clone, Copy, Debug, PartialEq, Eq)]
struct Kept {
    seq: u32,
    ack: u32,
    window: u16,
    len: u16,
    proto: Proto,
    src: PackedEnd,
    dst: PackedEnd,
    flags: TcpFlags,
    scale: Option<u8>,
}

/// A packet as a filter sees it: fields without a fault. One of another protocol than TCP has no flags, zeros for the
/// three numbers, and no scale.
#[derive(Clone, Copy, Debug, PartialEq, Eq)]
pub struct Packet {
    kept: Kept,
}

impl Model for Packet {
    ghost use Rattle.pfl_base.specs.declared.fields.PacketFields.{PacketFields};

    ghost Value = { PacketFields };

    ghost use Rattle.pfl_base.specs.Packets.{IsPacket};
    ghost use Rattle.pfl_base.specs.inner.Packets.{fields_of, kept_of};

    ghost view = { λ p. fields_of p.kept };

    ghost invariant = { λ p. IsPacket (fields_of p.kept) };

    ghost inverse = { λ fields. record { kept = kept_of fields } };
}

impl Packet {
    ghost use Rattle.pfl_base.specs.declared.direction.Dir.{Dir};
    ghost use Rattle.pfl_base.specs.declared.fields.PacketFields.{PacketFields};
    ghost use Rattle.pfl_base.specs.Keys.{key as key_of, other_dir};
    ghost use Rattle.pfl_base.specs.Packets.{bad_packet, exchanged, is_request, IsPacket};

    /// The packet with these fields, or the first reason why they are none.
    #[allow(clippy::too_many_arguments)]
    pub fn checked(
        proto: Proto,
        src: End,
        dst: End,
        flags: TcpFlags,
        seq: u32,
        ack: u32,
        window: u16,
        len: u16,
        scale: Option<u8>,
    ) -> Result<Packet, BadPacket>
        ensures { let fields : PacketFields =
            record { proto = proto; src = src; dst = dst; flags = flags; seq = seq; ack = ack; window = window; len = len; scale = scale } in
            MatchResult result (λ p. (p ≡ fields) × (bad_packet fields ≡ None)) (λ e. bad_packet fields ≡ Some e) }
    {
        Packet::of(PacketFields {
            seq,
            ack,
            window,
            len,
            proto,
            src,
            dst,
            flags,
            scale,
        })
    }

    /// The packet with these fields, or the first reason why they are none.
    pub fn of(fields: PacketFields) -> Result<Packet, BadPacket>
        ensures { MatchResult result (λ p. (p ≡ fields) × (bad_packet fields ≡ None)) (λ e. bad_packet fields ≡ Some e) }
    {
        // Its contract says that the protocol is written one way, which a packet keeps.
        let _number = fields.proto.number();
        match fields.fault() {
            None => Ok(Packet::with(fields)),
            Some(fault) => Err(fault),
        }
    }

    /// The packet with fields that are known to be one's.
    fn with(fields: PacketFields) -> Packet
        requires { IsPacket fields }
        ensures { result ≡ fields }
    {
        let kept = Kept {
            seq: fields.seq,
            ack: fields.ack,
            window: fields.window,
            len: fields.len,
            proto: fields.proto,
            src: PackedEnd::of(fields.src),
            dst: PackedEnd::of(fields.dst),
            flags: fields.flags,
            scale: fields.scale,
        };
        Packet { kept }
    }

    /// The packet on its way back: its ends are exchanged. A node that it goes through in the other direction finds the
    /// same flow.
    pub fn exchanged(&self) -> Packet
        ensures packet { result ≡ exchanged self.now }
        ensures flow { (dir : Dir) → key_of result (other_dir dir) ≡ key_of self.now dir }
    {
        let Kept { src, dst, .. } = self.kept;
        Packet {
            kept: Kept {
                src: dst,
                dst: src,
                ..self.kept
            },
        }
    }

    /// Whether the packet asks for a new connection: SYN without ACK (RFC 9293, 3.5).
    pub fn is_request(&self) -> bool
        ensures { result ≡ is_request self.now }
    {
        let flags = self.flags();
        flags.contains(TcpFlags::SYN) && !flags.contains(TcpFlags::ACK)
    }

    /// What the packet was made from.
    pub fn fields(&self) -> PacketFields
        ensures fields { result ≡ self.now }
        ensures packet { IsPacket result }
    {
        let Kept {
            seq,
            ack,
            window,
            len,
            proto,
            src,
            dst,
            flags,
            scale,
        } = self.kept;
        PacketFields {
            seq,
            ack,
            window,
            len,
            proto,
            src: src.end(),
            dst: dst.end(),
            flags,
            scale,
        }
    }

    /// The protocol.
    pub fn proto(&self) -> Proto
        ensures { result ≡ self.now.proto }
    {
        self.kept.proto
    }

    /// The end that sent the packet.
    pub fn src(&self) -> End
        ensures { result ≡ self.now.src }
    {
        self.kept.src.end()
    }

    /// The end that the packet goes to.
    pub fn dst(&self) -> End
        ensures { result ≡ self.now.dst }
    {
        self.kept.dst.end()
    }

    /// The flags of TCP.
    pub fn flags(&self) -> TcpFlags
        ensures { result ≡ self.now.flags }
    {
        self.kept.flags
    }

    /// The sequence number of TCP.
    pub fn seq(&self) -> u32
        ensures { result ≡ self.now.seq }
    {
        self.kept.seq
    }

    /// The acknowledgment number of TCP.
    pub fn ack(&self) -> u32
        ensures { result ≡ self.now.ack }
    {
        self.kept.ack
    }

    /// The window as it stands in the header, before scaling.
    pub fn window(&self) -> u16
        ensures { result ≡ self.now.window }
    {
        self.kept.window
    }

    /// Bytes after the TCP header, or after the IP header.
    pub fn len(&self) -> u16
        ensures { result ≡ self.now.len }
    {
        self.kept.len
    }

    /// The window scale option (RFC 7323), at most 14.
    pub fn scale(&self) -> Option<u8>
        ensures scale { result ≡ self.now.scale }
        ensures range { IfSome result (λ s. s ≤ 14) }
    {
        self.kept.scale
    }
}
