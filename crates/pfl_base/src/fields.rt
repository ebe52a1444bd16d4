//! The fields of packets, before they are judged.

ghost use Rattle.std.specs.Prelude.{◌≡◌};

use crate::addr::End;
use crate::flags::TcpFlags;
use crate::proto::Proto;
use std::error::Error;
use std::fmt;

/// The greatest number of bytes after a TCP header of 20 bytes and an IP header of 20 bytes.
pub const MAX_LEN: u16 = 65495;

/// The greatest window scale (RFC 7323, 2.3).
pub const MAX_SCALE: u8 = 14;

/// What a filter reads of an IP packet and of its TCP header (RFC 791, RFC 8200, RFC 9293).
#[derive(Clone, Copy, Debug, PartialEq, Eq)]
pub struct PacketFields {
    /// The sequence number of TCP.
    pub seq: u32,
    /// The acknowledgment number of TCP.
    pub ack: u32,
    /// The window as it stands in the header, before scaling.
    pub window: u16,
    /// Bytes after the TCP header, or after the IP header.
    pub len: u16,
    /// The protocol that the IP header names.
    pub proto: Proto,
    /// The end that sent the packet.
    pub src: End,
    /// The end that the packet goes to.
    pub dst: End,
    /// The flags of TCP.
    pub flags: TcpFlags,
    /// The window scale option (RFC 7323).
    pub scale: Option<u8>,
}

/// Why fields are no packet.
#[derive(Clone, Copy, Debug, PartialEq, Eq)]
pub enum BadPacket {
    /// More than [`MAX_LEN`] bytes.
    Length,
    /// A part of TCP on another protocol.
    Flags,
    /// A scale on a packet without SYN.
    ScaleWithoutSyn,
    /// A scale above [`MAX_SCALE`].
    ScaleTooLarge,
    /// One end is of IPv4, and the other of IPv6.
    Family,
    /// ICMP with two identifiers, or a port on a protocol without ports.
    Ports,
}

impl fmt::Display for BadPacket {
    fn fmt<W: fmt::Write>(&self, f: &mut fmt::Formatter<W>) -> fmt::Result {
        f.write_str(match self {
            BadPacket::Length => "too many bytes",
            BadPacket::Flags => "a part of TCP on another protocol",
            BadPacket::ScaleWithoutSyn => "a window scale without SYN",
            BadPacket::ScaleTooLarge => "a window scale that is too large",
            BadPacket::Family => "ends of two families",
            BadPacket::Ports => "ports that do not fit the protocol",
        })
    }
}

impl Error for BadPacket {}

impl PacketFields {
    ghost use Rattle.pfl_base.specs.Packets.{bad_packet, has_tcp_part, ports_fit};

    /// Why the fields are no packet: the first reason in the order of [`BadPacket`].
    pub fn fault(&self) -> Option<BadPacket>
        ensures { result ≡ bad_packet self.now }
    {
        if self.len > MAX_LEN {
            Some(BadPacket::Length)
        } else if !matches!(self.proto, Proto::Tcp) && self.has_tcp_part() {
            Some(BadPacket::Flags)
        } else if self.scale.is_some() && !self.flags.contains(TcpFlags::SYN) {
            Some(BadPacket::ScaleWithoutSyn)
        } else if self.scale.is_some_and(|scale| scale > MAX_SCALE) {
            Some(BadPacket::ScaleTooLarge)
        } else if !self.src.addr.same_family(self.dst.addr) {
            Some(BadPacket::Family)
        } else if !self.ports_fit() {
            Some(BadPacket::Ports)
        } else {
            None
        }
    }

    fn has_tcp_part(&self) -> bool
        ensures { result ≡ has_tcp_part self.now }
    {
        !self.flags.is_empty()
            || self.seq != 0
            || self.ack != 0
            || self.window != 0
            || self.scale.is_some()
    }

    fn ports_fit(&self) -> bool
        ensures { result ≡ ports_fit self.now.proto self.now.src.port self.now.dst.port }
    {
        match self.proto {
            Proto::Tcp | Proto::Udp => true,
            Proto::Icmp => self.src.port == self.dst.port,
            Proto::Other(_) => self.src.port == 0 && self.dst.port == 0,
        }
    }
}
