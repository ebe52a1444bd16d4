//! The flows of packets.

ghost use Rattle.std.specs.Prelude.{◌≡◌};
ghost use Rattle.pfl_base.specs.Keys.{key as key_of};
ghost use Rattle.pfl_base.specs.Packets.{IsPacket};

use crate::direction::Dir;
use crate::fields::PacketFields;
use crate::flow::Key;
use crate::packet::Packet;

/// The flow of a packet.
pub fn key(packet: &Packet, dir: Dir) -> Key
    ensures key { result ≡ key_of packet.now dir }
    ensures packet { IsPacket packet.now }
{
    let PacketFields {
        proto,
        src,
        dst,
        ..
    } = packet.fields();
    let (far, near) = match dir {
        Dir::Inbound => (src, dst),
        Dir::Outbound => (dst, src),
    };
    Key { proto, far, near }
}
