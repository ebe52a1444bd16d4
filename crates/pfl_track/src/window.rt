//! The window of a TCP connection (RFC 9293, RFC 7323). Sequence numbers wrap.

ghost use Rattle.std.specs.Prelude.{◌≡◌, ◌<◌, ◌^◌};
ghost use Rattle.pfl_track.specs.Rules as ruled;
ghost use Rattle.pfl_track.specs.Windows as meant;

use crate::levels::{SYN_SENT, receiver_level, sender_level};
use crate::peer::{Peer, PeerFields};
use pfl_base::{Packet, TcpFlags, seq_geq, seq_gt};

/// How far an acknowledged number may be from what the other end sent: a packet of 65535 bytes, and one more of 1500 (pf's
/// MAXACKWINDOW).
pub(crate) const MAX_ACK_WINDOW: u32 = 67035;

/// The sequence number after the packet: SYN and FIN take one each (RFC 9293, 3.4).
pub(crate) fn end_of(packet: &Packet) -> u32
    ensures { result ≡ meant.end_of packet.now }
{
    let flags = packet.flags();
    let syn = u32::from(flags.contains(TcpFlags::SYN));
    let fin = u32::from(flags.contains(TcpFlags::FIN));
    packet
        .seq()
        .wrapping_add(u32::from(packet.len()) + syn + fin)
}

/// Whether windows are scaled: both ends offered a scale, and the packet has no SYN (RFC 7323, 2.2).
pub(crate) fn is_scaled(sender: &Peer, receiver: &Peer, packet: &Packet) -> bool
    ensures { result ≡ meant.is_scaled sender.now receiver.now packet.now }
{
    sender.scale().is_some()
        && receiver.scale().is_some()
        && !packet.flags().contains(TcpFlags::SYN)
}

/// A window at the end's scale.
pub(crate) fn at_scale(scaled: bool, end: &Peer, window: u32) -> u32
    requires { window < 2 ^ 17 }
    ensures { result ≡ meant.at_scale scaled end.now window }
{
    if scaled {
        window << end.scale().unwrap_or(0)
    } else {
        window
    }
}

/// The sender before its packet: one that was silent begins here, and without SYN it has no scale for good.
pub(crate) fn begun(sender: &Peer, receiver: &Peer, packet: &Packet) -> Peer
    ensures { result ≡ meant.begun sender.now receiver.now packet.now }
{
    if sender.level() == 0 {
        let scale = if packet.flags().contains(TcpFlags::SYN) {
            packet.scale()
        } else {
            None
        };
        Peer::with(PeerFields {
            level: SYN_SENT,
            scale,
            window: 0,
            lo: packet.seq(),
            hi: end_of(packet).wrapping_add(u32::from(receiver.window().max(1))),
        })
    } else {
        *sender
    }
}

/// Whether the packet's acknowledgement counts: the other end has begun.
pub(crate) fn acknowledges(receiver: &Peer, packet: &Packet) -> bool
    ensures { result ≡ meant.acknowledges receiver.now packet.now }
{
    packet.flags().contains(TcpFlags::ACK) && receiver.level() >= SYN_SENT
}

/// Whether the packet begins no more than a window back.
fn left_edge(sender: &Peer, window: u32, packet: &Packet) -> bool
    ensures { result ≡ meant.left_edge sender.now window packet.now }
{
    seq_geq(packet.seq(), sender.lo().wrapping_sub(window))
}

/// Whether the acknowledged number is near what the other end sent: at most `ahead` behind it, and at most [`MAX_ACK_WINDOW`]
/// ahead of it.
fn ack_near(ahead: u32, receiver: &Peer, packet: &Packet) -> bool
    ensures { result ≡ meant.ack_near ahead receiver.now packet.now }
{
    is_near(ahead, receiver.lo(), packet.ack())
}

/// Whether an acknowledged number is at most `ahead` behind `lo`, and at most [`MAX_ACK_WINDOW`] ahead of it.
pub(crate) fn is_near(ahead: u32, lo: u32, number: u32) -> bool
    ensures { result ≡ ruled.is_near ahead lo number }
{
    let behind = lo.wrapping_sub(number);
    behind <= ahead || behind >= MAX_ACK_WINDOW.wrapping_neg()
}

/// Whether the packet of a sender that has begun is inside the window.
pub(crate) fn is_inside(sender: &Peer, receiver: &Peer, packet: &Packet) -> bool
    ensures { result ≡ meant.is_inside sender.now receiver.now packet.now }
{
    let scaled = is_scaled(sender, receiver, packet);
    let window = at_scale(scaled, receiver, u32::from(receiver.window()));
    let ahead = at_scale(scaled, sender, MAX_ACK_WINDOW);
    seq_geq(sender.hi(), end_of(packet))
        && left_edge(sender, window, packet)
        && (!acknowledges(receiver, packet) || ack_near(ahead, receiver, packet))
}

/// The sender after its packet.
pub(crate) fn sender_after(sender: &Peer, packet: &Packet) -> Peer
    ensures { result ≡ meant.sender_after sender.now packet.now }
{
    let former = sender.fields();
    let end = end_of(packet);
    Peer::with(PeerFields {
        level: sender_level(packet, former.level),
        window: former.window.max(packet.window()).max(1),
        lo: if seq_gt(end, former.lo) {
            end
        } else {
            former.lo
        },
        ..former
    })
}

/// The other end after it.
pub(crate) fn receiver_after(sender: &Peer, receiver: &Peer, packet: &Packet) -> Peer
    ensures { result ≡ meant.receiver_after sender.now receiver.now packet.now }
{
    let former = receiver.fields();
    Peer::with(PeerFields {
        level: receiver_level(packet, former.level),
        hi: allowance(sender, receiver, packet),
        ..former
    })
}

/// The sequence number after what the other end may send, once the packet is counted.
fn allowance(sender: &Peer, receiver: &Peer, packet: &Packet) -> u32
    ensures { result ≡ meant.allowance sender.now receiver.now packet.now }
{
    let scaled = is_scaled(sender, receiver, packet);
    let offered = at_scale(scaled, sender, u32::from(packet.window()));
    let ack = packet.ack();
    if acknowledges(receiver, packet) && seq_geq(ack.wrapping_add(offered), receiver.hi()) {
        ack.wrapping_add(offered.max(1))
    } else {
        receiver.hi()
    }
}
