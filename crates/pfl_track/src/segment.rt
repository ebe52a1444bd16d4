//! What of a packet is held against the window, by the profile's rules or the kernel's (RFC 9293 and pf.c). Sequence numbers wrap.

ghost use Rattle.std.specs.Prelude.{◌≡◌};
ghost use Rattle.pfl_track.specs.Rules as meant;

use crate::levels::SYN_SENT;
use crate::peer::{Peer, PeerFields};
use crate::scaling::{in_units, is_unheard, receiver_at, takes_offer};
use crate::window::{acknowledges, at_scale, begun, end_of, is_scaled};
use pfl_base::{Kernel, Packet, TcpFlags, seq_geq};

/// A packet as it is judged: its sender, which has begun, the other end, whether windows count at their scales, the window that it
/// offers, where it begins and ends, and what it acknowledges, if that counts.
#[derive(Clone, Copy, Debug, PartialEq, Eq)]
pub(crate) struct Segment {
    pub(crate) sender: Peer,
    pub(crate) receiver: Peer,
    pub(crate) scaled: bool,
    pub(crate) window: u16,
    pub(crate) seq: u32,
    pub(crate) end: u32,
    pub(crate) ack: Option<u32>,
}

/// The packet of `sender` to `receiver` as it is judged.
pub(crate) fn segment_of(kernel: Kernel, sender: &Peer, receiver: &Peer, packet: &Packet) -> Segment
    ensures { result ≡ meant.segment_of kernel sender.now receiver.now packet.now }
{
    let scaling = takes_offer(kernel, sender, receiver, packet);
    let receiver = receiver_at(kernel, sender, receiver, packet);
    if kernel.window {
        eased(scaling, sender, &receiver, packet)
    } else {
        plain(scaling, sender, &receiver, packet)
    }
}

/// By the profile.
fn plain(scaling: bool, sender: &Peer, receiver: &Peer, packet: &Packet) -> Segment
    ensures { result ≡ meant.plain scaling sender.now receiver.now packet.now }
{
    let sender = begun_at(scaling, sender, receiver, packet);
    Segment {
        sender,
        receiver: *receiver,
        scaled: scaling || is_scaled(&sender, receiver, packet),
        window: window_of(scaling, packet),
        seq: packet.seq(),
        end: end_of(packet),
        ack: if acknowledges(receiver, packet) {
            Some(packet.ack())
        } else {
            None
        },
    }
}

/// By the kernel, as far as we know it: without data it lies where its sender stands, and it acknowledges something always.
fn eased(scaling: bool, sender: &Peer, receiver: &Peer, packet: &Packet) -> Segment
    ensures { result ≡ meant.eased scaling sender.now receiver.now packet.now }
{
    let sender = heard(scaling, sender, receiver, packet);
    let empty = is_empty(packet);
    Segment {
        sender,
        receiver: *receiver,
        scaled: scaling || is_scaled(&sender, receiver, packet),
        window: window_of(scaling, packet),
        seq: if empty { sender.lo() } else { packet.seq() },
        end: if empty { sender.lo() } else { end_of(packet) },
        ack: Some(counted_ack(receiver, packet)),
    }
}

/// The window that the packet offers: the SYN that takes the other end's offer of a scale has it in units of its own.
fn window_of(scaling: bool, packet: &Packet) -> u16
    ensures { result ≡ meant.window_of scaling packet.now }
{
    if scaling {
        in_units(packet.scale(), packet.window())
    } else {
        packet.window()
    }
}

/// Whether the packet has neither data, nor SYN, nor FIN.
pub(crate) fn is_empty(packet: &Packet) -> bool
    ensures { result ≡ meant.is_empty packet.now }
{
    packet.seq() == end_of(packet)
}

/// The acknowledged number that counts: where the packet's own says nothing, what the other end sent.
fn counted_ack(receiver: &Peer, packet: &Packet) -> u32
    ensures { result ≡ meant.counted_ack receiver.now packet.now }
{
    let of_reset = packet.flags().contains(TcpFlags::RST) && packet.ack() == 0;
    if acknowledges(receiver, packet) && !of_reset {
        packet.ack()
    } else {
        receiver.lo()
    }
}

/// The sender before its packet, by the profile: one without a level begins here.
fn begun_at(scaling: bool, sender: &Peer, receiver: &Peer, packet: &Packet) -> Peer
    ensures { result ≡ meant.begun_at scaling sender.now receiver.now packet.now }
{
    let begun = begun(sender, receiver, packet);
    if scaling {
        Peer::with(PeerFields {
            hi: first_allowance(true, receiver, packet),
            ..begun.fields()
        })
    } else {
        begun
    }
}

/// The sender before its packet: one that was never heard begins here, whatever its level.
fn heard(scaling: bool, sender: &Peer, receiver: &Peer, packet: &Packet) -> Peer
    ensures { result ≡ meant.heard scaling sender.now receiver.now packet.now }
{
    if is_unheard(sender) {
        met(scaling, sender, receiver, packet)
    } else {
        *sender
    }
}

/// An end that was never heard, at its first packet.
fn met(scaling: bool, sender: &Peer, receiver: &Peer, packet: &Packet) -> Peer
    ensures { result ≡ meant.met scaling sender.now receiver.now packet.now }
{
    let former = sender.fields();
    let scaled = scaling || is_scaled(sender, receiver, packet);
    let first = first_allowance(scaled, receiver, packet);
    Peer::with(PeerFields {
        level: former.level.max(SYN_SENT),
        scale: if packet.flags().contains(TcpFlags::SYN) {
            packet.scale()
        } else {
            former.scale
        },
        lo: packet.seq(),
        hi: if former.hi <= 1 || seq_geq(first, former.hi) {
            first
        } else {
            former.hi
        },
        ..former
    })
}

/// Up to where an end may send after its first packet: a window of the other end's.
fn first_allowance(scaled: bool, receiver: &Peer, packet: &Packet) -> u32
    ensures { result ≡ meant.first_allowance scaled receiver.now packet.now }
{
    let window = at_scale(scaled, receiver, u32::from(receiver.window()));
    end_of(packet).wrapping_add(window.max(1))
}
