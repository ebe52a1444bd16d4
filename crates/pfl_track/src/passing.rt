//! Whether and how a packet passes, by the profile's rules or the kernel's, and what it makes of both ends (pf.c).

ghost use Rattle.std.specs.Prelude.{◌≡◌, ◌≤◌};
ghost use Rattle.pfl_track.specs.Rules as meant;

use crate::branch::Branch;
use crate::levels::{CLOSING, FIN_WAIT_2, SYN_SENT, TIME_WAIT, receiver_level, sender_level};
use crate::peer::{Peer, PeerFields};
use crate::segment::Segment;
use crate::window::{MAX_ACK_WINDOW, at_scale, is_near};
use pfl_base::{Kernel, Packet, TcpFlags, seq_geq, seq_gt};

/// How the packet passes, if it does.
pub(crate) fn branch(kernel: Kernel, segment: &Segment, packet: &Packet) -> Option<Branch>
    ensures { result ≡ meant.branch kernel segment.now packet.now }
{
    if is_inside_by(kernel, segment, packet) {
        Some(Branch::Window)
    } else if kernel.loose && is_lenient(segment) && is_nearby(segment) {
        Some(Branch::Loose)
    } else {
        None
    }
}

/// Whether it is inside the window, and of a RST whether it has the number that is asked for.
pub(crate) fn is_inside_by(kernel: Kernel, segment: &Segment, packet: &Packet) -> bool
    ensures { result ≡ meant.is_inside_by kernel segment.now packet.now }
{
    is_in_window(segment)
        && (!asks_number(kernel, packet) || is_beside(packet.seq(), segment.sender.lo()))
}

/// Whether all edges of the window hold.
fn is_in_window(segment: &Segment) -> bool
    ensures { result ≡ meant.is_in_window segment.now }
{
    seq_geq(segment.sender.hi(), segment.end)
        && seq_geq(segment.seq, back_of(segment))
        && is_acknowledgement(segment)
}

/// Whether what it acknowledges is near what the other end sent, if that counts.
fn is_acknowledgement(segment: &Segment) -> bool
    ensures { result ≡ meant.is_acknowledgement segment.now }
{
    match segment.ack {
        Some(number) => is_near(ahead_of(segment), segment.receiver.lo(), number),
        None => true,
    }
}

/// Where a packet may begin at the earliest: a window back.
pub(crate) fn back_of(segment: &Segment) -> u32
    ensures { result ≡ meant.back_of segment.now }
{
    let receiver = segment.receiver;
    let window = at_scale(segment.scaled, &receiver, u32::from(receiver.window()));
    segment.sender.lo().wrapping_sub(window)
}

/// How far the other end may be ahead of what is acknowledged.
pub(crate) fn ahead_of(segment: &Segment) -> u32
    ensures { result ≡ meant.ahead_of segment.now }
{
    at_scale(segment.scaled, &segment.sender, MAX_ACK_WINDOW)
}

/// Whether the number of the packet is asked for: it is a RST, under the rule `reset`.
pub(crate) fn asks_number(kernel: Kernel, packet: &Packet) -> bool
    ensures { result ≡ meant.asks_number kernel packet.now }
{
    kernel.reset && packet.flags().contains(TcpFlags::RST)
}

/// Whether a number is `lo`, or beside it.
pub(crate) fn is_beside(number: u32, lo: u32) -> bool
    ensures { result ≡ meant.is_beside number lo }
{
    number == lo || number == lo.wrapping_add(1) || number.wrapping_add(1) == lo
}

/// Whether a packet may pass loosely: the other end was not heard, or an end has closed.
pub(crate) fn is_lenient(segment: &Segment) -> bool
    ensures { result ≡ meant.is_lenient segment.now }
{
    let level = segment.receiver.level();
    level < SYN_SENT || level >= FIN_WAIT_2 || segment.sender.level() >= FIN_WAIT_2
}

/// Whether it is within [`MAX_ACK_WINDOW`] of what is known of its sender.
fn is_nearby(segment: &Segment) -> bool
    ensures { result ≡ meant.is_nearby segment.now }
{
    seq_geq(loose_end(segment), segment.end) && seq_geq(segment.seq, loose_back(segment))
}

/// Where a packet that passes loosely may end at the latest.
pub(crate) fn loose_end(segment: &Segment) -> u32
    ensures { result ≡ meant.loose_end segment.now }
{
    segment.sender.hi().wrapping_add(MAX_ACK_WINDOW)
}

/// Where it may begin at the earliest.
pub(crate) fn loose_back(segment: &Segment) -> u32
    ensures { result ≡ meant.loose_back segment.now }
{
    segment.sender.lo().wrapping_sub(MAX_ACK_WINDOW)
}

/// The sender after a packet that passed so.
pub(crate) fn sender_by(branch: Branch, segment: &Segment, packet: &Packet) -> Peer
    ensures { result ≡ meant.sender_by branch segment.now packet.now }
{
    let former = segment.sender.fields();
    Peer::with(PeerFields {
        level: match branch {
            Branch::Window => sender_level(packet, former.level),
            Branch::Loose => loose_sender_level(packet, former.level),
        },
        window: former.window.max(segment.window).max(1),
        lo: if seq_gt(segment.end, former.lo) {
            segment.end
        } else {
            former.lo
        },
        ..former
    })
}

/// The other end after it.
pub(crate) fn receiver_by(branch: Branch, segment: &Segment, packet: &Packet) -> Peer
    ensures { result ≡ meant.receiver_by branch segment.now packet.now }
{
    let former = segment.receiver.fields();
    Peer::with(PeerFields {
        level: match branch {
            Branch::Window => receiver_level(packet, former.level),
            Branch::Loose => loose_receiver_level(packet, former.level),
        },
        hi: allowance_by(segment),
        ..former
    })
}

/// The level of the sender of a packet that passed loosely: FIN and RST alone lift it.
fn loose_sender_level(packet: &Packet, level: u8) -> u8
    requires { level ≤ 10 }
    ensures after { result ≡ meant.loose_sender_level packet.now level }
    ensures known { result ≤ 10 }
{
    let flags = packet.flags();
    if flags.contains(TcpFlags::RST) {
        TIME_WAIT
    } else if flags.contains(TcpFlags::FIN) {
        level.max(CLOSING)
    } else {
        level
    }
}

/// The level of the other end: RST alone lifts it.
fn loose_receiver_level(packet: &Packet, level: u8) -> u8
    requires { level ≤ 10 }
    ensures after { result ≡ meant.loose_receiver_level packet.now level }
    ensures known { result ≤ 10 }
{
    if packet.flags().contains(TcpFlags::RST) {
        TIME_WAIT
    } else {
        level
    }
}

/// The sequence number after what the other end may send.
fn allowance_by(segment: &Segment) -> u32
    ensures { result ≡ meant.allowance_by segment.now }
{
    let offered = at_scale(segment.scaled, &segment.sender, u32::from(segment.window));
    let hi = segment.receiver.hi();
    match segment.ack {
        Some(ack) if seq_geq(ack.wrapping_add(offered), hi) => ack.wrapping_add(offered.max(1)),
        _ => hi,
    }
}
