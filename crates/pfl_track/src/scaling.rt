//! How states begin by the kernel's rules, as far as we know them: with windows in units of the scales that ends offer in their SYNs
//! (RFC 7323; pf.c), and those of ICMP without levels (pf.c).

ghost use Rattle.std.specs.Prelude.{◌≡◌, ◌≤◌, true, IfSome};
ghost use Rattle.pfl_track.specs.Rules as meant;
ghost use Rattle.pfl_track.specs.States.{IsState};

use crate::peer::{Peer, PeerFields};
use crate::state::State;
use crate::window::at_scale;
use pfl_base::{Kernel, Packet, Proto, TcpFlags};

/// The state that a packet has made, where these rules are the kernel's, as far as we know it: by `scale` the window of its SYN
/// is kept in units of the scale that it offers, and by `icmp` the ends of one of ICMP have no levels.
pub fn started_by(kernel: Kernel, state: State) -> State
    ensures state { result ≡ meant.started_by kernel state }
    ensures known { IsState result }
{
    if kernel.scale || has_no_levels(kernel, state.proto()) {
        state.with_ends(first_end(kernel, state.proto(), &state.src()), state.dst())
    } else {
        state
    }
}

/// Whether the ends of states of this protocol have no levels.
fn has_no_levels(kernel: Kernel, proto: Proto) -> bool
    ensures { result ≡ meant.has_no_levels kernel proto }
{
    kernel.icmp && proto == Proto::Icmp
}

/// The end that sent the packet which made the state.
fn first_end(kernel: Kernel, proto: Proto, end: &Peer) -> Peer
    ensures { result ≡ meant.first_end kernel proto end.now }
{
    let fields = end.fields();
    Peer::with(PeerFields {
        level: if has_no_levels(kernel, proto) {
            0
        } else {
            fields.level
        },
        window: if kernel.scale {
            in_units(fields.scale, fields.window)
        } else {
            fields.window
        },
        ..fields
    })
}

/// A window in units of a scale, rounded up; where none was offered, as it is.
pub(crate) fn in_units(scale: Option<u8>, window: u16) -> u16
    requires { IfSome scale (λ s. s ≤ 14) }
    ensures { result ≡ meant.in_units scale window }
{
    match scale {
        Some(scale) => window.div_ceil(1 << scale),
        None => window,
    }
}

/// The packet is the SYN by which its sender begins, which takes the offer of a scale that the other end has made.
pub(crate) fn takes_offer(kernel: Kernel, sender: &Peer, receiver: &Peer, packet: &Packet) -> bool
    ensures { result ≡ meant.takes_offer kernel sender.now receiver.now packet.now }
{
    answers_offer(kernel, sender, receiver, packet) && packet.scale().is_some()
}

/// The other end at the packet: where that SYN offers no scale, its own offer came to nothing.
pub(crate) fn receiver_at(kernel: Kernel, sender: &Peer, receiver: &Peer, packet: &Packet) -> Peer
    ensures { result ≡ meant.receiver_at kernel sender.now receiver.now packet.now }
{
    if answers_offer(kernel, sender, receiver, packet) && packet.scale().is_none() {
        without_scale(receiver)
    } else {
        *receiver
    }
}

/// The packet is the SYN by which its sender begins, and the other end has offered a scale.
fn answers_offer(kernel: Kernel, sender: &Peer, receiver: &Peer, packet: &Packet) -> bool
    ensures { result ≡ meant.answers_offer kernel sender.now receiver.now packet.now }
{
    kernel.scale
        && is_to_begin(kernel, sender)
        && packet.flags().contains(TcpFlags::SYN)
        && receiver.scale().is_some()
}

/// Whether an end begins with its next packet.
fn is_to_begin(kernel: Kernel, sender: &Peer) -> bool
    ensures { result ≡ meant.is_to_begin kernel sender.now }
{
    if kernel.window {
        is_unheard(sender)
    } else {
        sender.level() == 0
    }
}

/// Whether nothing was heard of an end.
pub(crate) fn is_unheard(end: &Peer) -> bool
    ensures { result ≡ meant.is_unheard end.now }
{
    end.lo() == 0 && end.window() == 0
}

/// An end whose offer of a scale came to nothing: its window counts as it is from now on.
fn without_scale(end: &Peer) -> Peer
    ensures { result ≡ meant.without_scale end.now }
{
    let fields = end.fields();
    let window = at_scale(true, end, u32::from(fields.window));
    Peer::with(PeerFields {
        scale: None,
        window: window.min(u32::from(u16::MAX)) as u16,
        ..fields
    })
}
