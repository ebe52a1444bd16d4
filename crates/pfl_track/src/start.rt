//! How states begin.

ghost use Rattle.std.specs.Prelude.{◌≡◌};
ghost use Rattle.pfl_track.specs.States.{IsState};
ghost use Rattle.pfl_track.specs.Tracking as meant;

use crate::key_pair::KeyPair;
use crate::levels::{SINGLE, SYN_SENT, first_class};
use crate::peer::{Peer, PeerFields};
use crate::state::{State, StateFields};
use crate::window::end_of;
use pfl_base::{Dir, Millis, Packet, Proto, StateName};

/// The state that a packet makes (pf.c): it went this way, by the rule of this number; the state is announced to the peer
/// unless `no_sync`. The time is in milliseconds. A state is large: it is made where it is to be, and not handed back.
#[inline(always)]
pub fn start_state(
    name: StateName,
    keys: KeyPair,
    direction: Dir,
    packet: &Packet,
    rule: Option<u16>,
    no_sync: bool,
    now: Millis,
) -> State
    ensures state { result ≡ meant.start_state name keys.wire keys.stack direction packet.now rule no_sync now }
    ensures known { IsState result }
{
    State::with(StateFields {
        name,
        wire: keys.wire(),
        stack: keys.stack(),
        direction,
        src: first_peer(packet),
        dst: Peer::silent(),
        class: first_class(packet.proto()),
        last: now,
        rule,
        no_sync,
        ack_wanted: false,
        updates: 0,
        peer_change: None,
    })
}

/// An end after its first packet.
fn first_peer(packet: &Packet) -> Peer
    ensures { result ≡ meant.first_peer packet.now }
{
    match packet.proto() {
        Proto::Tcp => Peer::with(PeerFields {
            level: SYN_SENT,
            scale: packet.scale(),
            window: packet.window().max(1),
            lo: packet.seq(),
            hi: end_of(packet).wrapping_add(1),
        }),
        Proto::Udp | Proto::Icmp | Proto::Other(_) => Peer::with(PeerFields {
            level: SINGLE,
            ..Peer::silent().fields()
        }),
    }
}
