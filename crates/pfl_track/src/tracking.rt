//! How packets move states.

ghost use Rattle.std.specs.Prelude.{◌≡◌, ◌≤◌, ◌&&◌};
ghost use Rattle.pfl_base.specs.Packets as packets;
ghost use Rattle.pfl_track.specs.Rules as ruled;
ghost use Rattle.pfl_track.specs.Tracking as meant;

use crate::branch::Branch;
use crate::levels::{FIN_WAIT_2, answered, class_after, heard};
use crate::passing::{branch, receiver_by, sender_by};
use crate::peer::{Peer, PeerFields};
use crate::segment::{Segment, segment_of};
use crate::state::State;
use crate::tracked::Tracked;
use crate::window::{begun, is_inside, receiver_after, sender_after};
use pfl_base::{Dir, Kernel, Millis, Packet, Proto};

/// What a packet of the state's flow does to the state, at a time in milliseconds (pf.c).
pub fn track(state: &State, packet: &Packet, dir: Dir, now: Millis) -> Tracked
    ensures { result ≡ meant.tracked state.now packet.now dir now }
{
    match packet.proto() {
        Proto::Tcp => track_tcp(state, packet, dir, now),
        Proto::Udp | Proto::Icmp | Proto::Other(_) => Tracked::Moved(track_other(state, dir, now)),
    }
}

fn track_tcp(state: &State, packet: &Packet, dir: Dir, now: Millis) -> Tracked
    ensures { result ≡ meant.tracked_tcp state.now packet.now dir now }
{
    if is_reused(state, packet) {
        return Tracked::Reused;
    }
    let receiver = receiver(state, dir);
    let sender = begun(&sender(state, dir), &receiver, packet);
    if !is_inside(&sender, &receiver, packet) {
        return Tracked::OutOfWindow;
    }
    let from = sender_after(&sender, packet);
    let to = receiver_after(&sender, &receiver, packet);
    Tracked::Moved(moved(state, dir, from, to, now))
}

/// The same, where these rules are the kernel's, as far as we know it. A packet that passes loosely moves the ends alone, and by `icmp`
/// one of ICMP moves no level.
pub fn track_by(kernel: Kernel, state: &State, packet: &Packet, dir: Dir, now: Millis) -> Tracked
    ensures { result ≡ ruled.tracked_by kernel state.now packet.now dir now }
{
    match packet.proto() {
        Proto::Icmp if kernel.icmp => Tracked::Moved(used(state, state.src(), state.dst(), now)),
        Proto::Tcp if !tracks_by_profile(kernel) => track_tcp_by(kernel, state, packet, dir, now),
        _ => track(state, packet, dir, now),
    }
}

/// Whether none of the rules by which packets of TCP are tracked is the kernel's.
fn tracks_by_profile(kernel: Kernel) -> bool
    ensures { result ≡ ruled.tracks_by_profile kernel }
{
    !(kernel.window || kernel.loose || kernel.reset || kernel.scale)
}

fn track_tcp_by(kernel: Kernel, state: &State, packet: &Packet, dir: Dir, now: Millis) -> Tracked
    ensures { result ≡ ruled.tracked_tcp_by kernel state.now packet.now dir now }
{
    if is_reused(state, packet) {
        return Tracked::Reused;
    }
    let segment = segment_of(kernel, &sender(state, dir), &receiver(state, dir), packet);
    let way = branch(kernel, &segment, packet);
    passed(state, &segment, packet, dir, now, way)
}

/// What comes of the state where the packet passes so, if it does.
fn passed(
    state: &State,
    segment: &Segment,
    packet: &Packet,
    dir: Dir,
    now: Millis,
    way: Option<Branch>,
) -> Tracked
    ensures { result ≡ ruled.passed state.now segment.now packet.now dir now way }
{
    match way {
        Some(branch) => Tracked::Moved(after(state, segment, packet, dir, now, branch)),
        None => Tracked::OutOfWindow,
    }
}

/// The state after a packet that passes so: one that passes loosely does not renew it.
fn after(
    state: &State,
    segment: &Segment,
    packet: &Packet,
    dir: Dir,
    now: Millis,
    branch: Branch,
) -> State
    ensures { result ≡ ruled.after state.now segment.now packet.now dir now branch }
{
    let from = sender_by(branch, segment, packet);
    let to = receiver_by(branch, segment, packet);
    match branch {
        Branch::Window => moved(state, dir, from, to, now),
        Branch::Loose => touched(state, dir, from, to),
    }
}

fn track_other(state: &State, dir: Dir, now: Millis) -> State
    ensures { result ≡ meant.tracked_other state.now dir now }
{
    let (from, to) = (sender(state, dir), receiver(state, dir));
    moved(
        state,
        dir,
        at_level(&from, heard(from.level())),
        at_level(&to, answered(to.level())),
        now,
    )
}

/// Whether the packet begins a connection anew whose ends have both closed.
fn is_reused(state: &State, packet: &Packet) -> bool
    ensures { result ≡ (packets.is_request packet.now && meant.is_closed state.now) }
{
    packet.is_request() && is_closed(state)
}

/// Whether both ends have closed.
fn is_closed(state: &State) -> bool
    ensures { result ≡ meant.is_closed state.now }
{
    state.src().level() >= FIN_WAIT_2 && state.dst().level() >= FIN_WAIT_2
}

/// Whether the packet comes from the end that sent the first one.
fn from_src(state: &State, dir: Dir) -> bool
    ensures { result ≡ meant.from_src state.now dir }
{
    state.direction() == dir
}

/// The end that sent the packet.
pub(crate) fn sender(state: &State, dir: Dir) -> Peer
    ensures { result ≡ meant.sender state.now dir }
{
    if from_src(state, dir) {
        state.src()
    } else {
        state.dst()
    }
}

/// The other end.
pub(crate) fn receiver(state: &State, dir: Dir) -> Peer
    ensures { result ≡ meant.receiver state.now dir }
{
    if from_src(state, dir) {
        state.dst()
    } else {
        state.src()
    }
}

/// The state with its ends after a packet, by who sent it.
fn moved(state: &State, dir: Dir, from: Peer, to: Peer, now: Millis) -> State
    ensures { result ≡ meant.moved state.now dir from to now }
{
    let (src, dst) = if from_src(state, dir) {
        (from, to)
    } else {
        (to, from)
    };
    used(state, src, dst, now)
}

/// The state with these ends, used now.
fn used(state: &State, src: Peer, dst: Peer, now: Millis) -> State
    ensures { result ≡ meant.used state.now src dst now }
{
    let class = class_after(state.proto(), src.level(), dst.level());
    state.renewed(src, dst, class, now)
}

/// The state with its ends after a packet that renews nothing, by who sent it.
fn touched(state: &State, dir: Dir, from: Peer, to: Peer) -> State
    ensures { result ≡ ruled.touched state.now dir from to }
{
    if from_src(state, dir) {
        state.with_ends(from, to)
    } else {
        state.with_ends(to, from)
    }
}

/// The end at another level.
fn at_level(end: &Peer, level: u8) -> Peer
    requires { level ≤ 10 }
    ensures { result ≡ record end.now { level = level } }
{
    Peer::with(PeerFields {
        level,
        ..end.fields()
    })
}
