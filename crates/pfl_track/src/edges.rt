//! The window of a TCP connection, edge by edge: what a packet is tested against, and by how much it misses.

ghost use Rattle.std.specs.Prelude.{◌≡◌};
ghost use Rattle.pfl_track.specs.Edges as meant;
ghost use Rattle.pfl_track.specs.Judging as judging;

use crate::peer::Peer;
use crate::state::State;
use crate::tracking::{receiver, sender};
use crate::window::{MAX_ACK_WINDOW, acknowledges, at_scale, begun, end_of, is_near, is_scaled};
use pfl_base::{Dir, Packet, seq_geq};

/// A sequence number of a packet, what bounds it, and by how much it lies beyond, if it does.
#[derive(Clone, Copy, Debug, PartialEq, Eq)]
pub struct EdgeTest {
    pub number: u32,
    pub bound: u32,
    pub missed: Option<u32>,
}

/// An acknowledged number, the least and the greatest that it may be, and by how much it lies outside, if it does.
#[derive(Clone, Copy, Debug, PartialEq, Eq)]
pub struct AckTest {
    pub number: u32,
    pub least: u32,
    pub most: u32,
    pub missed: Option<u32>,
}

/// What a packet of TCP is tested against: where it ends, where it begins, and what it acknowledges, if that counts.
#[derive(Clone, Copy, Debug, PartialEq, Eq)]
pub struct WindowTest {
    pub right: EdgeTest,
    pub left: EdgeTest,
    pub ack: Option<AckTest>,
}

/// The distance, unless there is nothing to miss.
pub(crate) fn unless(holds: bool, distance: u32) -> Option<u32>
    ensures { result ≡ meant.unless holds distance }
{
    if holds { None } else { Some(distance) }
}

/// A number that may be at most its bound.
pub(crate) fn up_to(bound: u32, number: u32) -> EdgeTest
    ensures { result ≡ judging.up_to bound number }
{
    EdgeTest {
        number,
        bound,
        missed: unless(seq_geq(bound, number), number.wrapping_sub(bound)),
    }
}

/// A number that may be at least its bound.
pub(crate) fn back_to(bound: u32, number: u32) -> EdgeTest
    ensures { result ≡ judging.back_to bound number }
{
    EdgeTest {
        number,
        bound,
        missed: unless(seq_geq(number, bound), bound.wrapping_sub(number)),
    }
}

/// An acknowledged number. Of its two bounds the nearer one counts.
pub(crate) fn near_test(ahead: u32, lo: u32, number: u32) -> AckTest
    ensures { result ≡ judging.near_test ahead lo number }
{
    let behind = lo.wrapping_sub(number);
    let too_old = behind.saturating_sub(ahead);
    let too_new = MAX_ACK_WINDOW.wrapping_neg().saturating_sub(behind);
    AckTest {
        number,
        least: lo.wrapping_sub(ahead),
        most: lo.wrapping_add(MAX_ACK_WINDOW),
        missed: unless(is_near(ahead, lo, number), too_old.min(too_new)),
    }
}

/// The right edge: whether the packet ends within what was allowed.
fn right_test(sender: &Peer, packet: &Packet) -> EdgeTest
    ensures { result ≡ meant.right_test sender.now packet.now }
{
    up_to(sender.hi(), end_of(packet))
}

/// The left edge: whether the packet begins no more than a window back.
fn left_test(sender: &Peer, window: u32, packet: &Packet) -> EdgeTest
    ensures { result ≡ meant.left_test sender.now window packet.now }
{
    back_to(sender.lo().wrapping_sub(window), packet.seq())
}

/// The acknowledged number: whether it is near what the other end sent.
fn ack_test(ahead: u32, receiver: &Peer, packet: &Packet) -> AckTest
    ensures { result ≡ meant.ack_test ahead receiver.now packet.now }
{
    near_test(ahead, receiver.lo(), packet.ack())
}

/// What a packet of the state on its way is tested against, and by how much it misses.
pub fn window_test(state: &State, packet: &Packet, dir: Dir) -> WindowTest
    ensures { result ≡ meant.window_test state.now dir packet.now }
{
    let receiver = receiver(state, dir);
    let sender = begun(&sender(state, dir), &receiver, packet);
    tested_by(&sender, &receiver, packet)
}

/// The same for a sender that has begun.
#[tactic(auto, unfolding(crate::specs::Edges::tested_by))]
fn tested_by(sender: &Peer, receiver: &Peer, packet: &Packet) -> WindowTest
    ensures { result ≡ meant.tested_by sender.now receiver.now packet.now }
{
    let scaled = is_scaled(sender, receiver, packet);
    let window = at_scale(scaled, receiver, u32::from(receiver.window()));
    let ahead = at_scale(scaled, sender, MAX_ACK_WINDOW);
    WindowTest {
        right: right_test(sender, packet),
        left: left_test(sender, window, packet),
        ack: if acknowledges(receiver, packet) {
            Some(ack_test(ahead, receiver, packet))
        } else {
            None
        },
    }
}
