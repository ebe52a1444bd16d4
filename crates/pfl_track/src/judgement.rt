//! How a packet is judged by the profile's rules or the kernel's, edge by edge.

ghost use Rattle.std.specs.Prelude.{◌≡◌};
ghost use Rattle.pfl_track.specs.Edges as edges;
ghost use Rattle.pfl_track.specs.Judging as meant;

use crate::branch::Branch;
use crate::edges::{AckTest, EdgeTest, WindowTest, back_to, near_test, unless, up_to};
use crate::passing::{
    ahead_of, asks_number, back_of, is_beside, is_inside_by, is_lenient, loose_back, loose_end,
};
use crate::segment::{Segment, is_empty, segment_of};
use crate::state::State;
use crate::tracking::{receiver, sender};
use pfl_base::{Dir, Kernel, Packet};

/// The number of a RST, the least and the greatest that it may be, and by how much it lies outside, if it does.
#[derive(Clone, Copy, Debug, PartialEq, Eq)]
pub struct ResetTest {
    pub number: u32,
    pub least: u32,
    pub most: u32,
    pub missed: Option<u32>,
}

/// What a packet is tested against that may pass loosely: where it ends, and where it begins.
#[derive(Clone, Copy, Debug, PartialEq, Eq)]
pub struct LooseTest {
    pub right: EdgeTest,
    pub left: EdgeTest,
}

/// What a packet of TCP is tested against, where these rules are the kernel's.
#[derive(Clone, Copy, Debug, PartialEq, Eq)]
pub struct Judgement {
    /// The packet has no data, so that it is judged by what it acknowledges alone.
    pub eased: bool,
    /// The edges of the window.
    pub test: WindowTest,
    /// The number, where it is a RST and that is asked for.
    pub reset: Option<ResetTest>,
    /// The further edges, where it is not inside the window and may pass loosely.
    pub loose: Option<LooseTest>,
}

impl Judgement {
    ghost use Rattle.pfl_track.specs.Judging.{branch_of as way_of};

    /// How the packet passes, if it does.
    pub fn branch(&self) -> Option<Branch>
        ensures { result ≡ way_of self.now }
    {
        if is_met(&self.test) && misses_no_number(self.reset) {
            Some(Branch::Window)
        } else if is_met_loosely(self.loose) {
            Some(Branch::Loose)
        } else {
            None
        }
    }
}

/// Whether no edge of the window is missed.
fn is_met(test: &WindowTest) -> bool
    ensures { result ≡ edges.is_met test.now }
{
    let near = match test.ack {
        Some(test) => test.missed.is_none(),
        None => true,
    };
    test.right.missed.is_none() && test.left.missed.is_none() && near
}

/// Whether the number of a RST is not missed.
fn misses_no_number(test: Option<ResetTest>) -> bool
    ensures { result ≡ meant.misses_no_number test }
{
    match test {
        Some(test) => test.missed.is_none(),
        None => true,
    }
}

/// Whether the further edges are asked for and none is missed.
fn is_met_loosely(test: Option<LooseTest>) -> bool
    ensures { result ≡ meant.is_met_loosely test }
{
    match test {
        Some(test) => test.right.missed.is_none() && test.left.missed.is_none(),
        None => false,
    }
}

/// The number of a RST. Of its two bounds the nearer one counts.
fn reset_test(lo: u32, number: u32) -> ResetTest
    ensures { result ≡ meant.reset_test lo number }
{
    let (least, most) = (lo.wrapping_sub(1), lo.wrapping_add(1));
    let (before, past) = (least.wrapping_sub(number), number.wrapping_sub(most));
    ResetTest {
        number,
        least,
        most,
        missed: unless(is_beside(number, lo), before.min(past)),
    }
}

/// The edges of the window.
fn edges_of(segment: &Segment) -> WindowTest
    ensures { result ≡ meant.edges_of segment.now }
{
    WindowTest {
        right: up_to(segment.sender.hi(), segment.end),
        left: back_to(back_of(segment), segment.seq),
        ack: ack_of(segment),
    }
}

/// What it acknowledges, if that counts.
fn ack_of(segment: &Segment) -> Option<AckTest>
    ensures { result ≡ meant.ack_of segment.now }
{
    match segment.ack {
        Some(number) => Some(near_test(ahead_of(segment), segment.receiver.lo(), number)),
        None => None,
    }
}

/// The further edges.
fn loose_test(segment: &Segment) -> LooseTest
    ensures { result ≡ meant.loose_test segment.now }
{
    LooseTest {
        right: up_to(loose_end(segment), segment.end),
        left: back_to(loose_back(segment), segment.seq),
    }
}

/// What a packet of the state on its way is tested against, where these rules are the kernel's.
pub fn window_test_by(kernel: Kernel, state: &State, packet: &Packet, dir: Dir) -> Judgement
    ensures { result ≡ meant.window_test_by kernel state.now dir packet.now }
{
    let segment = segment_of(kernel, &sender(state, dir), &receiver(state, dir), packet);
    judged(kernel, &segment, packet)
}

/// The same for a packet as it is judged.
#[tactic(auto, unfolding(crate::specs::Judging::judged))]
fn judged(kernel: Kernel, segment: &Segment, packet: &Packet) -> Judgement
    ensures { result ≡ meant.judged kernel segment.now packet.now }
{
    let inside = is_inside_by(kernel, segment, packet);
    Judgement {
        eased: kernel.window && is_empty(packet),
        test: edges_of(segment),
        reset: if asks_number(kernel, packet) {
            Some(reset_test(segment.sender.lo(), packet.seq()))
        } else {
            None
        },
        loose: if kernel.loose && is_lenient(segment) && !inside {
            Some(loose_test(segment))
        } else {
            None
        },
    }
}
