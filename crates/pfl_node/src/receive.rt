//! A frame comes in (if_pfsync.c).

ghost use Rattle.std.specs.Prelude.{◌≡◌, ◌≤◌, ◌<◌, ◌+◌, OnOk, length};
ghost use Rattle.pfl_node.specs.Calls.{NodeSteps, Any};
ghost use Rattle.pfl_node.specs.Delivering as delivering;
ghost use Rattle.pfl_node.specs.inner.Carried.{Does, IsIdle};
ghost use Rattle.pfl_receive.specs.desk.Changes.{count_broken as broken_counted};
ghost use Rattle.pfl_receive.specs.desk.Nodes.{Node as Whole};
ghost use Rattle.pfl_receive.specs.Delivering as receiving;
ghost use Rattle.pfl_wire.specs.Frames.{frame_len, records_of};

use crate::node::Node;
use pfl_base::Refusal;
use pfl_edits::{OfPart, Recorder};
use pfl_receive::{Counter, Desk, NodeEdit, judged, take_frame};
use pfl_wire::FrameBytes;
use std::alloc::Allocator;

impl<A: Allocator + Copy> Node<A> {
    /// Takes the records of a frame in their order, all or none, and returns how many. It is refused where after one of them too much
    /// would be pending, and else where after one of them a number would be too high. No frame is longer than the node's limit: so
    /// there is room for the edits of its records. They are recorded in `to`, as edits of a part.
    pub fn receive_on<W: OfPart<NodeEdit>, R: Recorder<W>>(
        &mut self,
        frame: &FrameBytes<'_>,
        part: W::Part,
        to: &mut R,
    ) -> Result<usize, Refusal>
        requires short { frame_len frame.now.groups ≤ self.old.limits.mtu }
        ensures steps { NodeSteps (W.of part) (delivering.frame_edits self.old frame.now) (delivering.receive_refusal self.old frame.now)
            (receiving.received self.old frame.now) (λ count. count ≡ length (records_of frame.now))
            result self.old self.new (R.list to.old) (R.list to.new) }
        ensures one_more { OnOk result (0 < R.spare to.new) }
        ensures total { R.spare to.old + length (R.list to.old) ≤ R.spare to.new + length (R.list to.new) }
    {
        let done = take_all(&mut self.desk, frame);
        self.desk.conclude(done, part, to)
    }

    /// Counts a frame that cannot be read. The edit is recorded in `to`, as an edit of a part.
    pub fn count_broken_on<W: OfPart<NodeEdit>, R: Recorder<W>>(
        &mut self,
        part: W::Part,
        to: &mut R,
    ) -> Result<(), Refusal>
        ensures steps { NodeSteps (W.of part) 1 (delivering.broken_refusal self.old) (broken_counted self.old) Any
            result self.old self.new (R.list to.old) (R.list to.new) }
        ensures one_more { OnOk result (0 < R.spare to.new) }
        ensures total { R.spare to.old + length (R.list to.old) ≤ R.spare to.new + length (R.list to.new) }
    {
        let done = count_broken(&mut self.desk);
        self.desk.conclude(done, part, to)
    }
}

/// Takes the records of a frame in their order, and returns how many.
fn take_all<A: Allocator>(desk: &mut Desk<A>, frame: &FrameBytes<'_>) -> Result<usize, Refusal>
    requires idle { IsIdle desk.old }
    requires short { frame_len frame.now.groups ≤ desk.old.node.limits.mtu }
    ensures { Does (delivering.frame_edits desk.old.node frame.now) (delivering.receive_refusal desk.old.node frame.now)
        (receiving.received desk.old.node frame.now) (λ count. count ≡ length (records_of frame.now)) result desk.old desk.new }
{
    judged(take_frame(desk, frame))
}

/// Counts a frame that cannot be read.
fn count_broken<A: Allocator>(desk: &mut Desk<A>) -> Result<(), Refusal>
    requires idle { IsIdle desk.old }
    ensures { Does 1 (delivering.broken_refusal desk.old.node) (broken_counted desk.old.node) Any result desk.old desk.new }
{
    desk.count(Counter::Broken);
    desk.judge(Ok(()))
}
