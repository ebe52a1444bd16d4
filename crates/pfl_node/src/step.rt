//! The events of a node by itself, in one place.

ghost use Rattle.std.specs.Prelude.{◌≡◌, ◌≤◌, ◌<◌, ◌+◌, OnOk, length};
ghost use Rattle.pfl_node.specs.Calls.{NodeGives, NodeSteps};
ghost use Rattle.pfl_node.specs.Stepping.{node_edits, node_meaning};
ghost use Rattle.pfl_node.specs.inner.Carried.{Carries, IsIdle};
ghost use Rattle.pfl_receive.specs.desk.Nodes.{Node as Whole};

use crate::clear::clear;
use crate::kill::kill;
use crate::node::Node;
use crate::packet::packet as handle_packet;
use crate::purge::purge;
use crate::release::release;
use crate::retry::retry;
use crate::tick::tick;
use crate::turn::turn;
use pfl_base::Refusal;
use pfl_edits::{Change, OfPart, Recorder};
use pfl_language::{NodeEvent, NodeOutcome};
use pfl_receive::{Desk, NodeEdit};
use std::alloc::Allocator;

impl<A: Allocator + Copy> Node<A> {
    /// What an event gives that happens at the node by itself. Its edits are recorded in `to`, as edits of a part.
    pub fn step_on<W: OfPart<NodeEdit>, R: Recorder<W>>(
        &mut self,
        event: &NodeEvent,
        part: W::Part,
        to: &mut R,
    ) -> Result<NodeOutcome, Refusal>
        ensures steps { let m = node_meaning self.old event.now in
            NodeSteps (W.of part) (node_edits self.old event.now) m.refusal m.after (λ outcome. outcome ≡ m.outcome)
            result self.old self.new (R.list to.old) (R.list to.new) }
        ensures one_more { OnOk result (0 < R.spare to.new) }
        ensures total { R.spare to.old + length (R.list to.old) ≤ R.spare to.new + length (R.list to.new) }
    {
        let done = carry_out(&mut self.desk, event);
        self.desk.conclude(done, part, to)
    }

    /// As `step_on`, with its edits in a change of their own.
    #[tactic(auto, using(crate::proofs::Ready::alone))]
    pub(crate) fn step(
        &mut self,
        event: &NodeEvent,
    ) -> Result<(NodeOutcome, Change<NodeEdit, A>), Refusal>
        ensures { let m = node_meaning self.old event.now in
            NodeGives (node_edits self.old event.now) m.refusal m.after (λ outcome. outcome ≡ m.outcome) result self.old self.new }
    {
        let mut edits = Change::new(self.alloc);
        let outcome = self.step_on(event, (), &mut edits)?;
        Ok((outcome, edits))
    }
}

/// Carries an event out that happens at the node by itself.
fn carry_out<A: Allocator>(desk: &mut Desk<A>, event: &NodeEvent) -> Result<NodeOutcome, Refusal>
    requires idle { IsIdle desk.old }
    ensures { Carries (node_edits desk.old.node event.now) (node_meaning desk.old.node event.now) (λ outcome. outcome)
        result desk.old desk.new }
{
    match event {
        NodeEvent::Packet { dir, packet } => {
            Ok(NodeOutcome::Handled(handle_packet(desk, *dir, packet)?))
        }
        NodeEvent::Tick { ms } => Ok(NodeOutcome::Clock(tick(desk, *ms)?)),
        NodeEvent::Purge => Ok(NodeOutcome::Purged(purge(desk)?)),
        NodeEvent::Release => Ok(NodeOutcome::Released(release(desk)?)),
        NodeEvent::Kill { name } => {
            kill(desk, *name)?;
            Ok(NodeOutcome::Killed)
        }
        NodeEvent::Clear => Ok(NodeOutcome::Cleared(clear(desk)?)),
        NodeEvent::BulkTurn => Ok(NodeOutcome::Queued(turn(desk)?)),
        NodeEvent::BulkRetry => Ok(NodeOutcome::Tried(retry(desk)?)),
    }
}
