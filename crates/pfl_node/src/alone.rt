//! The events of a node by itself, each in a call of its own, which answers with the edits in a change of their own.

ghost use Rattle.std.specs.Prelude.{◌≡◌, Some, length};
ghost use Rattle.pfl_edits.specs.Maps as maps;
ghost use Rattle.pfl_node.specs.Calls.{NodeGives};
ghost use Rattle.pfl_node.specs.Clearing as clearing;
ghost use Rattle.pfl_node.specs.Killing as killing;
ghost use Rattle.pfl_node.specs.Packets.{handled, packet_points};
ghost use Rattle.pfl_node.specs.Purging as purging;
ghost use Rattle.pfl_node.specs.Releasing as releasing;
ghost use Rattle.pfl_node.specs.Retrying as retrying;
ghost use Rattle.pfl_node.specs.Ticking as ticking;
ghost use Rattle.pfl_node.specs.Turning as turning;
ghost use Rattle.pfl_node.specs.Weights.{packet_edits, retried_edits, ticked_edits};
ghost use Rattle.pfl_receive.specs.desk.Nodes.{Node as Whole, points_refusal};
ghost use Rattle.pfl_receive.specs.desk.Weights.{deleted_edits};

use crate::node::Node;
use pfl_base::{Dir, Millis, Packet, Refusal, StateName};
use pfl_edits::Change;
use pfl_language::{Fate, NodeEvent, NodeOutcome, Retried};
use pfl_receive::NodeEdit;
use pfl_track::State;
use std::alloc::Allocator;

impl<A: Allocator + Copy> Node<A> {
    /// What becomes of a packet that comes to the node, or leaves its host.
    pub fn packet(
        &mut self,
        dir: Dir,
        packet: &Packet,
    ) -> Result<(Fate, Change<NodeEdit, A>), Refusal>
        ensures { NodeGives packet_edits (points_refusal (packet_points self.old dir packet.now)) (handled self.old dir packet.now).node
            (λ fate. fate ≡ (handled self.old dir packet.now).fate) result self.old self.new }
    {
        let packet = *packet;
        let (NodeOutcome::Handled(fate), edits) = self.step(&NodeEvent::Packet { dir, packet })?
        else {
            unreachable!();
        };
        Ok((fate, edits))
    }

    /// Lets the clock go on by this many milliseconds, and returns its new time.
    pub fn tick(&mut self, ms: Millis) -> Result<(Millis, Change<NodeEdit, A>), Refusal>
        ensures { NodeGives ticked_edits (ticking.tick_refusal self.old ms) (ticking.ticked self.old ms)
            (λ clock. clock ≡ (ticking.ticked self.old ms).clock) result self.old self.new }
    {
        let (NodeOutcome::Clock(clock), edits) = self.step(&NodeEvent::Tick { ms })? else {
            unreachable!();
        };
        Ok((clock, edits))
    }

    /// Deletes all states that have expired, the first to expire first, and returns how many; to its end, timeouts are those of as
    /// many states as it finds (pf.conf(5), `adaptive.start`). It is refused where after one of the deletions too much would be
    /// pending, and else where after one of them a number would be too high.
    pub fn purge(&mut self) -> Result<(usize, Change<NodeEdit, A>), Refusal>
        ensures { NodeGives (purging.purge_edits self.old) (purging.purge_refusal self.old) (purging.purged self.old)
            (λ count. count ≡ length (purging.expired_states self.old)) result self.old self.new }
    {
        let (NodeOutcome::Purged(deleted), edits) = self.step(&NodeEvent::Purge)? else {
            unreachable!();
        };
        Ok((deleted, edits))
    }

    /// Lets the packets go out that are held for long enough, the oldest first, and returns how many. Their states wait no more.
    pub fn release(&mut self) -> Result<(usize, Change<NodeEdit, A>), Refusal>
        ensures { NodeGives (releasing.release_edits self.old) (releasing.release_refusal self.old) (releasing.released_due self.old)
            (λ count. count ≡ length (releasing.due_names self.old)) result self.old self.new }
    {
        let (NodeOutcome::Released(released), edits) = self.step(&NodeEvent::Release)? else {
            unreachable!();
        };
        Ok((released, edits))
    }

    /// Deletes the state of a name, and returns it. It is announced to the peer as each deletion is.
    pub fn kill(&mut self, name: StateName) -> Result<(State, Change<NodeEdit, A>), Refusal>
        ensures { NodeGives deleted_edits (killing.kill_refusal self.old name) (killing.killed self.old name)
            (λ state. maps.get self.old.states name ≡ Some state) result self.old self.new }
    {
        let Some(state) = self.parts().states().by_name(name).copied() else {
            return Err(Refusal::NoSuchState);
        };
        let (_, edits) = self.step(&NodeEvent::Kill { name })?;
        Ok((state, edits))
    }

    /// Gives up all states without announcing each, has the peer clear them by their last id, and returns how many there were.
    pub fn clear(&mut self) -> Result<(usize, Change<NodeEdit, A>), Refusal>
        ensures { NodeGives (clearing.clear_edits self.old) (clearing.clear_refusal self.old) (clearing.cleared self.old)
            (λ count. count ≡ maps.len self.old.states) result self.old self.new }
    {
        let (NodeOutcome::Cleared(given_up), edits) = self.step(&NodeEvent::Clear)? else {
            unreachable!();
        };
        Ok((given_up, edits))
    }

    /// Queues the next states of the bulk update that the node serves, and returns how many. After the last of them the end is
    /// announced.
    pub fn turn(&mut self) -> Result<(usize, Change<NodeEdit, A>), Refusal>
        ensures { NodeGives (turning.turn_edits self.old) (turning.turn_refusal self.old) (turning.turned self.old)
            (λ count. count ≡ length (turning.turn_of self.old)) result self.old self.new }
    {
        let (NodeOutcome::Queued(queued), edits) = self.step(&NodeEvent::BulkTurn)? else {
            unreachable!();
        };
        Ok((queued, edits))
    }

    /// Asks for all states again where the last try was long enough ago, or gives up after the twelfth; returns which.
    pub fn retry(&mut self) -> Result<(Retried, Change<NodeEdit, A>), Refusal>
        ensures { NodeGives retried_edits (retrying.retry_refusal self.old) (retrying.retried_client self.old)
            (λ answer. answer ≡ retrying.retry_answer self.old) result self.old self.new }
    {
        let (NodeOutcome::Tried(answer), edits) = self.step(&NodeEvent::BulkRetry)? else {
            unreachable!();
        };
        Ok((answer, edits))
    }
}
