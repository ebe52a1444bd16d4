//! A frame comes to its receiver, which takes its records one after another (if_pfsync.c).

ghost use Rattle.std.specs.Prelude.{◌≡◌, ◌<◌, ◌≤◌, ◌+◌, IsTrue, None, Ok, IfOk, IfErr, OnOk, OnErr, length, is_some};
ghost use Rattle.pfl_edits.specs.Maps as maps;
ghost use Rattle.pfl_wire.specs.Reading.{reading};
ghost use Rattle.pfl_node.specs.desk.Edits.{NodeRecorded};
ghost use Rattle.pfl_node.specs.desk.Nodes.{IsRefusal, points_refusal};
ghost use Rattle.pfl_node.specs.Weights.{edits_for};
ghost use Rattle.pfl_world.specs.inner.Delivering as delivering;
ghost use Rattle.pfl_world.specs.inner.Recording.{Recorded};
ghost use Rattle.pfl_world.specs.Events.{IsRefusalOf};
ghost use Rattle.pfl_world.specs.Delivering.{deliver_step, deliver_work, frame_points};
ghost use Rattle.pfl_world.specs.Tickets.{without_ticket};
ghost use Rattle.pfl_world.specs.Values.{HoldsLittle};

use crate::edit::WorldEdit;
use crate::world::World;
use pfl_base::{NodeId, Refusal};
use pfl_edits::Recorder;
use pfl_language::Outcome;
use pfl_node::Node;
use pfl_wire::FrameBytes;
use std::alloc::Allocator;

impl<A: Allocator + Copy> World<A> {
    /// A frame comes to its receiver, which takes its records, or counts it where it cannot be read. Then it has left the link.
    pub(crate) fn deliver<R: Recorder<WorldEdit<A>>>(
        &mut self,
        ticket: u32,
        to: &mut R,
    ) -> Result<Outcome, Refusal>
        ensures refused { IfErr result (IsRefusalOf (deliver_step self.old ticket)) }
        ensures unchanged { OnErr result (self.new ≡ self.old) }
        ensures unrecorded { OnErr result (R.list to.new ≡ R.list to.old) }
        ensures step { IfOk result (λ outcome. deliver_step self.old ticket ≡ Ok (record { world = self.new; outcome = outcome })) }
        ensures recorded { OnOk result (Recorded HoldsLittle self.old self.new (R.list to.old) (R.list to.new)) }
        ensures few { OnOk result (length (R.list to.new) ≤ length (R.list to.old) + edits_for (deliver_work self.old ticket)) }
        ensures room { R.spare to.old + length (R.list to.old) ≤ R.spare to.new + length (R.list to.new) }
    {
        self.known();
        let Some(frame) = self.link.get(ticket) else {
            return Err(Refusal::NoSuchFrame);
        };
        let (receiver, bytes) = (frame.to(), frame.bytes().as_slice());
        // The receiver reads the frame where it lies: it stays on the link until its records are taken.
        let outcome = arrive(self.nodes.at_mut(receiver), bytes, receiver, to)?;
        self.take_off(ticket, to);
        Ok(outcome)
    }

    /// A frame leaves the link, and its edit is recorded, in room that was made.
    fn take_off<R: Recorder<WorldEdit<A>>>(&mut self, ticket: u32, to: &mut R)
        requires there { IsTrue (is_some (maps.get self.old.link.frames ticket)) }
        requires spare { 0 < R.spare to.old }
        ensures world { self.new ≡ without_ticket self.old ticket }
        ensures recorded { Recorded HoldsLittle self.old self.new (R.list to.old) (R.list to.new) }
        ensures one { length (R.list to.new) ≡ length (R.list to.old) + 1 }
        ensures room { R.spare to.new + length (R.list to.new) ≡ R.spare to.old + length (R.list to.old) }
    {
        self.known();
        let Ok(edit) = self.link.take(ticket) else {
            unreachable!();
        };
        to.push(WorldEdit::OfLink(edit));
    }
}

/// A frame comes to a node, which takes its records, or counts it where it cannot be read. What it changed is recorded as edits of the
/// node of the name, and there is room for one edit more.
fn arrive<A: Allocator + Copy, R: Recorder<WorldEdit<A>>>(
    node: &mut Node<A>,
    bytes: &[u8],
    part: NodeId,
    to: &mut R,
) -> Result<Outcome, Refusal>
    requires short { length bytes.now ≤ node.old.limits.mtu }
    ensures refused { IfErr result (IsRefusal (points_refusal (frame_points node.old (reading bytes.now)))) }
    ensures unchanged { OnErr result (node.new ≡ node.old) }
    ensures unrecorded { OnErr result (R.list to.new ≡ R.list to.old) }
    ensures not_refused { OnOk result (points_refusal (frame_points node.old (reading bytes.now)) ≡ None) }
    ensures node { OnOk result (node.new ≡ delivering.arrived node.old (reading bytes.now)) }
    ensures outcome { IfOk result (λ outcome. outcome ≡ delivering.arrival (reading bytes.now)) }
    ensures recorded { OnOk result (NodeRecorded (WorldEdit.OfNode part)
        (delivering.arrival_edits node.old (reading bytes.now)) node.old node.new (R.list to.old) (R.list to.new)) }
    ensures one_more { OnOk result (0 < R.spare to.new) }
    ensures room { R.spare to.old + length (R.list to.old) ≤ R.spare to.new + length (R.list to.new) }
{
    match FrameBytes::read(bytes) {
        Ok(frame) => Ok(Outcome::Taken(node.receive_on(&frame, part, to)?)),
        Err(why) => {
            node.count_broken_on(part, to)?;
            Ok(Outcome::Broken(why))
        }
    }
}
