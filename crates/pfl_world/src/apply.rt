//! An event happens to the pair.

ghost use Rattle.std.specs.Prelude.{◌≡◌, ◌≤◌, ◌+◌, Ok, IfOk, IfErr, OnOk, OnErr, length};
ghost use Rattle.std.specs.List.{AllByRecursion};
ghost use Rattle.pfl_edits.specs.Changes.{Fits, back};
ghost use Rattle.pfl_world.specs.Events.{step, IsEventRefusal, IsRefusalOf, frame_event};
ghost use Rattle.pfl_world.specs.Values.{HoldsLittle, MayHold};
ghost use Rattle.pfl_world.specs.Weights.{weight};
ghost use Rattle.pfl_world.specs.WorldEdits.{Finds, put_back};
ghost use Rattle.pfl_world.specs.inner.Recording.{Recorded};
ghost use Rattle.pfl_world.specs.Worlds.{IsWorld};

use crate::edit::{WorldChange, WorldEdit};
use crate::world::World;
use pfl_base::Refusal;
use pfl_edits::{Change, Recorder};
use pfl_language::{Event, FrameEvent, Outcome};
use std::alloc::Allocator;

impl<A: Allocator + Copy> World<A> {
    /// Lets an event happen, and returns its outcome and what it changed.
    pub fn apply(&mut self, event: &Event) -> Result<(Outcome, WorldChange<A>), Refusal>
        ensures refused { IfErr result (IsEventRefusal self.old event.now) }
        ensures unchanged { OnErr result (self.new ≡ self.old) }
        ensures step { IfOk result (λ r. step self.old event.now ≡ Ok (record { world = self.new; outcome = r.0 })) }
        ensures fits { IfOk result (λ r. Fits Finds IsWorld put_back r.1.list self.new) }
        ensures back { IfOk result (λ r. back put_back r.1.list self.new ≡ self.old) }
        ensures weight { IfOk result (λ r. length r.1.list ≤ weight self.old event.now) }
        ensures small { IfOk result (λ r. AllByRecursion (MayHold event.now) r.1.list) }
    {
        let mut change = Change::new(self.alloc);
        let outcome = self.apply_to(event, &mut change)?;
        Ok((outcome, change))
    }

    /// Lets an event happen, returns its outcome, and records what it changed.
    pub(crate) fn apply_to<R: Recorder<WorldEdit<A>>>(
        &mut self,
        event: &Event,
        to: &mut R,
    ) -> Result<Outcome, Refusal>
        ensures refused { IfErr result (IsEventRefusal self.old event.now) }
        ensures unchanged { OnErr result (self.new ≡ self.old) }
        ensures unrecorded { OnErr result (R.list to.new ≡ R.list to.old) }
        ensures step { IfOk result (λ outcome. step self.old event.now ≡ Ok (record { world = self.new; outcome = outcome })) }
        ensures recorded { OnOk result (Recorded (MayHold event.now) self.old self.new (R.list to.old) (R.list to.new)) }
        ensures few { OnOk result (length (R.list to.new) ≤ length (R.list to.old) + weight self.old event.now) }
        ensures room { R.spare to.old + length (R.list to.old) ≤ R.spare to.new + length (R.list to.new) }
    {
        match event {
            Event::At { node, event } => self.at_node(*node, event, to),
            Event::Flush { node } => self.flush(*node, to),
            Event::Of { ticket, event } => self.of_frame(*ticket, event, to),
            Event::Restart { node } => self.restart(*node, to),
        }
    }

    /// Lets an event happen to the frame that is in flight under the ticket.
    fn of_frame<R: Recorder<WorldEdit<A>>>(
        &mut self,
        ticket: u32,
        event: &FrameEvent,
        to: &mut R,
    ) -> Result<Outcome, Refusal>
        ensures refused { IfErr result (IsRefusalOf (frame_event self.old ticket event.now)) }
        ensures unchanged { OnErr result (self.new ≡ self.old) }
        ensures unrecorded { OnErr result (R.list to.new ≡ R.list to.old) }
        ensures step { IfOk result (λ outcome. frame_event self.old ticket event.now ≡ Ok (record { world = self.new; outcome = outcome })) }
        ensures recorded { OnOk result (Recorded HoldsLittle self.old self.new (R.list to.old) (R.list to.new)) }
        ensures few { OnOk result (length (R.list to.new) ≤ length (R.list to.old) + weight self.old (Event.Of ticket event.now)) }
        ensures room { R.spare to.old + length (R.list to.old) ≤ R.spare to.new + length (R.list to.new) }
    {
        match event {
            FrameEvent::Deliver => self.deliver(ticket, to),
            FrameEvent::Lose => self.lose(ticket, to),
            FrameEvent::Repeat => self.repeat(ticket, to),
            FrameEvent::Cut { len } => self.cut(ticket, *len, to),
        }
    }
}
