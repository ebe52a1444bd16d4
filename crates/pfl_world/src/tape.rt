//! An event happens to the pair, and its edits go onto a tape.

ghost use Rattle.std.specs.Prelude.{◌≡◌, ◌+◌, ◌≤◌, Ok, IfOk, IfErr, OnOk, OnErr, length};
ghost use Rattle.std.specs.List.{AllByRecursion};
ghost use Rattle.pfl_edits.specs.Changes.{Fits, back};
ghost use Rattle.pfl_edits.specs.Tapes.{above, below};
ghost use Rattle.pfl_world.specs.Events.{step, IsEventRefusal};
ghost use Rattle.pfl_world.specs.Values.{MayHold};
ghost use Rattle.pfl_world.specs.Weights.{weight};
ghost use Rattle.pfl_world.specs.WorldEdits.{Finds, put_back};
ghost use Rattle.pfl_world.specs.Worlds.{IsWorld};

use crate::edit::WorldTape;
use crate::world::World;
use pfl_base::Refusal;
use pfl_language::{Event, Outcome};
use std::alloc::Allocator;

impl<A: Allocator + Copy> World<A> {
    /// Lets an event happen, returns its outcome, and appends what it changed to the tape. Where the event is refused the tape
    /// keeps its edits, and at most gains room.
    pub fn apply_on(&mut self, event: &Event, tape: &mut WorldTape<A>) -> Result<Outcome, Refusal>
        ensures refused { IfErr result (IsEventRefusal self.old event.now) }
        ensures unchanged { OnErr result (self.new ≡ self.old) }
        ensures untaped { OnErr result (tape.new.list ≡ tape.old.list) }
        ensures step { IfOk result (λ outcome. step self.old event.now ≡ Ok (record { world = self.new; outcome = outcome })) }
        ensures taped { below (length tape.old.list) tape.new.list ≡ tape.old.list }
        ensures fits { OnOk result (Fits Finds IsWorld put_back (above (length tape.old.list) tape.new.list) self.new) }
        ensures back { OnOk result (back put_back (above (length tape.old.list) tape.new.list) self.new ≡ self.old) }
        ensures weight { OnOk result (length (above (length tape.old.list) tape.new.list) ≤ weight self.old event.now) }
        ensures small { OnOk result (AllByRecursion (MayHold event.now) (above (length tape.old.list) tape.new.list)) }
        ensures room { tape.old.spare + length tape.old.list ≤ tape.new.spare + length tape.new.list }
    {
        self.apply_to(event, tape)
    }
}
