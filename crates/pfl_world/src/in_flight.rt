//! What becomes of frames on their way: lost, repeated, cut.

ghost use Rattle.std.specs.Prelude.{◌≡◌, ◌≤◌, ◌+◌, Ok, IfOk, IfErr, OnOk, OnErr, length};
ghost use Rattle.pfl_world.specs.Events.{IsRefusalOf};
ghost use Rattle.pfl_world.specs.Tickets.{lose_step, repeat_step, cut_step};
ghost use Rattle.pfl_world.specs.Values.{HoldsLittle};
ghost use Rattle.pfl_world.specs.inner.Recording.{Recorded};

use crate::edit::WorldEdit;
use crate::world::World;
use pfl_base::Refusal;
use pfl_edits::Recorder;
use pfl_language::Outcome;
use std::alloc::Allocator;

impl<A: Allocator + Copy> World<A> {
    /// A frame is lost.
    pub(crate) fn lose<R: Recorder<WorldEdit<A>>>(
        &mut self,
        ticket: u32,
        to: &mut R,
    ) -> Result<Outcome, Refusal>
        ensures refused { IfErr result (IsRefusalOf (lose_step self.old ticket)) }
        ensures unchanged { OnErr result (self.new ≡ self.old) }
        ensures unrecorded { OnErr result (R.list to.new ≡ R.list to.old) }
        ensures step { IfOk result (λ outcome. lose_step self.old ticket ≡ Ok (record { world = self.new; outcome = outcome })) }
        ensures recorded { OnOk result (Recorded HoldsLittle self.old self.new (R.list to.old) (R.list to.new)) }
        ensures few { OnOk result (length (R.list to.new) ≤ length (R.list to.old) + 1) }
        ensures room { R.spare to.old + length (R.list to.old) ≤ R.spare to.new + length (R.list to.new) }
    {
        let taken = self.link.take(ticket)?;
        self.lift_link(taken, to)?;
        Ok(Outcome::Lost)
    }

    /// A frame is copied under the next ticket.
    pub(crate) fn repeat<R: Recorder<WorldEdit<A>>>(
        &mut self,
        ticket: u32,
        to: &mut R,
    ) -> Result<Outcome, Refusal>
        ensures refused { IfErr result (IsRefusalOf (repeat_step self.old ticket)) }
        ensures unchanged { OnErr result (self.new ≡ self.old) }
        ensures unrecorded { OnErr result (R.list to.new ≡ R.list to.old) }
        ensures step { IfOk result (λ outcome. repeat_step self.old ticket ≡ Ok (record { world = self.new; outcome = outcome })) }
        ensures recorded { OnOk result (Recorded HoldsLittle self.old self.new (R.list to.old) (R.list to.new)) }
        ensures few { OnOk result (length (R.list to.new) ≤ length (R.list to.old) + 1) }
        ensures room { R.spare to.old + length (R.list to.old) ≤ R.spare to.new + length (R.list to.new) }
    {
        let (next, edit) = self.link.copy(ticket)?;
        let len = edit.frame().bytes().len();
        self.lift_link(edit, to)?;
        Ok(Outcome::Sent { ticket: next, len })
    }

    /// A frame keeps its first bytes.
    pub(crate) fn cut<R: Recorder<WorldEdit<A>>>(
        &mut self,
        ticket: u32,
        len: u32,
        to: &mut R,
    ) -> Result<Outcome, Refusal>
        ensures refused { IfErr result (IsRefusalOf (cut_step self.old ticket len)) }
        ensures unchanged { OnErr result (self.new ≡ self.old) }
        ensures unrecorded { OnErr result (R.list to.new ≡ R.list to.old) }
        ensures step { IfOk result (λ outcome. cut_step self.old ticket len ≡ Ok (record { world = self.new; outcome = outcome })) }
        ensures recorded { OnOk result (Recorded HoldsLittle self.old self.new (R.list to.old) (R.list to.new)) }
        ensures few { OnOk result (length (R.list to.new) ≤ length (R.list to.old) + 1) }
        ensures room { R.spare to.old + length (R.list to.old) ≤ R.spare to.new + length (R.list to.new) }
    {
        let (kept, edit) = self.link.cut(ticket, len as usize)?;
        self.lift_link(edit, to)?;
        Ok(Outcome::CutTo(kept))
    }
}
