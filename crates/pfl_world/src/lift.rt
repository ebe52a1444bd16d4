//! What the link changed is recorded, as an edit of the pair.

ghost use Rattle.std.specs.Prelude.{◌≡◌, ◌+◌, ◌≤◌, [], ◌∷◌, length, IfErr, OnOk, OnErr};
ghost use Rattle.pfl_edits.specs.Changes.{Fits};
ghost use Rattle.pfl_link.specs.LinkEdits as links;
ghost use Rattle.pfl_link.specs.Links.{IsLink};
ghost use Rattle.pfl_world.specs.Values.{HoldsLittle};
ghost use Rattle.pfl_world.specs.inner.Recording.{Recorded};
ghost use Rattle.pfl_world.specs.inner.WorldEdits.{before_link};

use crate::edit::WorldEdit;
use crate::world::World;
use pfl_base::Refusal;
use pfl_edits::{Recorder, Reversible};
use pfl_link::LinkEdit;
use std::alloc::Allocator;

impl<A: Allocator + Copy> World<A> {
    /// Records what the link changed. Where there is no memory for that, the link is as it was.
    pub(crate) fn lift_link<R: Recorder<WorldEdit<A>>>(
        &mut self,
        edit: LinkEdit<A>,
        to: &mut R,
    ) -> Result<(), Refusal>
        requires fits { Fits links.Finds IsLink links.put_back (edit ∷ []) self.old.link }
        ensures refused { IfErr result (λ refusal. refusal ≡ Refusal.NoMemory) }
        ensures undone { OnErr result (self.new ≡ before_link self.old edit) }
        ensures unrecorded { OnErr result (R.list to.new ≡ R.list to.old) }
        ensures kept { OnOk result (self.new ≡ self.old) }
        ensures recorded { OnOk result (Recorded HoldsLittle (before_link self.old edit) self.new (R.list to.old) (R.list to.new)) }
        ensures few { OnOk result (length (R.list to.new) ≤ length (R.list to.old) + 1) }
        ensures room { R.spare to.old + length (R.list to.old) ≤ R.spare to.new + length (R.list to.new) }
    {
        self.known();
        if to.reserve(1).is_err() {
            self.link.undo(edit);
            return Err(Refusal::NoMemory);
        }
        to.push(WorldEdit::OfLink(edit));
        Ok(())
    }
}
