//! A node begins anew (this project's profile).

ghost use Rattle.std.specs.Prelude.{◌≡◌, ◌≤◌, ◌<◌, ◌+◌, Ok, IfOk, IfErr, OnOk, OnErr, nat_le, length};
ghost use Rattle.pfl_base.specs.Numbers.{greatest};
ghost use Rattle.pfl_node.specs.Events.{restarted};
ghost use Rattle.pfl_world.specs.Events.{IsRefusalOf};
ghost use Rattle.pfl_world.specs.Restarting.{restart_step};
ghost use Rattle.pfl_world.specs.Values.{HoldsNode};
ghost use Rattle.pfl_world.specs.WorldEdits.{with_boot};
ghost use Rattle.pfl_world.specs.inner.Recording.{Recorded};
ghost use Rattle.pfl_world.specs.Worlds.{IsWorld, node_at};

use crate::edit::WorldEdit;
use crate::restart_edit::{RestartEdit, boxed};
use crate::world::World;
use pfl_base::{NodeId, Refusal};
use pfl_edits::{NoMemory, Recorder};
use pfl_language::Outcome;
use std::alloc::Allocator;
use std::mem::{replace, swap};

impl<A: Allocator + Copy> World<A> {
    /// A node begins anew as the next boot: with its limits, its rules and its clock, and nothing else of what it was.
    pub(crate) fn restart<R: Recorder<WorldEdit<A>>>(
        &mut self,
        node: NodeId,
        to: &mut R,
    ) -> Result<Outcome, Refusal>
        ensures refused { IfErr result (IsRefusalOf (restart_step self.old node)) }
        ensures unchanged { OnErr result (self.new ≡ self.old) }
        ensures unrecorded { OnErr result (R.list to.new ≡ R.list to.old) }
        ensures step { IfOk result (λ outcome. restart_step self.old node ≡ Ok (record { world = self.new; outcome = outcome })) }
        ensures recorded { OnOk result (Recorded HoldsNode self.old self.new (R.list to.old) (R.list to.new)) }
        ensures few { OnOk result (length (R.list to.new) ≤ length (R.list to.old) + 1) }
        ensures room { R.spare to.old + length (R.list to.old) ≤ R.spare to.new + length (R.list to.new) }
    {
        if self.is_booted_out() {
            return Err(Refusal::CountFull);
        }
        let boot = self.next_boot();
        match self.begin_anew(node, to) {
            Ok(()) => Ok(Outcome::Boot(boot)),
            Err(_) => Err(Refusal::NoMemory),
        }
    }

    /// Puts a new node into the place of one, and the number of the next boot on. All memory is taken before.
    fn begin_anew<R: Recorder<WorldEdit<A>>>(
        &mut self,
        node: NodeId,
        to: &mut R,
    ) -> Result<(), NoMemory>
        requires countable { self.old.next_boot < greatest }
        ensures unchanged { OnErr result (self.new ≡ self.old) }
        ensures unrecorded { OnErr result (R.list to.new ≡ R.list to.old) }
        ensures world { OnOk result (self.new ≡ with_boot self.old node (restarted (node_at self.old node) self.old.next_boot) (self.old.next_boot + 1)) }
        ensures recorded { OnOk result (Recorded HoldsNode self.old self.new (R.list to.old) (R.list to.new)) }
        ensures few { OnOk result (length (R.list to.new) ≤ length (R.list to.old) + 1) }
        ensures room { R.spare to.old + length (R.list to.old) ≤ R.spare to.new + length (R.list to.new) }
    {
        self.known();
        let boot = self.next_boot;
        to.reserve(1)?;
        let fresh = self.nodes.at(node).restart(boot)?;
        let mut other = boxed(self.alloc, fresh)?;
        swap(self.nodes.at_mut(node), other.as_mut());
        self.next_boot = boot + 1;
        to.push(WorldEdit::OfRestart(RestartEdit::new(node, other, boot)));
        Ok(())
    }
}

impl<A: Allocator> World<A> {
    /// No number is left for another boot.
    fn is_booted_out(&self) -> bool
        ensures counted { result ≡ nat_le greatest self.now.next_boot }
    {
        self.next_boot == u32::MAX
    }

    /// Puts the node from before a restart back, and the number of its boot. It takes no memory.
    pub(crate) fn undo_restart(&mut self, edit: RestartEdit<A>)
        requires allowed { IsWorld (with_boot self.old edit.node edit.former edit.boot) }
        ensures undone { self.new ≡ with_boot self.old edit.node edit.former edit.boot }
    {
        let (node, boot) = (edit.node(), edit.boot());
        let _anew = replace(self.nodes.at_mut(node), edit.into_former());
        self.next_boot = boot;
    }
}
