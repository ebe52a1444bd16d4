//! What happens at one node by itself.

ghost use Rattle.std.specs.Prelude.{◌≡◌, ◌≤◌, ◌+◌, Ok, IfOk, IfErr, OnOk, OnErr, length};
ghost use Rattle.pfl_node.specs.Stepping.{node_weight};
ghost use Rattle.pfl_world.specs.Events.{IsRefusalOf};
ghost use Rattle.pfl_world.specs.AtNodes.{node_event};
ghost use Rattle.pfl_world.specs.Values.{HoldsLittle};
ghost use Rattle.pfl_world.specs.inner.Recording.{Recorded};
ghost use Rattle.pfl_world.specs.Worlds.{node_at};

use crate::edit::WorldEdit;
use crate::world::World;
use pfl_base::{NodeId, Refusal};
use pfl_edits::Recorder;
use pfl_language::{NodeEvent, Outcome};
use std::alloc::Allocator;

impl<A: Allocator + Copy> World<A> {
    /// Lets an event happen at the node of the name.
    pub(crate) fn at_node<R: Recorder<WorldEdit<A>>>(
        &mut self,
        node: NodeId,
        event: &NodeEvent,
        to: &mut R,
    ) -> Result<Outcome, Refusal>
        ensures refused { IfErr result (IsRefusalOf (node_event self.old node event.now)) }
        ensures unchanged { OnErr result (self.new ≡ self.old) }
        ensures unrecorded { OnErr result (R.list to.new ≡ R.list to.old) }
        ensures step { IfOk result (λ outcome. node_event self.old node event.now ≡ Ok (record { world = self.new; outcome = outcome })) }
        ensures recorded { OnOk result (Recorded HoldsLittle self.old self.new (R.list to.old) (R.list to.new)) }
        ensures few { OnOk result (length (R.list to.new) ≤ length (R.list to.old) + node_weight (node_at self.old node) event.now) }
        ensures room { R.spare to.old + length (R.list to.old) ≤ R.spare to.new + length (R.list to.new) }
    {
        self.known();
        let outcome = self.nodes.at_mut(node).step_on(event, node, to)?;
        Ok(Outcome::At(outcome))
    }
}
