//! A state is deleted by its name.

ghost use Rattle.pfl_language.specs.declared.node_event.NodeOutcome.TheVariants as outcome;
ghost use Rattle.pfl_node.specs.Killing.{kill_meaning};
ghost use Rattle.pfl_receive.specs.desk.Weights.{deleted_edits};
ghost use Rattle.pfl_node.specs.inner.Carried.{Carries, IsIdle};

use pfl_base::{Refusal, StateName};
use pfl_receive::{Desk, Slot};
use std::alloc::Allocator;

/// Deletes the state of a name. It is announced to the peer as each deletion is.
pub(crate) fn kill<A: Allocator>(desk: &mut Desk<A>, name: StateName) -> Result<(), Refusal>
    requires idle { IsIdle desk.old }
    ensures { Carries deleted_edits (kill_meaning desk.old.node name) (λ _. outcome.Killed) result desk.old desk.new }
{
    let Some(state) = desk.parts().states().by_name(name).copied() else {
        return Err(Refusal::NoSuchState);
    };
    let tried = desk.delete(Slot::UNKNOWN, &state);
    desk.judge(tried)
}
