//! The clock goes on.

ghost use Rattle.pfl_language.specs.declared.node_event.NodeOutcome.TheVariants as outcome;
ghost use Rattle.pfl_node.specs.Ticking.{tick_meaning};
ghost use Rattle.pfl_node.specs.Weights.{ticked_edits};
ghost use Rattle.pfl_node.specs.inner.Carried.{Carries, IsIdle};

use pfl_base::{LAST_MILLISECOND, Millis, Refusal};
use pfl_receive::Desk;
use std::alloc::Allocator;

/// Lets the clock go on by this many milliseconds, and returns its new time.
pub(crate) fn tick<A: Allocator>(desk: &mut Desk<A>, ms: Millis) -> Result<Millis, Refusal>
    requires idle { IsIdle desk.old }
    ensures { Carries ticked_edits (tick_meaning desk.old.node ms) outcome.Clock result desk.old desk.new }
{
    let now = desk.parts().clock();
    if LAST_MILLISECOND - now < ms {
        return Err(Refusal::ClockFull);
    }
    let clock = now + ms;
    desk.set_clock(clock);
    Ok(clock)
}
