//! What would become of packets.

ghost use Rattle.std.specs.Prelude.{◌≡◌, IfOk};
ghost use Rattle.pfl_world.specs.Events.{step};
ghost use Rattle.pfl_search.specs.Fates.{fate_after, fate_in, is_admitted, is_dropped, is_passed};

use pfl_base::Refusal;
use pfl_edits::{NoMemory, undo_to};
use pfl_language::{Event, Fate, NodeOutcome, Outcome};
use pfl_world::{World, WorldTape};
use std::alloc::Allocator;

/// What became of a packet, if one came.
fn fate_in(outcome: &Outcome) -> Option<Fate>
    ensures { result ≡ fate_in outcome.now }
{
    match outcome {
        Outcome::At(outcome) => match outcome {
            NodeOutcome::Handled(fate) => Some(*fate),
            _ => None,
        },
        _ => None,
    }
}

/// What would become of the packet that the event brings: nothing, where the event is refused or brings none. It happens, and is taken
/// back.
pub(crate) fn fate_after<A: Allocator + Copy>(
    world: &mut World<A>,
    tape: &mut WorldTape<A>,
    event: &Event,
) -> Result<Option<Fate>, NoMemory>
    ensures world { world.new ≡ world.old }
    ensures tape { tape.new.list ≡ tape.old.list }
    ensures fate { IfOk result (λ fate. fate ≡ fate_after (step world.old event.now)) }
{
    let mark = tape.len();
    match world.apply_on(event, tape) {
        Ok(outcome) => {
            undo_to(world, tape, mark);
            Ok(fate_in(&outcome))
        }
        Err(refusal) => match refusal {
            Refusal::NoMemory => Err(NoMemory),
            _ => Ok(None),
        },
    }
}

/// Whether it goes on at once.
pub(crate) fn is_passed(fate: &Option<Fate>) -> bool
    ensures { result ≡ is_passed fate.now }
{
    match fate {
        Some(fate) => match fate {
            Fate::Pass(_) => true,
            _ => false,
        },
        None => false,
    }
}

/// Whether it is dropped.
pub(crate) fn is_dropped(fate: &Option<Fate>) -> bool
    ensures { result ≡ is_dropped fate.now }
{
    match fate {
        Some(fate) => match fate {
            Fate::Dropped(_) => true,
            _ => false,
        },
        None => false,
    }
}

/// Whether it goes on, or is held, and so is not dropped.
pub(crate) fn is_admitted(fate: &Option<Fate>) -> bool
    ensures { result ≡ is_admitted fate.now }
{
    match fate {
        Some(fate) => match fate {
            Fate::Pass(_) | Fate::Held(_) => true,
            _ => false,
        },
        None => false,
    }
}
