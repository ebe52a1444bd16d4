//! Events at the pair that are taken back at once. Each function leaves the pair as it was: its contract is the law.

ghost use Rattle.std.specs.Prelude.{◌≡◌, ◌≤◌, ◌++◌, Some, length, IfErr, IfOk, IsOkAnd, IsSome, OnErr, OnOk};
ghost use Rattle.pfl_world.specs.Events.{step, IsEventRefusal};
ghost use Rattle.pfl_world.specs.Runs.{world_after, run};
ghost use Rattle.pfl_laws.specs.Reverting.{IsRefusalAlong};
ghost use Rattle.pfl_laws.specs.inner.Reverting.{LeadsOn};

use pfl_base::Refusal;
use pfl_edits::Change;
use pfl_language::{Event, Outcome};
use pfl_world::{World, WorldChange};
use std::alloc::Allocator;

/// Applies an event and reverts what it changed. The answer is that of the event.
pub fn there_and_back<A: Allocator + Copy>(
    world: &mut World<A>,
    event: &Event,
) -> Result<Outcome, Refusal>
    ensures same { world.new ≡ world.old }
    ensures refused { IfErr result (IsEventRefusal world.old event.now) }
    ensures outcome { IfOk result (λ answer. IsOkAnd (step world.old event.now) (λ s. s.outcome ≡ answer)) }
{
    let (outcome, change) = world.apply(event)?;
    world.revert(change);
    Ok(outcome)
}

/// Applies events, one after the other, and then reverts all that they changed, the newest first. Where one of them is
/// refused, those before it are reverted, and the refusal is the answer.
pub fn all_there_and_back<A: Allocator + Copy>(
    alloc: A,
    world: &mut World<A>,
    events: &[Event],
) -> Result<(), Refusal>
    ensures same { world.new ≡ world.old }
    ensures refused { IfErr result (IsRefusalAlong world.old events.now) }
    ensures accepted { OnOk result (IsSome (run world.old events.now)) }
{
    let mut changed = Change::new(alloc);
    for event in events {
        if let Err(refusal) = apply_behind(world, event, &mut changed) {
            world.revert(changed);
            return Err(refusal);
        }
    }
    world.revert(changed);
    Ok(())
}

/// Applies an event, and records what it changed after what was changed before.
fn apply_behind<A: Allocator + Copy>(
    world: &mut World<A>,
    event: &Event,
    changed: &mut WorldChange<A>,
) -> Result<(), Refusal>
    ensures refused { IfErr result (IsEventRefusal world.old event.now) }
    ensures unchanged { OnErr result (world.new ≡ world.old) }
    ensures kept { OnErr result (changed.new.list ≡ changed.old.list) }
    ensures accepted { OnOk result (world_after (step world.old event.now) ≡ Some world.new) }
    ensures leads_on { OnOk result (LeadsOn changed.old.list changed.new.list world.old world.new) }
{
    let (_outcome, change) = world.apply(event)?;
    if changed.reserve(change.len()).is_err() {
        world.revert(change);
        return Err(Refusal::NoMemory);
    }
    record_all(change, changed);
    Ok(())
}

/// Records edits after those that are there, in room that was made.
fn record_all<A: Allocator>(change: WorldChange<A>, changed: &mut WorldChange<A>)
    requires room { length change.list ≤ changed.old.spare }
    ensures list { changed.new.list ≡ changed.old.list ++ change.list }
{
    for edit in change.into_edits() {
        changed.push(edit);
    }
}
