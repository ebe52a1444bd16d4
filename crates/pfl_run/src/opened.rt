//! Pairs that are set up.

ghost use Rattle.std.specs.Prelude.{◌≡◌, ◌≤◌, None, false, IfOk, IfErr};
ghost use Rattle.pfl_base.specs.Counts.{Counts};
ghost use Rattle.pfl_script.specs.Setups.{IsKeptText};
ghost use Rattle.pfl_script.specs.world.Worlds.{new_world, world_fault};
ghost use Rattle.pfl_script.specs.timeline.Timelines.{new_timeline};
ghost use Rattle.pfl_run.specs.Runs.{IsDeviceFault, IsSetupStop, SetsUp};

use crate::fault::RunFault;
use crate::setups::read_opening;
use pfl_base::Input;
use pfl_edits::NoMemory;
use pfl_script::{LineReader, Setup, SetupText, Timeline, World, WorldFault};
use std::alloc::Allocator;

/// A pair that is set up.
#[derive(Drop)]
pub struct Opening<A: Allocator> {
    pub timeline: Timeline<A>,
    /// What is kept of the lines of its setup.
    pub text: SetupText<A>,
}

/// The pair of a setup, with an empty branch `main`, and the setup's text.
fn opening_of<A: Allocator + Copy>(alloc: A, setup: Setup<A>) -> Result<Opening<A>, NoMemory>
    requires faultless { world_fault setup.limits ≡ None }
    ensures timeline { IfOk result (λ o. o.timeline ≡ new_timeline (new_world setup.limits setup.rules_a setup.rules_b)) }
    ensures text { IfOk result (λ o. o.text ≡ setup.text) }
{
    let Setup {
        limits,
        rules_a,
        rules_b,
        text,
    } = setup;
    match World::new(alloc, limits, rules_a, rules_b) {
        Ok(world) => match Timeline::new(alloc, world) {
            Ok(timeline) => Ok(Opening { timeline, text }),
            Err(NoMemory) => Err(NoMemory),
        },
        Err(WorldFault::NoMemory) => Err(NoMemory),
        Err(WorldFault::TooSmall | WorldFault::TooLarge) => unreachable!(),
    }
}

/// Sets a pair up by the first lines that the reader has, up to `open`, and keeps their text where it is not too long and there is
/// memory for it.
pub fn open_pair<A: Allocator + Copy, R: Input>(
    alloc: A,
    reader: &mut LineReader<R>,
) -> Result<Opening<A>, RunFault>
    requires fresh { reader.old.lines ≡ 0 }
    ensures sets_up { IfOk result (λ o. SetsUp reader.old.left reader.new.left reader.new.lines o.timeline) }
    ensures text { IfOk result (λ o. IsKeptText reader.old.left reader.new.left o.text) }
    ensures stop { IfErr result (λ fault. IsSetupStop fault reader.old.left) }
    ensures device { IfErr result (λ fault. IsDeviceFault fault reader.new.failed (reader.new.turns ≡ 16777216) false) }
    ensures reads { Counts reader.old.reads reader.new.reads reader.new.turns }
    ensures few { reader.new.turns ≤ 16777216 }
{
    match read_opening(alloc, reader) {
        Ok(setup) => match opening_of(alloc, setup) {
            Ok(opening) => Ok(opening),
            Err(NoMemory) => Err(RunFault::NoMemory),
        },
        Err(fault) => Err(fault),
    }
}

/// Sets a pair up by the first lines that the reader has, up to `open`.
pub fn set_up<A: Allocator + Copy, R: Input>(
    alloc: A,
    reader: &mut LineReader<R>,
) -> Result<Timeline<A>, RunFault>
    requires fresh { reader.old.lines ≡ 0 }
    ensures sets_up { IfOk result (λ timeline. SetsUp reader.old.left reader.new.left reader.new.lines timeline) }
    ensures stop { IfErr result (λ fault. IsSetupStop fault reader.old.left) }
    ensures device { IfErr result (λ fault. IsDeviceFault fault reader.new.failed (reader.new.turns ≡ 16777216) false) }
    ensures reads { Counts reader.old.reads reader.new.reads reader.new.turns }
    ensures few { reader.new.turns ≤ 16777216 }
{
    match open_pair(alloc, reader) {
        Ok(opening) => {
            let Opening { timeline, .. } = opening;
            Ok(timeline)
        }
        Err(fault) => Err(fault),
    }
}
