//! Setups of scripts, which runs and checks read alike.

ghost use Rattle.std.specs.Prelude.{◌≡◌, ◌≤◌, ◌^◌, None, false, IfOk, IfErr, OnOk};
ghost use Rattle.pfl_base.specs.Counts.{Counts};
ghost use Rattle.pfl_script.specs.Setups.{IsKeptText};
ghost use Rattle.pfl_script.specs.world.Worlds.{world_fault};
ghost use Rattle.pfl_run.specs.Runs.{IsDeviceFault, IsSetup, IsSetupStop};
ghost use Rattle.pfl_run.specs.inner.Runs.{IsLimitsStop};

use crate::fault::RunFault;
use pfl_base::Input;
use pfl_language::{LimitFault, Limits};
use pfl_script::{LineReader, Setup, WorldFault, read_setup};
use std::alloc::Allocator;

/// Tests the limits of a setup, whose line `open` has the number.
#[tactic(auto, using(crate::proofs::LimitStops::too_small, crate::proofs::LimitStops::too_large, crate::proofs::LimitStops::no_fault))]
fn judge(limits: &Limits, number: u64) -> Result<(), RunFault>
    ensures faultless { OnOk result (world_fault limits.now ≡ None) }
    ensures fault { IfErr result (λ fault. IsLimitsStop fault number (world_fault limits.now)) }
{
    match limits.fault() {
        None => Ok(()),
        Some(LimitFault::TooSmall) => Err(RunFault::World(number, WorldFault::TooSmall)),
        Some(LimitFault::TooLarge) => Err(RunFault::World(number, WorldFault::TooLarge)),
    }
}

/// Reads the first lines that the reader has, up to `open`, and tests the limits that they set.
pub fn read_opening<A: Allocator + Copy, R: Input>(
    alloc: A,
    reader: &mut LineReader<R>,
) -> Result<Setup<A>, RunFault>
    requires fresh { reader.old.lines ≡ 0 }
    ensures setup { IfOk result (λ s. IsSetup reader.old.left reader.new.left reader.new.lines s.limits s.rules_a s.rules_b) }
    ensures text { IfOk result (λ s. IsKeptText reader.old.left reader.new.left s.text) }
    ensures few_lines { OnOk result (reader.new.lines ≤ 2 ^ 41) }
    ensures stop { IfErr result (λ fault. IsSetupStop fault reader.old.left) }
    ensures device { IfErr result (λ fault. IsDeviceFault fault reader.new.failed (reader.new.turns ≡ 16777216) false) }
    ensures reads { Counts reader.old.reads reader.new.reads reader.new.turns }
    ensures few { reader.new.turns ≤ 16777216 }
{
    match read_setup(alloc, reader) {
        Ok(setup) => match judge(&setup.limits, reader.lines()) {
            Ok(()) => Ok(setup),
            Err(fault) => Err(fault),
        },
        Err(fault) => Err(RunFault::from(fault)),
    }
}
