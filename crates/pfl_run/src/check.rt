//! Checks of scripts.

ghost use Rattle.std.specs.Prelude.{◌≡◌, ◌*◌, ◌⊎◌, IfOk, IfErr};
ghost use Rattle.pfl_base.specs.Counts.{CountsWithin};
ghost use Rattle.pfl_run.specs.Checks.{ChecksToEnd, IsCheckStop};
ghost use Rattle.pfl_run.specs.Runs.{Ends, HasFailed, IsDeviceFault, Stops};

use crate::fault::RunFault;
use crate::run::{ended_status, report_fault};
use crate::setups::read_opening;
use pfl_base::{Input, Output};
use pfl_script::{Checked, LineReader, check_lines};
use std::alloc::Allocator;

/// Reads a setup by the first lines of the reader, and checks the others: what is wrong with them goes to the writer.
#[tactic(auto, using(crate::proofs::Devices::of_setup, crate::proofs::Devices::of_both))]
pub fn check_whole<A: Allocator + Copy, R: Input, W: Output>(
    alloc: A,
    reader: &mut LineReader<R>,
    writer: &mut W,
) -> Result<Checked, RunFault>
    requires fresh { reader.old.lines ≡ 0 }
    ensures ends { IfOk result (λ checked. ChecksToEnd reader.old.left reader.new.left (W.written writer.old) (W.written writer.new) checked.bad) }
    ensures stop { IfErr result (λ fault. IsCheckStop fault reader.old.left (W.written writer.old) (W.written writer.new)) }
    ensures device { IfErr result (λ fault. IsDeviceFault fault reader.new.failed (reader.new.turns ≡ 16777216) (W.has_failed writer.new)) }
    ensures reads { CountsWithin reader.new.turns (2 * 16777216) reader.old.reads reader.new.reads }
{
    match read_opening(alloc, reader) {
        Ok(_setup) => match check_lines(reader, writer) {
            Ok(checked) => Ok(checked),
            Err(fault) => Err(RunFault::from(fault)),
        },
        Err(fault) => Err(fault),
    }
}

/// Checks the lines of a device and executes none: the first are a setup, and of the others each that is faulty is reported to
/// the writer with its number, and at the end how many are commands. Why a check stops is reported in one line to `faults`. The
/// answer is the program's exit status: 0, or 1 after a fault or a faulty line, or 3 for want of memory.
pub fn check_lab<A: Allocator + Copy, R: Input, W: Output, F: Output>(
    alloc: A,
    reader: &mut R,
    writer: &mut W,
    faults: &mut F,
) -> u8
    ensures reads { CountsWithin 0 (2 * 16777216) (R.reads reader.old) (R.reads reader.new) }
    ensures checks { Ends (ChecksToEnd (R.left reader.old) (R.left reader.new) (W.written writer.old) (W.written writer.new))
        (F.written faults.old) (F.written faults.new) result
        ⊎ Stops (λ fault. IsCheckStop fault (R.left reader.old) (W.written writer.old) (W.written writer.new))
        (λ fault. HasFailed fault (R.has_failed reader.new) (R.reads reader.old) (R.reads reader.new) (W.has_failed writer.new))
        (F.written faults.old) (F.written faults.new) (F.has_failed faults.new) result }
{
    let mut lines = LineReader::new(reader);
    let whole = check_whole(alloc, &mut lines, writer);
    // What became of the device is known once it is given back.
    lines.into_inner();
    match whole {
        Ok(checked) => ended_status(checked.bad),
        Err(fault) => report_fault(fault, faults),
    }
}
