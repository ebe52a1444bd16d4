//! Runs of the laboratory.

ghost use Rattle.std.specs.Prelude.{◌≡◌, ◌*◌, ◌⊎◌, IfOk, IfErr};
ghost use Rattle.pfl_base.specs.Counts.{CountsWithin};
ghost use Rattle.pfl_run.specs.Faults.{fault_status, fault_text};
ghost use Rattle.pfl_run.specs.Runs.{Ends, HasFailed, IsDeviceFault, IsStop, IsPrinted, RunsToEnd, Stops, ended_status};

use crate::fault::RunFault;
use crate::opened::set_up;
use pfl_base::{Input, Output};
use pfl_script::{Ended, LineReader, run_lines, write_text};
use std::alloc::Allocator;

/// Sets a pair up by the first lines of the reader, and executes the others: their replies go to the writer.
#[tactic(auto, using(crate::proofs::Devices::of_setup, crate::proofs::Devices::of_both))]
pub fn run_whole<A: Allocator + Copy, R: Input, W: Output>(
    alloc: A,
    reader: &mut LineReader<R>,
    writer: &mut W,
) -> Result<Ended, RunFault>
    requires fresh { reader.old.lines ≡ 0 }
    ensures ends { IfOk result (λ ended. RunsToEnd reader.old.left reader.new.left (W.written writer.old) (W.written writer.new) ended.bad) }
    ensures stop { IfErr result (λ fault. IsStop fault reader.old.left (W.written writer.old) (W.written writer.new)) }
    ensures device { IfErr result (λ fault. IsDeviceFault fault reader.new.failed (reader.new.turns ≡ 16777216) (W.has_failed writer.new)) }
    ensures reads { CountsWithin reader.new.turns (2 * 16777216) reader.old.reads reader.new.reads }
{
    match set_up(alloc, reader) {
        Ok(mut timeline) => match run_lines(alloc, reader, writer, &mut timeline) {
            Ok(ended) => Ok(ended),
            Err(fault) => Err(RunFault::from(fault)),
        },
        Err(fault) => Err(fault),
    }
}

/// Writes a text as far as the device takes it.
pub fn print_text<D: Output>(device: &mut D, text: &[u8])
    ensures { IsPrinted text.now (D.written device.old) (D.written device.new) (D.has_failed device.new) }
{
    let _ = write_text(device, text);
}

/// Reports a fault by its line, and returns the program's exit status.
pub fn report_fault<F: Output>(fault: RunFault, faults: &mut F) -> u8
    ensures printed { IsPrinted (fault_text fault) (F.written faults.old) (F.written faults.new) (F.has_failed faults.new) }
    ensures status { result ≡ fault_status fault }
{
    let line = fault.line();
    print_text(faults, line.as_str().as_bytes());
    fault.status()
}

/// The exit status after this many faulty lines.
pub(crate) fn ended_status(bad: u64) -> u8
    ensures { result ≡ ended_status bad }
{
    if bad == 0 { 0 } else { 1 }
}

/// Runs the lines of a device: the first set a pair up, and the others are executed; their replies go to the writer. Why
/// a run stops is reported in one line to `faults`. The result is the program's exit status: 0, or 1 after a fault or a faulty
/// line, or 3 for want of memory.
pub fn run_lab<A: Allocator + Copy, R: Input, W: Output, F: Output>(
    alloc: A,
    reader: &mut R,
    writer: &mut W,
    faults: &mut F,
) -> u8
    ensures reads { CountsWithin 0 (2 * 16777216) (R.reads reader.old) (R.reads reader.new) }
    ensures runs { Ends (RunsToEnd (R.left reader.old) (R.left reader.new) (W.written writer.old) (W.written writer.new))
        (F.written faults.old) (F.written faults.new) result
        ⊎ Stops (λ fault. IsStop fault (R.left reader.old) (W.written writer.old) (W.written writer.new))
        (λ fault. HasFailed fault (R.has_failed reader.new) (R.reads reader.old) (R.reads reader.new) (W.has_failed writer.new))
        (F.written faults.old) (F.written faults.new) (F.has_failed faults.new) result }
{
    let mut lines = LineReader::new(reader);
    let whole = run_whole(alloc, &mut lines, writer);
    // What became of the device is known once it is given back.
    lines.into_inner();
    match whole {
        Ok(ended) => ended_status(ended.bad),
        Err(fault) => report_fault(fault, faults),
    }
}
