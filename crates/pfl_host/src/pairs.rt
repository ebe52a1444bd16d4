//! Pairs that labs are opened over.

ghost use Rattle.std.specs.Prelude.{◌≡◌, ◌≤◌, false, IfOk, IfErr};
ghost use Rattle.pfl_base.specs.Counts.{Counts};
ghost use Rattle.pfl_run.specs.Runs.{IsDeviceFault, IsSetupStop};
ghost use Rattle.pfl_run.specs.declared.fault.RunFault.TheVariants as fault;
ghost use Rattle.pfl_host.specs.Servers.{too_long_text, IsShown, SetsUpBase};

use pfl_base::Input;
use pfl_run::{LineReader, Opening, RunFault, SetupText, Timeline, open_pair};
use std::alloc::Global;

/// What a session is answered for the lines of a setup that are too long to be kept.
const TOO_LONG: &str = "setup too long\n";

/// A pair with its branches, and what sessions are shown for the lines that it was set up with.
#[derive(Drop)]
pub(crate) struct Pair {
    pub(crate) timeline: Timeline<Global>,
    pub(crate) setup: Vec<u8>,
}

/// The line that sessions are shown where the setup is too long.
fn too_long(alloc: Global) -> Result<Vec<u8>, RunFault>
    ensures line { IfOk result (λ line. line.items ≡ too_long_text) }
    ensures fault { IfErr result (λ f. f ≡ fault.NoMemory) }
{
    let mut line = Vec::new(alloc);
    match line.extend_from_slice(TOO_LONG.as_bytes()) {
        Ok(()) => Ok(line),
        Err(_) => Err(RunFault::NoMemory),
    }
}

/// What sessions are shown for the lines of the setup: these, or a line of its own where they are too long. There is nothing without
/// memory for it.
fn setup_shown(alloc: Global, text: SetupText<Global>) -> Result<Vec<u8>, RunFault>
    ensures shown { IfOk result (λ shown. IsShown text shown.items) }
    ensures fault { IfErr result (λ f. f ≡ fault.NoMemory) }
{
    match text {
        SetupText::Kept(lines) => Ok(lines),
        SetupText::TooLong => too_long(alloc),
        SetupText::NoMemory => Err(RunFault::NoMemory),
    }
}

/// The pair with what sessions are shown for the lines of its setup.
fn pair_of(alloc: Global, opening: Opening<Global>) -> Result<Pair, RunFault>
    ensures timeline { IfOk result (λ p. p.timeline ≡ opening.timeline) }
    ensures shown { IfOk result (λ p. IsShown opening.text p.setup.items) }
    ensures fault { IfErr result (λ f. f ≡ fault.NoMemory) }
{
    let Opening { timeline, text } = opening;
    match setup_shown(alloc, text) {
        Ok(setup) => Ok(Pair { timeline, setup }),
        Err(fault) => Err(fault),
    }
}

/// Sets a pair up by the first lines that the reader has, up to `open`. There is none without memory for these lines.
pub(crate) fn read_pair<I: Input>(
    alloc: Global,
    reader: &mut LineReader<I>,
) -> Result<Pair, RunFault>
    requires fresh { reader.old.lines ≡ 0 }
    ensures sets_up { IfOk result (λ p. SetsUpBase reader.old.left reader.new.left reader.new.lines (record { opening = p.timeline; setup = p.setup.items })) }
    ensures stop { IfErr result (λ f. IsSetupStop f reader.old.left) }
    ensures device { IfErr result (λ f. IsDeviceFault f reader.new.failed (reader.new.turns ≡ 16777216) false) }
    ensures reads { Counts reader.old.reads reader.new.reads reader.new.turns }
    ensures few { reader.new.turns ≤ 16777216 }
{
    match open_pair(alloc, reader) {
        Ok(opening) => pair_of(alloc, opening),
        Err(fault) => Err(fault),
    }
}
