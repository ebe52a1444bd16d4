//! Why a run of the laboratory stopped.

ghost use Rattle.std.specs.Prelude.{◌≡◌, ◌+◌, ◌≤◌, ◌++◌, length, codes};
ghost use Rattle.std.specs.Fmt.{decimal};
ghost use Rattle.arrayvec.specs.ArrayString.{array_string_len};
ghost use Rattle.pfl_run.specs.Faults.{at_line, fault_text, fault_status};

use pfl_rules::RuleFault;
use pfl_script::{
    EngineFault, LineFault, SetupFault, ShortLine, WorldFault, plain_line, push_number,
};

/// Why a run of the laboratory stopped. Lines count from 1.
#[derive(Clone, Copy, Debug, PartialEq, Eq)]
pub enum RunFault {
    /// This line of the setup has a fault.
    Line(u64, LineFault),
    /// The rules have a fault; the line is that of `open`.
    Rule(u64, RuleFault),
    /// The limits have a fault; the line is that of `open`.
    World(u64, WorldFault),
    /// The lines ended, after this many, before `open`.
    NoOpen(u64),
    /// The reader failed.
    Read,
    /// The writer failed.
    Write,
    /// More calls of `read` were wanted than one run may make.
    TooManyTurns,
    /// The port could not be listened on, or a connection not be accepted.
    Network,
    /// No thread could be started for a session.
    NoThread,
    /// There was no memory.
    NoMemory,
}

impl RunFault {
    /// The line that reports the fault; it takes no memory.
    pub fn line(self) -> ShortLine
        ensures { result.bytes ≡ fault_text self }
    {
        match self {
            RunFault::Line(line, fault) => numbered_line(line, "line ", fault.number()),
            RunFault::Rule(line, fault) => numbered_line(line, "rule ", fault.number()),
            RunFault::World(line, fault) => numbered_line(line, "world ", fault.number()),
            RunFault::NoOpen(line) => unopened_line(line),
            RunFault::Read => plain_line("pfl_lab: read\n"),
            RunFault::Write => plain_line("pfl_lab: write\n"),
            RunFault::TooManyTurns => plain_line("pfl_lab: too many turns\n"),
            RunFault::Network => plain_line("pfl_lab: network\n"),
            RunFault::NoThread => plain_line("pfl_lab: no thread\n"),
            RunFault::NoMemory => plain_line("pfl_lab: no memory\n"),
        }
    }

    /// The exit status of the program: 3 for want of memory, else 1.
    pub fn status(self) -> u8
        ensures { result ≡ fault_status self }
    {
        match self {
            RunFault::NoMemory => 3,
            _ => 1,
        }
    }
}

/// The first words of the line for a fault of the setup, which is at the line with the number.
fn setup_line(number: u64) -> ShortLine
    ensures bytes { result.bytes ≡ codes "pfl_lab: setup line " ++ decimal number ++ codes ": " }
    ensures few { array_string_len result ≤ 42 }
{
    let mut line = plain_line("pfl_lab: setup line ");
    push_number(&mut line, number);
    line.push_str(": ");
    line
}

/// The line for a fault of the setup that has a number of its own, after the word that says what it is of.
fn numbered_line(number: u64, what: &str, fault: u8) -> ShortLine
    requires short { length what.now ≤ 6 }
    ensures { result.bytes ≡ at_line number (what.now ++ decimal fault ++ codes "\n") }
{
    let mut line = setup_line(number);
    line.push_str(what);
    push_number(&mut line, u64::from(fault));
    line.push_str("\n");
    line
}

/// The line for lines that end, after this many, before `open`.
fn unopened_line(number: u64) -> ShortLine
    ensures { result.bytes ≡ at_line number (codes "no open\n") }
{
    let mut line = setup_line(number);
    line.push_str("no open\n");
    line
}

impl From<SetupFault> for RunFault {
    ghost use Rattle.pfl_run.specs.Faults.{of_setup};

    ghost from_gives = { λ setup fault. fault ≡ of_setup setup };

    fn from(fault: SetupFault) -> RunFault {
        match fault {
            SetupFault::Line(line, fault) => RunFault::Line(line, fault),
            SetupFault::Rule(line, fault) => RunFault::Rule(line, fault),
            SetupFault::NoOpen(lines) => RunFault::NoOpen(lines),
            SetupFault::Read => RunFault::Read,
            SetupFault::TooManyTurns => RunFault::TooManyTurns,
            SetupFault::NoMemory => RunFault::NoMemory,
        }
    }
}

impl From<EngineFault> for RunFault {
    ghost use Rattle.pfl_run.specs.Faults.{of_engine};

    ghost from_gives = { λ engine fault. fault ≡ of_engine engine };

    fn from(fault: EngineFault) -> RunFault {
        match fault {
            EngineFault::Read => RunFault::Read,
            EngineFault::Write => RunFault::Write,
            EngineFault::TooManyTurns => RunFault::TooManyTurns,
            EngineFault::NoMemory => RunFault::NoMemory,
        }
    }
}
