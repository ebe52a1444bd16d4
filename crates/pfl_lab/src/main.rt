//! The laboratory's program: it runs or checks lines over a pair of pf firewalls that share their states by pfsync, or
//! serves such a pair to several sessions.
#![tactic(auto)]

ghost use Rattle.std.specs.Prelude.{◌≡◌};

use pfl_base::Std;
use pfl_host::{Network, Open, Program, RunFault, report_fault};
use std::env;
use std::io::{self, ErrorKind};
use std::process::ExitCode;

/// The exit status where the words cannot be read.
const BAD_WORDS: u8 = 2;

/// The words of the command line, the program's name among them.
fn words_of(rt: &HostRuntime) -> io::Result<Vec<String>> {
    Ok(env::args(rt)?.collect(rt.alloc())?)
}

/// Reports want of memory, and returns the exit status.
fn report_no_memory(rt: &HostRuntime) -> u8
    ensures { result ≡ 3 }
{
    report_fault(RunFault::NoMemory, &mut Std::new(rt.stderr()))
}

fn main(rt: HostRuntime) -> ExitCode {
    let program = Program {
        rt: &rt,
        alloc: rt.alloc(),
        gate: &Open,
    };
    ExitCode::from(match words_of(&rt) {
        Ok(words) => program.obey(
            words.as_slice(),
            &mut Network::new(&rt, rt.alloc()),
            &mut Std::new(rt.stdin()),
            &mut Std::new(rt.stdout()),
            &mut Std::new(rt.stderr()),
        ),
        Err(error) if error.kind() == ErrorKind::OutOfMemory => report_no_memory(&rt),
        Err(error) => match eprintln!(rt; "pfl_lab: words: {error}") {
            Ok(()) | Err(_) => BAD_WORDS,
        },
    })
}
