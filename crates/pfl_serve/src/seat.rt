//! Seats of sessions.

use pfl_base::{Input, Output};
use pfl_script::{Ended, EngineFault, LineReader};
use pfl_session::Pass;
use std::alloc::Allocator;
use std::error::Error;
use std::fmt;

/// A session's seat: its pass, and its lines in and out.
#[derive(Drop)]
pub struct Seat<A: Allocator, I: Input, O: Output> {
    pub pass: Pass<A>,
    pub reader: LineReader<I>,
    pub writer: O,
}

/// A seat after its session, and how the session ended.
#[derive(Drop)]
pub struct Served<A: Allocator, I: Input, O: Output> {
    pub seat: Seat<A, I, O>,
    pub result: Result<Ended, EngineFault>,
}

/// Why no session's end is reported.
#[derive(Clone, Copy, Debug, PartialEq, Eq)]
pub enum ServeFault {
    /// There was no thread for one of the sessions. Those that had begun have ended.
    NoThread = 1,
    /// There was no memory for the list of sessions, and none began.
    NoMemory,
}

impl fmt::Display for ServeFault {
    ghost use Rattle.std.specs.Prelude.{Some};
    ghost use Rattle.pfl_serve.specs.Texts.{serve_fault_text};

    ghost output = { λ fault. Some (serve_fault_text fault) };

    fn fmt<W: fmt::Write>(&self, f: &mut fmt::Formatter<W>) -> fmt::Result {
        f.write_str(match self {
            ServeFault::NoThread => "no thread",
            ServeFault::NoMemory => "no memory",
        })
    }
}

impl Error for ServeFault {}
