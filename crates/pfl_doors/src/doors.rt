//! Doors that connections come through.

ghost use Rattle.std.specs.Prelude.{◌≡◌, ℕ, true, List, [], Option, Some, IfOk, OnOk};
ghost use Rattle.pfl_doors.specs.Visits.{given_after, turned_after, IsUnfailed};
ghost use Rattle.pfl_doors.specs.declared.doors.Sides.{Sides};

use pfl_base::{Input, Output};
use std::error::Error;
use std::fmt;
use std::sync::Wait;

/// The two sides of a connection.
#[derive(Drop)]
pub struct Sides<I, O> {
    pub reader: I,
    pub writer: O,
}

/// Who came.
#[derive(Drop)]
pub enum Visit<I, O> {
    /// Somebody who takes the next session's seat.
    Session(Sides<I, O>),
    /// A browser. It was turned away.
    Browser,
}

/// Why nobody came.
#[derive(Clone, Copy, Debug, PartialEq, Eq)]
pub enum DoorFault {
    /// The network failed.
    Network = 1,
    /// There was no memory for one connection more.
    NoMemory,
}

impl fmt::Display for DoorFault {
    fn fmt<W: fmt::Write>(&self, f: &mut fmt::Formatter<W>) -> fmt::Result {
        f.write_str(match self {
            DoorFault::Network => "network",
            DoorFault::NoMemory => "no memory",
        })
    }
}

impl Error for DoorFault {}

/// Doors that connections come through, one after another. Sessions count from 1, in the order in which their connections were given.
pub trait Doors {
    /// What a session reads from.
    type Reader: Input + Send + Drop;

    /// What a session writes to.
    type Writer: Output + Send + Drop;

    /// The port that is listened on, if one is.
    ghost listens: { Self → Option ℕ };

    /// The connections that were given since somebody listens, the first one's first.
    ghost given: { Self → List (Sides Self.Reader Self.Writer) };

    /// How many browsers were turned away since then.
    ghost turned: { Self → ℕ };

    /// What is left of the connections, once it was given back, the first one's first.
    ghost returned: { Self → List (Sides Self.Reader Self.Writer) };

    /// The next line of the session has come, or its end.
    ghost heard: { ℕ → Type 0 };

    /// Listens on the port.
    fn listen(&mut self, port: u16) -> Result<(), DoorFault>
        ensures port { OnOk result (listens self.new ≡ Some port) }
        ensures given { OnOk result (given self.new ≡ []) }
        ensures turned { OnOk result (turned self.new ≡ 0) };

    /// Waits for the next connection, of which no call has failed yet.
    fn accept(&mut self) -> Result<Visit<Self::Reader, Self::Writer>, DoorFault>
        ensures port { listens self.new ≡ listens self.old }
        ensures given { given self.new ≡ given_after (given self.old) result }
        ensures turned { turned self.new ≡ turned_after (turned self.old) result }
        ensures unfailed { IfOk result (IsUnfailed Self.Reader.has_failed Self.Writer.has_failed) };

    /// Listens no more: whoever comes later finds nobody.
    fn close(&mut self)
        ensures port { listens self.new ≡ listens self.old }
        ensures given { given self.new ≡ given self.old }
        ensures turned { turned self.new ≡ turned self.old };

    /// Whether the next line of the session has come, or its end, while the session follows the journal. It may wait for that a short
    /// while.
    fn hears<R: Wait>(&self, rt: &R, session: u32) -> bool
        ensures { result ≡ true → heard session };

    /// After the session has ended, whose writer then gets nothing more.
    fn end(&self, session: u32);

    /// Takes back what is left of the connections, after all sessions have ended.
    fn take_back(&mut self, sides: Vec<Sides<Self::Reader, Self::Writer>>)
        ensures returned { returned self.new ≡ sides.items }
        ensures port { listens self.new ≡ listens self.old }
        ensures given { given self.new ≡ given self.old }
        ensures turned { turned self.new ≡ turned self.old };
}
