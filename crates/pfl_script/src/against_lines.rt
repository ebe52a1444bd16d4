//! The line of what stands against an event that is refused.

ghost use Rattle.std.specs.Prelude.{Some};
ghost use Rattle.pfl_script.specs.Reasons.{against_line};

use pfl_timeline::Against;
use std::fmt;

/// The numbers that stand against an event, as a line; none where the refusal says it all.
#[derive(Clone, Copy)]
pub struct AgainstLine(pub Against);

impl fmt::Display for AgainstLine {
    ghost output = { λ l. Some (against_line l.0) };

    fn fmt<W: fmt::Write>(&self, f: &mut fmt::Formatter<W>) -> fmt::Result {
        match self.0 {
            Against::Ticket { next } => writeln!(f, "ticket {next}"),
            Against::Frames { limit, frames } => writeln!(f, "frames {limit} {frames}"),
            Against::Pending { limit, pending } => writeln!(f, "pending {limit} {pending}"),
            Against::Clock { clock, last } => writeln!(f, "clock {clock} {last}"),
            Against::Due { clock, due } => writeln!(f, "due {clock} {due}"),
            Against::Nothing => Ok(()),
        }
    }
}
