//! The lines that show when states expire.

ghost use Rattle.std.specs.Prelude.{Some};
ghost use Rattle.pfl_script.specs.Reasons.{scaling_lines, expiry_line};

use pfl_base::Millis;
use pfl_rules::Adaptive;
use pfl_timeline::Expiry;
use std::fmt;

/// The node's clock, how many states a purge finds, and between which numbers timeouts shrink, as lines.
#[derive(Clone, Copy)]
pub struct ScalingLines {
    pub clock: Millis,
    pub states: usize,
    pub adaptive: Adaptive,
}

impl fmt::Display for ScalingLines {
    ghost output = { λ l. Some (scaling_lines l.clock l.states l.adaptive) };

    fn fmt<W: fmt::Write>(&self, f: &mut fmt::Formatter<W>) -> fmt::Result {
        let ScalingLines {
            clock,
            states,
            adaptive,
        } = *self;
        let Adaptive { start, end } = adaptive;
        writeln!(f, "clock {clock}\nscaling {states} {start} {end}")
    }
}

/// When a state expires, as a line.
#[derive(Clone, Copy)]
pub struct ExpiryLine(pub Expiry);

impl fmt::Display for ExpiryLine {
    ghost output = { λ l. Some (expiry_line l.0) };

    fn fmt<W: fmt::Write>(&self, f: &mut fmt::Formatter<W>) -> fmt::Result {
        let Expiry {
            name,
            class,
            timeout,
            scaled,
            expires,
        } = self.0;
        writeln!(f, "expiry {name} {class} {timeout} {scaled} {expires}")
    }
}
