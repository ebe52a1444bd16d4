//! The lines that show why a packet has its fate. Each part prints as its words.

ghost use Rattle.std.specs.Prelude.{[], Some, codes};
ghost use Rattle.std.specs.Option.{option_map_or};
ghost use Rattle.pfl_script.specs.Reasons.{edge_line, ack_line, test_lines, eased_line, reset_line, loose_line, judgement_lines};
ghost use Rattle.pfl_script.specs.Reasons.{named_line, pass_line, judged_lines, packet_lines};

use crate::optional::OptionalNumber;
use pfl_base::StateName;
use pfl_timeline::{Judged, PacketReason};
use pfl_track::{AckTest, EdgeTest, Judgement, LooseTest, ResetTest, WindowTest};
use std::fmt;

/// An edge of the window, as a line.
#[derive(Clone, Copy)]
struct EdgeLine {
    side: &'static str,
    test: EdgeTest,
}

impl fmt::Display for EdgeLine {
    ghost output = { λ l. Some (edge_line l.side.now l.test) };

    fn fmt<W: fmt::Write>(&self, f: &mut fmt::Formatter<W>) -> fmt::Result {
        let side = self.side;
        let EdgeTest {
            number,
            bound,
            missed,
        } = self.test;
        let missed = OptionalNumber::of_u32(missed);
        writeln!(f, "{side} {number} {bound} {missed}")
    }
}

/// An acknowledged number, as a line; none where it does not count.
#[derive(Clone, Copy)]
struct AckLine(Option<AckTest>);

impl fmt::Display for AckLine {
    ghost output = { λ l. Some (option_map_or ack_line l.0 []) };

    fn fmt<W: fmt::Write>(&self, f: &mut fmt::Formatter<W>) -> fmt::Result {
        let Some(test) = self.0 else {
            return Ok(());
        };
        let AckTest {
            number,
            least,
            most,
            missed,
        } = test;
        let missed = OptionalNumber::of_u32(missed);
        writeln!(f, "ack {number} {least} {most} {missed}")
    }
}

/// The edges of the window, as lines.
#[derive(Clone, Copy)]
struct TestLines(WindowTest);

impl fmt::Display for TestLines {
    ghost output = { λ l. Some (test_lines l.0) };

    fn fmt<W: fmt::Write>(&self, f: &mut fmt::Formatter<W>) -> fmt::Result {
        let test = self.0;
        let right = EdgeLine {
            side: "right",
            test: test.right,
        };
        let left = EdgeLine {
            side: "left",
            test: test.left,
        };
        let ack = AckLine(test.ack);
        write!(f, "{right}{left}{ack}")
    }
}

/// That a packet is judged by what it acknowledges alone, as a line; none where it is not.
#[derive(Clone, Copy)]
struct EasedLine(bool);

impl fmt::Display for EasedLine {
    ghost output = { λ l. Some (eased_line l.0) };

    fn fmt<W: fmt::Write>(&self, f: &mut fmt::Formatter<W>) -> fmt::Result {
        match self.0 {
            true => f.write_str("eased\n"),
            false => Ok(()),
        }
    }
}

/// The number of a RST, as a line; none where it is not asked for.
#[derive(Clone, Copy)]
struct ResetLine(Option<ResetTest>);

impl fmt::Display for ResetLine {
    ghost output = { λ l. Some (option_map_or reset_line l.0 []) };

    fn fmt<W: fmt::Write>(&self, f: &mut fmt::Formatter<W>) -> fmt::Result {
        let Some(test) = self.0 else {
            return Ok(());
        };
        let ResetTest {
            number,
            least,
            most,
            missed,
        } = test;
        let missed = OptionalNumber::of_u32(missed);
        writeln!(f, "reset {number} {least} {most} {missed}")
    }
}

/// By how much the further edges are missed, as a line; none where they are not asked for.
#[derive(Clone, Copy)]
struct LooseLine(Option<LooseTest>);

impl fmt::Display for LooseLine {
    ghost output = { λ l. Some (option_map_or loose_line l.0 []) };

    fn fmt<W: fmt::Write>(&self, f: &mut fmt::Formatter<W>) -> fmt::Result {
        let Some(test) = self.0 else {
            return Ok(());
        };
        let right = OptionalNumber::of_u32(test.right.missed);
        let left = OptionalNumber::of_u32(test.left.missed);
        writeln!(f, "loose {right} {left}")
    }
}

/// What a packet of a state is tested against, as lines; none for a packet that is not of TCP.
#[derive(Clone, Copy)]
struct JudgementLines(Option<Judgement>);

impl fmt::Display for JudgementLines {
    ghost output = { λ l. Some (option_map_or judgement_lines l.0 []) };

    fn fmt<W: fmt::Write>(&self, f: &mut fmt::Formatter<W>) -> fmt::Result {
        let Some(judgement) = self.0 else {
            return Ok(());
        };
        let eased = EasedLine(judgement.eased);
        let edges = TestLines(judgement.test);
        let reset = ResetLine(judgement.reset);
        let loose = LooseLine(judgement.loose);
        write!(f, "{eased}{edges}{reset}{loose}")
    }
}

/// The rule that passes a packet, as a line.
#[derive(Clone, Copy)]
struct PassLine(u16);

impl fmt::Display for PassLine {
    ghost output = { λ l. Some (pass_line l.0) };

    #[tactic(auto, unfolding(crate::specs::Reasons::pass_line))]
    fn fmt<W: fmt::Write>(&self, f: &mut fmt::Formatter<W>) -> fmt::Result {
        let rule = self.0;
        writeln!(f, "rule {rule} pass")
    }
}

/// What the rules make of a packet, as lines.
#[derive(Clone, Copy)]
struct JudgedLines(Judged);

impl fmt::Display for JudgedLines {
    ghost output = { λ l. Some (judged_lines l.0) };

    fn fmt<W: fmt::Write>(&self, f: &mut fmt::Formatter<W>) -> fmt::Result {
        match self.0 {
            Judged::Unmatched => f.write_str("rule -\n"),
            Judged::Blocked { rule } => writeln!(f, "rule {rule} block"),
            Judged::AtMax { rule, most, states } => {
                let pass = PassLine(rule);
                writeln!(f, "{pass}max {most} {states}")
            }
            Judged::Full {
                rule,
                limit,
                states,
            } => {
                let pass = PassLine(rule);
                writeln!(f, "{pass}full {limit} {states}")
            }
            Judged::WireInUse { rule, name } => {
                let pass = PassLine(rule);
                writeln!(f, "{pass}wire {name}")
            }
            Judged::StackInUse { rule, name } => {
                let pass = PassLine(rule);
                writeln!(f, "{pass}stack {name}")
            }
            Judged::Makes { rule, name } => {
                let pass = PassLine(rule);
                writeln!(f, "{pass}new {name}")
            }
        }
    }
}

/// The closed connection that went first, as a line, if one did.
#[derive(Clone, Copy)]
struct ClosedLine(Option<StateName>);

impl fmt::Display for ClosedLine {
    ghost output = { λ l. Some (option_map_or (named_line (codes "closed")) l.0 []) };

    fn fmt<W: fmt::Write>(&self, f: &mut fmt::Formatter<W>) -> fmt::Result {
        match self.0 {
            None => Ok(()),
            Some(name) => writeln!(f, "closed {name}"),
        }
    }
}

/// Why a packet has its fate, as lines.
#[derive(Clone, Copy)]
pub struct PacketLines(pub PacketReason);

impl fmt::Display for PacketLines {
    ghost output = { λ l. Some (packet_lines l.0) };

    fn fmt<W: fmt::Write>(&self, f: &mut fmt::Formatter<W>) -> fmt::Result {
        match self.0 {
            PacketReason::OfState { name, judgement } => {
                let tests = JudgementLines(judgement);
                write!(f, "state {name}\n{tests}")
            }
            PacketReason::ByRules { closed, judged } => {
                let closed = ClosedLine(closed);
                let judged = JudgedLines(judged);
                write!(f, "{closed}{judged}")
            }
        }
    }
}
