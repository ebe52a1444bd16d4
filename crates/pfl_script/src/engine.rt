//! Runs of lines.

ghost use Rattle.std.specs.Prelude.{◌≡◌, ◌+◌, ◌<◌, ◌≤◌, ◌^◌, IfOk, OnOk, OnErr, IfErr};
ghost use Rattle.pfl_base.specs.Counts.{Counts};
ghost use Rattle.pfl_script.specs.Answers.{RunsWhole, RunsPart, RunsUntil, one_if};
ghost use Rattle.pfl_script.specs.Readers.{IsRunFault, counted_on};

use crate::answer::answer_line;
use crate::fault::EngineFault;
use pfl_base::{Input, Output};
use pfl_reader::LineReader;
use pfl_timeline::Timeline;
use std::alloc::Allocator;

/// How many lines a run read, and how many of them were faulty.
#[derive(Clone, Copy, Debug, PartialEq, Eq)]
pub struct Ended {
    pub lines: u64,
    pub bad: u64,
}

impl Ended {
    /// One more line.
    pub fn more(self, bad: bool) -> Ended
        requires lines { self.lines < 2 ^ 63 }
        requires bad { self.bad < 2 ^ 63 }
        ensures lines { result.lines ≡ self.lines + 1 }
        ensures bad { result.bad ≡ self.bad + one_if bad }
    {
        Ended {
            lines: self.lines + 1,
            bad: if bad { self.bad + 1 } else { self.bad },
        }
    }
}

/// Executes the lines that the reader has left, one after another, and writes the text of their replies.
pub fn run_lines<A: Allocator + Copy, B: Allocator + Copy, R: Input, W: Output>(
    alloc: A,
    reader: &mut LineReader<R>,
    writer: &mut W,
    timeline: &mut Timeline<B>,
) -> Result<Ended, EngineFault>
    ensures whole { IfOk result (λ e. RunsWhole reader.old.left reader.new.left timeline.old timeline.new
        (W.written writer.old) (W.written writer.new) e.lines e.bad) }
    ensures lines { IfOk result (λ e. reader.new.lines ≡ counted_on reader.old.lines e.lines) }
    ensures part { OnErr result (RunsPart reader.old.left timeline.old timeline.new (W.written writer.old) (W.written writer.new)) }
    ensures until { IfErr result (λ e. RunsUntil e reader.old.left reader.new.left timeline.old timeline.new (W.written writer.old) (W.written writer.new)) }
    ensures reads { Counts reader.old.reads reader.new.reads reader.new.turns }
    ensures few { reader.new.turns ≤ 16777216 }
    ensures stays { OnOk result (reader.new.failed ≡ reader.old.failed) }
    ensures writer_stays { OnOk result (W.has_failed writer.new ≡ W.has_failed writer.old) }
    ensures fault { IfErr result (λ e. IsRunFault e reader.new (W.has_failed writer.new)) }
{
    reader.begin();
    let mut ended = Ended { lines: 0, bad: 0 };
    while reader.advance()? {
        let bad = answer_line(alloc, &reader.line(), writer, timeline)?;
        ended = ended.more(bad);
    }
    Ok(ended)
}
