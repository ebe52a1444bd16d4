//! Checks of lines, which execute none of them.

ghost use Rattle.std.specs.Prelude.{◌≡◌, ◌+◌, ◌<◌, ◌≤◌, ◌^◌, ℕ, true, take, IfOk, OnOk, OnErr, IfErr};
ghost use Rattle.std.specs.Io.KnownBytes.{Appends};
ghost use Rattle.pfl_base.specs.Counts.{Counts};
ghost use Rattle.pfl_script.specs.Answers.{kept_bad, kept_command, one_if};
ghost use Rattle.pfl_script.specs.Checks.{ChecksUntil, ChecksWhole, faulty_text, good_text, kept_report};
ghost use Rattle.pfl_script.specs.Readers.{IsRunFault};

use crate::fault::EngineFault;
use crate::output::write_text;
use crate::replies::fault_line;
use crate::short_line::{ShortLine, plain_line, push_number};
use pfl_base::{Input, Output};
use pfl_lines::LineFault;
use pfl_reader::{Line, LineReader};

/// How many lines of a check are commands, and how many are faulty.
#[derive(Clone, Copy, Debug, PartialEq, Eq)]
pub struct Checked {
    pub good: u64,
    pub bad: u64,
}

impl Checked {
    /// No line, or one that is passed over.
    const NONE: Checked = Checked { good: 0, bad: 0 };
    /// One command.
    const GOOD: Checked = Checked { good: 1, bad: 0 };
    /// One faulty line.
    const BAD: Checked = Checked { good: 0, bad: 1 };

    /// These lines and more.
    fn plus(self, more: Checked) -> Checked
        requires good { self.good + more.good < 2 ^ 64 }
        requires bad { self.bad + more.bad < 2 ^ 64 }
        ensures good { result.good ≡ self.good + more.good }
        ensures bad { result.bad ≡ self.bad + more.bad }
    {
        Checked {
            good: self.good + more.good,
            bad: self.bad + more.bad,
        }
    }
}

/// The line that reports the line with this number as faulty.
fn faulty_line(number: u64, fault: LineFault) -> ShortLine
    ensures { result.bytes ≡ faulty_text number fault }
{
    let mut line = plain_line("line ");
    push_number(&mut line, number);
    line.push_str(" ");
    line.push_str(fault_line(fault));
    line
}

/// The last line of a check with this many commands.
fn good_line(good: u64) -> ShortLine
    ensures { result.bytes ≡ good_text good }
{
    let mut line = plain_line("good ");
    push_number(&mut line, good);
    line.push_str("\n");
    line
}

/// Reports the line with this number as faulty, if it is, and counts it.
#[tactic(auto, unfolding(crate::specs::Answers::kept_bad, crate::specs::Answers::kept_command, crate::specs::Checks::kept_report))]
fn check_line<W: Output>(line: &Line, number: u64, writer: &mut W) -> Result<Checked, EngineFault>
    ensures good { IfOk result (λ counted. counted.good ≡ one_if (kept_command line.now)) }
    ensures bad { IfOk result (λ counted. counted.bad ≡ one_if (kept_bad line.now)) }
    ensures told { OnOk result (Appends (W.written writer.old) (W.written writer.new) (kept_report number line.now)) }
    ensures stays { OnOk result (W.has_failed writer.new ≡ W.has_failed writer.old) }
    ensures part { OnErr result ((n : ℕ) × Appends (W.written writer.old) (W.written writer.new) (take n (kept_report number line.now))) }
    ensures fails { OnErr result (W.has_failed writer.new ≡ true) }
    ensures fault { IfErr result (λ e. e ≡ EngineFault.Write) }
{
    if !line.has_word() {
        return Ok(Checked::NONE);
    }
    match line.parse() {
        Ok(_command) => Ok(Checked::GOOD),
        Err(fault) => {
            let text = faulty_line(number, fault);
            match write_text(writer, text.as_str().as_bytes()) {
                Ok(()) => Ok(Checked::BAD),
                Err(fault) => Err(fault),
            }
        }
    }
}

/// Reads the lines that the reader has left and executes none: each that is faulty is reported with its number, counted from
/// the reader's first line, and at the end how many are commands.
pub fn check_lines<R: Input, W: Output>(
    reader: &mut LineReader<R>,
    writer: &mut W,
) -> Result<Checked, EngineFault>
    requires few_lines { reader.old.lines ≤ 2 ^ 63 }
    ensures whole { IfOk result (λ c. ChecksWhole reader.old.left reader.new.left reader.old.lines
        (W.written writer.old) (W.written writer.new) c.good c.bad) }
    ensures until { IfErr result (λ e. ChecksUntil e reader.old.left reader.new.left reader.old.lines (W.written writer.old) (W.written writer.new)) }
    ensures reads { Counts reader.old.reads reader.new.reads reader.new.turns }
    ensures few { reader.new.turns ≤ 16777216 }
    ensures stays { OnOk result (reader.new.failed ≡ reader.old.failed) }
    ensures writer_stays { OnOk result (W.has_failed writer.new ≡ W.has_failed writer.old) }
    ensures fault { IfErr result (λ e. IsRunFault e reader.new (W.has_failed writer.new)) }
{
    reader.begin();
    let mut checked = Checked::NONE;
    while reader.advance()? {
        let counted = check_line(&reader.line(), reader.lines(), writer)?;
        checked = checked.plus(counted);
    }
    let last = good_line(checked.good);
    write_text(writer, last.as_str().as_bytes())?;
    Ok(checked)
}
