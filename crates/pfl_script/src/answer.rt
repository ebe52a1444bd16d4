//! The answer to one line.

ghost use Rattle.std.specs.Prelude.{◌≡◌, ℕ, true, is_some, take, IfOk, IsTrue, OnOk, OnErr, IfErr};
ghost use Rattle.std.specs.Io.KnownBytes.{Appends};
ghost use Rattle.pfl_lines.specs.declared.search.ScriptLine.TheVariants as script;
ghost use Rattle.pfl_script.specs.Answers.{answer_to, kept_answer, kept_bad, kept_command, sought_by, MayWant};
ghost use Rattle.pfl_script.specs.inner.Answers.{Breaks};
ghost use Rattle.pfl_reader.specs.Saids.{kept_said};
ghost use Rattle.pfl_reader.specs.Scans.{has_word};
ghost use Rattle.pfl_script.specs.Readers.{IsWriteFault};
ghost use Rattle.pfl_script.specs.Replies.{reply_text};
ghost use Rattle.pfl_script.specs.Searches.{finding_text};
ghost use Rattle.pfl_timeline.specs.Commands.{show_command};
ghost use Rattle.pfl_timeline.specs.Memory.{MayWantMemory};
ghost use Rattle.pfl_timeline.specs.Searches.{finding};
ghost use Rattle.pfl_timeline.specs.Timelines.{branch_of};

use crate::fault::EngineFault;
use crate::found::write_finding;
use crate::output::{write_reply, write_shown, write_text};
use crate::past::answer_past;
use crate::replies::fault_line;
use pfl_base::Output;
use pfl_language::{Ask, BranchWord, Command};
use pfl_lines::{ScriptLine, SearchLine};
use pfl_reader::Line;
use pfl_timeline::{Reply, Timeline};
use std::alloc::Allocator;

/// Writes what `show` says of a branch, from where it stands: no pair is copied.
fn answer_show<A: Allocator, B: Allocator + Copy, W: Output>(
    alloc: A,
    name: &BranchWord,
    writer: &mut W,
    timeline: &Timeline<B>,
) -> Result<(), EngineFault>
    ensures whole { OnOk result (Appends (W.written writer.old) (W.written writer.new) (reply_text (show_command timeline.now name.now).reply)) }
    ensures still { (show_command timeline.now name.now).timeline ≡ timeline.now }
    ensures stays { OnOk result (W.has_failed writer.new ≡ W.has_failed writer.old) }
    ensures untouched { IfErr result (λ e. e ≡ EngineFault.NoMemory → writer.new ≡ writer.old) }
    ensures part { OnErr result ((n : ℕ)
        × Appends (W.written writer.old) (W.written writer.new) (take n (reply_text (show_command timeline.now name.now).reply))) }
    ensures memory { IfErr result (λ e. e ≡ EngineFault.NoMemory → MayWantMemory timeline.now (Command.On name.now Ask.Show)) }
    ensures fault { IfErr result (λ e. IsWriteFault e (W.has_failed writer.new)) }
{
    match timeline.shown(name) {
        Ok(branch) => write_shown(alloc, branch, writer),
        Err(why) => {
            let reply: Reply<B> = Reply::Refused(why);
            write_reply(alloc, &reply, writer)
        }
    }
}

/// Carries a command out, and writes its reply. Where memory is wanting, be it for the reply, nothing has changed.
fn answer_reply<A: Allocator + Copy, B: Allocator + Copy, W: Output>(
    alloc: A,
    command: Command,
    writer: &mut W,
    timeline: &mut Timeline<B>,
) -> Result<(), EngineFault>
    ensures timeline { OnOk result (timeline.new ≡ (answer_to (Ok (script.Command command)) timeline.old).timeline) }
    ensures text { OnOk result (Appends (W.written writer.old) (W.written writer.new) (answer_to (Ok (script.Command command)) timeline.old).text) }
    ensures stays { OnOk result (W.has_failed writer.new ≡ W.has_failed writer.old) }
    ensures breaks { IfErr result (λ e. e ≡ EngineFault.Write → Breaks (answer_to (Ok (script.Command command)) timeline.old) timeline.new
        (W.written writer.old) (W.written writer.new)) }
    ensures untouched { IfErr result (λ e. e ≡ EngineFault.NoMemory → writer.new ≡ writer.old) }
    ensures unchanged { IfErr result (λ e. e ≡ EngineFault.NoMemory → timeline.new ≡ timeline.old) }
    ensures memory { IfErr result (λ e. e ≡ EngineFault.NoMemory → MayWantMemory timeline.old command) }
    ensures fault { IfErr result (λ e. IsWriteFault e (W.has_failed writer.new)) }
{
    let Ok(reply) = timeline.command(command) else {
        return Err(EngineFault::NoMemory);
    };
    write_reply(alloc, &reply, writer)
}

/// Executes a command and writes its reply, that of a look at a branch's world without a copy of the pair. Where memory is wanting, be it
/// for the reply, nothing has changed.
fn answer_command<A: Allocator + Copy, B: Allocator + Copy, W: Output>(
    alloc: A,
    command: &Command,
    writer: &mut W,
    timeline: &mut Timeline<B>,
) -> Result<(), EngineFault>
    ensures timeline { OnOk result (timeline.new ≡ (answer_to (Ok (script.Command command.now)) timeline.old).timeline) }
    ensures text { OnOk result (Appends (W.written writer.old) (W.written writer.new) (answer_to (Ok (script.Command command.now)) timeline.old).text) }
    ensures stays { OnOk result (W.has_failed writer.new ≡ W.has_failed writer.old) }
    ensures breaks { IfErr result (λ e. e ≡ EngineFault.Write → Breaks (answer_to (Ok (script.Command command.now)) timeline.old) timeline.new
        (W.written writer.old) (W.written writer.new)) }
    ensures untouched { IfErr result (λ e. e ≡ EngineFault.NoMemory → writer.new ≡ writer.old) }
    ensures unchanged { IfErr result (λ e. e ≡ EngineFault.NoMemory → timeline.new ≡ timeline.old) }
    ensures memory { IfErr result (λ e. e ≡ EngineFault.NoMemory → MayWantMemory timeline.old command.now) }
    ensures fault { IfErr result (λ e. IsWriteFault e (W.has_failed writer.new)) }
{
    match command {
        Command::On {
            branch,
            ask: Ask::Show,
        } => answer_show(alloc, branch, writer, timeline),
        Command::On {
            branch,
            ask: Ask::Past { place },
        } => answer_past(alloc, branch, *place, writer, timeline),
        _ => answer_reply(alloc, *command, writer, timeline),
    }
}

/// Searches, and writes the answer. Nothing changes.
fn answer_search<A: Allocator, B: Allocator + Copy, W: Output>(
    alloc: A,
    search: &SearchLine,
    writer: &mut W,
    timeline: &mut Timeline<B>,
) -> Result<(), EngineFault>
    ensures still { timeline.new ≡ timeline.old }
    ensures text { OnOk result (Appends (W.written writer.old)
        (W.written writer.new) (finding_text (finding timeline.old search.now.branch (sought_by search.now)))) }
    ensures stays { OnOk result (W.has_failed writer.new ≡ W.has_failed writer.old) }
    ensures untouched { IfErr result (λ e. e ≡ EngineFault.NoMemory → writer.new ≡ writer.old) }
    ensures part { OnErr result ((n : ℕ)
        × Appends (W.written writer.old)
        (W.written writer.new) (take n (finding_text (finding timeline.old search.now.branch (sought_by search.now))))) }
    ensures memory { IfErr result (λ e. e ≡ EngineFault.NoMemory → IsTrue (is_some (branch_of timeline.old search.now.branch))) }
    ensures fault { IfErr result (λ e. IsWriteFault e (W.has_failed writer.new)) }
{
    let choices = search.choices.as_slice();
    let found = timeline.search(
        &search.branch,
        choices,
        search.depth,
        &search.goal,
        search.most,
    );
    let Ok(finding) = found else {
        return Err(EngineFault::NoMemory);
    };
    write_finding(alloc, &finding, writer)
}

/// Does what a line of a script says, and writes its answer. Where memory is wanting, nothing has changed.
fn answer_said<A: Allocator + Copy, B: Allocator + Copy, W: Output>(
    alloc: A,
    said: ScriptLine,
    writer: &mut W,
    timeline: &mut Timeline<B>,
) -> Result<(), EngineFault>
    ensures timeline { OnOk result (timeline.new ≡ (answer_to (Ok said) timeline.old).timeline) }
    ensures text { OnOk result (Appends (W.written writer.old) (W.written writer.new) (answer_to (Ok said) timeline.old).text) }
    ensures stays { OnOk result (W.has_failed writer.new ≡ W.has_failed writer.old) }
    ensures breaks { IfErr result (λ e. e ≡ EngineFault.Write → Breaks (answer_to (Ok said) timeline.old) timeline.new
        (W.written writer.old) (W.written writer.new)) }
    ensures untouched { IfErr result (λ e. e ≡ EngineFault.NoMemory → writer.new ≡ writer.old) }
    ensures unchanged { IfErr result (λ e. e ≡ EngineFault.NoMemory → timeline.new ≡ timeline.old) }
    ensures memory { IfErr result (λ e. e ≡ EngineFault.NoMemory → MayWant (Ok said) timeline.old) }
    ensures fault { IfErr result (λ e. IsWriteFault e (W.has_failed writer.new)) }
{
    match said {
        ScriptLine::Command(command) => answer_command(alloc, &command, writer, timeline),
        ScriptLine::Search(search) => answer_search(alloc, &search, writer, timeline),
    }
}

/// Does what a line says that begins with `search`, writes its answer, and says whether it is faulty. It stands by itself, and is not
/// inlined, so that no command pays for the room that a search has for its choices.
#[inline(never)]
#[tactic(auto, unfolding(crate::specs::Answers::kept_answer, crate::specs::Answers::kept_bad, crate::specs::Answers::kept_command))]
fn answer_searching<A: Allocator + Copy, B: Allocator + Copy, W: Output>(
    alloc: A,
    line: &Line,
    writer: &mut W,
    timeline: &mut Timeline<B>,
) -> Result<bool, EngineFault>
    requires word { has_word line.now.head ≡ true }
    ensures bad { IfOk result (λ bad. bad ≡ kept_bad line.now) }
    ensures timeline { OnOk result (timeline.new ≡ (kept_answer line.now timeline.old).timeline) }
    ensures text { OnOk result (Appends (W.written writer.old) (W.written writer.new) (kept_answer line.now timeline.old).text) }
    ensures stays { OnOk result (W.has_failed writer.new ≡ W.has_failed writer.old) }
    ensures breaks { IfErr result (λ e. e ≡ EngineFault.Write → Breaks (kept_answer line.now timeline.old) timeline.new
        (W.written writer.old) (W.written writer.new)) }
    ensures command { IfErr result (λ e. e ≡ EngineFault.NoMemory → kept_command line.now ≡ true) }
    ensures untouched { IfErr result (λ e. e ≡ EngineFault.NoMemory → writer.new ≡ writer.old) }
    ensures unchanged { IfErr result (λ e. e ≡ EngineFault.NoMemory → timeline.new ≡ timeline.old) }
    ensures memory { IfErr result (λ e. e ≡ EngineFault.NoMemory → MayWant (kept_said line.now) timeline.old) }
    ensures fault { IfErr result (λ e. IsWriteFault e (W.has_failed writer.new)) }
{
    match line.parse() {
        Err(fault) => match write_text(writer, fault_line(fault).as_bytes()) {
            Ok(()) => Ok(true),
            Err(fault) => Err(fault),
        },
        Ok(said) => match answer_said(alloc, said, writer, timeline) {
            Ok(()) => Ok(false),
            Err(fault) => Err(fault),
        },
    }
}

/// Executes a line, if it has a word and is no comment, writes its reply, and says whether it is faulty. Where memory is wanting,
/// nothing has changed.
#[tactic(auto, unfolding(crate::specs::Answers::kept_answer, crate::specs::Answers::kept_bad, crate::specs::Answers::kept_command))]
pub fn answer_line<A: Allocator + Copy, B: Allocator + Copy, W: Output>(
    alloc: A,
    line: &Line,
    writer: &mut W,
    timeline: &mut Timeline<B>,
) -> Result<bool, EngineFault>
    ensures bad { IfOk result (λ bad. bad ≡ kept_bad line.now) }
    ensures timeline { OnOk result (timeline.new ≡ (kept_answer line.now timeline.old).timeline) }
    ensures text { OnOk result (Appends (W.written writer.old) (W.written writer.new) (kept_answer line.now timeline.old).text) }
    ensures stays { OnOk result (W.has_failed writer.new ≡ W.has_failed writer.old) }
    ensures breaks { IfErr result (λ e. e ≡ EngineFault.Write → Breaks (kept_answer line.now timeline.old) timeline.new
        (W.written writer.old) (W.written writer.new)) }
    ensures command { IfErr result (λ e. e ≡ EngineFault.NoMemory → kept_command line.now ≡ true) }
    ensures untouched { IfErr result (λ e. e ≡ EngineFault.NoMemory → writer.new ≡ writer.old) }
    ensures unchanged { IfErr result (λ e. e ≡ EngineFault.NoMemory → timeline.new ≡ timeline.old) }
    ensures memory { IfErr result (λ e. e ≡ EngineFault.NoMemory → MayWant (kept_said line.now) timeline.old) }
    ensures fault { IfErr result (λ e. IsWriteFault e (W.has_failed writer.new)) }
{
    if !line.has_word() {
        return Ok(false);
    }
    if line.is_search() {
        return answer_searching(alloc, line, writer, timeline);
    }
    match line.parse_plain() {
        Err(fault) => match write_text(writer, fault_line(fault).as_bytes()) {
            Ok(()) => Ok(true),
            Err(fault) => Err(fault),
        },
        Ok(command) => match answer_command(alloc, &command, writer, timeline) {
            Ok(()) => Ok(false),
            Err(fault) => Err(fault),
        },
    }
}
