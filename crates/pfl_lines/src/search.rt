//! The line `search`, and lines of scripts.

ghost use Rattle.std.specs.Prelude.{◌≡◌, ◌<◌, ◌∷◌, false, IfSome, length};
ghost use Rattle.std.specs.Option.{option_map};
ghost use Rattle.pfl_lines.specs.Words.{words};
ghost use Rattle.pfl_lines.specs.inner.Parts.{parts_behind};
ghost use Rattle.pfl_lines.specs.inner.Readings.{Gives};
ghost use Rattle.pfl_lines.specs.Search.{parts_of, judged_at, passed_at, unpassed_at, dropped_at, admitted_at, split_at, question_by};
ghost use Rattle.pfl_lines.specs.Search.{question_at, scope_at, goal_at, goal_of};
ghost use Rattle.pfl_lines.specs.Search.{any_cut_at, any_frame_at, any_frame_by, given_at, move_at, move_of, choice_of, says_then, choices_of, search_of};
ghost use Rattle.pfl_lines.specs.Search.{searched, commanded, script_of, parsed_script, says_search, SaysCommand};

use crate::commands::{checked, command_of, event_at, parse_line, whole_event};
use crate::event_words::bare_frame_event;
use crate::fault::LineFault;
use crate::numbers::cut;
use crate::parts::{branch_at, number_at};
use crate::words::{is_word, try_read, word_at};
use arrayvec::ArrayVec;
use pfl_base::GREATEST_NUMBER;
use pfl_language::{BranchWord, Choice, Command, Event, FrameEvent, Goal, Move, Question, Scope};

/// The most events of a run that is searched for.
const DEEPEST: u64 = 64;

/// The last phase of a run that is searched for; the first one is 0.
const LAST_PHASE: u32 = 15;

/// What is searched for: the runs of a branch's next events.
#[derive(Drop)]
pub struct SearchLine {
    /// The branch whose events go before.
    pub branch: BranchWord,
    /// The most events of a run, at most 64.
    pub depth: u32,
    /// The most runs that are tried, at most 4294967295.
    pub most: u64,
    /// What a run is to lead to.
    pub goal: Goal,
    /// Which events a run may have, each in its phase.
    pub choices: ArrayVec<Choice, 16>,
}

/// What a line of a script says.
#[derive(Drop)]
pub enum ScriptLine {
    /// It asks a command.
    Command(Command),
    /// It asks for a run.
    Search(SearchLine),
}

/// An event, whose packet is judged as soon as its words are read.
#[tactic(auto, unfolding(crate::specs::Search::judged_at))]
fn judged_at(line: &[u8]) -> Result<(Event, &[u8]), LineFault>
    ensures { Gives (λ x. (x.0, words x.1.now)) result (judged_at (words line.now)) }
{
    let (draft, rest) = try_read!(event_at(line));
    let event = try_read!(whole_event(draft));
    Ok((event, rest))
}

/// `EVENT`, by which a packet is to pass.
#[tactic(auto, unfolding(crate::specs::Search::passed_at))]
fn passed_at(line: &[u8]) -> Result<(Question, &[u8]), LineFault>
    ensures { Gives (λ x. (x.0, words x.1.now)) result (passed_at (words line.now)) }
{
    let (event, rest) = try_read!(judged_at(line));
    Ok((Question::Passed(event), rest))
}

/// `EVENT`, by which no packet is to pass.
#[tactic(auto, unfolding(crate::specs::Search::unpassed_at))]
fn unpassed_at(line: &[u8]) -> Result<(Question, &[u8]), LineFault>
    ensures { Gives (λ x. (x.0, words x.1.now)) result (unpassed_at (words line.now)) }
{
    let (event, rest) = try_read!(judged_at(line));
    Ok((Question::Unpassed(event), rest))
}

/// `EVENT`, by which a packet is to be dropped.
#[tactic(auto, unfolding(crate::specs::Search::dropped_at))]
fn dropped_at(line: &[u8]) -> Result<(Question, &[u8]), LineFault>
    ensures { Gives (λ x. (x.0, words x.1.now)) result (dropped_at (words line.now)) }
{
    let (event, rest) = try_read!(judged_at(line));
    Ok((Question::Dropped(event), rest))
}

/// `EVENT`, by which a packet is to pass, or to be held.
#[tactic(auto, unfolding(crate::specs::Search::admitted_at))]
fn admitted_at(line: &[u8]) -> Result<(Question, &[u8]), LineFault>
    ensures { Gives (λ x. (x.0, words x.1.now)) result (admitted_at (words line.now)) }
{
    let (event, rest) = try_read!(judged_at(line));
    Ok((Question::Admitted(event), rest))
}

/// `EVENT` of a node by itself, whose packet is to be dropped there and admitted at the other node.
#[tactic(auto, unfolding(crate::specs::Search::split_at))]
fn split_at(line: &[u8]) -> Result<(Question, &[u8]), LineFault>
    ensures { Gives (λ x. (x.0, words x.1.now)) result (split_at (words line.now)) }
{
    let (event, rest) = try_read!(judged_at(line));
    match event {
        Event::At { node, event } => Ok((Question::Split { node, event }, rest)),
        _ => Err(LineFault::Unknown),
    }
}

/// What belongs to a question's word.
fn question_by<'a>(word: &[u8], line: &'a [u8]) -> Result<(Question, &'a [u8]), LineFault>
    ensures { Gives (λ x. (x.0, words x.1.now)) result (question_by word.now (words line.now)) }
{
    if is_word(word, "apart") {
        return Ok((Question::Apart, line));
    }
    if is_word(word, "differ") {
        return Ok((Question::Differ, line));
    }
    if is_word(word, "passed") {
        return passed_at(line);
    }
    if is_word(word, "unpassed") {
        return unpassed_at(line);
    }
    if is_word(word, "dropped") {
        return dropped_at(line);
    }
    if is_word(word, "admitted") {
        return admitted_at(line);
    }
    if is_word(word, "split") {
        return split_at(line);
    }
    Err(LineFault::Unknown)
}

/// A question's word and what belongs to it.
#[tactic(auto, unfolding(crate::specs::Search::question_at))]
fn question_at(line: &[u8]) -> Result<(Question, &[u8]), LineFault>
    ensures { Gives (λ x. (x.0, words x.1.now)) result (question_at (words line.now)) }
{
    let (word, rest) = word_at(line)?;
    question_by(word, rest)
}

/// `[landed|quiet|settled]`.
fn scope_at(line: &[u8]) -> (Scope, &[u8])
    ensures { (result.0, words result.1.now) ≡ scope_at (words line.now) }
{
    let Ok((word, rest)) = word_at(line) else {
        return (Scope::Everywhere, line);
    };
    if is_word(word, "landed") {
        return (Scope::Landed, rest);
    }
    if is_word(word, "quiet") {
        return (Scope::Quiet, rest);
    }
    if is_word(word, "settled") {
        return (Scope::Settled, rest);
    }
    (Scope::Everywhere, line)
}

/// `[landed|quiet|settled] QUESTION`.
#[tactic(auto, unfolding(crate::specs::Search::goal_at))]
fn goal_at(line: &[u8]) -> Result<(Goal, &[u8]), LineFault>
    ensures { Gives (λ x. (x.0, words x.1.now)) result (goal_at (words line.now)) }
{
    let (scope, rest) = scope_at(line);
    let (question, rest) = try_read!(question_at(rest));
    Ok((Goal { question, scope }, rest))
}

/// A goal, if no word is left over.
#[tactic(auto, unfolding(crate::specs::Search::goal_of))]
fn goal_of(line: &[u8]) -> Result<Goal, LineFault>
    ensures { result ≡ goal_of (words line.now) }
{
    let (goal, rest) = try_read!(goal_at(line));
    match word_at(rest) {
        Ok(_) => Err(LineFault::Extra),
        Err(_) => Ok(goal),
    }
}

/// `LEN`, at which any frame is cut.
#[tactic(auto, unfolding(crate::specs::Search::any_cut_at))]
fn any_cut_at(line: &[u8]) -> Result<(Move, &[u8]), LineFault>
    ensures { Gives (λ x. (x.0, words x.1.now)) result (any_cut_at (words line.now)) }
{
    let (len, rest) = number_at(line, GREATEST_NUMBER)?;
    let event = FrameEvent::Cut { len: len as u32 };
    Ok((Move::AnyFrame(event), rest))
}

/// What belongs to the word of an event of any frame.
fn any_frame_by<'a>(word: &[u8], line: &'a [u8]) -> Result<(Move, &'a [u8]), LineFault>
    ensures { Gives (λ x. (x.0, words x.1.now)) result (any_frame_by word.now (words line.now)) }
{
    if is_word(word, "cut") {
        return any_cut_at(line);
    }
    match bare_frame_event(word) {
        Some(event) => Ok((Move::AnyFrame(event), line)),
        None => Err(LineFault::Unknown),
    }
}

/// The word of an event of any frame and what belongs to it.
#[tactic(auto, unfolding(crate::specs::Search::any_frame_at))]
fn any_frame_at(line: &[u8]) -> Result<(Move, &[u8]), LineFault>
    ensures { Gives (λ x. (x.0, words x.1.now)) result (any_frame_at (words line.now)) }
{
    let (word, rest) = word_at(line)?;
    any_frame_by(word, rest)
}

/// An event as a step has it.
#[tactic(auto, unfolding(crate::specs::Search::given_at))]
fn given_at(line: &[u8]) -> Result<(Move, &[u8]), LineFault>
    ensures { Gives (λ x. (x.0, words x.1.now)) result (given_at (words line.now)) }
{
    let (event, rest) = try_read!(judged_at(line));
    Ok((Move::Given(event), rest))
}

/// `any` and what happens to any frame, or an event.
#[tactic(auto, unfolding(crate::specs::Search::move_at))]
fn move_at(line: &[u8]) -> Result<(Move, &[u8]), LineFault>
    ensures { Gives (λ x. (x.0, words x.1.now)) result (move_at (words line.now)) }
{
    let (word, rest) = word_at(line)?;
    if is_word(word, "any") {
        return any_frame_at(rest);
    }
    given_at(line)
}

/// A move, if no word is left over.
#[tactic(auto, unfolding(crate::specs::Search::move_of))]
fn move_of(line: &[u8]) -> Result<Move, LineFault>
    ensures { result ≡ move_of (words line.now) }
{
    let (what, rest) = try_read!(move_at(line));
    match word_at(rest) {
        Ok(_) => Err(LineFault::Extra),
        Err(_) => Ok(what),
    }
}

/// `N MOVE`, a whole part, as a choice of the phase.
#[tactic(auto, unfolding(crate::specs::Search::choice_of))]
fn choice_of(part: &[u8], phase: u32) -> Result<Choice, LineFault>
    ensures { result ≡ choice_of phase (words part.now) }
{
    let (uses, rest) = number_at(part, GREATEST_NUMBER)?;
    let what = move_of(rest)?;
    let uses = uses as u32;
    Ok(Choice { what, uses, phase })
}

/// The first part, and what stands after its semicolon.
fn part_at(text: &[u8]) -> (&[u8], Option<&[u8]>)
    ensures parts { parts_of text.now ≡ result.0.now ∷ parts_behind (option_map (λ x. x.now) result.1) }
    ensures shorter { IfSome result.1 (λ x. length x.now < length text.now) }
{
    match cut(text, b';') {
        Ok((part, rest)) => (part, Some(rest)),
        Err(_) => (text, None),
    }
}

/// Whether a part is `then`, which begins the next phase.
fn says_then(part: &[u8]) -> bool
    ensures { result ≡ says_then (words part.now) }
{
    match word_at(part) {
        Ok((word, rest)) => word_at(rest).is_err() && is_word(word, "then"),
        Err(_) => false,
    }
}

/// The choices after the first part: at most 16, in at most 16 phases.
fn choices_of(behind: Option<&[u8]>) -> Result<ArrayVec<Choice, 16>, LineFault>
    ensures { Gives (λ x. x.items) result (choices_of (parts_behind (option_map (λ x. x.now) behind.entry))) }
{
    let mut choices = ArrayVec::new();
    let mut rest = behind;
    let mut phase = 0;
    while let Some(text) = rest {
        let (part, others) = part_at(text);
        if says_then(part) {
            if phase == LAST_PHASE {
                return Err(LineFault::Extra);
            }
            phase += 1;
        } else {
            if choices.is_full() {
                return Err(LineFault::Extra);
            }
            let choice = choice_of(part, phase)?;
            choices.push(choice);
        }
        rest = others;
    }
    Ok(choices)
}

/// `search BRANCH DEPTH RUNS GOAL; CHOICE; CHOICE ..; then; CHOICE ..`.
#[tactic(auto, unfolding(crate::specs::Search::search_of))]
fn search_of(text: &[u8]) -> Result<SearchLine, LineFault>
    ensures { result ≡ search_of (parts_of text.now) }
{
    let (first, behind) = part_at(text);
    let (_, rest) = word_at(first)?;
    let (branch, rest) = try_read!(branch_at(rest));
    let (depth, rest) = number_at(rest, DEEPEST)?;
    let (most, rest) = number_at(rest, GREATEST_NUMBER)?;
    let goal = goal_of(rest)?;
    let choices = choices_of(behind)?;
    Ok(SearchLine {
        branch,
        depth: depth as u32,
        most,
        goal,
        choices,
    })
}

/// What is searched for, as a line of a script.
fn searched(text: &[u8]) -> Result<ScriptLine, LineFault>
    ensures { result ≡ searched (parts_of text.now) }
{
    match search_of(text) {
        Ok(search) => Ok(ScriptLine::Search(search)),
        Err(fault) => Err(fault),
    }
}

/// The command that the words say, as a line of a script.
fn commanded(text: &[u8]) -> Result<ScriptLine, LineFault>
    ensures { result ≡ commanded (words text.now) }
{
    match command_of(text) {
        Ok(command) => Ok(ScriptLine::Command(command)),
        Err(fault) => Err(fault),
    }
}

/// What a text says as a line of a script.
#[tactic(auto, unfolding(crate::specs::Search::script_of))]
fn script_of(text: &[u8]) -> Result<ScriptLine, LineFault>
    ensures { result ≡ script_of text.now }
{
    let (word, _) = word_at(text)?;
    if is_word(word, "search") {
        return searched(text);
    }
    commanded(text)
}

/// Whether the first word of a line is `search`.
pub fn is_search(line: &[u8]) -> bool
    ensures { result ≡ says_search (words line.now) }
{
    match word_at(line) {
        Ok((word, _)) => is_word(word, "search"),
        Err(_) => false,
    }
}

/// What a line of a script says that does not begin with `search`. A command is small, and what any line may say has room for the
/// choices of a search.
pub fn parse_plain(line: &[u8]) -> Result<Command, LineFault>
    requires plain { says_search (words line.now) ≡ false }
    ensures { SaysCommand result (parsed_script line.now) }
{
    parse_line(line)
}

/// What a line of a script says: `search`, or a command. It takes no memory.
#[tactic(auto, unfolding(crate::specs::Search::parsed_script))]
pub fn parse_script(line: &[u8]) -> Result<ScriptLine, LineFault>
    ensures { result ≡ parsed_script line.now }
{
    let text = checked(line)?;
    script_of(text)
}
