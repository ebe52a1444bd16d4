//! Commands.

ghost use Rattle.std.specs.Prelude.{◌≡◌, false, bytes_eq, codes};
ghost use Rattle.std.specs.List.{list_all};
ghost use Rattle.pfl_lines.specs.Words.{words};
ghost use Rattle.pfl_lines.specs.inner.Readings.{Gives};
ghost use Rattle.pfl_lines.specs.Commands.{packet_at, tick_at, kill_at, bare_node_event_at, flush_at, restart_at, ticket_at, cut_event_at};
ghost use Rattle.pfl_lines.specs.Commands.{bare_frame_event_at, node_event_by, frame_event_by, event_by, event_at, step_at, begins_event};
ghost use Rattle.pfl_lines.specs.Commands.{why_event_at, numbered_ask_at, ask_by, ask_at, fork_at, drop_at, names_at, command_by, command_at};
ghost use Rattle.pfl_lines.specs.Commands.{finished, whole_event, whole_step, whole_why, whole_ask, whole_on, whole_command, command_of};
ghost use Rattle.pfl_lines.specs.Commands.{is_text, checked, parsed};

use crate::ask_words::{bare_ask, is_ask_word, numbered_ask};
use crate::draft::{AskDraft, CommandDraft, EventDraft};
use crate::event_words::{bare_frame_event, bare_node_event, is_event_word};
use crate::fault::LineFault;
use crate::packets::fields_at;
use crate::parts::{branch_at, dir_at, name_at, node_at, number_at};
use crate::words::{is_word, try_read, word_at};
use pfl_base::{GREATEST_NUMBER, Packet};
use pfl_language::{Ask, BranchWord, Command, Event, FrameEvent, NodeEvent};

/// The most bytes of a line, its end not counted.
pub const LONGEST: usize = 512;

/// `NODE in|out`, and a packet's fields.
#[tactic(auto, unfolding(crate::specs::Commands::packet_at))]
fn packet_at(line: &[u8]) -> Result<(EventDraft, &[u8]), LineFault>
    ensures { Gives (λ x. (x.0, words x.1.now)) result (packet_at (words line.now)) }
{
    let (node, rest) = node_at(line)?;
    let (dir, rest) = dir_at(rest)?;
    let (fields, rest) = try_read!(fields_at(rest));
    Ok((EventDraft::Packet { node, dir, fields }, rest))
}

/// `NODE MS`.
#[tactic(auto, unfolding(crate::specs::Commands::tick_at))]
fn tick_at(line: &[u8]) -> Result<(EventDraft, &[u8]), LineFault>
    ensures { Gives (λ x. (x.0, words x.1.now)) result (tick_at (words line.now)) }
{
    let (node, rest) = node_at(line)?;
    let (ms, rest) = number_at(rest, u64::MAX)?;
    let event = NodeEvent::Tick { ms };
    Ok((EventDraft::Whole(Event::At { node, event }), rest))
}

/// `NODE NAME`.
#[tactic(auto, unfolding(crate::specs::Commands::kill_at))]
fn kill_at(line: &[u8]) -> Result<(EventDraft, &[u8]), LineFault>
    ensures { Gives (λ x. (x.0, words x.1.now)) result (kill_at (words line.now)) }
{
    let (node, rest) = node_at(line)?;
    let (name, rest) = name_at(rest)?;
    let event = NodeEvent::Kill { name };
    Ok((EventDraft::Whole(Event::At { node, event }), rest))
}

/// `NODE`, of an event that says no more.
#[tactic(auto, unfolding(crate::specs::Commands::bare_node_event_at))]
fn bare_node_event_at(event: NodeEvent, line: &[u8]) -> Result<(EventDraft, &[u8]), LineFault>
    ensures { Gives (λ x. (x.0, words x.1.now)) result (bare_node_event_at event (words line.now)) }
{
    let (node, rest) = node_at(line)?;
    Ok((EventDraft::Whole(Event::At { node, event }), rest))
}

/// `NODE`.
#[tactic(auto, unfolding(crate::specs::Commands::flush_at))]
fn flush_at(line: &[u8]) -> Result<(EventDraft, &[u8]), LineFault>
    ensures { Gives (λ x. (x.0, words x.1.now)) result (flush_at (words line.now)) }
{
    let (node, rest) = node_at(line)?;
    Ok((EventDraft::Whole(Event::Flush { node }), rest))
}

/// `NODE`.
#[tactic(auto, unfolding(crate::specs::Commands::restart_at))]
fn restart_at(line: &[u8]) -> Result<(EventDraft, &[u8]), LineFault>
    ensures { Gives (λ x. (x.0, words x.1.now)) result (restart_at (words line.now)) }
{
    let (node, rest) = node_at(line)?;
    Ok((EventDraft::Whole(Event::Restart { node }), rest))
}

/// A ticket.
fn ticket_at(line: &[u8]) -> Result<(u32, &[u8]), LineFault>
    ensures { Gives (λ x. (x.0, words x.1.now)) result (ticket_at (words line.now)) }
{
    let (ticket, rest) = number_at(line, GREATEST_NUMBER)?;
    Ok((ticket as u32, rest))
}

/// `TICKET LEN`.
#[tactic(auto, unfolding(crate::specs::Commands::cut_event_at))]
fn cut_event_at(line: &[u8]) -> Result<(EventDraft, &[u8]), LineFault>
    ensures { Gives (λ x. (x.0, words x.1.now)) result (cut_event_at (words line.now)) }
{
    let (ticket, rest) = ticket_at(line)?;
    let (len, rest) = number_at(rest, GREATEST_NUMBER)?;
    let event = FrameEvent::Cut { len: len as u32 };
    Ok((EventDraft::Whole(Event::Of { ticket, event }), rest))
}

/// `TICKET`, of an event that says no more.
#[tactic(auto, unfolding(crate::specs::Commands::bare_frame_event_at))]
fn bare_frame_event_at(event: FrameEvent, line: &[u8]) -> Result<(EventDraft, &[u8]), LineFault>
    ensures { Gives (λ x. (x.0, words x.1.now)) result (bare_frame_event_at event (words line.now)) }
{
    let (ticket, rest) = ticket_at(line)?;
    Ok((EventDraft::Whole(Event::Of { ticket, event }), rest))
}

/// What belongs to the word of an event of a node, where that is not `packet`.
fn node_event_by<'a>(word: &[u8], line: &'a [u8]) -> Result<(EventDraft, &'a [u8]), LineFault>
    requires other { bytes_eq word.now (codes "packet") ≡ false }
    ensures { Gives (λ x. (x.0, words x.1.now)) result (node_event_by word.now (words line.now)) }
{
    if is_word(word, "tick") {
        return tick_at(line);
    }
    if is_word(word, "kill") {
        return kill_at(line);
    }
    match bare_node_event(word) {
        Some(event) => bare_node_event_at(event, line),
        None => Err(LineFault::Unknown),
    }
}

/// What belongs to the word of an event of a frame in flight, or of a node, where that is not `packet`.
fn frame_event_by<'a>(word: &[u8], line: &'a [u8]) -> Result<(EventDraft, &'a [u8]), LineFault>
    requires other { bytes_eq word.now (codes "packet") ≡ false }
    ensures { Gives (λ x. (x.0, words x.1.now)) result (frame_event_by word.now (words line.now)) }
{
    if is_word(word, "cut") {
        return cut_event_at(line);
    }
    match bare_frame_event(word) {
        Some(event) => bare_frame_event_at(event, line),
        None => node_event_by(word, line),
    }
}

/// What belongs to an event's word. The commonest word is tried first.
#[tactic(auto, using(crate::proofs::Commanded::packet_first))]
fn event_by<'a>(word: &[u8], line: &'a [u8]) -> Result<(EventDraft, &'a [u8]), LineFault>
    ensures { Gives (λ x. (x.0, words x.1.now)) result (event_by word.now (words line.now)) }
{
    if is_word(word, "packet") {
        return packet_at(line);
    }
    if is_word(word, "flush") {
        return flush_at(line);
    }
    if is_word(word, "restart") {
        return restart_at(line);
    }
    frame_event_by(word, line)
}

/// An event's word and what belongs to it.
#[tactic(auto, unfolding(crate::specs::Commands::event_at))]
pub(crate) fn event_at(line: &[u8]) -> Result<(EventDraft, &[u8]), LineFault>
    ensures { Gives (λ x. (x.0, words x.1.now)) result (event_at (words line.now)) }
{
    let (word, rest) = word_at(line)?;
    event_by(word, rest)
}

/// `EVENT`.
#[tactic(auto, unfolding(crate::specs::Commands::step_at))]
fn step_at(line: &[u8]) -> Result<(AskDraft, &[u8]), LineFault>
    ensures { Gives (λ x. (x.0, words x.1.now)) result (step_at (words line.now)) }
{
    let (event, rest) = try_read!(event_at(line));
    Ok((AskDraft::Step(event), rest))
}

/// Whether the line begins with an event's word.
fn begins_event(line: &[u8]) -> bool
    ensures { result ≡ begins_event (words line.now) }
{
    match word_at(line) {
        Ok((word, _)) => is_event_word(word),
        Err(_) => false,
    }
}

/// `EVENT`, asked about.
#[tactic(auto, unfolding(crate::specs::Commands::why_event_at))]
fn why_event_at(line: &[u8]) -> Result<(AskDraft, &[u8]), LineFault>
    ensures { Gives (λ x. (x.0, words x.1.now)) result (why_event_at (words line.now)) }
{
    let (event, rest) = try_read!(event_at(line));
    Ok((AskDraft::WhyStep(event), rest))
}

/// `N`.
#[tactic(auto, unfolding(crate::specs::Commands::numbered_ask_at))]
fn numbered_ask_at<'a>(word: &[u8], line: &'a [u8]) -> Result<(AskDraft, &'a [u8]), LineFault>
    ensures { Gives (λ x. (x.0, words x.1.now)) result (numbered_ask_at word.now (words line.now)) }
{
    let (n, rest) = number_at(line, GREATEST_NUMBER)?;
    match numbered_ask(word, n as u32) {
        Some(ask) => Ok((AskDraft::Whole(ask), rest)),
        None => Err(LineFault::Unknown),
    }
}

/// What belongs to the word of a question after the branch. An event's word is no number.
fn ask_by<'a>(word: &[u8], line: &'a [u8]) -> Result<(AskDraft, &'a [u8]), LineFault>
    ensures { Gives (λ x. (x.0, words x.1.now)) result (ask_by word.now (words line.now)) }
{
    if is_word(word, "step") {
        return step_at(line);
    }
    if is_word(word, "why") && begins_event(line) {
        return why_event_at(line);
    }
    match bare_ask(word) {
        Some(ask) => Ok((AskDraft::Whole(ask), line)),
        None => numbered_ask_at(word, line),
    }
}

/// `BR`, and what is asked of it.
#[tactic(auto, unfolding(crate::specs::Commands::ask_at))]
fn ask_at<'a>(word: &[u8], line: &'a [u8]) -> Result<(CommandDraft, &'a [u8]), LineFault>
    ensures { Gives (λ x. (x.0, words x.1.now)) result (ask_at word.now (words line.now)) }
{
    let (branch, rest) = try_read!(branch_at(line));
    let (ask, rest) = try_read!(ask_by(word, rest));
    Ok((CommandDraft::On { branch, ask }, rest))
}

/// `BR K NEW`.
#[tactic(auto, unfolding(crate::specs::Commands::fork_at))]
fn fork_at(line: &[u8]) -> Result<(CommandDraft, &[u8]), LineFault>
    ensures { Gives (λ x. (x.0, words x.1.now)) result (fork_at (words line.now)) }
{
    let (from, rest) = try_read!(branch_at(line));
    let (place, rest) = number_at(rest, GREATEST_NUMBER)?;
    let place = place as u32;
    let (name, rest) = try_read!(branch_at(rest));
    let fork = Command::Fork { from, place, name };
    Ok((CommandDraft::Whole(fork), rest))
}

/// `BR`.
#[tactic(auto, unfolding(crate::specs::Commands::drop_at))]
fn drop_at(line: &[u8]) -> Result<(CommandDraft, &[u8]), LineFault>
    ensures { Gives (λ x. (x.0, words x.1.now)) result (drop_at (words line.now)) }
{
    let (branch, rest) = try_read!(branch_at(line));
    Ok((CommandDraft::Whole(Command::Drop { branch }), rest))
}

/// Nothing.
fn names_at(line: &[u8]) -> Result<(CommandDraft, &[u8]), LineFault>
    ensures { Gives (λ x. (x.0, words x.1.now)) result (names_at (words line.now)) }
{
    Ok((CommandDraft::Whole(Command::Names), line))
}

/// What belongs to a command's word. An unknown word is a fault before a branch that is missing.
fn command_by<'a>(word: &[u8], line: &'a [u8]) -> Result<(CommandDraft, &'a [u8]), LineFault>
    ensures { Gives (λ x. (x.0, words x.1.now)) result (command_by word.now (words line.now)) }
{
    if is_ask_word(word) {
        return ask_at(word, line);
    }
    if is_word(word, "fork") {
        return fork_at(line);
    }
    if is_word(word, "drop") {
        return drop_at(line);
    }
    if is_word(word, "names") {
        return names_at(line);
    }
    Err(LineFault::Unknown)
}

/// A command's word and what belongs to it.
#[tactic(auto, unfolding(crate::specs::Commands::command_at))]
fn command_at(line: &[u8]) -> Result<(CommandDraft, &[u8]), LineFault>
    ensures { Gives (λ x. (x.0, words x.1.now)) result (command_at (words line.now)) }
{
    let (word, rest) = word_at(line)?;
    command_by(word, rest)
}

/// The event, once its packet is judged.
pub(crate) fn whole_event(draft: EventDraft) -> Result<Event, LineFault>
    ensures { result ≡ whole_event draft }
{
    match draft {
        EventDraft::Packet { node, dir, fields } => match Packet::of(fields) {
            Ok(packet) => Ok(Event::At {
                node,
                event: NodeEvent::Packet { dir, packet },
            }),
            Err(why) => Err(LineFault::Packet(why)),
        },
        EventDraft::Whole(event) => Ok(event),
    }
}

/// An event that happens.
#[tactic(auto, unfolding(crate::specs::Commands::whole_step))]
fn whole_step(event: EventDraft) -> Result<Ask, LineFault>
    ensures { result ≡ whole_step event }
{
    let event = whole_event(event)?;
    Ok(Ask::Step { event })
}

/// An event that is asked about.
#[tactic(auto, unfolding(crate::specs::Commands::whole_why))]
fn whole_why(event: EventDraft) -> Result<Ask, LineFault>
    ensures { result ≡ whole_why event }
{
    let event = whole_event(event)?;
    Ok(Ask::WhyStep { event })
}

/// What is asked, once its packet is judged.
fn whole_ask(draft: AskDraft) -> Result<Ask, LineFault>
    ensures { result ≡ whole_ask draft }
{
    match draft {
        AskDraft::Step(event) => whole_step(event),
        AskDraft::WhyStep(event) => whole_why(event),
        AskDraft::Whole(ask) => Ok(ask),
    }
}

/// What is asked of a branch.
#[tactic(auto, unfolding(crate::specs::Commands::whole_on))]
fn whole_on(branch: BranchWord, ask: AskDraft) -> Result<Command, LineFault>
    ensures { result ≡ whole_on branch ask }
{
    let ask = whole_ask(ask)?;
    Ok(Command::On { branch, ask })
}

/// The command, once its packet is judged.
fn whole_command(draft: CommandDraft) -> Result<Command, LineFault>
    ensures { result ≡ whole_command draft }
{
    match draft {
        CommandDraft::On { branch, ask } => whole_on(branch, ask),
        CommandDraft::Whole(command) => Ok(command),
    }
}

/// What the words of a line say.
#[tactic(auto, unfolding(crate::specs::Commands::command_of))]
pub fn command_of(line: &[u8]) -> Result<Command, LineFault>
    ensures { result ≡ command_of (words line.now) }
{
    let (command, rest) = try_read!(command_at(line));
    if word_at(rest).is_ok() {
        return Err(LineFault::Extra);
    }
    whole_command(command)
}

/// Whether the byte is a tab, or printable.
fn is_text(byte: u8) -> bool
    ensures { result ≡ is_text byte }
{
    byte == b'\t' || (32..=126).contains(&byte)
}

/// Whether each byte is a tab, or printable. Without an early end, so that many bytes are compared at once.
fn is_all_text(line: &[u8]) -> bool
    ensures { result ≡ list_all is_text line.now }
{
    let mut all = true;
    for byte in line {
        all &= is_text(*byte);
    }
    all
}

/// The line, which has at most 512 bytes, all of them text.
pub fn checked(line: &[u8]) -> Result<&[u8], LineFault>
    ensures { Gives (λ x. x.now) result (checked line.now) }
{
    if line.len() > LONGEST {
        Err(LineFault::Long)
    } else if is_all_text(line) {
        Ok(line)
    } else {
        Err(LineFault::NotAscii)
    }
}

/// What a line says. It takes no memory.
#[tactic(auto, unfolding(crate::specs::Commands::parsed))]
pub fn parse_line(line: &[u8]) -> Result<Command, LineFault>
    ensures { result ≡ parsed line.now }
{
    let text = checked(line)?;
    command_of(text)
}
