//! Lines of sessions.

ghost use Rattle.std.specs.Prelude.{◌≡◌};
ghost use Rattle.pfl_lines.specs.Words.{words};
ghost use Rattle.pfl_lines.specs.Commands.{finished};
ghost use Rattle.pfl_lines.specs.Session.{called, follow_after, follow_of, parsed_session, session_of};

use crate::commands::{checked, command_of};
use crate::fault::LineFault;
use crate::parts::number_at;
use crate::words::{is_word, word_at};
use pfl_base::GREATEST_NUMBER;
use pfl_language::Command;

/// What a line says to a session.
#[derive(Clone, Copy, Debug)]
pub enum SessionLine {
    /// It wants to see a revision.
    View,
    /// It asks for the lines that the pair was set up with.
    Setup,
    /// It wants the entries of the journal as they are made: those after the first K, or those that are still to come.
    Follow(Option<u32>),
    /// It asks a command.
    Ask(Command),
}

/// What the line says, if no word is left over.
fn finished(said: SessionLine, rest: &[u8]) -> Result<SessionLine, LineFault>
    ensures { result ≡ finished (said, words rest.now) }
{
    match word_at(rest) {
        Ok(_) => Err(LineFault::Extra),
        Err(_) => Ok(said),
    }
}

/// `K`, the number of entries that are passed over.
#[tactic(auto, unfolding(crate::specs::Session::follow_after))]
fn follow_after(line: &[u8]) -> Result<SessionLine, LineFault>
    ensures { result ≡ follow_after (words line.now) }
{
    let (passed, rest) = number_at(line, GREATEST_NUMBER)?;
    finished(SessionLine::Follow(Some(passed as u32)), rest)
}

/// `[K]`.
fn follow_of(line: &[u8]) -> Result<SessionLine, LineFault>
    ensures { result ≡ follow_of (words line.now) }
{
    match word_at(line) {
        Ok(_) => follow_after(line),
        Err(_) => Ok(SessionLine::Follow(None)),
    }
}

/// The command that the words say.
fn called(line: &[u8]) -> Result<SessionLine, LineFault>
    ensures { result ≡ called (words line.now) }
{
    match command_of(line) {
        Ok(command) => Ok(SessionLine::Ask(command)),
        Err(fault) => Err(fault),
    }
}

/// What the words of a line say to a session.
#[tactic(auto, unfolding(crate::specs::Session::session_of))]
fn session_of(line: &[u8]) -> Result<SessionLine, LineFault>
    ensures { result ≡ session_of (words line.now) }
{
    let (word, rest) = word_at(line)?;
    if is_word(word, "view") {
        return finished(SessionLine::View, rest);
    }
    if is_word(word, "setup") {
        return finished(SessionLine::Setup, rest);
    }
    if is_word(word, "follow") {
        return follow_of(rest);
    }
    called(line)
}

/// What a line says to a session: `view`, `setup`, `follow`, or a command. It takes no memory.
#[tactic(auto, unfolding(crate::specs::Session::parsed_session))]
pub fn parse_session(line: &[u8]) -> Result<SessionLine, LineFault>
    ensures { result ≡ parsed_session line.now }
{
    let text = checked(line)?;
    session_of(text)
}
