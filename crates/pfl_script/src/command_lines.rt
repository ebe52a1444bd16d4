//! Commands as their lines say them, and the line of a journal's entry.

ghost use Rattle.std.specs.Prelude.{◌≡◌, ◌++◌, OnOk, IfOk};
ghost use Rattle.pfl_lines.specs.AskWords.{ask_rest};
ghost use Rattle.pfl_lines.specs.Written.{on_branch, rest_text, command_text};
ghost use Rattle.pfl_script.specs.Entries.{entry_text};

use crate::listed::push_shown;
use pfl_edits::NoMemory;
use pfl_language::{Ask, BranchWord, Command};
use pfl_lines::{EventWords, ask_word};
use std::alloc::Allocator;

/// Appends a command's word and a branch to a text.
fn push_on_branch<A: Allocator>(
    text: &mut Vec<u8, A>,
    word: &str,
    branch: &BranchWord,
) -> Result<(), NoMemory>
    ensures { OnOk result (text.new.items ≡ text.old.items ++ on_branch word.now branch.now) }
{
    text.extend_from_slice(word.as_bytes())?;
    text.extend_from_slice(b" ")?;
    Ok(text.extend_from_slice(branch.bytes())?)
}

/// Appends what is said after them to a text.
fn push_rest<A: Allocator>(text: &mut Vec<u8, A>, ask: &Ask) -> Result<(), NoMemory>
    ensures { OnOk result (text.new.items ≡ text.old.items ++ rest_text (ask_rest ask.now)) }
{
    match ask {
        Ask::Step { event } | Ask::WhyStep { event } => {
            text.extend_from_slice(b" ")?;
            push_shown(text, EventWords(*event))
        }
        Ask::Back { n: number }
        | Ask::Forward { n: number }
        | Ask::Past { place: number }
        | Ask::Why { place: number }
        | Ask::Frame { ticket: number }
        | Ask::Excise { place: number } => push_shown(text, format_args!(" {number}")),
        _ => Ok(()),
    }
}

/// Appends a command to a text, as its line says it.
fn push_command<A: Allocator>(text: &mut Vec<u8, A>, command: &Command) -> Result<(), NoMemory>
    ensures { OnOk result (text.new.items ≡ text.old.items ++ command_text command.now) }
{
    match command {
        Command::On { branch, ask } => {
            push_on_branch(text, ask_word(ask), branch)?;
            push_rest(text, ask)
        }
        Command::Fork { from, place, name } => {
            let place = *place;
            push_on_branch(text, "fork", from)?;
            push_shown(text, format_args!(" {place} "))?;
            Ok(text.extend_from_slice(name.bytes())?)
        }
        Command::Drop { branch } => push_on_branch(text, "drop", branch),
        Command::Names => Ok(text.extend_from_slice(b"names")?),
    }
}

/// The line of the journal's entry with this number: which session asked, and the command.
pub fn entry_line<A: Allocator>(
    alloc: A,
    number: u64,
    session: u32,
    command: &Command,
) -> Result<Vec<u8, A>, NoMemory>
    ensures { IfOk result (λ text. text.items ≡ entry_text number session command.now) }
{
    let mut text = Vec::new(alloc);
    push_shown(&mut text, format_args!("entry {number} {session} "))?;
    push_command(&mut text, command)?;
    text.extend_from_slice(b"\n")?;
    Ok(text)
}
