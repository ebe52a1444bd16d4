//! An event with what comes of it, and why, line by line.

ghost use Rattle.std.specs.Prelude.{◌≡◌, ◌++◌, IfOk, OnOk};
ghost use Rattle.std.specs.List.{flat_map};
ghost use Rattle.pfl_timeline.specs.reasons.Explaining.{explained_of};
ghost use Rattle.pfl_timeline.specs.Replies.{explanation_of};
ghost use Rattle.pfl_script.specs.Reasons.{record_line, expiry_line, reason_lines, why_line, outcome_line, came_line};
ghost use Rattle.pfl_script.specs.Replies.{reply_text};

use crate::against_lines::AgainstLine;
use crate::expiry_lines::{ExpiryLine, ScalingLines};
use crate::listed::push_shown;
use crate::logged::push_event;
use crate::outcomes::push_outcome;
use crate::packet_lines::PacketLines;
use crate::record_lines::RecordLine;
use crate::short_line::plain_line;
use pfl_base::Refusal;
use pfl_edits::NoMemory;
use pfl_language::Outcome;
use pfl_timeline::{Expiry, Explained, Explanation, TakenRecord};
use std::alloc::Allocator;

/// Puts the lines of records after a text, each with its fate.
fn push_records<A: Allocator>(
    text: &mut Vec<u8, A>,
    records: &[TakenRecord],
) -> Result<(), NoMemory>
    ensures { OnOk result (text.new.items ≡ text.old.items ++ flat_map record_line records.now) }
{
    for record in records {
        push_shown(text, RecordLine(record))?;
    }
    Ok(())
}

/// Puts the lines of states after a text, each with when it expires.
fn push_expiries<A: Allocator>(text: &mut Vec<u8, A>, states: &[Expiry]) -> Result<(), NoMemory>
    ensures { OnOk result (text.new.items ≡ text.old.items ++ flat_map expiry_line states.now) }
{
    for state in states {
        push_shown(text, ExpiryLine(*state))?;
    }
    Ok(())
}

/// Puts the lines that show why an event has its outcome, or is refused, after a text.
fn push_reason<A: Allocator, B: Allocator>(
    text: &mut Vec<u8, A>,
    why: &Explained<B>,
) -> Result<(), NoMemory>
    ensures { OnOk result (text.new.items ≡ text.old.items ++ reason_lines (explained_of why.now)) }
{
    match why {
        Explained::Packet(why) => push_shown(text, PacketLines(*why)),
        Explained::Records(list) => push_records(text, list.as_slice()),
        Explained::Expiries {
            clock,
            states,
            adaptive,
            list,
        } => {
            let scaling = ScalingLines {
                clock: *clock,
                states: *states,
                adaptive: *adaptive,
            };
            push_shown(text, scaling)?;
            push_expiries(text, list.as_slice())
        }
        Explained::Plain => Ok(()),
        Explained::Stopped(against) => push_shown(text, AgainstLine(*against)),
    }
}

/// Puts the first line after a text.
fn push_why<A: Allocator>(text: &mut Vec<u8, A>, name: &[u8], place: usize) -> Result<(), NoMemory>
    ensures { OnOk result (text.new.items ≡ text.old.items ++ why_line name.now place) }
{
    text.extend_from_slice(b"why ")?;
    text.extend_from_slice(name)?;
    push_shown(text, format_args!(" {place}\n"))
}

/// Puts the line of an event's outcome after a text.
pub(crate) fn push_outcome_line<A: Allocator>(
    text: &mut Vec<u8, A>,
    outcome: Outcome,
) -> Result<(), NoMemory>
    ensures { OnOk result (text.new.items ≡ text.old.items ++ outcome_line outcome) }
{
    let mut line = plain_line("outcome ");
    push_outcome(&mut line, outcome);
    line.push_str("\n");
    Ok(text.extend_from_slice(line.as_str().as_bytes())?)
}

/// Puts the line of what comes of an event after a text.
fn push_came<A: Allocator>(
    text: &mut Vec<u8, A>,
    came: Result<Outcome, Refusal>,
) -> Result<(), NoMemory>
    ensures { OnOk result (text.new.items ≡ text.old.items ++ came_line came) }
{
    match came {
        Ok(outcome) => push_outcome_line(text, outcome),
        Err(why) => {
            let number = why.number();
            let word = why.word();
            push_shown(text, format_args!("refused {number} {word}\n"))
        }
    }
}

/// The text that reports what comes of an event, and why.
pub fn explained_text<A: Allocator, B: Allocator>(
    alloc: A,
    explanation: &Explanation<B>,
) -> Result<Vec<u8, A>, NoMemory>
    ensures { IfOk result (λ text. text.items ≡ reply_text (explanation_of explanation.now)) }
{
    let name = explanation.name.bytes();
    let place = explanation.place;
    let mut text = Vec::new(alloc);
    push_why(&mut text, name, place)?;
    push_event(&mut text, name, place, &explanation.event)?;
    push_came(&mut text, explanation.came)?;
    push_reason(&mut text, &explanation.why)?;
    text.extend_from_slice(b"end\n")?;
    Ok(text)
}
