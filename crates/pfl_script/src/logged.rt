//! The events of a branch, line by line.

ghost use Rattle.std.specs.Prelude.{◌≡◌, ◌++◌, OnOk, IfOk};
ghost use Rattle.pfl_lines.specs.Written.{step_text};
ghost use Rattle.pfl_script.specs.Logs.{log_line, logged_line, logged_lines, log_text};

use crate::listed::push_shown;
use pfl_edits::NoMemory;
use pfl_language::Event;
use pfl_lines::EventWords;
use std::alloc::Allocator;

/// Appends the first line to a text.
fn push_head<A: Allocator>(
    text: &mut Vec<u8, A>,
    name: &[u8],
    events: usize,
    cursor: usize,
) -> Result<(), NoMemory>
    ensures { OnOk result (text.new.items ≡ text.old.items ++ log_line name.now events cursor) }
{
    text.extend_from_slice(b"log ")?;
    text.extend_from_slice(name)?;
    push_shown(text, format_args!(" events {events} cursor {cursor}\n"))
}

/// Appends the line that steps an event to a text.
fn push_step<A: Allocator>(
    text: &mut Vec<u8, A>,
    name: &[u8],
    event: &Event,
) -> Result<(), NoMemory>
    ensures { OnOk result (text.new.items ≡ text.old.items ++ step_text name.now event.now) }
{
    text.extend_from_slice(b"step ")?;
    text.extend_from_slice(name)?;
    text.extend_from_slice(b" ")?;
    push_shown(text, EventWords(*event))
}

/// Appends the line of an event to a text.
pub(crate) fn push_event<A: Allocator>(
    text: &mut Vec<u8, A>,
    name: &[u8],
    place: usize,
    event: &Event,
) -> Result<(), NoMemory>
    ensures { OnOk result (text.new.items ≡ text.old.items ++ logged_line name.now place event.now) }
{
    push_shown(text, format_args!("event {place} "))?;
    push_step(text, name, event)?;
    Ok(text.extend_from_slice(b"\n")?)
}

/// Appends the lines of events to a text, each with its place, counted from 1.
pub(crate) fn push_events<A: Allocator>(
    text: &mut Vec<u8, A>,
    name: &[u8],
    events: &[Event],
) -> Result<(), NoMemory>
    ensures { OnOk result (text.new.items ≡ text.old.items ++ logged_lines name.now 0 events.now) }
{
    for index in 0..events.len() {
        push_event(text, name, index + 1, &events[index])?;
    }
    Ok(())
}

/// The text that lists the events of a branch, those after its cursor too, and the cursor.
pub fn logged_text<A: Allocator>(
    alloc: A,
    name: &[u8],
    events: &[Event],
    cursor: usize,
) -> Result<Vec<u8, A>, NoMemory>
    ensures { IfOk result (λ text. text.items ≡ log_text name.now events.now cursor) }
{
    let mut text = Vec::new(alloc);
    push_head(&mut text, name, events.len(), cursor)?;
    push_events(&mut text, name, events)?;
    text.extend_from_slice(b"end\n")?;
    Ok(text)
}
