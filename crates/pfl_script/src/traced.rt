//! A frame with its records and what became of it, line by line.

ghost use Rattle.std.specs.Prelude.{◌≡◌, ◌++◌, IfOk, OnOk};
ghost use Rattle.std.specs.List.{flat_map};
ghost use Rattle.pfl_wire.specs.Frames.{records_of};
ghost use Rattle.pfl_wire.specs.Reading.{reading};
ghost use Rattle.pfl_timeline.specs.Replies.{trace_of};
ghost use Rattle.pfl_script.specs.Frames.{sent_record_line, content_lines, frame_step_lines, traced_line};
ghost use Rattle.pfl_script.specs.Replies.{reply_text};
ghost use Rattle.pfl_script.specs.Shows.{frame_text};

use crate::explained::push_outcome_line;
use crate::frame_lines::SentRecordLine;
use crate::link_lines::FrameLine;
use crate::listed::push_shown;
use crate::logged::push_event;
use pfl_edits::NoMemory;
use pfl_timeline::{FrameStep, FrameTrace, InFlight};
use pfl_wire::{FrameBytes, FrameFault};
use std::alloc::Allocator;

/// Puts the first line after a text.
fn push_traced<A: Allocator>(
    text: &mut Vec<u8, A>,
    name: &[u8],
    ticket: u32,
) -> Result<(), NoMemory>
    ensures { OnOk result (text.new.items ≡ text.old.items ++ traced_line name.now ticket) }
{
    text.extend_from_slice(b"frame ")?;
    text.extend_from_slice(name)?;
    push_shown(text, format_args!(" {ticket}\n"))
}

/// Puts an event of a frame after a text, with what came of it.
fn push_frame_step<A: Allocator>(
    text: &mut Vec<u8, A>,
    name: &[u8],
    step: &FrameStep,
) -> Result<(), NoMemory>
    ensures { OnOk result (text.new.items ≡ text.old.items ++ frame_step_lines name.now step.now) }
{
    push_event(text, name, step.place, &step.event)?;
    push_outcome_line(text, step.outcome)
}

/// Puts the events of a frame after a text, each with what came of it.
fn push_frame_steps<A: Allocator>(
    text: &mut Vec<u8, A>,
    name: &[u8],
    steps: &[FrameStep],
) -> Result<(), NoMemory>
    ensures { OnOk result (text.new.items ≡ text.old.items ++ flat_map (frame_step_lines name.now) steps.now) }
{
    for step in steps {
        push_frame_step(text, name, step)?;
    }
    Ok(())
}

/// Puts the line of a frame as it was sent after a text.
fn push_sent_frame<A: Allocator, B: Allocator>(
    text: &mut Vec<u8, A>,
    ticket: u32,
    frame: &InFlight<B>,
) -> Result<(), NoMemory>
    ensures { OnOk result (text.new.items ≡ text.old.items ++ frame_text ticket frame.now.to frame.now.bytes) }
{
    push_shown(
        text,
        FrameLine {
            ticket,
            to: frame.to(),
            bytes: frame.bytes().as_slice(),
        },
    )
}

/// Puts the lines of a frame's records after a text.
fn push_sent_records<A: Allocator>(
    text: &mut Vec<u8, A>,
    frame: &FrameBytes<'_>,
) -> Result<(), NoMemory>
    ensures { OnOk result (text.new.items ≡ text.old.items ++ flat_map sent_record_line (records_of frame.now)) }
{
    for message in frame.records() {
        push_shown(text, SentRecordLine(&message))?;
    }
    Ok(())
}

/// Puts what bytes are read as after a text.
fn push_content<A: Allocator>(text: &mut Vec<u8, A>, bytes: &[u8]) -> Result<(), NoMemory>
    ensures { OnOk result (text.new.items ≡ text.old.items ++ content_lines (reading bytes.now)) }
{
    match FrameBytes::read(bytes) {
        Ok(frame) => push_sent_records(text, &frame),
        Err(why) => {
            let number = FrameFault::from(why).number();
            push_shown(text, format_args!("broken {number}\n"))
        }
    }
}

/// The text that shows a frame, its records and what became of it.
pub fn traced_text<A: Allocator, B: Allocator>(
    alloc: A,
    trace: &FrameTrace<B>,
) -> Result<Vec<u8, A>, NoMemory>
    ensures { IfOk result (λ text. text.items ≡ reply_text (trace_of trace.now)) }
{
    let name = trace.name.bytes();
    let mut text = Vec::new(alloc);
    push_traced(&mut text, name, trace.ticket)?;
    push_frame_step(&mut text, name, &trace.first)?;
    push_sent_frame(&mut text, trace.ticket, &trace.frame)?;
    push_content(&mut text, trace.frame.bytes().as_slice())?;
    push_frame_steps(&mut text, name, trace.later.as_slice())?;
    text.extend_from_slice(b"end\n")?;
    Ok(text)
}
