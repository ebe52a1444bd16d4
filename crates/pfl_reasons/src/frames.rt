//! Frames that events sent: which event it was, and what befell the frame.

ghost use Rattle.std.specs.Prelude.{◌≡◌, ◌≤◌, ◌+◌, ◌++◌, IfOk, IfSome, OnOk, drop, length, take};
ghost use Rattle.std.specs.Option.{option_to_list};
ghost use Rattle.pfl_base.specs.Numbers.{greatest};
ghost use Rattle.pfl_wire.specs.Reading.{reading};
ghost use Rattle.pfl_link.specs.Links.{InFlight as Frame, cut_to};
ghost use Rattle.pfl_reasons.specs.Senders.{left_after, next_after, nth_sender, senders, sending_place, step_of, steps_of};
ghost use Rattle.pfl_reasons.specs.Senders as meant;

use crate::frame_step::FrameStep;
use pfl_edits::NoMemory;
use pfl_events::Events;
use pfl_language::{Event, FrameEvent, Outcome};
use pfl_link::InFlight;
use pfl_wire::FrameBytes;
use std::alloc::Allocator;

/// Whether the event sends a frame, where it is accepted.
fn sends(event: &Event) -> bool
    ensures { result ≡ meant.sends event.now }
{
    match event {
        Event::Flush { .. } => true,
        Event::Of {
            event: FrameEvent::Repeat,
            ..
        } => true,
        _ => false,
    }
}

/// How many of the first `count` events send a frame, where they are accepted.
pub fn count_senders<A: Allocator>(events: &Events<A>, count: usize) -> usize
    requires within { count ≤ length events.now }
    ensures { result ≡ senders (take count events.now) }
{
    let mut sent = 0;
    for index in 0..count {
        if sends(&events.get(index)) {
            sent += 1;
        }
    }
    sent
}

/// The place, counted from 1, of the event that sends the frame of the ticket, where the first frame gets the ticket `first`.
pub fn sending_place<A: Allocator>(first: u32, ticket: u32, events: &Events<A>) -> Option<usize>
    ensures place { result ≡ sending_place first ticket events.now }
    ensures within { IfSome result (λ k. (1 ≤ k) × (k ≤ length events.now)) }
{
    if ticket < first {
        return None;
    }
    place_of(ticket - first, events)
}

/// The place, counted from 1, of the event that sends a frame after this number of others.
fn place_of<A: Allocator>(earlier: u32, events: &Events<A>) -> Option<usize>
    ensures place { result ≡ nth_sender 1 earlier events.now }
    ensures within { IfSome result (λ k. (1 ≤ k) × (k ≤ length events.now)) }
{
    let mut left = earlier;
    for index in 0..events.len() {
        if sends(&events.get(index)) {
            if left == 0 {
                return Some(index + 1);
            }
            left -= 1;
        }
    }
    None
}

/// What a frame gives that comes to its receiver with these bytes.
fn read_outcome(bytes: &[u8]) -> Outcome
    ensures { result ≡ meant.read_outcome (reading bytes.now) }
{
    match FrameBytes::read(bytes) {
        Ok(frame) => Outcome::Taken(frame.records().count()),
        Err(why) => Outcome::Broken(why),
    }
}

/// A frame that was sent under the ticket: how many of its first bytes are left, and the next ticket.
#[derive(Clone, Copy)]
struct Passage {
    ticket: u32,
    len: usize,
    next: u32,
}

impl Passage {
    /// What an event gives that befalls the frame.
    fn befallen<A: Allocator>(self, frame: &InFlight<A>, event: &FrameEvent) -> Outcome
        requires within { self.len ≤ length frame.now.bytes }
        ensures { result ≡ meant.befallen self.next (cut_to frame.now self.len) event.now }
    {
        match event {
            FrameEvent::Deliver => read_outcome(&frame.bytes().as_slice()[..self.len]),
            FrameEvent::Lose => Outcome::Lost,
            FrameEvent::Repeat => Outcome::Sent {
                ticket: self.next,
                len: self.len,
            },
            FrameEvent::Cut { len } => Outcome::CutTo(self.len.min(*len as usize)),
        }
    }

    /// The event at the place with its outcome, if it befalls the frame.
    fn step<A: Allocator>(
        self,
        frame: &InFlight<A>,
        place: usize,
        event: &Event,
    ) -> Option<FrameStep>
        requires within { self.len ≤ length frame.now.bytes }
        ensures { result ≡ step_of self.ticket self.next place (cut_to frame.now self.len) event.now }
    {
        match event {
            Event::Of {
                ticket,
                event: what,
            } if *ticket == self.ticket => Some(FrameStep {
                place,
                event: *event,
                outcome: self.befallen(frame, what),
            }),
            _ => None,
        }
    }

    /// How many of the frame's bytes are left after an event.
    fn left(self, event: &Event) -> usize
        ensures fewer { result ≤ self.len }
        ensures left { (f : Frame) → cut_to f result ≡ left_after self.ticket (cut_to f self.len) event.now }
    {
        match event {
            Event::Of {
                ticket,
                event: FrameEvent::Cut { len },
            } if *ticket == self.ticket => self.len.min(*len as usize),
            _ => self.len,
        }
    }

    /// The passage after an event.
    fn after(self, event: &Event) -> Passage
        requires countable { next_after self.next event.now ≤ greatest }
        ensures ticket { result.ticket ≡ self.ticket }
        ensures next { result.next ≡ next_after self.next event.now }
        ensures fewer { result.len ≤ self.len }
        ensures left { (f : Frame) → cut_to f result.len ≡ left_after self.ticket (cut_to f self.len) event.now }
    {
        Passage {
            ticket: self.ticket,
            len: self.left(event),
            next: next_after(self.next, event),
        }
    }
}

/// The next ticket after an event.
fn next_after(next: u32, event: &Event) -> u32
    requires countable { next_after next event.now ≤ greatest }
    ensures { result ≡ next_after next event.now }
{
    if sends(event) { next + 1 } else { next }
}

/// Puts the step at the end of the list, if there is one.
fn add_step<A: Allocator>(
    list: &mut Vec<FrameStep, A>,
    step: Option<FrameStep>,
) -> Result<(), NoMemory>
    ensures { OnOk result (list.new.items ≡ list.old.items ++ option_to_list step) }
{
    if let Some(step) = step {
        list.reserve(1)?;
        list.push(step).unwrap();
    }
    Ok(())
}

/// The events after the first `place` that befall the frame of the ticket, as it was sent by the last of these.
pub fn frame_steps<A: Allocator + Copy, B: Allocator, C: Allocator>(
    alloc: A,
    ticket: u32,
    place: usize,
    frame: &InFlight<B>,
    events: &Events<C>,
) -> Result<Vec<FrameStep, A>, NoMemory>
    requires within { place ≤ length events.now }
    requires countable { ticket + 1 + senders (drop place events.now) ≤ greatest }
    ensures { IfOk result (λ steps. steps.items ≡ steps_of ticket (ticket + 1) (place + 1) frame.now (drop place events.now)) }
{
    let mut list = Vec::new(alloc);
    let mut passage = Passage {
        ticket,
        len: frame.bytes().len(),
        next: ticket + 1,
    };
    for index in place..events.len() {
        let event = events.get(index);
        add_step(&mut list, passage.step(frame, index + 1, &event))?;
        passage = passage.after(&event);
    }
    Ok(list)
}
