//! What can be tried next.

ghost use Rattle.std.specs.Prelude.{◌≡◌, ◌++◌, ◌∷◌, [], map, OnOk};
ghost use Rattle.pfl_search.specs.Choices.{instances, stage, turn as turn_of, turns as all_turns, turns_of, turn_on};
ghost use Rattle.pfl_search.specs.Visits.{in_turn};

use crate::append::append;
use crate::order::{Last, in_phase, is_in_turn};
use pfl_edits::{InOrder, NoMemory};
use pfl_language::{Choice, Event, FrameEvent, Move};
use pfl_link::Ticketed;
use pfl_world::World;
use std::alloc::Allocator;

/// An event that can be tried, the place of its choice among the choices, and its phase.
#[derive(Clone, Copy)]
pub struct Candidate {
    pub place: usize,
    pub phase: u32,
    pub event: Event,
}

/// Puts a turn after the others, if its event is in turn.
fn add_turn<A: Allocator, B: Allocator>(
    turns: &mut Vec<Candidate, A>,
    last: Option<Last>,
    begun: u32,
    world: &World<B>,
    turn: Candidate,
) -> Result<(), NoMemory>
    ensures { OnOk result (turns.new.items ≡ turns.old.items ++ in_turn last begun world.now (turn ∷ [])) }
{
    if !is_in_turn(in_phase(last, begun, turn.phase), world, &turn.event) {
        return Ok(());
    }
    append(turns, turn)
}

/// Puts a turn for each frame after the others, if its event is in turn.
fn add_frames<A: Allocator, B: Allocator>(
    turns: &mut Vec<Candidate, A>,
    last: Option<Last>,
    begun: u32,
    world: &World<B>,
    place: usize,
    phase: u32,
    event: FrameEvent,
    mut frames: InOrder<'_, Ticketed<B>>,
) -> Result<(), NoMemory>
    ensures { OnOk result (turns.new.items ≡ turns.old.items ++ in_turn last begun world.now (map (λ t. turn_on place phase event t.ticket) frames.entry)) }
{
    while let Some(ticketed) = frames.next() {
        let ticket = ticketed.ticket();
        let turn = Candidate {
            place,
            phase,
            event: Event::Of { ticket, event },
        };
        add_turn(turns, last, begun, world, turn)?;
    }
    Ok(())
}

/// Puts those turns of a move after the others whose events are in turn.
fn add_turns<A: Allocator, B: Allocator>(
    turns: &mut Vec<Candidate, A>,
    last: Option<Last>,
    begun: u32,
    world: &World<B>,
    place: usize,
    phase: u32,
    what: &Move,
) -> Result<(), NoMemory>
    ensures { OnOk result (turns.new.items ≡ turns.old.items ++ in_turn last begun world.now (map (turn_of place phase) (instances world.now what.now))) }
{
    match what {
        Move::Given(event) => {
            let turn = Candidate {
                place,
                phase,
                event: *event,
            };
            add_turn(turns, last, begun, world, turn)
        }
        Move::AnyFrame(event) => {
            let frames = world.link().frames();
            add_frames(turns, last, begun, world, place, phase, *event, frames)
        }
    }
}

/// Puts the turns of a choice that are in turn after the others, if its phase is not over and it has a use left.
fn add_choice<A: Allocator, B: Allocator>(
    turns: &mut Vec<Candidate, A>,
    last: Option<Last>,
    begun: u32,
    world: &World<B>,
    place: usize,
    choice: &Choice,
) -> Result<(), NoMemory>
    ensures { OnOk result (turns.new.items ≡ turns.old.items ++ in_turn last begun world.now (turns_of begun world.now place choice.now)) }
{
    if choice.phase < begun || choice.uses == 0 {
        return Ok(());
    }
    add_turns(turns, last, begun, world, place, choice.phase, &choice.what)
}

/// Puts what is tried in the world after the others: what is in turn after the last event, in the order of the choices, and of one
/// choice in the order of the tickets.
pub(crate) fn add_all<A: Allocator, B: Allocator>(
    turns: &mut Vec<Candidate, A>,
    last: Option<Last>,
    begun: u32,
    world: &World<B>,
    choices: &[Choice],
) -> Result<(), NoMemory>
    ensures { OnOk result (turns.new.items ≡ turns.old.items ++ in_turn last begun world.now (all_turns (stage choices.now begun) world.now)) }
{
    for (place, choice) in choices.iter().enumerate() {
        add_choice(turns, last, begun, world, place, choice)?;
    }
    Ok(())
}
