//! The search.

ghost use Rattle.std.specs.Prelude.{◌≡◌, ◌+◌, ◌≤◌, ◌↔◌, ◌||◌, List, nat_eq, is_some, reverse, IfOk, IfSome, IfNone, IfErr, IsTrue, OnErr, OnOk};
ghost use Rattle.std.specs.Option.{option_map};
ghost use Rattle.pfl_language.specs.declared.event.Event.{Event as Happening};
ghost use Rattle.pfl_search.specs.Choices.{stage};
ghost use Rattle.pfl_search.specs.Goals.{is_asked, meets};
ghost use Rattle.pfl_search.specs.Runs.{EndBefore, IsStop, LeadsTo, NeverLeads, first_run, first_run_after};
ghost use Rattle.pfl_search.specs.Visits.{asking, at_end, each, is_ended, one_if, tally_after, tally_of, worlds_asked, worlds_visited};
ghost use Rattle.pfl_search.specs.inner.Turns.{Enters, IsOf, Tallies};

use crate::append::append;
use crate::goal::{answer, is_asked};
use crate::order::{Last, last_of};
use crate::stopped::Stopped;
use crate::tally::Tally;
use crate::turns::{Candidate, add_all};
use pfl_base::Refusal;
use pfl_edits::{NoMemory, Tape, undo_to};
use pfl_language::{Choice, Event, Goal};
use pfl_world::{World, WorldTape};
use std::alloc::Allocator;

/// What a search returns: the run that was found, if there is one; how many worlds were visited, and in how many of these visits the
/// question was asked; and, where none was found, whether each run of the choices has fewer events than were allowed, so that there is
/// none of any length.
#[derive(Drop)]
pub struct Searched<A: Allocator> {
    pub found: Option<Vec<Event, A>>,
    pub worlds: u64,
    pub asked: u64,
    pub ended: bool,
}

impl<A: Allocator> Searched<A> {
    /// Whether no deeper search is worth the while: a run was found, or there is none of any length.
    pub(crate) fn is_last(&self) -> bool
        ensures { result ≡ (is_some self.now.found || self.now.ended) }
    {
        self.found.is_some() || self.ended
    }
}

/// The choices, in memory of their own.
fn copied<A: Allocator>(alloc: A, choices: &[Choice]) -> Result<Vec<Choice, A>, NoMemory>
    ensures { IfOk result (λ v. v.items ≡ choices.now) }
{
    Ok(Vec::from_slice(alloc, choices)?)
}

/// Lets the event of a turn happen, and takes one use of its choice. Returns whether it was accepted; where it was not, or there
/// is no memory, nothing changes.
fn enter<A: Allocator + Copy>(
    world: &mut World<A>,
    tape: &mut WorldTape<A>,
    choices: &mut [Choice],
    turn: &Candidate,
) -> Result<bool, NoMemory>
    requires turn { IsOf choices.old turn.now }
    ensures unchanged_world { OnErr result (world.new ≡ world.old) }
    ensures unchanged_tape { OnErr result (tape.new.list ≡ tape.old.list) }
    ensures unchanged_choices { OnErr result (choices.new ≡ choices.old) }
    ensures enters { IfOk result (λ entered. Enters turn.now world.old world.new tape.old.list tape.new.list choices.old choices.new entered) }
{
    match world.apply_on(&turn.event, tape) {
        Ok(_) => {
            let choice = choices[turn.place];
            choices[turn.place] = Choice {
                uses: choice.uses - 1,
                ..choice
            };
            Ok(true)
        }
        Err(refusal) => match refusal {
            Refusal::NoMemory => Err(NoMemory),
            _ => Ok(false),
        },
    }
}

/// Whether the world meets the goal, in which the question is asked or not.
fn meets_if<A: Allocator + Copy>(
    world: &mut World<A>,
    tape: &mut WorldTape<A>,
    goal: &Goal,
    asked: bool,
) -> Result<bool, NoMemory>
    requires asked { asked ≡ is_asked goal.now.scope world.old }
    ensures world { world.new ≡ world.old }
    ensures tape { tape.new.list ≡ tape.old.list }
    ensures meets { IfOk result (λ met. met ≡ meets goal.now world.old) }
{
    if !asked {
        return Ok(false);
    }
    answer(world, tape, &goal.question)
}

/// One, if it is so.
fn one_if(counts: bool) -> u64
    ensures result { result ≡ one_if counts }
    ensures small { result ≤ 1 }
{
    if counts { 1 } else { 0 }
}

/// Counts a visit of the world, if one is left, and returns whether the world meets the goal. After `more` events more the run would
/// have as many as it may.
fn visit<A: Allocator + Copy>(
    world: &mut World<A>,
    tape: &mut WorldTape<A>,
    more: u32,
    goal: &Goal,
    tally: &mut Tally,
) -> Result<bool, Stopped>
    requires asked { tally.old.asked + tally.old.left ≤ 18446744073709551615 }
    requires at_end { tally.old.at_end + tally.old.left ≤ 18446744073709551615 }
    ensures world { world.new ≡ world.old }
    ensures tape { tape.new.list ≡ tape.old.list }
    ensures meets { IfOk result (λ met. met ≡ meets goal.now world.old) }
    ensures left { OnOk result (tally.new.left + 1 ≡ tally.old.left) }
    ensures asked { OnOk result (tally.new.asked ≡ tally.old.asked + one_if (is_asked goal.now.scope world.old)) }
    ensures at_end { OnOk result (tally.new.at_end ≡ tally.old.at_end + one_if (nat_eq more 0)) }
    ensures stopped { IfErr result (IsStop tally.old.left 1) }
{
    if tally.left == 0 {
        return Err(Stopped::TooMany);
    }
    let asked = is_asked(world, goal.scope);
    *tally = Tally {
        left: tally.left - 1,
        asked: tally.asked + one_if(asked),
        at_end: tally.at_end + one_if(more == 0),
    };
    Ok(meets_if(world, tape, goal, asked)?)
}

/// The first run from this world that leads to the goal, its newest event first; `before` is what is kept of the event that led here,
/// and `begun` the phase that it was of. World, tape and choices are as they were, and so are the turns where no run is found: those
/// of this world stand after the others as long as they are tried.
fn search_from<A: Allocator + Copy>(
    alloc: A,
    world: &mut World<A>,
    tape: &mut WorldTape<A>,
    turns: &mut Vec<Candidate, A>,
    choices: &mut [Choice],
    before: Option<Last>,
    begun: u32,
    depth: u32,
    goal: &Goal,
    tally: &mut Tally,
) -> Result<Option<Vec<Event, A>>, Stopped>
    requires asked { tally.old.asked + tally.old.left ≤ 18446744073709551615 }
    requires at_end { tally.old.at_end + tally.old.left ≤ 18446744073709551615 }
    ensures world { world.new ≡ world.old }
    ensures tape { tape.new.list ≡ tape.old.list }
    ensures turns { IfOk result (λ found. IfNone found (turns.new.items ≡ turns.old.items)) }
    ensures choices { choices.new ≡ choices.old }
    ensures first { IfOk result (λ found. option_map (λ run. reverse run.items) found
        ≡ first_run_after before goal.now depth (stage choices.old begun) world.old) }
    ensures counted { OnOk result (Tallies tally.old tally.new before goal.now depth (stage choices.old begun) world.old) }
    ensures stopped { IfErr result (IsStop tally.old.left (tally_after each before goal.now depth (stage choices.old begun) world.old)) }
{
    if visit(world, tape, depth, goal, tally)? {
        return Ok(Some(Vec::new(alloc)));
    }
    if depth == 0 {
        return Ok(None);
    }
    let first = turns.len();
    add_all(turns, before, begun, world, choices)?;
    for index in first..turns.len() {
        let turn = turns[index];
        let mark = tape.len();
        let choice = choices[turn.place];
        let last = Some(last_of(world, &turn.event));
        if enter(world, tape, choices, &turn)? {
            let run = search_from(
                alloc,
                world,
                tape,
                turns,
                choices,
                last,
                turn.phase,
                depth - 1,
                goal,
                tally,
            );
            choices[turn.place] = choice;
            undo_to(world, tape, mark);
            if let Some(mut run) = run? {
                append(&mut run, turn.event)?;
                return Ok(Some(run));
            }
        }
    }
    turns.truncate(first);
    Ok(None)
}

/// The run with its oldest event first.
fn in_order<A: Allocator>(backwards: Option<Vec<Event, A>>) -> Option<Vec<Event, A>>
    ensures { option_map (λ run. run.items) result ≡ option_map (λ run. reverse run.items) backwards }
{
    match backwards {
        Some(mut run) => {
            run.reverse();
            Some(run)
        }
        None => None,
    }
}

/// The first run of at most `depth` events of the choices that leads to the goal, or none where there is no such run; and how many
/// worlds were visited for that, which are at most as many as `most`. A run is some events of the choices of the first phase, then
/// some of the next, and so on. Ordered runs alone are tried: any other leads to the same world as one of them that is as long. Events
/// come in the order of the choices, and those of one choice in the order of their tickets; a run comes before those that go on from
/// it. Where none is found and each run of the choices has fewer than `depth` events, there is none of any length. Whatever the answer,
/// the world is as it was before.
pub fn search<A: Allocator + Copy>(
    alloc: A,
    world: &mut World<A>,
    choices: &[Choice],
    depth: u32,
    goal: &Goal,
    most: u64,
) -> Result<Searched<A>, Stopped>
    ensures unchanged { world.new ≡ world.old }
    ensures first { IfOk result (λ s. option_map (λ run. run.items) s.found ≡ first_run goal.now depth choices.now world.old) }
    ensures found { IfOk result (λ s. IfSome s.found (λ run. LeadsTo goal.now depth choices.now world.old run.items)) }
    ensures none { IfOk result (λ s. IfNone s.found ((events : List Happening) → ¬ (LeadsTo goal.now depth choices.now world.old events))) }
    ensures ended { IfOk result (λ s. IfNone s.found (IsTrue s.ended ↔ EndBefore depth choices.now world.old)) }
    ensures never { IfOk result (λ s. IfNone s.found (IsTrue s.ended → NeverLeads goal.now choices.now world.old)) }
    ensures ends { IfOk result (λ s. s.ended ≡ is_ended goal.now depth choices.now world.old) }
    ensures worlds { IfOk result (λ s. s.worlds ≡ worlds_visited goal.now depth choices.now world.old) }
    ensures asked { IfOk result (λ s. s.asked ≡ worlds_asked goal.now depth choices.now world.old) }
    ensures fewer { IfOk result (λ s. s.asked ≤ s.worlds) }
    ensures within { IfOk result (λ s. s.worlds ≤ most) }
    ensures stopped { IfErr result (IsStop most (worlds_visited goal.now depth choices.now world.old)) }
{
    world.known();
    let mut tape = Tape::new(alloc);
    let mut turns = Vec::new(alloc);
    let mut uses = copied(alloc, choices)?;
    let mut tally = Tally {
        left: most,
        asked: 0,
        at_end: 0,
    };
    let backwards = search_from(
        alloc, world, &mut tape, &mut turns, &mut uses, None, 0, depth, goal, &mut tally,
    )?;
    let found = in_order(backwards);
    let worlds = most - tally.left;
    let asked = tally.asked;
    let ended = tally.at_end == 0;
    Ok(Searched {
        found,
        worlds,
        asked,
        ended,
    })
}
