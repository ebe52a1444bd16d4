//! A shortest run.

ghost use Rattle.std.specs.Prelude.{◌≡◌, ◌≤◌, ◌↔◌, List, length, IfOk, IfSome, IfNone, IfErr, IsTrue};
ghost use Rattle.std.specs.Option.{option_map};
ghost use Rattle.pfl_language.specs.declared.event.Event.{Event as Happening};
ghost use Rattle.pfl_search.specs.Runs.{EndBefore, IsStop, LeadsTo, NeverLeads, shortest_run};
ghost use Rattle.pfl_search.specs.Visits.{asked_to_shortest, is_ended, visited_to_shortest};

use crate::runs::{Searched, search};
use crate::stopped::Stopped;
use pfl_language::{Choice, Goal};
use pfl_world::World;
use std::alloc::Allocator;

/// A shortest run of at most `depth` events of the choices that leads to the goal, or none where there is no such run; and how many
/// worlds were visited for that, which are at most as many as `most`. Runs of no event are searched, then those of at most one,
/// and so on, so a world is visited again by each later search, and in each of these visits the question may be asked. Where no run has
/// as many events as a search allows, none has more, and no deeper search follows. Whatever the answer, the world is as it was before.
pub fn search_shortest<A: Allocator + Copy>(
    alloc: A,
    world: &mut World<A>,
    choices: &[Choice],
    depth: u32,
    goal: &Goal,
    most: u64,
) -> Result<Searched<A>, Stopped>
    ensures unchanged { world.new ≡ world.old }
    ensures first { IfOk result (λ s. option_map (λ run. run.items) s.found ≡ shortest_run goal.now depth choices.now world.old) }
    ensures found { IfOk result (λ s. IfSome s.found (λ run. LeadsTo goal.now depth choices.now world.old run.items)) }
    ensures shortest { IfOk result (λ s. IfSome s.found (λ run. (events : List Happening)
        → LeadsTo goal.now depth choices.now world.old events → length run.items ≤ length events)) }
    ensures none { IfOk result (λ s. IfNone s.found ((events : List Happening) → ¬ (LeadsTo goal.now depth choices.now world.old events))) }
    ensures ended { IfOk result (λ s. IfNone s.found (IsTrue s.ended ↔ EndBefore depth choices.now world.old)) }
    ensures never { IfOk result (λ s. IfNone s.found (IsTrue s.ended → NeverLeads goal.now choices.now world.old)) }
    ensures ends { IfOk result (λ s. IfNone s.found (s.ended ≡ is_ended goal.now depth choices.now world.old)) }
    ensures worlds { IfOk result (λ s. s.worlds ≡ visited_to_shortest goal.now depth choices.now world.old) }
    ensures asked { IfOk result (λ s. s.asked ≡ asked_to_shortest goal.now depth choices.now world.old) }
    ensures within { IfOk result (λ s. s.worlds ≤ most) }
    ensures stopped { IfErr result (IsStop most (visited_to_shortest goal.now depth choices.now world.old)) }
{
    let mut worlds = 0;
    let mut asked = 0;
    for few in 0..depth {
        match search(alloc, world, choices, few, goal, most - worlds) {
            Err(stopped) => return Err(stopped),
            Ok(searched) => {
                worlds += searched.worlds;
                asked += searched.asked;
                if searched.is_last() {
                    let ended = searched.ended;
                    let found = searched.found;
                    return Ok(Searched {
                        found,
                        worlds,
                        asked,
                        ended,
                    });
                }
            }
        }
    }
    match search(alloc, world, choices, depth, goal, most - worlds) {
        Err(stopped) => Err(stopped),
        Ok(searched) => {
            worlds += searched.worlds;
            asked += searched.asked;
            let ended = searched.ended;
            let found = searched.found;
            Ok(Searched {
                found,
                worlds,
                asked,
                ended,
            })
        }
    }
}
