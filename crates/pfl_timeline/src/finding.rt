//! What searches answer.

ghost use Rattle.std.specs.Prelude.{◌≡◌, IfErr, IfOk};
ghost use Rattle.std.specs.Option.{option_map};
ghost use Rattle.pfl_timeline.specs.Searches.{GaveUp, finding_of, found_by};

use pfl_edits::NoMemory;
use pfl_language::{BranchWord, Event, Refused};
use pfl_search::{Searched, Stopped};
use std::alloc::Allocator;

/// The answer to a search. Clauses say by `finding_of` what it reports.
#[derive(Drop)]
pub enum Finding<A: Allocator> {
    /// A shortest run to the goal: the branch, the events of the run, and how many runs were tried.
    Found {
        name: BranchWord,
        run: Vec<Event, A>,
        tried: u64,
    },
    /// No run of at most `depth` events leads to the goal, and none of any length where `ended`: each run of the choices has fewer
    /// events; how many runs were tried, and how often the question was asked of the worlds that they led to.
    Nothing {
        depth: u32,
        tried: u64,
        asked: u64,
        ended: bool,
    },
    /// More than this number of runs were to be tried.
    GaveUp(u64),
    /// The search is refused.
    Refused(Refused),
}

/// What was found from where a branch stands.
pub(crate) fn found<A: Allocator>(name: BranchWord, depth: u32, searched: Searched<A>) -> Finding<A>
    ensures { finding_of result
        ≡ found_by name depth searched.worlds searched.asked searched.ended (option_map (λ run. run.items) searched.found) }
{
    let tried = searched.worlds;
    let asked = searched.asked;
    let ended = searched.ended;
    match searched.found {
        Some(run) => Finding::Found { name, run, tried },
        None => Finding::Nothing {
            depth,
            tried,
            asked,
            ended,
        },
    }
}

/// What is returned where a search stopped.
pub(crate) fn stopped<A: Allocator>(why: Stopped, most: u64) -> Result<Finding<A>, NoMemory>
    ensures gave_up { IfOk result (λ finding. (why ≡ Stopped.TooMany) × (finding_of finding ≡ GaveUp most)) }
    ensures memory { IfErr result (λ _. why ≡ Stopped.NoMemory) }
{
    match why {
        Stopped::NoMemory => Err(NoMemory),
        Stopped::TooMany => Ok(Finding::GaveUp(most)),
    }
}
