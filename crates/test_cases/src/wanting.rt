//! Cases whose requests of memory are refused in turn: the program ends for want of memory, at a line whose reply is not written
//! and after those that have theirs, or it does what it does where memory is there.

use crate::standing::unlike_line;
use crate::trial::{Action, Trial};
use std::alloc::Global;
use test_devices::{RefusesOne, Try, requests_of};

/// What a run says for want of memory.
const NO_MEMORY: &str = "pfl_lab: no memory\n";

/// Both gave the same.
fn is_same(trial: &Trial, whole: &Trial) -> bool {
    trial.replies.as_str() == whole.replies.as_str()
        && trial.faults.as_str() == whole.faults.as_str()
        && trial.status.as_str() == whole.status.as_str()
}

/// The run ended for want of memory at a line of the script, and the lines above it have the replies that they have in the whole
/// run.
fn is_stopped(trial: &Trial, whole: &Trial) -> bool {
    trial.status.as_str() == "3"
        && trial.faults.as_str() == NO_MEMORY
        && whole.replies.as_str().starts_with(trial.replies.as_str())
        && trial.lines.len() == whole.answers_above(trial.last)
}

/// Runs the script by the program's own entry while the `n`-th request of all is refused.
fn run_without(
    heap: Global,
    memory: &RefusesOne,
    script: &str,
    whole: &Trial,
    n: u64,
) -> Option<Try> {
    memory.refuse(n);
    let trial = Trial::of(heap, memory, Action::Run, script);
    let came = memory.relent();
    let trial = trial.ok()?;
    if is_same(&trial, whole) {
        return Some(if came { Try::Spared } else { Try::Whole });
    }
    if came && is_stopped(&trial, whole) {
        Some(Try::Wanting)
    } else {
        None
    }
}

/// Why a case fails whose requests are refused in turn.
#[derive(Clone, Copy)]
pub enum Unlike {
    /// Its run, without the request of this number.
    Run(u64),
    /// Its line of this number, while one of its requests is refused.
    Line(usize),
}

/// The first request without which the case is not as it should be.
pub fn first_unlike(heap: Global, script: &str, whole: &Trial) -> Option<Unlike> {
    let memory = RefusesOne::new(heap);
    let mut last = 0;
    let runs = requests_of(|n| {
        last = n;
        run_without(heap, &memory, script, whole, n)
    });
    // A pair is not opened without memory.
    let wants_some = |wanted: u64| wanted > 0 || !whole.faults.is_empty();
    if !runs.is_some_and(|all| wants_some(all.wanted)) {
        return Some(Unlike::Run(last));
    }
    unlike_line(heap, script, whole).map(|line| Unlike::Line(line))
}
