//! When states expire.

ghost use Rattle.std.specs.Prelude.{◌≡◌, ◌≤◌, ◌^◌, IfOk};
ghost use Rattle.pfl_reasons.specs.Purges as meant;
ghost use Rattle.pfl_reasons.specs.Purges.{expiries};

use pfl_base::{Class, Millis, StateName};
use pfl_edits::NoMemory;
use pfl_rules::scaled;
use pfl_track::State;
use pfl_world::Parts;
use std::alloc::Allocator;

/// A state that a purge looks at: its class, the seconds that its rule or its class gives it, those as they are scaled among the states
/// of the node, and when it expires by them.
#[derive(Clone, Copy, Debug, PartialEq, Eq)]
pub struct Expiry {
    pub name: StateName,
    pub class: Class,
    pub timeout: u32,
    pub scaled: u32,
    pub expires: Millis,
}

/// When a state of the node expires, where the node has this number of states.
fn expiry_of<A: Allocator>(node: &Parts<A>, states: usize, state: &State) -> Expiry
    requires past { state.now.last ≤ 2 ^ 63 }
    ensures { result ≡ meant.expiry_of states node.now state.now }
{
    node.known();
    let timeout = node.rules().timeout(state.rule(), state.class());
    let scaled = scaled(timeout, node.limits().adaptive(), states);
    Expiry {
        name: state.name(),
        class: state.class(),
        timeout,
        scaled,
        expires: state.expiry(scaled),
    }
}

/// The states of a node, by name, each with when it expires.
pub(crate) fn expiries<A: Allocator, B: Allocator>(
    alloc: A,
    node: &Parts<B>,
) -> Result<Vec<Expiry, A>, NoMemory>
    ensures { IfOk result (λ list. list.items ≡ expiries node.now) }
{
    node.known();
    let states = node.states().len();
    let mut list = Vec::with_capacity(alloc, states)?;
    let mut rows = node.states().iter();
    while let Some(row) = rows.next() {
        list.reserve(1)?;
        list.push(expiry_of(node, states, &row.state)).unwrap();
    }
    Ok(list)
}
