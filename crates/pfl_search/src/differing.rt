//! States that stand at both nodes, and are not the same.

ghost use Rattle.std.specs.Prelude.{◌≡◌};
ghost use Rattle.std.specs.List.{list_any};
ghost use Rattle.pfl_table.specs.Tables.{states_of};
ghost use Rattle.pfl_search.specs.Differing.{agree, are_differing, differs, same_end, same_scale, same_state};

use pfl_base::NodeId;
use pfl_edits::InOrder;
use pfl_table::{Row, StateTable};
use pfl_track::{Peer, State};
use pfl_world::World;
use std::alloc::Allocator;

/// Whether the scales are the same.
fn same_scale(scale: Option<u8>, other: Option<u8>) -> bool
    ensures { result ≡ same_scale scale other }
{
    match scale {
        None => other.is_none(),
        Some(scale) => match other {
            None => false,
            Some(other) => scale == other,
        },
    }
}

/// Whether the ends have the same level, numbers, window and scale.
fn same_end(end: &Peer, other: &Peer) -> bool
    ensures { result ≡ same_end end.now other.now }
{
    end.level() == other.level()
        && end.lo() == other.lo()
        && end.hi() == other.hi()
        && end.window() == other.window()
        && same_scale(end.scale(), other.scale())
}

/// Whether both ends and the class are the same.
fn same_state(state: &State, other: &State) -> bool
    ensures { result ≡ same_state state.now other.now }
{
    same_end(&state.src(), &other.src())
        && same_end(&state.dst(), &other.dst())
        && state.class().number() == other.class().number()
}

/// Whether the states are of a rule with `no-sync` at either node, or the same.
fn agree(state: &State, other: &State) -> bool
    ensures { result ≡ agree state.now other.now }
{
    state.no_sync() || other.no_sync() || same_state(state, other)
}

/// Whether the state is in another table too, and they do not agree on it.
fn differs<A: Allocator>(others: &StateTable<A>, state: &State) -> bool
    ensures { result ≡ differs (states_of others.now) state.now }
{
    match others.by_name(state.name()) {
        Some(other) => !agree(state, other),
        None => false,
    }
}

/// Whether one of the rows does.
fn any_differs<A: Allocator>(others: &StateTable<A>, mut rows: InOrder<'_, Row>) -> bool
    ensures { result ≡ list_any (λ r. differs (states_of others.now) r.state) rows.entry }
{
    while let Some(row) = rows.next() {
        if differs(others, &row.state) {
            return true;
        }
    }
    false
}

/// Whether a state is at both nodes, and they do not agree on it.
pub(crate) fn are_differing<A: Allocator + Copy>(world: &World<A>) -> bool
    ensures { result ≡ are_differing world.now }
{
    let rows = world.node(NodeId::A).parts().states().iter();
    any_differs(world.node(NodeId::B).parts().states(), rows)
}
