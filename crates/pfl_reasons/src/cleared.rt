//! How many states a clear of the peer's names.

ghost use Rattle.std.specs.Prelude.{◌≡◌, length};
ghost use Rattle.pfl_world.specs.receive.Receiving.{cleared_names};
ghost use Rattle.pfl_reasons.specs.Records.{is_named};

use pfl_table::Row;
use pfl_world::Parts;
use std::alloc::Allocator;

/// How many states of the creator have an id of at most the bound.
pub(crate) fn count_cleared<A: Allocator>(node: &Parts<A>, creator: u32, bound: u64) -> usize
    ensures { result ≡ length (cleared_names node.now creator bound) }
{
    let states = node.states();
    // As many at most: so the count does not run over.
    let _all = states.len();
    let mut count = 0;
    for row in states.iter() {
        if is_cleared(row, creator, bound) {
            count += 1;
        }
    }
    count
}

/// The name of the state is the creator's, and not above the bound.
fn is_cleared(row: &Row, creator: u32, bound: u64) -> bool
    ensures { result ≡ is_named creator bound row.now.state.name }
{
    let name = row.state.name();
    name.creator == creator && name.id <= bound
}
