//! Names of the states of both nodes.

ghost use Rattle.std.specs.Prelude.{◌≡◌, map};
ghost use Rattle.pfl_search.specs.Goals.{are_apart, same_names};

use pfl_base::NodeId;
use pfl_edits::InOrder;
use pfl_table::Row;
use pfl_world::World;
use std::alloc::Allocator;

/// Whether the rows have the same names.
fn same_names(mut rows: InOrder<'_, Row>, mut others: InOrder<'_, Row>) -> bool
    ensures { result ≡ same_names (map (λ r. r.state.name) rows.entry) (map (λ r. r.state.name) others.entry) }
{
    while let Some(row) = rows.next() {
        match others.next() {
            None => return false,
            Some(other) => {
                if row.state.name() != other.state.name() {
                    return false;
                }
            }
        }
    }
    others.next().is_none()
}

/// Whether the nodes do not have states of the same names.
pub(crate) fn are_apart<A: Allocator + Copy>(world: &World<A>) -> bool
    ensures { result ≡ are_apart world.now }
{
    let names = world.node(NodeId::A).parts().states().iter();
    !same_names(names, world.node(NodeId::B).parts().states().iter())
}
