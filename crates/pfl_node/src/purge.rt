//! What has expired is deleted (pf.conf(5), `interval`).

ghost use Rattle.std.specs.List.{slice_get};
ghost use Rattle.std.specs.Prelude.{◌≡◌, ◌≤◌, ◌*◌, IfOk, OnOk, length};
ghost use Rattle.pfl_language.specs.declared.node_event.NodeOutcome.TheVariants as outcome;
ghost use Rattle.pfl_node.specs.Purging as purging;
ghost use Rattle.pfl_node.specs.inner.Carried.{Carries, IsIdle};
ghost use Rattle.pfl_receive.specs.desk.Drafts.{Writes};
ghost use Rattle.pfl_receive.specs.desk.inner.Judging.{Went};
ghost use Rattle.pfl_receive.specs.desk.Nodes.{Node as Whole, AreParts};

use pfl_base::Refusal;
use pfl_receive::{Desk, Overfull, Parts, Slot, judged};
use pfl_rules::scaled;
use pfl_track::State;
use std::alloc::Allocator;

/// Deletes all states that have expired, the first to expire first, and returns how many; to its end, timeouts are those of as many
/// states as it finds (pf.conf(5), `adaptive.start`). It is refused where after one of the deletions too much would be pending, and
/// else where after one of them a number would be too high.
pub(crate) fn purge<A: Allocator>(desk: &mut Desk<A>) -> Result<usize, Refusal>
    requires idle { IsIdle desk.old }
    ensures { Carries (purging.purge_edits desk.old.node) (purging.purge_meaning desk.old.node) outcome.Purged result desk.old desk.new }
{
    judged(delete_expired(desk))
}

/// Deletes all states that have expired, and returns how many, and whether after one of them a number was too high.
fn delete_expired<A: Allocator>(desk: &mut Desk<A>) -> Result<(usize, bool), Overfull>
    requires parts { AreParts desk.old.node }
    requires room { 5 * length (purging.expired_states desk.old.node) ≤ desk.old.edits.spare }
    ensures went { Went result (purging.purge_points desk.old.node) }
    ensures node { OnOk result (desk.new.node ≡ purging.purged desk.old.node) }
    ensures count { IfOk result (λ r. r.0 ≡ length (purging.expired_states desk.old.node)) }
    ensures writes { Writes (5 * length (purging.expired_states desk.old.node)) desk.old desk.new }
{
    let states = desk.parts().states().len();
    let mut count = 0;
    let mut overcounted = false;
    desk.order_expiries(states);
    while let Some(state) = first_expired(desk.parts(), states) {
        desk.delete(Slot::UNKNOWN, &state)?;
        overcounted |= desk.is_overcounted();
        count += 1;
        desk.order_expiries(states);
    }
    Ok((count, overcounted))
}

/// Of the states that have expired by the timeouts of this many states, the first to expire.
fn first_expired<A: Allocator>(parts: &Parts<A>, states: usize) -> Option<State>
    ensures first { result ≡ slice_get (purging.expired_among states parts.now) 0 }
    ensures parts { AreParts parts.now }
{
    let table = parts.states();
    let adaptive = parts.limits().adaptive();
    let row = table.first_expiring(adaptive, states)?;
    let timeout = scaled(row.timeout, adaptive, states);
    if row.state.expired(timeout, parts.clock()) {
        Some(row.state)
    } else {
        None
    }
}
