//! A turn of a bulk update: the server queues its next states (if_pfsync.c).

ghost use Rattle.std.specs.List.{AllByRecursion};
ghost use Rattle.std.specs.Prelude.{◌≡◌, ◌≤◌, ◌+◌, true, IfOk, OnOk, OnErr, length, take};
ghost use Rattle.pfl_bulk.specs.Bulk.{first_names};
ghost use Rattle.pfl_language.specs.declared.node_event.NodeOutcome.TheVariants as outcome;
ghost use Rattle.pfl_node.specs.Turning as turning;
ghost use Rattle.pfl_node.specs.inner.Carried.{Carries, IsIdle};
ghost use Rattle.pfl_receive.specs.desk.Drafts.{Writes};
ghost use Rattle.pfl_receive.specs.desk.inner.Kept.{MayMark};
ghost use Rattle.pfl_receive.specs.desk.Nodes.{Node as Whole, AreParts, is_overfull};
ghost use Rattle.pfl_receive.specs.queue.declared.Kind.TheVariants as kind;

use pfl_base::{Millis, Refusal, StateName};
use pfl_bulk::BulkServer;
use pfl_receive::{Desk, Kind, Overfull, Parts};
use pfl_track::State;
use pfl_wire::BulkStatus;
use std::alloc::Allocator;

/// A turn looks at one name more than it queues, of which there are at most 256.
const MOST_NAMES: usize = 257;

/// Queues the next states of the bulk update that the node serves, and returns how many. After the last of them the end is
/// announced. It looks at the states after its cursor, up to one more that it may send than it sends.
pub(crate) fn turn<A: Allocator>(desk: &mut Desk<A>) -> Result<usize, Refusal>
    requires idle { IsIdle desk.old }
    ensures { Carries (turning.turn_edits desk.old.node) (turning.turn_meaning desk.old.node) outcome.Queued result desk.old desk.new }
{
    if !desk.parts().server().is_serving() {
        return Err(Refusal::NotSyncing);
    }
    let tried = queue_next(desk);
    desk.judge(tried)
}

/// Queues the next states of the bulk update, and returns how many.
fn queue_next<A: Allocator>(desk: &mut Desk<A>) -> Result<usize, Overfull>
    requires parts { AreParts desk.old.node }
    requires room { length (turning.turn_of desk.old.node) + 3 ≤ desk.old.edits.spare }
    ensures full { OnErr result (is_overfull (turning.turned desk.old.node) ≡ true) }
    ensures node { OnOk result (desk.new.node ≡ turning.turned desk.old.node) }
    ensures count { IfOk result (λ count. count ≡ length (turning.turn_of desk.old.node)) }
    ensures writes { Writes (length (turning.turn_of desk.old.node) + 3) desk.old desk.new }
{
    let parts = desk.parts();
    let batch = parts.limits().batch as usize;
    let mut names = [StateName::NONE; MOST_NAMES];
    let count = next_names(parts, batch + 1, &mut names);
    let turn = parts.server().turn(&names[..count], batch);
    queue_all(desk, turn.names)?;
    announce_end(desk, turn.is_last)?;
    desk.set_server(turn.server);
    Ok(turn.names.len())
}

/// Of the names that the server may send, the first after its cursor, at most this many: they are written to the front of `names`,
/// and counted.
fn next_names<A: Allocator>(parts: &Parts<A>, most: usize, names: &mut [StateName]) -> usize
    requires parts { AreParts parts.now }
    requires room { most ≤ length names.old }
    ensures few { result ≤ length names.new }
    ensures names { take result names.new ≡ first_names parts.now.server (turning.eligible_names parts.now parts.now.server) most }
{
    let BulkServer::Serving { cursor, since } = parts.server() else {
        return 0;
    };
    let mut at = cursor;
    let mut count = 0;
    while count < most {
        let Some(row) = parts.states().after(at) else {
            return count;
        };
        at = row.state.name();
        if is_eligible(parts, &row.state, since) {
            names[count] = at;
            count += 1;
        }
    }
    count
}

/// The state may be sent in a bulk update that runs since then.
fn is_eligible<A: Allocator>(parts: &Parts<A>, state: &State, since: Millis) -> bool
    ensures eligible { result ≡ turning.is_eligible parts.now since state.now }
{
    let settled = match state.peer_change() {
        Some(time) => time <= since,
        None => true,
    };
    parts.queue().kind_of(state.name()).is_none() && !state.no_sync() && settled
}

/// Puts all these names on the queue of updates.
fn queue_all<A: Allocator>(desk: &mut Desk<A>, names: &[StateName]) -> Result<(), Overfull>
    requires room { length names.now ≤ desk.old.edits.spare }
    requires may { AllByRecursion (λ name. MayMark desk.old.node name kind.Update) names.now }
    ensures full { OnErr result (is_overfull (turning.queued desk.old.node names.now) ≡ true) }
    ensures node { OnOk result (desk.new.node ≡ turning.queued desk.old.node names.now) }
    ensures writes { Writes (length names.now) desk.old desk.new }
{
    for name in names {
        desk.mark(*name, Kind::Update)?;
    }
    Ok(())
}

/// Announces the end of the bulk update, where the turn is its last.
fn announce_end<A: Allocator>(desk: &mut Desk<A>, is_last: bool) -> Result<(), Overfull>
    requires room { 2 ≤ desk.old.edits.spare }
    ensures full { OnErr result (is_overfull (turning.ended is_last desk.old.node) ≡ true) }
    ensures node { OnOk result (desk.new.node ≡ turning.ended is_last desk.old.node) }
    ensures writes { Writes 2 desk.old desk.new }
{
    if is_last {
        desk.announce_status(BulkStatus::End)
    } else {
        Ok(())
    }
}
