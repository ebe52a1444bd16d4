//! A node gives up all its states (if_pfsync.c).

ghost use Rattle.std.specs.List.{fold, slice_get};
ghost use Rattle.std.specs.Prelude.{◌≡◌, ◌≤◌, ◌+◌, ◌*◌, true, IfOk, OnErr, OnOk};
ghost use Rattle.pfl_edits.specs.Maps as maps;
ghost use Rattle.pfl_language.specs.declared.node_event.NodeOutcome.TheVariants as outcome;
ghost use Rattle.pfl_node.specs.Clearing as clearing;
ghost use Rattle.pfl_node.specs.inner.Carried.{Carries, IsIdle};
ghost use Rattle.pfl_receive.specs.desk.Changes.{forgotten};
ghost use Rattle.pfl_receive.specs.desk.Drafts.{Writes};
ghost use Rattle.pfl_receive.specs.desk.Nodes.{Node as Whole, is_overfull};

use pfl_base::{Refusal, StateName};
use pfl_receive::{Desk, Overfull, Parts};
use std::alloc::Allocator;

/// Gives up all states without announcing each, has the peer clear them by their last id, and returns how many there were.
pub(crate) fn clear<A: Allocator>(desk: &mut Desk<A>) -> Result<usize, Refusal>
    requires idle { IsIdle desk.old }
    ensures { Carries (clearing.clear_edits desk.old.node) (clearing.clear_meaning desk.old.node) outcome.Cleared result desk.old desk.new }
{
    let tried = give_up_all(desk);
    desk.judge(tried)
}

/// Gives up all states, and has the peer clear them; returns how many there were.
fn give_up_all<A: Allocator>(desk: &mut Desk<A>) -> Result<usize, Overfull>
    requires room { 4 * maps.len desk.old.node.states + 2 ≤ desk.old.edits.spare }
    ensures full { OnErr result (is_overfull (clearing.cleared desk.old.node) ≡ true) }
    ensures node { OnOk result (desk.new.node ≡ clearing.cleared desk.old.node) }
    ensures count { IfOk result (λ count. count ≡ maps.len desk.old.node.states) }
    ensures writes { Writes (4 * maps.len desk.old.node.states + 2) desk.old desk.new }
{
    let parts = desk.parts();
    let count = parts.states().len();
    let creator = parts.creator();
    let last = parts.next_id().saturating_sub(1);
    forget_all(desk);
    desk.announce_clear(creator, last)?;
    Ok(count)
}

/// Forgets all states, the one of the least name first.
fn forget_all<A: Allocator>(desk: &mut Desk<A>)
    requires room { 4 * maps.len desk.old.node.states ≤ desk.old.edits.spare }
    ensures node { desk.new.node ≡ fold forgotten desk.old.node (maps.keys desk.old.node.states) }
    ensures writes { Writes (4 * maps.len desk.old.node.states) desk.old desk.new }
{
    while let Some(name) = first_name(desk.parts()) {
        desk.forget(name);
    }
}

/// The least name of a state.
fn first_name<A: Allocator>(parts: &Parts<A>) -> Option<StateName>
    ensures first { result ≡ slice_get (maps.keys parts.now.states) 0 }
{
    let row = parts.states().iter().next()?;
    Some(row.state.name())
}
