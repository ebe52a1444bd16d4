//! A clear of the peer's.

ghost use Rattle.std.specs.List.{slice_get};
ghost use Rattle.std.specs.Option.{option_map};
ghost use Rattle.std.specs.Prelude.{◌≡◌, ◌≤◌, ◌*◌, ◌==◌, ◌&&◌, nat_le, Some, is_some, length, if◌then◌else◌};
ghost use Rattle.pfl_edits.specs.Maps as maps;
ghost use Rattle.pfl_desk.specs.Drafts.{Writes};
ghost use Rattle.pfl_desk.specs.Nodes.{AreParts};
ghost use Rattle.pfl_receive.specs.inner.Delivering.{IsPaid};
ghost use Rattle.pfl_receive.specs.Receiving as receiving;
ghost use Rattle.pfl_desk.specs.table.Tables.{state_after};

use pfl_base::StateName;
use pfl_desk::{Desk, Parts};
use std::alloc::Allocator;

/// The states of the creator up to the bound go unannounced, by four edits each at most.
pub(crate) fn clear_states<A: Allocator>(desk: &mut Desk<A>, creator: u32, bound: u64)
    requires room { 4 * maps.len desk.old.node.states ≤ desk.old.edits.spare }
    ensures node { desk.new.node ≡ receiving.clear_taken desk.old.node creator bound }
    ensures paid { IsPaid 0 desk.old desk.new }
    ensures writes { Writes (4 * length (receiving.cleared_names desk.old.node creator bound)) desk.old desk.new }
{
    while let Some(name) = first_cleared(desk.parts(), creator, bound) {
        desk.forget(name);
    }
}

/// The first name of the creator up to the bound.
fn first_cleared<A: Allocator>(parts: &Parts<A>, creator: u32, bound: u64) -> Option<StateName>
    ensures first { result ≡ slice_get (receiving.cleared_names parts.now creator bound) 0 }
{
    let Some(name) = first_from(parts, StateName { creator, id: 0 }) else {
        return None;
    };
    if is_cleared(name, creator, bound) {
        Some(name)
    } else {
        None
    }
}

/// The name is the creator's, and not above the bound.
fn is_cleared(name: StateName, creator: u32, bound: u64) -> bool
    ensures { result ≡ ((name.creator == creator) && nat_le name.id bound) }
{
    name.creator == creator && name.id <= bound
}

/// The first name of a state from this one on.
fn first_from<A: Allocator>(parts: &Parts<A>, name: StateName) -> Option<StateName>
    ensures first { result ≡ (if is_some (maps.get parts.now.states name) then Some name else option_map
        (λ s. s.name) (state_after parts.now.states name)) }
    ensures parts { AreParts parts.now }
{
    let states = parts.states();
    if states.by_name(name).is_some() {
        return Some(name);
    }
    let row = states.after(name)?;
    Some(row.state.name())
}
