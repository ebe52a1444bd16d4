//! What a record from the peer comes to at a node, kind by kind. Nothing is changed (if_pfsync.c).

ghost use Rattle.std.specs.Option.{option_map_or};
ghost use Rattle.std.specs.Prelude.{◌≡◌, Some, false};
ghost use Rattle.pfl_edits.specs.Maps as maps;
ghost use Rattle.pfl_desk.specs.Nodes.{AreParts};
ghost use Rattle.pfl_receive.specs.declared.decision.Decision.TheVariants as decision;
ghost use Rattle.pfl_receive.specs.inner.Deciding.{MayDo};
ghost use Rattle.pfl_receive.specs.Receiving as receiving;

use crate::decision::{BadRecord, Decision};
use crate::import::import_decision;
use pfl_base::StateName;
use pfl_desk::{Kind, Parts};
use pfl_merge::{Received, merge};
use pfl_track::State;
use pfl_wire::{BulkStatus, Message, StateRecord, UpdateRecord};
use std::alloc::Allocator;

/// What a record of the peer's comes to at a node. `same_rules` says that the peer's rules are the node's own.
#[tactic(auto, unfolding(crate::specs::Receiving::decided))]
pub fn decide<A: Allocator>(parts: &Parts<A>, message: &Message, same_rules: bool) -> Decision
    ensures decided { result ≡ receiving.decided parts.now same_rules message.now }
    ensures may { MayDo parts.now result }
{
    match message {
        Message::Clear { creator, bound } => Decision::Clear {
            creator: *creator,
            bound: clear_bound(parts, *bound),
        },
        Message::Insert(sent) => import_decision(parts, sent, sent.ack_wanted, same_rules),
        Message::InsertAck(name) => ack_decision(parts, *name),
        Message::Update(sent) => update_decision(parts, sent, same_rules),
        Message::UpdateShort(sent) => short_decision(parts, sent),
        Message::UpdateRequest(name) => request_decision(parts, *name),
        Message::Delete(sent) => delete_decision(parts, sent.name),
        Message::DeleteShort(name) => delete_decision(parts, *name),
        Message::Bulk { status, .. } => status_decision(parts, *status),
    }
}

/// The bound of a clear, which is none with `clear` (if_pfsync.c, as far as we know it).
fn clear_bound<A: Allocator>(parts: &Parts<A>, bound: u64) -> u64
    ensures { result ≡ receiving.clear_bound parts.now bound }
{
    if parts.kernel().clear {
        u64::MAX
    } else {
        bound
    }
}

/// The state of the name waits no longer, if it does wait.
fn ack_decision<A: Allocator>(parts: &Parts<A>, name: StateName) -> Decision
    ensures decided { result ≡ option_map_or receiving.acknowledging (maps.get parts.now.states name) decision.Nothing }
    ensures may { MayDo parts.now result }
{
    match parts.states().by_name(name) {
        Some(state) if state.ack_wanted() => Decision::Release(state.name()),
        _ => Decision::Nothing,
    }
}

/// A whole state: it is merged, or taken over, by `rule` without its rule (if_pfsync.c, as far as we know it).
fn update_decision<A: Allocator>(parts: &Parts<A>, sent: &StateRecord, same_rules: bool) -> Decision
    ensures decided { result ≡ option_map_or (receiving.merging parts.now (receiving.of_state sent.now)) (maps.get parts.now.states sent.now.name)
        (receiving.updating parts.now same_rules sent.now) }
    ensures may { MayDo parts.now result }
{
    match parts.states().by_name(sent.name) {
        Some(state) => merge_decision(parts, state, &of_state(sent)),
        None => import_decision(parts, sent, false, same_rules && !parts.kernel().rule),
    }
}

/// A part of a state: it is merged, or the whole state is asked for.
fn short_decision<A: Allocator>(parts: &Parts<A>, sent: &UpdateRecord) -> Decision
    ensures decided { result ≡ option_map_or (receiving.merging parts.now (receiving.of_update sent.now)) (maps.get parts.now.states sent.now.name)
        (decision.Ask sent.now.name) }
    ensures may { MayDo parts.now result }
{
    match parts.states().by_name(sent.name) {
        Some(state) => merge_decision(parts, state, &of_update(sent)),
        None => Decision::Ask(sent.name),
    }
}

/// What is received of a state of the node is merged.
fn merge_decision<A: Allocator>(parts: &Parts<A>, state: &State, received: &Received) -> Decision
    requires stands { maps.get parts.now.states state.now.name ≡ Some state.now }
    requires parts { AreParts parts.now }
    ensures decided { result ≡ receiving.merging parts.now received.now state.now }
    ensures may { MayDo parts.now result }
{
    let timeout = parts.timeout(state.rule(), received.class);
    Decision::Merge(merge(parts.kernel(), state, received, timeout, parts.clock()))
}

/// What a whole record says of a known state.
fn of_state(sent: &StateRecord) -> Received
    ensures { result ≡ receiving.of_state sent.now }
{
    Received {
        src: sent.src,
        dst: sent.dst,
        class: sent.class,
        remaining: sent.remaining,
    }
}

/// What a short record says of it.
fn of_update(sent: &UpdateRecord) -> Received
    ensures { result ≡ receiving.of_update sent.now }
{
    Received {
        src: sent.src,
        dst: sent.dst,
        class: sent.class,
        remaining: sent.remaining,
    }
}

/// All states are asked for, or one, or one that is not there.
fn request_decision<A: Allocator>(parts: &Parts<A>, name: StateName) -> Decision
    ensures decided { result ≡ receiving.requesting parts.now name }
    ensures may { MayDo parts.now result }
{
    if name == StateName::NONE {
        return Decision::Serve {
            begins: parts.states().len() > 0,
        };
    }
    match parts.states().by_name(name) {
        Some(state) => answer_decision(parts, state),
        None => Decision::Bad(BadRecord::Unknown),
    }
}

/// A state that is asked for is queued, unless it may not be sent, or is to be sent whole already.
fn answer_decision<A: Allocator>(parts: &Parts<A>, state: &State) -> Decision
    requires stands { maps.get parts.now.states state.now.name ≡ Some state.now }
    requires parts { AreParts parts.now }
    ensures decided { result ≡ receiving.answering parts.now state.now }
    ensures may { MayDo parts.now result }
{
    if !state.no_sync() && is_partly_announced(parts.queue().kind_of(state.name())) {
        Decision::Queue(state.name())
    } else {
        Decision::Nothing
    }
}

/// On no queue, or on one that sends less than the whole state.
fn is_partly_announced(kind: Option<Kind>) -> bool
    ensures { result ≡ receiving.is_partly_announced kind }
{
    match kind {
        None | Some(Kind::UpdateShort | Kind::InsertAck) => true,
        Some(Kind::Insert | Kind::Update | Kind::Delete) => false,
    }
}

/// The state of the name is deleted; a name without one is bad.
fn delete_decision<A: Allocator>(parts: &Parts<A>, name: StateName) -> Decision
    ensures decided { result ≡ receiving.deleting parts.now name }
    ensures may { MayDo parts.now result }
{
    if parts.states().by_name(name).is_some() {
        Decision::Delete(name)
    } else {
        Decision::Bad(BadRecord::Unknown)
    }
}

/// A bulk status is heard by a client that waits.
fn status_decision<A: Allocator>(parts: &Parts<A>, status: BulkStatus) -> Decision
    ensures decided { result ≡ receiving.hearing parts.now status }
    ensures may { MayDo parts.now result }
{
    if parts.client().is_waiting() {
        Decision::Hear(status)
    } else {
        Decision::Nothing
    }
}
