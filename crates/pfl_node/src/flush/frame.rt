//! The frame of what a node sends to its peer (if_pfsync.c).

ghost use Rattle.std.specs.List.{AllByRecursion, flat_map};
ghost use Rattle.std.specs.Prelude.{◌≡◌, ◌<◌, ◌^◌, [], ◌∷◌, Some, IsSome, IfOk, length};
ghost use Rattle.pfl_edits.specs.Maps as maps;
ghost use Rattle.pfl_node.specs.Flushing as flushing;
ghost use Rattle.pfl_receive.specs.desk.Nodes.{AreParts, LeftFits};
ghost use Rattle.pfl_node.specs.inner.Sending as sending;
ghost use Rattle.pfl_receive.specs.queue.inner.Fitting.{entry_bytes};
ghost use Rattle.pfl_wire.specs.Frames.{lists};
ghost use Rattle.pfl_wire.specs.Spelling.{spelling};

use pfl_base::StateName;
use pfl_edits::NoMemory;
use pfl_receive::{Entry, Kind, Parts};
use pfl_track::State;
use pfl_wire::{Action, Frame, Message, StateRecord, UpdateRecord, encode};
use std::alloc::{AllocError, Allocator};

/// The bytes of a frame of the entries.
pub(crate) fn bytes_of<A: Allocator + Copy>(
    parts: &Parts<A>,
    alloc: A,
    entries: &[Entry],
) -> Result<Vec<u8, A>, NoMemory>
    requires parts { AreParts parts.now }
    requires told { AllByRecursion (sending.IsTold parts.now) entries.now }
    requires short { entry_bytes entries.now < 2 ^ 16 }
    ensures bytes { IfOk result (λ v. v.items ≡ spelling (sending.frame_with parts.now entries.now)) }
    ensures len { IfOk result (λ v. length v.items ≡ entry_bytes entries.now) }
{
    let groups = groups_of(parts, alloc, entries)?;
    let frame = Frame::new(parts.rules().print(), groups);
    encode(alloc, &frame)
}

/// The groups of a frame of the entries: neighbours that are sent by one action form one.
fn groups_of<A: Allocator + Copy>(
    parts: &Parts<A>,
    alloc: A,
    entries: &[Entry],
) -> Result<Vec<Vec<Message, A>, A>, AllocError>
    requires parts { AreParts parts.now }
    requires told { AllByRecursion (sending.IsTold parts.now) entries.now }
    ensures groups { IfOk result (λ v. lists v.items ≡ sending.groups_of parts.now entries.now) }
{
    let mut groups = Vec::new(alloc);
    let mut left = entries;
    while let Some(first) = left.first() {
        let (group, rest) = left.split_at(run_of(first.action(), left));
        groups.push(messages_of(parts, alloc, group)?)?;
        left = rest;
    }
    Ok(groups)
}

/// The messages of entries.
fn messages_of<A: Allocator + Copy>(
    parts: &Parts<A>,
    alloc: A,
    entries: &[Entry],
) -> Result<Vec<Message, A>, AllocError>
    requires told { AllByRecursion (sending.IsTold parts.now) entries.now }
    ensures messages { IfOk result (λ v. v.items ≡ flat_map (flushing.messages_of parts.now) entries.now) }
{
    let mut messages = Vec::with_capacity(alloc, entries.len())?;
    for entry in entries {
        messages.push(message_of(parts, entry))?;
    }
    Ok(messages)
}

/// The message of an entry.
fn message_of<A: Allocator>(parts: &Parts<A>, entry: &Entry) -> Message
    requires told { sending.IsTold parts.now entry.now }
    ensures message { flushing.messages_of parts.now entry.now ≡ result ∷ [] }
{
    match *entry {
        Entry::Marked { kind, name, .. } => marked_message(parts, kind, name),
        Entry::Request(name) => Message::UpdateRequest(name),
        Entry::Status(status) => Message::Bulk {
            creator: parts.creator(),
            status,
        },
        Entry::Clear { creator, bound } => Message::Clear { creator, bound },
    }
}

/// What is sent of a name on a queue.
fn marked_message<A: Allocator>(parts: &Parts<A>, kind: Kind, name: StateName) -> Message
    requires told { sending.HasState parts.now kind name }
    ensures message { flushing.mark_messages parts.now kind name ≡ result ∷ [] }
{
    match kind {
        Kind::Insert => Message::Insert(state_record(parts, standing(parts, name))),
        Kind::InsertAck => Message::InsertAck(name),
        Kind::Update => Message::Update(state_record(parts, standing(parts, name))),
        Kind::UpdateShort => Message::UpdateShort(update_record(parts, standing(parts, name))),
        Kind::Delete => Message::DeleteShort(name),
    }
}

/// The state with the name, which there is.
fn standing<A: Allocator>(parts: &Parts<A>, name: StateName) -> &State
    requires stands { IsSome (maps.get parts.now.states name) }
    ensures state { maps.get parts.now.states name ≡ Some result.now }
    ensures parts { AreParts parts.now }
{
    match parts.states().by_name(name) {
        Some(state) => state,
        None => unreachable!(),
    }
}

/// The whole state, as it is sent.
fn state_record<A: Allocator>(parts: &Parts<A>, state: &State) -> StateRecord
    requires left { parts.now.clock < state.now.last → LeftFits parts.now state.now }
    ensures record_of { result ≡ flushing.state_record parts.now state.now }
{
    StateRecord {
        name: state.name(),
        keys: state.keys(),
        direction: state.direction(),
        ack_wanted: state.ack_wanted(),
        src: state.src(),
        dst: state.dst(),
        class: state.class(),
        remaining: remaining(parts, state),
        rule: state.rule().map(u32::from),
    }
}

/// What changes of a state, as it is sent.
fn update_record<A: Allocator>(parts: &Parts<A>, state: &State) -> UpdateRecord
    requires left { parts.now.clock < state.now.last → LeftFits parts.now state.now }
    ensures record_of { result ≡ flushing.update_record parts.now state.now }
{
    UpdateRecord {
        name: state.name(),
        src: state.src(),
        dst: state.dst(),
        class: state.class(),
        remaining: remaining(parts, state),
    }
}

/// The whole seconds that a state has left.
fn remaining<A: Allocator>(parts: &Parts<A>, state: &State) -> u32
    requires left { parts.now.clock < state.now.last → LeftFits parts.now state.now }
    ensures seconds { result ≡ flushing.remaining parts.now state.now }
{
    let now = parts.clock();
    let timeout = parts.timeout(state.rule(), state.class());
    let left = state.expiry(timeout).saturating_sub(now);
    (left / 1000) as u32
}

/// How many of the entries in front are sent by the action.
fn run_of(action: Action, entries: &[Entry]) -> usize
    ensures { result ≡ sending.run_of action entries.now }
{
    for (i, entry) in entries.iter().enumerate() {
        if entry.action().number() != action.number() {
            return i;
        }
    }
    entries.len()
}
