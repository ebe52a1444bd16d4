//! A packet that no state takes: rules, translation and new states (pf.c, pf.conf(5)).

ghost use Rattle.std.specs.Prelude.{◌≡◌, ◌≤◌, Some, true, slice_get, ◌<◌, None, false, nat_le, if◌then◌else◌};
ghost use Rattle.pfl_base.specs.Keys.{key as flow_of};
ghost use Rattle.pfl_base.specs.Packets.{IsPacket};
ghost use Rattle.pfl_receive.specs.desk.Drafts.{Writes};
ghost use Rattle.pfl_node.specs.inner.Carried.{MayCarry, Tried};
ghost use Rattle.pfl_receive.specs.desk.inner.Kept.{MayStart};
ghost use Rattle.pfl_receive.specs.desk.Nodes.{Node as Whole, AreParts};
ghost use Rattle.pfl_node.specs.Starting.{pass, drop as dropped};
ghost use Rattle.pfl_node.specs.Starting as starting;
ghost use Rattle.pfl_edits.specs.Maps as maps;
ghost use Rattle.pfl_receive.specs.table.Tables.{by_stack, by_wire};
ghost use Rattle.pfl_receive.specs.table.Translating.{fits_translation, new_keys};

use crate::packet::hold::{hold_back, is_deferred};
use crate::packet::ruling::Ruling;
use pfl_base::{Dir, Packet, StateName};
use pfl_language::{Fate, Reason};
use pfl_receive::{Counter, Desk, Kind, Overfull, Parts};
use pfl_rules::Rule;
use pfl_track::{KeyPair, State, start_state, started_by};
use std::alloc::Allocator;

/// A packet that no state takes.
pub(crate) fn judge<A: Allocator>(
    desk: &mut Desk<A>,
    dir: Dir,
    packet: &Packet,
) -> Result<Fate, Overfull>
    requires packet { IsPacket packet.now }
    requires room { 9 ≤ desk.old.edits.spare }
    ensures done { Tried 9 result desk.old desk.new (starting.judged desk.old.node dir packet.now) }
{
    let ruling = ask_rules(desk.parts(), dir, packet);
    carry(desk, dir, packet, &ruling)
}

/// What the rules make of a packet that no state takes. Nothing is changed.
pub fn ask_rules<A: Allocator>(parts: &Parts<A>, dir: Dir, packet: &Packet) -> Ruling
    requires packet { IsPacket packet.now }
    ensures ruled { result ≡ starting.ruled parts.now dir packet.now }
    ensures may { MayCarry parts.now result }
{
    let rules = parts.rules();
    let verdict = rules.verdict(packet, dir);
    let Some(number) = verdict.rule else {
        return Ruling::Unmatched;
    };
    if !verdict.pass {
        return Ruling::Blocked { rule: number };
    }
    match rules.rule(number) {
        Some(rule) => start(parts, dir, packet, number, &rule),
        None => Ruling::Unmatched,
    }
}

/// What becomes of a packet that a rule passes.
fn start<A: Allocator>(
    parts: &Parts<A>,
    dir: Dir,
    packet: &Packet,
    number: u16,
    rule: &Rule,
) -> Ruling
    requires packet { IsPacket packet.now }
    requires fits { fits_translation (flow_of packet.now dir) rule.now ≡ true }
    requires stands { slice_get parts.now.rules.list number ≡ Some rule.now }
    ensures ruled { result ≡ starting.starting parts.now dir packet.now number rule.now }
    ensures may { MayCarry parts.now result }
{
    let states = parts.states();
    if let Some(most) = max_reached(parts, number, rule) {
        return Ruling::AtMax {
            rule: number,
            most,
            states: states.count_of_rule(number),
        };
    }
    if states.is_full() {
        return Ruling::Full {
            rule: number,
            limit: parts.limits().states,
            states: states.len(),
        };
    }
    let keys = states.new_keys(rule, packet, dir);
    by_keys(parts, dir, packet, number, rule, &keys)
}

/// How many states the rule may have, where it has as many or more.
fn max_reached<A: Allocator>(parts: &Parts<A>, number: u16, rule: &Rule) -> Option<u32>
    ensures most { result ≡ (if starting.is_at_max parts.now number rule.now then rule.now.max else None) }
{
    let most = rule.max?;
    if most as usize <= parts.states().count_of_rule(number) {
        Some(most)
    } else {
        None
    }
}

/// The state with a key of the new one, the wire key first, or else the new one.
fn by_keys<A: Allocator>(
    parts: &Parts<A>,
    dir: Dir,
    packet: &Packet,
    number: u16,
    rule: &Rule,
    keys: &KeyPair,
) -> Ruling
    requires packet { IsPacket packet.now }
    requires room { nat_le parts.now.limits.states (maps.len parts.now.states) ≡ false }
    requires stands { slice_get parts.now.rules.list number ≡ Some rule.now }
    requires keys { keys.now ≡ new_keys parts.now.states rule.now (flow_of packet.now dir) }
    ensures ruled { result ≡ starting.by_keys number (by_wire parts.now.states keys.now.wire) (by_stack parts.now.states keys.now.stack)
        (starting.new_state parts.now dir packet.now number rule.now) }
    ensures may { MayCarry parts.now result }
{
    let states = parts.states();
    if let Some(state) = states.by_wire(&keys.wire()) {
        return Ruling::WireInUse {
            rule: number,
            name: state.name(),
        };
    }
    if let Some(state) = states.by_stack(&keys.stack()) {
        return Ruling::StackInUse {
            rule: number,
            name: state.name(),
        };
    }
    let started = start_state(
        next_name(parts),
        *keys,
        dir,
        packet,
        Some(number),
        rule.no_sync,
        parts.clock(),
    );
    Ruling::Starts {
        rule: number,
        state: started_by(parts.kernel(), started),
    }
}

/// The name of its next state.
fn next_name<A: Allocator>(parts: &Parts<A>) -> StateName
    ensures name { result ≡ starting.next_name parts.now }
{
    StateName {
        creator: parts.creator(),
        id: parts.next_id(),
    }
}

/// Does what the rules made of a packet.
fn carry<A: Allocator>(
    desk: &mut Desk<A>,
    dir: Dir,
    packet: &Packet,
    ruling: &Ruling,
) -> Result<Fate, Overfull>
    requires room { 9 ≤ desk.old.edits.spare }
    requires may { MayCarry desk.old.node ruling.now }
    ensures done { Tried 9 result desk.old desk.new (starting.carried desk.old.node dir packet.now ruling.now) }
{
    desk.known();
    match ruling {
        Ruling::Unmatched => Ok(pass(desk, None)),
        Ruling::Blocked { .. } => Ok(drop_packet(desk, Reason::Block)),
        Ruling::AtMax { .. } => Ok(drop_packet(desk, Reason::Max)),
        Ruling::Full { .. } => Ok(drop_packet(desk, Reason::Full)),
        Ruling::WireInUse { .. } | Ruling::StackInUse { .. } => {
            Ok(drop_packet(desk, Reason::Key))
        }
        Ruling::Starts { state, .. } => announce(desk, *state, dir, packet),
    }
}

/// Puts a new state under the next name, and announces it to the peer. Its packet goes on, or is held until the peer knows.
fn announce<A: Allocator>(
    desk: &mut Desk<A>,
    state: State,
    dir: Dir,
    packet: &Packet,
) -> Result<Fate, Overfull>
    requires room { 9 ≤ desk.old.edits.spare }
    requires parts { AreParts desk.old.node }
    requires known { MayStart desk.old.node state }
    ensures done { Tried 9 result desk.old desk.new (starting.announced (starting.with_new desk.old.node state) state dir packet.now) }
{
    let name = state.name();
    put_new(desk, state);
    if state.no_sync() {
        return Ok(pass(desk, Some(name)));
    }
    desk.mark(name, Kind::Insert)?;
    if is_deferred(desk.parts(), dir) {
        return Ok(hold_back(desk, state, packet));
    }
    Ok(pass(desk, Some(name)))
}

/// Puts a new state under the next name.
fn put_new<A: Allocator>(desk: &mut Desk<A>, state: State)
    requires parts { AreParts desk.old.node }
    requires room { 2 ≤ desk.old.edits.spare }
    requires known { MayStart desk.old.node state }
    ensures node { desk.new.node ≡ starting.with_new desk.old.node state }
    ensures writes { Writes 2 desk.old desk.new }
{
    desk.use_id();
    desk.add_state(state);
}

/// A packet goes on.
pub(crate) fn pass<A: Allocator>(desk: &mut Desk<A>, name: Option<StateName>) -> Fate
    requires room { 0 < desk.old.edits.spare }
    ensures step { record { fate = result; node = desk.new.node } ≡ pass desk.old.node name }
    ensures writes { Writes 1 desk.old desk.new }
{
    desk.count(Counter::Passed);
    Fate::Pass(name)
}

/// A packet is dropped.
pub(crate) fn drop_packet<A: Allocator>(desk: &mut Desk<A>, why: Reason) -> Fate
    requires room { 0 < desk.old.edits.spare }
    ensures step { record { fate = result; node = desk.new.node } ≡ dropped desk.old.node why }
    ensures writes { Writes 1 desk.old desk.new }
{
    desk.count(Counter::Blocked);
    Fate::Dropped(why)
}
