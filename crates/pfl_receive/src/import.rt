//! Whether a state of the peer's may be taken over, and how the node keeps it (if_pfsync.c).

ghost use Rattle.std.specs.Prelude.{◌≡◌, ◌<◌, false};
ghost use Rattle.pfl_desk.specs.Nodes.{AreParts, IsPast, LeftFits};
ghost use Rattle.pfl_receive.specs.inner.Deciding.{MayDo};
ghost use Rattle.pfl_receive.specs.Receiving as receiving;
ghost use Rattle.pfl_track.specs.States.{IsState};

use crate::decision::{BadRecord, Decision};
use pfl_base::{Class, StateName};
use pfl_desk::{Kind, Parts};
use pfl_merge::imported_use;
use pfl_track::{State, StateFields};
use pfl_wire::StateRecord;
use std::alloc::Allocator;

/// The state of a record is taken over, or the record is bad.
pub(crate) fn import_decision<A: Allocator>(
    parts: &Parts<A>,
    sent: &StateRecord,
    ack_wanted: bool,
    same_rules: bool,
) -> Decision
    ensures decided { result ≡ receiving.importing parts.now same_rules sent.now ack_wanted }
    ensures may { MayDo parts.now result }
{
    match import_fault(parts, sent) {
        Some(why) => Decision::Bad(why),
        None => Decision::Import {
            state: imported(parts, sent, same_rules),
            ack_wanted,
        },
    }
}

/// Why the state may not be taken over, if there is a reason: the first one.
fn import_fault<A: Allocator>(parts: &Parts<A>, sent: &StateRecord) -> Option<BadRecord>
    ensures fault { result ≡ receiving.import_fault parts.now sent.now }
    ensures parts { AreParts parts.now }
{
    let name = sent.name;
    if parts.states().by_name(name).is_some() {
        return Some(BadRecord::Known);
    }
    if is_not_given(parts, name) {
        return Some(BadRecord::NotGiven);
    }
    if is_deleting(parts, name) {
        return Some(BadRecord::Deleting);
    }
    key_fault(parts, sent)
}

/// The node itself would have given the name, and did not.
fn is_not_given<A: Allocator>(parts: &Parts<A>, name: StateName) -> bool
    ensures given { result ≡ receiving.is_not_given parts.now name }
{
    name.creator == parts.creator() && parts.next_id() <= name.id
}

/// The peer does not know yet that the node deleted the state; with `revive` that does not matter (if_pfsync.c, as far as we know it).
fn is_deleting<A: Allocator>(parts: &Parts<A>, name: StateName) -> bool
    ensures deleting { result ≡ receiving.is_deleting parts.now name }
{
    !parts.kernel().revive && parts.queue().kind_of(name) == Some(Kind::Delete)
}

/// The state that has a key of the record's, the wire key first, or else the limit.
fn key_fault<A: Allocator>(parts: &Parts<A>, sent: &StateRecord) -> Option<BadRecord>
    ensures fault { result ≡ receiving.key_fault parts.now sent.now }
{
    let states = parts.states();
    if let Some(state) = states.by_wire(&sent.keys.wire()) {
        return Some(BadRecord::WireInUse(state.name()));
    }
    if let Some(state) = states.by_stack(&sent.keys.stack()) {
        return Some(BadRecord::StackInUse(state.name()));
    }
    if states.is_full() {
        Some(BadRecord::Full)
    } else {
        None
    }
}

/// The state of a record, as the node keeps it.
fn imported<A: Allocator>(parts: &Parts<A>, sent: &StateRecord, same_rules: bool) -> State
    requires parts { AreParts parts.now }
    ensures state { result ≡ receiving.imported parts.now same_rules sent.now }
    ensures known { IsState result }
    ensures past { parts.now.limits.kernel.expiry ≡ false → IsPast parts.now result.last }
    ensures ahead { parts.now.clock < result.last → LeftFits parts.now result }
{
    let rule = kept_rule(parts, same_rules, sent.rule);
    let timeout = import_timeout(parts, rule, sent.class);
    let now = parts.clock();
    let Some(state) = State::of(StateFields {
        name: sent.name,
        wire: sent.keys.wire(),
        stack: sent.keys.stack(),
        direction: sent.direction,
        src: sent.src,
        dst: sent.dst,
        class: sent.class,
        last: imported_use(parts.kernel(), sent.remaining, timeout, now),
        rule,
        no_sync: false,
        ack_wanted: false,
        updates: 0,
        peer_change: Some(now),
    }) else {
        unreachable!();
    };
    state
}

/// The timeout by which a state is taken over, in seconds: with `expiry` as the rules say it (if_pfsync.c, as far as we know it), and
/// else as the node scales it.
fn import_timeout<A: Allocator>(parts: &Parts<A>, rule: Option<u16>, class: Class) -> u32
    ensures timeout { result ≡ receiving.import_timeout parts.now rule class }
{
    if parts.kernel().expiry {
        parts.rules().timeout(rule, class)
    } else {
        parts.timeout(rule, class)
    }
}

/// The number of a rule, which means one only under the same rules.
fn kept_rule<A: Allocator>(parts: &Parts<A>, same_rules: bool, rule: Option<u32>) -> Option<u16>
    requires parts { AreParts parts.now }
    ensures rule { result ≡ receiving.kept_rule parts.now same_rules rule }
{
    let number = rule?;
    let known = same_rules && (number as usize) < parts.rules().rules().len();
    if known { Some(number as u16) } else { None }
}
