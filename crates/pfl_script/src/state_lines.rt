//! The line of a state, part by part.

ghost use Rattle.std.specs.Prelude.{◌≡◌, ◌++◌, OnOk};
ghost use Rattle.pfl_script.specs.Shows.{flags_text, peer_text, flow_text, use_text, sync_text, ends_text, state_text, state_line};

use crate::listed::push_shown;
use crate::optional::OptionalNumber;
use pfl_base::NodeId;
use pfl_edits::NoMemory;
use pfl_track::{Peer, PeerFields, State};
use std::alloc::Allocator;

/// Appends an end of a connection to a text: level, scale, window, lo and hi.
#[tactic(auto, unfolding(crate::specs::Shows::peer_text))]
fn push_peer<A: Allocator>(text: &mut Vec<u8, A>, peer: Peer) -> Result<(), NoMemory>
    ensures { OnOk result (text.new.items ≡ text.old.items ++ peer_text peer) }
{
    let PeerFields {
        level,
        scale,
        window,
        lo,
        hi,
    } = peer.fields();
    let scale = OptionalNumber::of_u8(scale);
    push_shown(text, format_args!("{level} {scale} {window} {lo} {hi}"))
}

/// Appends the flow of a state to a text: its protocol, the way of its first packet, and its keys, each with its far and
/// its near end.
#[tactic(auto, unfolding(crate::specs::Shows::flow_text))]
fn push_flow<A: Allocator>(text: &mut Vec<u8, A>, state: &State) -> Result<(), NoMemory>
    ensures { OnOk result (text.new.items ≡ text.old.items ++ flow_text state.now) }
{
    let direction = state.direction();
    let (wire, stack) = (state.wire(), state.stack());
    let proto = wire.proto;
    let (far, near) = (wire.far, wire.near);
    let (stack_far, stack_near) = (stack.far, stack.near);
    push_shown(
        text,
        format_args!("{proto} {direction} {far} {near} {stack_far} {stack_near}"),
    )
}

/// Appends the ends of a state to a text: the one that sent the first packet, and the other.
#[tactic(auto, unfolding(crate::specs::Shows::ends_text))]
fn push_ends<A: Allocator>(text: &mut Vec<u8, A>, state: &State) -> Result<(), NoMemory>
    ensures { OnOk result (text.new.items ≡ text.old.items ++ ends_text state.now) }
{
    push_peer(text, state.src())?;
    text.extend_from_slice(b" ")?;
    push_peer(text, state.dst())
}

/// Appends the class of a state to a text, when it was last used, and its rule.
#[tactic(auto, unfolding(crate::specs::Shows::use_text))]
fn push_use<A: Allocator>(text: &mut Vec<u8, A>, state: &State) -> Result<(), NoMemory>
    ensures { OnOk result (text.new.items ≡ text.old.items ++ use_text state.now) }
{
    let class = state.class();
    let last = state.last();
    let rule = OptionalNumber::of_u16(state.rule());
    push_shown(text, format_args!("{class} {last} {rule}"))
}

/// The flags of a state: `n` for no-sync, `k` for ack-wanted, or a dash.
fn flags_word(no_sync: bool, ack_wanted: bool) -> &'static str
    ensures { result.now ≡ flags_text no_sync ack_wanted }
{
    if no_sync {
        "n"
    } else if ack_wanted {
        "k"
    } else {
        "-"
    }
}

/// Appends the flags of a state to a text, its update count, and when the peer last changed it.
#[tactic(auto, unfolding(crate::specs::Shows::sync_text))]
fn push_sync<A: Allocator>(text: &mut Vec<u8, A>, state: &State) -> Result<(), NoMemory>
    ensures { OnOk result (text.new.items ≡ text.old.items ++ sync_text state.now) }
{
    let flags = flags_word(state.no_sync(), state.ack_wanted());
    let updates = state.updates();
    let peer_change = OptionalNumber(state.peer_change());
    push_shown(text, format_args!("{flags} {updates} {peer_change}"))
}

/// Appends a state to a text, but for its node and its name.
#[tactic(auto, unfolding(crate::specs::Shows::state_text))]
fn push_parts<A: Allocator>(text: &mut Vec<u8, A>, state: &State) -> Result<(), NoMemory>
    ensures { OnOk result (text.new.items ≡ text.old.items ++ state_text state.now) }
{
    push_flow(text, state)?;
    text.extend_from_slice(b" ")?;
    push_ends(text, state)?;
    text.extend_from_slice(b" ")?;
    push_use(text, state)?;
    text.extend_from_slice(b" ")?;
    push_sync(text, state)
}

/// Appends the line of a state of a node to a text.
pub fn push_state<A: Allocator>(
    text: &mut Vec<u8, A>,
    node: NodeId,
    state: &State,
) -> Result<(), NoMemory>
    ensures { OnOk result (text.new.items ≡ text.old.items ++ state_line node state.now) }
{
    let name = state.name();
    push_shown(text, format_args!("state {node} {name} "))?;
    push_parts(text, state)?;
    Ok(text.extend_from_slice(b"\n")?)
}
