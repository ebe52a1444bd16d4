//! The lines of a node, part by part.

ghost use Rattle.std.specs.Prelude.{◌≡◌, ◌++◌, OnOk};
ghost use Rattle.pfl_script.specs.Shows.{bit_text, server_text, client_text, numbers_text, bulk_text, node_line, count_line, kind_text};

use crate::listed::push_shown;
use pfl_base::NodeId;
use pfl_bulk::{BulkClient, BulkServer};
use pfl_edits::NoMemory;
use pfl_queue::Kind;
use pfl_timeline::{Counters, Parts};
use std::alloc::Allocator;

/// A mark that is set or not, as 1 or 0.
fn bit_word(is_set: bool) -> &'static str
    ensures { result.now ≡ bit_text is_set }
{
    if is_set { "1" } else { "0" }
}

/// The word of a queue.
pub fn kind_word(kind: Kind) -> &'static str
    ensures { result.now ≡ kind_text kind }
{
    match kind {
        Kind::Insert => "ins",
        Kind::InsertAck => "iack",
        Kind::Update => "upd",
        Kind::UpdateShort => "updc",
        Kind::Delete => "del",
    }
}

/// Appends to a text where a bulk update is, and since when.
fn push_server<A: Allocator>(text: &mut Vec<u8, A>, server: BulkServer) -> Result<(), NoMemory>
    ensures { OnOk result (text.new.items ≡ text.old.items ++ server_text server) }
{
    match server {
        BulkServer::Idle => Ok(text.extend_from_slice(b"-")?),
        BulkServer::Serving { cursor, since } => push_shown(text, format_args!("{cursor}/{since}")),
    }
}

/// Appends to a text how often a bulk update was asked for, and when last.
fn push_client<A: Allocator>(text: &mut Vec<u8, A>, client: BulkClient) -> Result<(), NoMemory>
    ensures { OnOk result (text.new.items ≡ text.old.items ++ client_text client) }
{
    match client {
        BulkClient::Idle => Ok(text.extend_from_slice(b"-")?),
        BulkClient::Waiting { tries, asked } => push_shown(text, format_args!("{tries}/{asked}")),
    }
}

/// Appends the numbers of a node to a text: its clock, its boot, its next id and its next queueing number.
#[tactic(auto, unfolding(crate::specs::Shows::numbers_text))]
fn push_numbers<A: Allocator, B: Allocator>(
    text: &mut Vec<u8, A>,
    node: &Parts<B>,
) -> Result<(), NoMemory>
    ensures { OnOk result (text.new.items ≡ text.old.items ++ numbers_text node.now.clock node.now.creator node.now.next_id node.now.queue.next) }
{
    let clock = node.clock();
    let boot = node.creator();
    let next_id = node.next_id();
    let next_number = node.queue().next();
    push_shown(
        text,
        format_args!("clock {clock} boot {boot} id {next_id} seq {next_number}"),
    )
}

/// Appends to a text what a node asks for: a push, and what a bulk update is at.
#[tactic(auto, unfolding(crate::specs::Shows::bulk_text))]
fn push_bulk<A: Allocator>(
    text: &mut Vec<u8, A>,
    push: bool,
    server: BulkServer,
    client: BulkClient,
) -> Result<(), NoMemory>
    ensures { OnOk result (text.new.items ≡ text.old.items ++ bulk_text push server client) }
{
    let push = bit_word(push);
    push_shown(text, format_args!("push {push} serve "))?;
    push_server(text, server)?;
    text.extend_from_slice(b" sync ")?;
    push_client(text, client)
}

/// Appends the line of a node to a text.
pub fn push_node_line<A: Allocator, B: Allocator>(
    text: &mut Vec<u8, A>,
    id: NodeId,
    node: &Parts<B>,
) -> Result<(), NoMemory>
    ensures { OnOk result (text.new.items ≡ text.old.items ++ node_line id node.now) }
{
    push_shown(text, format_args!("node {id} "))?;
    push_numbers(text, node)?;
    text.extend_from_slice(b" ")?;
    push_bulk(text, node.push(), node.server(), node.client())?;
    Ok(text.extend_from_slice(b"\n")?)
}

/// Appends the line of what a node counts to a text.
pub fn push_counts<A: Allocator>(
    text: &mut Vec<u8, A>,
    id: NodeId,
    counters: Counters,
) -> Result<(), NoMemory>
    ensures { OnOk result (text.new.items ≡ text.old.items ++ count_line id counters) }
{
    let Counters {
        passed,
        blocked,
        freed,
        lost,
        bad,
        stale,
        broken,
    } = counters;
    push_shown(
        text,
        format_args!("count {id} {passed} {blocked} {freed} {lost} {bad} {stale} {broken}\n"),
    )
}
