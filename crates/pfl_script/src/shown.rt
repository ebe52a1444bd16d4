//! A branch with its world, line by line.

ghost use Rattle.std.specs.Prelude.{◌≡◌, ◌++◌, OnOk, IfOk};
ghost use Rattle.std.specs.List.{flat_map};
ghost use Rattle.pfl_edits.specs.Maps as maps;
ghost use Rattle.pfl_link.specs.Framed.{entry_of};
ghost use Rattle.pfl_table.specs.Tables.{states_of};
ghost use Rattle.pfl_script.specs.Shows.{branch_line, state_line, queue_lines, node_lines, frame_line, link_lines, show_text};

use crate::link_lines::{FrameLine, LinkLine};
use crate::listed::{push_list, push_shown};
use crate::node_lines::{push_counts, push_node_line};
use pfl_base::NodeId;
use pfl_edits::{InOrder, NoMemory};
use pfl_link::{Link, Ticketed};
use pfl_queue::Pending;
use pfl_table::StateTable;
use pfl_timeline::{Parts, World};
use std::alloc::Allocator;

/// Appends the line of a branch to a text.
fn push_branch<A: Allocator>(
    text: &mut Vec<u8, A>,
    name: &[u8],
    events: usize,
    cursor: usize,
) -> Result<(), NoMemory>
    ensures { OnOk result (text.new.items ≡ text.old.items ++ branch_line name.now events cursor) }
{
    text.extend_from_slice(b"branch ")?;
    text.extend_from_slice(name)?;
    push_shown(text, format_args!(" events {events} cursor {cursor}\n"))
}

/// Appends the lines of states to a text, by their names.
fn push_states<A: Allocator, B: Allocator>(
    text: &mut Vec<u8, A>,
    id: NodeId,
    table: &StateTable<B>,
) -> Result<(), NoMemory>
    ensures { OnOk result (text.new.items ≡ text.old.items ++ flat_map (state_line id) (maps.values (states_of table.now))) }
{
    push_list(text, id, table.iter())
}

/// Appends to a text the lines of what a node has to send to its peer.
fn push_queue<A: Allocator, B: Allocator + Copy>(
    text: &mut Vec<u8, A>,
    id: NodeId,
    queue: &Pending<B>,
) -> Result<(), NoMemory>
    ensures { OnOk result (text.new.items ≡ text.old.items ++ queue_lines id queue.now) }
{
    let marks = queue.marks_in_turn()?;
    push_list(text, id, InOrder::of(marks.as_slice()))?;
    push_list(text, id, queue.requests())?;
    push_list(text, id, queue.statuses())?;
    push_list(text, id, queue.clears())
}

/// Appends the lines of a node to a text.
fn push_node<A: Allocator, B: Allocator + Copy>(
    text: &mut Vec<u8, A>,
    id: NodeId,
    node: &Parts<B>,
) -> Result<(), NoMemory>
    ensures { OnOk result (text.new.items ≡ text.old.items ++ node_lines id node.now) }
{
    push_node_line(text, id, node)?;
    push_counts(text, id, node.counters())?;
    push_states(text, id, node.states())?;
    push_queue(text, id, node.queue())?;
    push_list(text, id, InOrder::of(node.held().as_slice()))
}

/// Appends the line of a frame to a text.
fn push_frame<A: Allocator, B: Allocator>(
    text: &mut Vec<u8, A>,
    ticketed: &Ticketed<B>,
) -> Result<(), NoMemory>
    ensures { OnOk result (text.new.items ≡ text.old.items ++ frame_line (entry_of ticketed.now)) }
{
    let frame = ticketed.frame();
    push_shown(
        text,
        FrameLine {
            ticket: ticketed.ticket(),
            to: frame.to(),
            bytes: frame.bytes().as_slice(),
        },
    )
}

/// Appends the lines of frames to a text.
fn push_frames<A: Allocator, B: Allocator>(
    text: &mut Vec<u8, A>,
    mut frames: InOrder<'_, Ticketed<B>>,
) -> Result<(), NoMemory>
    ensures { OnOk result (text.new.items ≡ text.old.items ++ flat_map (λ t. frame_line (entry_of t)) frames.entry) }
{
    while let Some(ticketed) = frames.next() {
        push_frame(text, ticketed)?;
    }
    Ok(())
}

/// Appends the lines of the link to a text.
fn push_link<A: Allocator, B: Allocator>(
    text: &mut Vec<u8, A>,
    link: &Link<B>,
    boot: u32,
) -> Result<(), NoMemory>
    ensures { OnOk result (text.new.items ≡ text.old.items ++ link_lines link.now boot) }
{
    let next = link.next();
    push_shown(text, LinkLine { next, boot })?;
    push_frames(text, link.frames())
}

/// The text that shows a branch with its world.
pub fn shown_text<A: Allocator, B: Allocator + Copy>(
    alloc: A,
    name: &[u8],
    events: usize,
    cursor: usize,
    world: &World<B>,
) -> Result<Vec<u8, A>, NoMemory>
    ensures { IfOk result (λ text. text.items ≡ show_text name.now events cursor world.now) }
{
    let mut text = Vec::new(alloc);
    push_branch(&mut text, name, events, cursor)?;
    push_node(&mut text, NodeId::A, world.node(NodeId::A).parts())?;
    push_node(&mut text, NodeId::B, world.node(NodeId::B).parts())?;
    push_link(&mut text, world.link(), world.next_boot())?;
    text.extend_from_slice(b"end\n")?;
    Ok(text)
}
