//! What stands in the lists of a node, as lines.

ghost use Rattle.std.specs.Prelude.{◌≡◌, ◌++◌, ℕ, List, OnOk, IfSome};
ghost use Rattle.std.specs.List.{flat_map};
ghost use Rattle.pfl_base.specs.declared.node_id.NodeId.{NodeId};
ghost use Rattle.pfl_script.specs.Shows.{state_line, queue_line, ask_line, bus_line, clear_line, held_line};

use crate::node_lines::kind_word;
use crate::state_lines::push_state;
use pfl_base::{NodeId, StateName};
use pfl_defer::Held;
use pfl_edits::{InOrder, NoMemory};
use pfl_queue::{Cleared, Mark};
use pfl_table::Row;
use pfl_wire::BulkStatus;
use std::alloc::Allocator;
use std::fmt::Display;
use std::io::Write;

/// Appends what a value prints to a text.
pub fn push_shown<A: Allocator, D: Display + Drop>(
    text: &mut Vec<u8, A>,
    shown: D,
) -> Result<(), NoMemory>
    ensures { OnOk result (IfSome (D.output shown) (λ printed. text.new.items ≡ text.old.items ++ printed)) }
{
    match text.write_fmt(shown) {
        Ok(()) => Ok(()),
        Err(_) => Err(NoMemory),
    }
}

/// What stands in a list of a node and is shown as a line.
pub trait Listed {
    /// Its line.
    ghost line: { NodeId → Self → List ℕ };

    /// Appends its line to a text.
    fn push_line<A: Allocator>(&self, node: NodeId, text: &mut Vec<u8, A>) -> Result<(), NoMemory>
        ensures { OnOk result (text.new.items ≡ text.old.items ++ line node self.now) };
}

impl Listed for Row {
    ghost line = { λ node row. state_line node row.state };

    fn push_line<A: Allocator>(&self, node: NodeId, text: &mut Vec<u8, A>) -> Result<(), NoMemory> {
        push_state(text, node, &self.state)
    }
}

impl Listed for Mark {
    ghost line = { queue_line };

    fn push_line<A: Allocator>(&self, node: NodeId, text: &mut Vec<u8, A>) -> Result<(), NoMemory> {
        let Mark { name, kind, number } = *self;
        let kind = kind_word(kind);
        push_shown(text, format_args!("queue {node} {kind} {number} {name}\n"))
    }
}

impl Listed for StateName {
    ghost line = { ask_line };

    fn push_line<A: Allocator>(&self, node: NodeId, text: &mut Vec<u8, A>) -> Result<(), NoMemory> {
        let name = *self;
        push_shown(text, format_args!("ask {node} {name}\n"))
    }
}

impl Listed for BulkStatus {
    ghost line = { bus_line };

    fn push_line<A: Allocator>(&self, node: NodeId, text: &mut Vec<u8, A>) -> Result<(), NoMemory> {
        let status = self.number();
        push_shown(text, format_args!("bus {node} {status}\n"))
    }
}

impl Listed for Cleared {
    ghost line = { clear_line };

    fn push_line<A: Allocator>(&self, node: NodeId, text: &mut Vec<u8, A>) -> Result<(), NoMemory> {
        let Cleared { creator, bound } = *self;
        push_shown(text, format_args!("clr {node} {creator} {bound}\n"))
    }
}

impl Listed for Held {
    ghost line = { held_line };

    fn push_line<A: Allocator>(&self, node: NodeId, text: &mut Vec<u8, A>) -> Result<(), NoMemory> {
        let Held { name, held_at, .. } = *self;
        push_shown(text, format_args!("held {node} {name} {held_at}\n"))
    }
}

/// Appends the lines of entries to a text, one after another.
pub fn push_list<A: Allocator, X: Listed>(
    text: &mut Vec<u8, A>,
    node: NodeId,
    mut entries: InOrder<'_, X>,
) -> Result<(), NoMemory>
    ensures { OnOk result (text.new.items ≡ text.old.items ++ flat_map (X.line node) entries.entry) }
{
    while let Some(entry) = entries.next() {
        entry.push_line(node, text)?;
    }
    Ok(())
}
