//! The parts of a node, which an event changes one by one and which return what changed as an edit: each place by itself (places), what
//! is asked of or sent to the peer beside the queues of names (lists), and what a frame takes out (taking). What an event is judged by
//! stands in judge, what takes an edit back or redoes it in undo, and what is read of a node in readers.

pub(crate) mod judge;
mod lists;
mod places;
mod readers;
mod taking;
mod undo;

ghost use Rattle.std.specs.Prelude.{◌≡◌, IfOk};
ghost use Rattle.pfl_language.specs.Limits.{AreLimits};
ghost use Rattle.pfl_desk.specs.Nodes.{Node as Whole, AreParts, new_node};

use crate::counters::Counters;
use pfl_base::Millis;
use pfl_bulk::{BulkClient, BulkServer};
use pfl_defer::Deferrals;
use pfl_edits::NoMemory;
use pfl_language::Limits;
use pfl_queue::Pending;
use pfl_rules::RuleSet;
use pfl_table::StateTable;
use std::alloc::Allocator;
use std::marker::Model;

/// The parts of a node, also inside an event: there its numbers may be past the greatest. Its limits and rules never change. All
/// room is made by `new`.
pub struct Parts<A: Allocator> {
    limits: Limits,
    rules: RuleSet<A>,
    table: StateTable<A>,
    queue: Pending<A>,
    held: Deferrals<A>,
    server: BulkServer,
    client: BulkClient,
    clock: Millis,
    creator: u32,
    next_id: u64,
    push: bool,
    counters: Counters,
}

// Written by hand: see docs/ARCHITECTURE.md, "What the prover asks of the code".
impl<A: Allocator> Drop for Parts<A> {
    fn drop(self) {
        let Parts {
            limits: _,
            rules: _,
            table: _,
            queue: _,
            held: _,
            server: _,
            client: _,
            clock: _,
            creator: _,
            next_id: _,
            push: _,
            counters: _,
        } = self;
    }
}

impl<A: Allocator> Model for Parts<A> {
    ghost use Rattle.pfl_desk.specs.Nodes.{Node, AreParts};
    ghost use Rattle.pfl_desk.specs.Codes.{coded_node};

    ghost Value = { Node };

    ghost coded = { coded_node };

    ghost use Rattle.pfl_desk.specs.inner.Kept.{node_of, IsTimely};

    ghost view = { λ n. node_of n.limits n.rules n.table n.queue n.held n.server n.client n.clock n.creator n.next_id n.push n.counters };

    ghost invariant = { λ n. IsTimely n.limits n.rules n.table
        × AreParts (node_of n.limits n.rules n.table n.queue n.held n.server n.client n.clock n.creator n.next_id n.push n.counters) };
}

impl<A: Allocator + Copy> Parts<A> {
    /// The parts of a node that has seen nothing. Its next id and its next queueing number are `next`.
    pub(crate) fn new(
        alloc: A,
        limits: Limits,
        rules: RuleSet<A>,
        creator: u32,
        next: u32,
    ) -> Result<Self, NoMemory>
        requires limits { AreLimits limits }
        ensures new { IfOk result (λ n. n ≡ new_node limits rules creator next 0) }
        ensures parts { IfOk result (λ n. AreParts n) }
    {
        rules.known();
        let table = StateTable::new(alloc, limits.states as usize)?;
        let queue = Pending::new_at(alloc, limits.queue as usize, next)?;
        let held = Deferrals::new(alloc, limits.held as usize)?;
        Ok(Parts {
            limits,
            rules,
            table,
            queue,
            held,
            server: BulkServer::Idle,
            client: BulkClient::Idle,
            clock: 0,
            creator,
            next_id: next as u64,
            push: false,
            counters: Counters::none(),
        })
    }

    /// Equal parts, with memory of their own.
    pub(crate) fn copy(&self) -> Result<Self, NoMemory>
        ensures same { IfOk result (λ copied. copied ≡ self.now) }
    {
        Ok(Parts {
            limits: self.limits,
            rules: self.rules.copy()?,
            table: self.table.copy()?,
            queue: self.queue.copy()?,
            held: self.held.copy()?,
            server: self.server,
            client: self.client,
            clock: self.clock,
            creator: self.creator,
            next_id: self.next_id,
            push: self.push,
            counters: self.counters,
        })
    }
}

impl<A: Allocator> Parts<A> {
    /// States for proofs what is true of the parts of each node. It does nothing.
    pub fn known(&self)
        ensures parts { AreParts self.now }
    {
        let _clock = &self.clock;
    }
}
