//! What is read of a node.

ghost use Rattle.std.specs.Prelude.{◌≡◌, ◌≤◌, Some};
ghost use Rattle.pfl_base.specs.declared.state_name.StateName.{StateName};
ghost use Rattle.pfl_edits.specs.Maps as maps;
ghost use Rattle.pfl_desk.specs.Changes as to;
ghost use Rattle.pfl_desk.specs.Nodes.{AreParts, last_millisecond, timeout_at};
ghost use Rattle.pfl_rules.specs.Rules.{timeout as rule_timeout};
ghost use Rattle.pfl_table.specs.Tables.{states_of};
ghost use Rattle.pfl_table.specs.declared.row.Row.{Row};

use crate::counters::Counters;
use crate::parts::Parts;
use pfl_base::{Class, Kernel, Millis, StateName};
use pfl_bulk::{BulkClient, BulkServer};
use pfl_defer::Deferrals;
use pfl_language::Limits;
use pfl_queue::{Kind, Pending};
use pfl_rules::{RuleSet, scaled};
use pfl_table::StateTable;
use std::alloc::Allocator;

impl<A: Allocator> Parts<A> {
    /// Its limits.
    pub fn limits(&self) -> Limits
        ensures limits { result ≡ self.now.limits }
    {
        self.limits
    }

    /// Which of its rules are the kernel's.
    pub fn kernel(&self) -> Kernel
        ensures kernel { result ≡ self.now.limits.kernel }
    {
        self.limits.kernel
    }

    /// Its rules.
    pub fn rules(&self) -> &RuleSet<A>
        ensures rules { result.now ≡ self.now.rules }
    {
        &self.rules
    }

    /// Its states, each with its timeout under the node's rules, in seconds.
    pub fn states(&self) -> &StateTable<A>
        ensures parts { AreParts self.now }
        ensures states { states_of result.now ≡ self.now.states }
        ensures limit { result.now.limit ≡ self.now.limits.states }
        ensures timeouts { (name : StateName) (row : Row) → maps.get result.now.rows name ≡ Some row
            → row.timeout ≡ rule_timeout self.now.rules row.state.rule row.state.class }
    {
        &self.table
    }

    /// The timeout that it gives the states of a rule and a class as it stands, in seconds (pf.conf(5), `adaptive.start`). It is no
    /// longer than the rules say.
    pub fn timeout(&self, rule: Option<u16>, class: Class) -> u32
        ensures timeout { result ≡ timeout_at self.now rule class }
        ensures shrinks { result ≤ rule_timeout self.now.rules rule class }
    {
        let states = self.states();
        let seconds = self.rules().timeout(rule, class);
        scaled(seconds, self.limits().adaptive(), states.len())
    }

    /// What it has to send to its peer.
    pub fn queue(&self) -> &Pending<A>
        ensures queue { result.now ≡ self.now.queue }
    {
        &self.queue
    }

    /// A deletion of the name is pending, and stays where its state comes back or goes: with `revive` alone (if_pfsync.c, as far as we
    /// know it).
    pub fn keeps_deletion(&self, name: StateName) -> bool
        ensures keeps { result ≡ to.keeps_deletion self.now name }
    {
        self.kernel().revive && self.queue().kind_of(name) == Some(Kind::Delete)
    }

    /// The packets that it holds until its peer knows of their states.
    pub fn held(&self) -> &Deferrals<A>
        ensures parts { AreParts self.now }
        ensures held { result.now ≡ self.now.held }
    {
        &self.held
    }

    /// The bulk update that it serves.
    pub fn server(&self) -> BulkServer
        ensures server { result ≡ self.now.server }
    {
        self.server
    }

    /// The bulk update that it waits for.
    pub fn client(&self) -> BulkClient
        ensures client { result ≡ self.now.client }
    {
        self.client
    }

    /// Its clock, in milliseconds.
    pub fn clock(&self) -> Millis
        ensures clock { result ≡ self.now.clock }
        ensures within { result ≤ last_millisecond }
    {
        self.clock
    }

    /// The number of its boot, by which its states are named.
    pub fn creator(&self) -> u32
        ensures creator { result ≡ self.now.creator }
    {
        self.creator
    }

    /// The id of its next state.
    pub fn next_id(&self) -> u64
        ensures next_id { result ≡ self.now.next_id }
    {
        self.next_id
    }

    /// Whether a frame is wanted soon.
    pub fn push(&self) -> bool
        ensures push { result ≡ self.now.push }
    {
        self.push
    }

    /// What it counted.
    pub fn counters(&self) -> Counters
        ensures counters { result ≡ self.now.counters }
    {
        self.counters
    }
}
