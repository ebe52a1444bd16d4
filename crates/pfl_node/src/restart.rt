//! A node begins anew (if_pfsync.c; its form is this project's profile).

ghost use Rattle.std.specs.Prelude.{◌≡◌, ◌≤◌, false, IfOk};
ghost use Rattle.pfl_bulk.specs.Bulk.{no_name, first_asked};
ghost use Rattle.pfl_node.specs.Events as event;
ghost use Rattle.pfl_receive.specs.desk.Changes as to;
ghost use Rattle.pfl_receive.specs.desk.Drafts.{Writes};
ghost use Rattle.pfl_receive.specs.desk.Nodes.{AreParts, is_overfull, last_millisecond};

use crate::node::{Node, most_edits};
use pfl_base::{Millis, StateName};
use pfl_bulk::BulkClient;
use pfl_edits::NoMemory;
use pfl_receive::Desk;
use std::alloc::Allocator;

impl<A: Allocator + Copy> Node<A> {
    /// The node that this one begins anew as: of its limits, its rules and its clock, of this boot, and asking for all states. It
    /// has memory of its own.
    pub fn restart(&self, boot: u32) -> Result<Self, NoMemory>
        ensures restarted { IfOk result (λ n. n ≡ event.restarted self.now boot) }
    {
        let parts = self.parts();
        let limits = parts.limits();
        let rules = parts.rules().copy()?;
        let room = most_edits(&limits);
        let mut desk = Desk::new(self.alloc, limits, rules, boot, 1, room)?;
        ask_first(&mut desk, parts.clock());
        desk.give_up_edits();
        Ok(Node {
            alloc: self.alloc,
            desk,
        })
    }
}

/// Puts a clock on, and asks for all states for the first time. Nothing of that is ever taken back by itself.
fn ask_first<A: Allocator>(desk: &mut Desk<A>, clock: Millis)
    requires room { 4 ≤ desk.old.edits.spare }
    requires later { desk.old.node.clock ≤ clock }
    requires within { clock ≤ last_millisecond }
    requires free { is_overfull (to.ask (record desk.old.node { clock = clock }) no_name) ≡ false }
    ensures node { desk.new.node ≡ record (to.ask (record desk.old.node { clock = clock }) no_name) { client = first_asked clock } }
    ensures parts { AreParts desk.new.node }
    ensures writes { Writes 4 desk.old desk.new }
{
    desk.set_clock(clock);
    let Ok(()) = desk.ask(StateName::NONE) else {
        unreachable!();
    };
    desk.set_client(BulkClient::first_asked(clock));
}
