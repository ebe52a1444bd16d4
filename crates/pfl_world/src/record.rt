//! One record of the peer's comes to a node by itself, and its edits go onto a tape (if_pfsync.c).

ghost use Rattle.std.specs.Prelude.{◌≡◌, ◌+◌, ◌≤◌, None, IfErr, OnOk, OnErr, length};
ghost use Rattle.std.specs.List.{AllByRecursion};
ghost use Rattle.pfl_edits.specs.Changes.{Fits, back};
ghost use Rattle.pfl_edits.specs.Tapes.{above, below};
ghost use Rattle.pfl_node.specs.Delivering.{message_refusal, message_taken};
ghost use Rattle.pfl_node.specs.desk.Nodes.{IsRefusal};
ghost use Rattle.pfl_world.specs.Values.{HoldsLittle};
ghost use Rattle.pfl_world.specs.WorldEdits.{Finds, put_back};
ghost use Rattle.pfl_world.specs.Worlds.{IsWorld, node_at, with_node};

use crate::edit::WorldTape;
use crate::world::World;
use pfl_base::{NodeId, Refusal};
use pfl_wire::Message;
use std::alloc::Allocator;

impl<A: Allocator + Copy> World<A> {
    /// Lets a node take one record of a peer whose rules have this checksum, and appends what it changed to the tape. Where the record
    /// is refused the tape keeps its edits, and at most gains room.
    pub fn take_record_on(
        &mut self,
        to: NodeId,
        message: &Message,
        print: &[u8; 16],
        tape: &mut WorldTape<A>,
    ) -> Result<(), Refusal>
        ensures refused { IfErr result (IsRefusal (message_refusal (node_at self.old to) message.now print.now)) }
        ensures unchanged { OnErr result (self.new ≡ self.old) }
        ensures untaped { OnErr result (tape.new.list ≡ tape.old.list) }
        ensures not_refused { OnOk result (message_refusal (node_at self.old to) message.now print.now ≡ None) }
        ensures world { OnOk result (self.new ≡ with_node self.old to (message_taken (node_at self.old to) message.now print.now)) }
        ensures taped { below (length tape.old.list) tape.new.list ≡ tape.old.list }
        ensures fits { OnOk result (Fits Finds IsWorld put_back (above (length tape.old.list) tape.new.list) self.new) }
        ensures back { OnOk result (back put_back (above (length tape.old.list) tape.new.list) self.new ≡ self.old) }
        ensures small { OnOk result (AllByRecursion HoldsLittle (above (length tape.old.list) tape.new.list)) }
        ensures room { tape.old.spare + length tape.old.list ≤ tape.new.spare + length tape.new.list }
    {
        self.known();
        self.nodes
            .at_mut(to)
            .take_message_on(message, print, to, tape)
    }
}
