//! What becomes of the records of a frame, one after another (if_pfsync.c).

ghost use Rattle.std.specs.Prelude.{◌≡◌, [], IfOk, OnOk, OnErr, length};
ghost use Rattle.pfl_edits.specs.Changes.{Fits, back};
ghost use Rattle.pfl_edits.specs.Tapes.{above, below};
ghost use Rattle.pfl_wire.specs.Frames.{records_of};
ghost use Rattle.pfl_world.specs.node.Delivering.{has_print, message_taken};
ghost use Rattle.pfl_world.specs.receive.Delivering.{same_rules};
ghost use Rattle.pfl_world.specs.WorldEdits.{Finds, put_back};
ghost use Rattle.pfl_world.specs.Worlds.{IsWorld, node_at, with_node};
ghost use Rattle.pfl_reasons.specs.Records as meant;

use crate::fate::record_fate;
use crate::record_fate::{RecordFate, TakenRecord};
use pfl_base::NodeId;
use pfl_edits::{NoMemory, Tape, undo_to};
use pfl_wire::{FrameBytes, Message};
use pfl_world::{Parts, World, WorldTape, records_leave_the_rest};
use std::alloc::Allocator;

/// The records of a frame that comes to a node, each with what becomes of it. The node takes them, and then this is undone: the world
/// is as it was.
pub(crate) fn fates_of<A: Allocator + Copy>(
    alloc: A,
    world: &mut World<A>,
    to: NodeId,
    frame: &FrameBytes<'_>,
) -> Result<Vec<TakenRecord, A>, NoMemory>
    ensures fates { IfOk result (λ list. list.items ≡ meant.fates (node_at world.old to) (same_rules (node_at world.old to) frame.now) (records_of frame.now)) }
    ensures still { world.new ≡ world.old }
{
    let mut tape = Tape::new(alloc);
    let list = take_all(alloc, world, to, frame, &mut tape);
    undo_to(world, &mut tape, 0);
    list
}

/// Lets the node take the records in their order, and returns each with what becomes of it. The tape, empty before, leads back.
fn take_all<A: Allocator + Copy>(
    alloc: A,
    world: &mut World<A>,
    to: NodeId,
    frame: &FrameBytes<'_>,
    tape: &mut WorldTape<A>,
) -> Result<Vec<TakenRecord, A>, NoMemory>
    requires empty { tape.old.list ≡ [] }
    ensures fates { IfOk result (λ list. list.items ≡ meant.fates (node_at world.old to) (same_rules (node_at world.old to) frame.now) (records_of frame.now)) }
    ensures fits { Fits Finds IsWorld put_back tape.new.list world.new }
    ensures back { back put_back tape.new.list world.new ≡ world.old }
{
    records_leave_the_rest();
    let mut list = Vec::new(alloc);
    for message in frame.records() {
        list.reserve(1)?;
        let fate = take_next(world, to, &message, frame.print(), tape)?;
        list.push(TakenRecord { message, fate }).unwrap();
    }
    Ok(list)
}

/// Lets the node take one record, and returns what becomes of it. Where memory is wanting, nothing is taken.
fn take_next<A: Allocator + Copy>(
    world: &mut World<A>,
    to: NodeId,
    message: &Message,
    print: &[u8; 16],
    tape: &mut WorldTape<A>,
) -> Result<RecordFate, NoMemory>
    ensures fate { IfOk result (λ fate. fate ≡ meant.record_fate (node_at world.old to) (has_print (node_at world.old to) print.now) message.now) }
    ensures unchanged { OnErr result (world.new ≡ world.old) }
    ensures untaped { OnErr result (tape.new.list ≡ tape.old.list) }
    ensures world { OnOk result (world.new ≡ with_node world.old to (message_taken (node_at world.old to) message.now print.now)) }
    ensures taped { below (length tape.old.list) tape.new.list ≡ tape.old.list }
    ensures fits { OnOk result (Fits Finds IsWorld put_back (above (length tape.old.list) tape.new.list) world.new) }
    ensures back { OnOk result (back put_back (above (length tape.old.list) tape.new.list) world.new ≡ world.old) }
{
    let node = world.node(to).parts();
    let fate = record_fate(node, message, has_print(node, print));
    // The frame is accepted as a whole, so none of its records is refused: only memory can be wanting.
    match world.take_record_on(to, message, print, tape) {
        Ok(()) => Ok(fate),
        Err(_) => Err(NoMemory),
    }
}

/// Whether the node's rules have the checksum.
fn has_print<A: Allocator>(node: &Parts<A>, print: &[u8; 16]) -> bool
    ensures { result ≡ has_print node.now print.now }
{
    *print == node.rules().print()
}
