//! The records of a frame.

ghost use Rattle.std.specs.List.{fold};
ghost use Rattle.std.specs.Prelude.{◌≡◌, ◌≤◌, ◌*◌, IfOk, OnOk, length};
ghost use Rattle.pfl_edits.specs.Maps as maps;
ghost use Rattle.pfl_desk.specs.Drafts.{Writes};
ghost use Rattle.pfl_desk.specs.inner.Judging.{Went};
ghost use Rattle.pfl_receive.specs.Delivering as delivering;
ghost use Rattle.pfl_receive.specs.inner.Delivering.{frame_room, paid_by, records_room};
ghost use Rattle.pfl_receive.specs.Delivering.{frame_work, receive_points, received, records_work, taken_points, work_edits};
ghost use Rattle.pfl_receive.specs.Receiving.{taken};
ghost use Rattle.pfl_wire.specs.Frames.{frame_len, records_of};

use crate::records::take_record;
use pfl_desk::{Desk, Overfull, Parts};
use pfl_wire::{FrameBytes, Records};
use std::alloc::Allocator;

/// Takes the records of a frame in their order, and returns how many, and whether after one of them a number was too high. A rule's
/// number is kept only where the frame's checksum is that of the node's rules. It stops where too much would be pending; what was
/// done till then is recorded.
pub fn take_frame<A: Allocator>(
    desk: &mut Desk<A>,
    frame: &FrameBytes<'_>,
) -> Result<(usize, bool), Overfull>
    requires room { frame_room (maps.len desk.old.node.states) (frame_len frame.now.groups) ≤ desk.old.edits.spare }
    ensures went { Went result (receive_points desk.old.node frame.now) }
    ensures node { OnOk result (desk.new.node ≡ received desk.old.node frame.now) }
    ensures count { IfOk result (λ r. r.0 ≡ length (records_of frame.now)) }
    ensures writes { Writes (work_edits * frame_work desk.old.node frame.now) desk.old desk.new }
{
    let same_rules = has_same_rules(desk.parts(), frame);
    take_records(desk, frame.records(), same_rules)
}

/// Whether the frame's checksum is that of the node's rules.
fn has_same_rules<A: Allocator>(parts: &Parts<A>, frame: &FrameBytes<'_>) -> bool
    ensures same { result ≡ delivering.same_rules parts.now frame.now }
{
    *frame.print() == parts.rules().print()
}

/// Takes records one after another, and returns how many, and whether after one of them a number was too high.
fn take_records<A: Allocator>(
    desk: &mut Desk<A>,
    records: Records<'_>,
    same_rules: bool,
) -> Result<(usize, bool), Overfull>
    requires room { records_room (maps.len desk.old.node.states) (paid_by records) ≤ desk.old.edits.spare }
    ensures went { Went result (taken_points desk.old.node same_rules records.entry) }
    ensures node { OnOk result (desk.new.node ≡ fold (λ n m. taken n same_rules m) desk.old.node records.entry) }
    ensures count { IfOk result (λ r. r.0 ≡ length records.entry) }
    ensures writes { Writes (work_edits * records_work desk.old.node same_rules records.entry) desk.old desk.new }
{
    desk.known();
    let mut count = 0;
    let mut overcounted = false;
    for message in records {
        take_record(desk, &message, same_rules)?;
        overcounted |= desk.is_overcounted();
        count += 1;
    }
    Ok((count, overcounted))
}
