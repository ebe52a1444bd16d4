//! A frame goes out (if_pfsync.c).

mod frame;

ghost use Rattle.std.specs.List.{fold};
ghost use Rattle.std.specs.Prelude.{◌≡◌, ◌≤◌, ◌<◌, ◌+◌, ◌*◌, false, IfOk, IfErr, OnOk, length};
ghost use Rattle.pfl_node.specs.Calls.{NodeGives};
ghost use Rattle.pfl_node.specs.inner.Carried.{Does, IsIdle};
ghost use Rattle.pfl_base.specs.declared.refusal.Refusal.TheVariants as refusal;
ghost use Rattle.pfl_receive.specs.desk.Drafts.{Writes};
ghost use Rattle.pfl_node.specs.Flushing as flushing;
ghost use Rattle.pfl_receive.specs.desk.Nodes.{Node as Whole, AreParts};
ghost use Rattle.pfl_receive.specs.desk.inner.Taking.{taken_from};
ghost use Rattle.pfl_receive.specs.queue.Taking.{next_frame};
ghost use Rattle.pfl_wire.specs.Spelling.{spelling};

use crate::flush::frame::bytes_of;
use crate::node::Node;
use pfl_base::Refusal;
use pfl_edits::{Change, NoMemory};
use pfl_receive::{Desk, Entry, NodeEdit};
use std::alloc::Allocator;

impl<A: Allocator + Copy> Node<A> {
    /// Sends one frame, the longest prefix of what is pending that fits, and returns its bytes. Where something is pending, there
    /// is room for at least one entry.
    pub fn flush(&mut self) -> Result<(Vec<u8, A>, Change<NodeEdit, A>), Refusal>
        ensures gives { NodeGives (flushing.flush_edits self.old) (flushing.send_refusal self.old) (flushing.flushed self.old)
            (λ bytes. bytes.items ≡ spelling (flushing.frame_of self.old)) result self.old self.new }
        ensures fits { IfOk result (λ r. length r.0.items ≤ self.old.limits.mtu) }
        ensures carries { OnOk result (0 < length (next_frame self.old.queue self.old.limits.mtu)) }
    {
        let mut edits = Change::new(self.alloc);
        let done = send_next(&mut self.desk, self.alloc);
        let bytes = self.desk.conclude(done, (), &mut edits)?;
        Ok((bytes, edits))
    }
}

impl<A: Allocator> Node<A> {
    /// Why no frame is sent, if there is a reason. It takes no memory.
    pub fn send_refusal(&self) -> Option<Refusal>
        ensures refusal { result ≡ flushing.send_refusal self.now }
    {
        if self.parts().queue().is_empty() {
            return Some(Refusal::NothingPending);
        }
        None
    }
}

/// Sends the next frame, where something is pending.
fn send_next<A: Allocator + Copy>(desk: &mut Desk<A>, alloc: A) -> Result<Vec<u8, A>, Refusal>
    requires idle { IsIdle desk.old }
    ensures does { Does (flushing.flush_edits desk.old.node) (flushing.send_refusal desk.old.node) (flushing.flushed desk.old.node)
        (λ bytes. bytes.items ≡ spelling (flushing.frame_of desk.old.node)) result desk.old desk.new }
    ensures fits { IfOk result (λ bytes. length bytes.items ≤ desk.old.node.limits.mtu) }
    ensures carries { OnOk result (0 < length (next_frame desk.old.node.queue desk.old.node.limits.mtu)) }
{
    if desk.parts().queue().is_empty() {
        return Err(Refusal::NothingPending);
    }
    send(desk, alloc)
}

/// Sends the next frame, which may be empty. It is refused only where there is no memory for it.
fn send<A: Allocator + Copy>(desk: &mut Desk<A>, alloc: A) -> Result<Vec<u8, A>, Refusal>
    requires parts { AreParts desk.old.node }
    requires room { 2 * length (next_frame desk.old.node.queue desk.old.node.limits.mtu) < desk.old.edits.spare }
    ensures memory { IfErr result (λ error. error ≡ refusal.NoMemory) }
    ensures node { OnOk result (desk.new.node ≡ flushing.flushed desk.old.node) }
    ensures bytes { IfOk result (λ bytes. bytes.items ≡ spelling (flushing.frame_of desk.old.node)) }
    ensures fits { IfOk result (λ bytes. length bytes.items ≤ desk.old.node.limits.mtu) }
    ensures writes { Writes (1 + 2 * length (next_frame desk.old.node.queue desk.old.node.limits.mtu)) desk.old desk.new }
{
    match frame_taken(desk, alloc) {
        Ok((bytes, entries)) => {
            clear_announced(desk, &entries);
            Ok(bytes)
        }
        Err(_) => Err(Refusal::NoMemory),
    }
}

/// Takes the entries of the next frame out of what is pending, and returns its bytes and them.
fn frame_taken<A: Allocator + Copy>(
    desk: &mut Desk<A>,
    alloc: A,
) -> Result<(Vec<u8, A>, Vec<Entry, A>), NoMemory>
    requires parts { AreParts desk.old.node }
    requires room { length (next_frame desk.old.node.queue desk.old.node.limits.mtu) ≤ desk.old.edits.spare }
    ensures bytes { IfOk result (λ r. r.0.items ≡ spelling (flushing.frame_of desk.old.node)) }
    ensures fits { IfOk result (λ r. length r.0.items ≤ desk.old.node.limits.mtu) }
    ensures entries { IfOk result (λ r. r.1.items ≡ next_frame desk.old.node.queue desk.old.node.limits.mtu) }
    ensures node { OnOk result (desk.new.node ≡ taken_from desk.old.node) }
    ensures writes { Writes (length (next_frame desk.old.node.queue desk.old.node.limits.mtu)) desk.old desk.new }
{
    let entries = desk.take_entries()?;
    let bytes = bytes_of(desk.parts(), alloc, &entries)?;
    Ok((bytes, entries))
}

/// No frame is wanted soon any more, and the states that the entries announce have no updates left to announce.
fn clear_announced<A: Allocator>(desk: &mut Desk<A>, entries: &[Entry])
    requires room { length entries.now < desk.old.edits.spare }
    ensures node { desk.new.node ≡ fold flushing.update_count_cleared (record desk.old.node { push = false }) entries.now }
    ensures writes { Writes (1 + length entries.now) desk.old desk.new }
{
    desk.set_push(false);
    clear_counts(desk, entries);
}

/// The states that the entries announce have no updates left to announce.
fn clear_counts<A: Allocator>(desk: &mut Desk<A>, entries: &[Entry])
    requires room { length entries.now ≤ desk.old.edits.spare }
    ensures node { desk.new.node ≡ fold flushing.update_count_cleared desk.old.node entries.now }
    ensures writes { Writes (length entries.now) desk.old desk.new }
{
    for entry in entries {
        clear_count(desk, entry);
    }
}

/// The state that the entry announces, if it is of one, has no updates left to announce.
fn clear_count<A: Allocator>(desk: &mut Desk<A>, entry: &Entry)
    requires room { 0 < desk.old.edits.spare }
    ensures node { desk.new.node ≡ flushing.update_count_cleared desk.old.node entry.now }
    ensures writes { Writes 1 desk.old desk.new }
{
    match *entry {
        Entry::Marked { name, .. } => desk.clear_updates(name),
        Entry::Request(_) | Entry::Status(_) | Entry::Clear { .. } => {}
    }
}
