//! The link.
ghost use Rattle.std.specs.Prelude.{◌≡◌, ◌≤◌, ◌∷◌, [], Some, None, IfErr, IfOk, IfSome, OnErr, OnOk, length, map};
ghost use Rattle.std.specs.Option.{option_copied, option_map};
ghost use Rattle.pfl_edits.specs.Maps as maps;
ghost use Rattle.pfl_link.specs.Links.{IsLink, empty_link, sent, without_frame, with_frame, cut_to};
ghost use Rattle.pfl_link.specs.Framed.{entry_of};
ghost use Rattle.pfl_link.specs.LinkEdits.{with_place, LinkLeadsBack};
ghost use Rattle.pfl_link.specs.Faults.{room_fault, missing_fault, copy_fault, or_no_memory};

use crate::bytes::Bytes;
use crate::change::LinkChange;
use crate::edit::LinkEdit;
use crate::fault::{LinkFault, Refused};
use crate::in_flight::InFlight;
use crate::ticketed::Ticketed;
use pfl_base::NodeId;
use pfl_edits::{InOrder, NoMemory, Reversible, Rows};
use std::alloc::Allocator;
use std::marker::Model;

/// Frames in flight under their tickets. `new` makes the room for the tickets; each frame brings the memory of its bytes.
pub struct Link<A: Allocator> {
    alloc: A,
    limit: usize,
    mtu: usize,
    next: u32,
    rows: Rows<Ticketed<A>, A>,
}

// Written by hand: see docs/ARCHITECTURE.md, "What the prover asks of the code".
impl<A: Allocator> Drop for Link<A> {
    fn drop(self) {
        let Link {
            alloc: _,
            limit: _,
            mtu: _,
            next: _,
            rows: _,
        } = self;
    }
}

impl<A: Allocator> Model for Link<A> {
    ghost use Rattle.pfl_link.specs.Links.{Link, coded_link};
    ghost use Rattle.pfl_link.specs.Framed.{link_of, IsKept};

    ghost Value = { Link };

    ghost coded = { coded_link };

    ghost view = { λ l. link_of l.limit l.mtu l.next l.rows };

    ghost invariant = { λ l. IsKept l.limit l.mtu l.next l.rows };
}

impl<A: Allocator> Reversible for Link<A> {
    ghost use Rattle.pfl_link.specs.Links.{IsLink};
    ghost use Rattle.pfl_link.specs.LinkEdits.{Finds, FindsFormer, put_back, redone};
    ghost use Rattle.pfl_link.specs.inner.BothWays.{edit-both_ways};

    type Edit = LinkEdit<A>;

    ghost finds = { Finds };

    ghost finds_former = { FindsFormer };

    ghost put_back = { put_back };

    ghost redone = { redone };

    ghost allows = { IsLink };

    fn undo(&mut self, edit: LinkEdit<A>) {
        let (ticket, next) = (edit.ticket(), edit.next_before(self.next));
        self.set(ticket, edit.into_former(), next);
    }

    ghost both_ways = { edit-both_ways };
}

impl<A: Allocator> Link<A> {
    /// A link with nothing in flight, room for `limit` frames of at most `mtu` bytes each, and 1 as the next ticket.
    pub fn new(alloc: A, limit: usize, mtu: usize) -> Result<Link<A>, NoMemory>
    where
        A: Copy,
        ensures empty { IfOk result (λ l. l ≡ empty_link limit mtu 1) }
    {
        Link::new_at(alloc, limit, mtu, 1)
    }

    /// A link with nothing in flight, room for `limit` frames of at most `mtu` bytes each, and this next ticket.
    pub fn new_at(alloc: A, limit: usize, mtu: usize, next: u32) -> Result<Link<A>, NoMemory>
    where
        A: Copy,
        ensures empty { IfOk result (λ l. l ≡ empty_link limit mtu next) }
    {
        let rows = Rows::new(alloc, limit)?;
        Ok(Link {
            alloc,
            limit,
            mtu,
            next,
            rows,
        })
    }

    /// The frame with the ticket.
    pub fn get(&self, ticket: u32) -> Option<&InFlight<A>>
        ensures frame { option_copied result ≡ maps.get self.now.frames ticket }
    {
        match self.rows.get(ticket) {
            Some(row) => Some(row.frame()),
            None => None,
        }
    }

    /// The frames in the order of their tickets.
    pub fn frames(&self) -> InOrder<'_, Ticketed<A>>
        ensures frames { map entry_of result ≡ maps.entries self.now.frames }
    {
        InOrder::of(self.rows.as_slice())
    }

    /// How many frames are in flight.
    pub fn len(&self) -> usize
        ensures len { result ≡ maps.len self.now.frames }
    {
        self.rows.len()
    }

    /// How many frames may be in flight.
    pub fn limit(&self) -> usize
        ensures limit { result ≡ self.now.limit }
    {
        self.limit
    }

    /// How many bytes a frame may have.
    pub fn mtu(&self) -> usize
        ensures mtu { result ≡ self.now.mtu }
    {
        self.mtu
    }

    /// The next ticket.
    pub fn next(&self) -> u32
        ensures next { result ≡ self.now.next }
    {
        self.next
    }

    /// What is true of each link.
    pub fn known(&self)
        ensures link { IsLink self.now }
    {
        let _ = &self.limit;
    }

    /// Why the link has no room for another frame, or no ticket for it.
    pub fn room_fault(&self) -> Option<LinkFault>
        ensures fault { result ≡ room_fault self.now }
    {
        if self.limit <= self.len() {
            return Some(LinkFault::LinkFull);
        }
        if self.next == u32::MAX {
            return Some(LinkFault::CountFull);
        }
        None
    }

    /// Takes a frame off the link: the edit has it.
    pub fn take(&mut self, ticket: u32) -> Result<LinkEdit<A>, LinkFault>
        ensures refused { IfErr result (λ fault. missing_fault self.old ticket ≡ Some fault) }
        ensures unchanged { OnErr result (self.new ≡ self.old) }
        ensures edit_ticket { IfOk result (λ edit. edit.ticket ≡ ticket) }
        ensures frame { IfOk result (λ edit. maps.get self.old.frames ticket ≡ Some edit.frame) }
        ensures link { OnOk result (self.new ≡ without_frame self.old ticket) }
        ensures leads_back { IfOk result (λ edit. LinkLeadsBack (edit ∷ []) self.old self.new) }
    {
        let next = self.next;
        match self.set(ticket, None, next) {
            Some(frame) => Ok(LinkEdit::new(ticket, frame, LinkChange::Taken)),
            None => Err(LinkFault::NoSuchFrame),
        }
    }

    /// Puts a frame under the next ticket. `kept` is the same frame, for the edit.
    fn add(&mut self, frame: InFlight<A>, kept: InFlight<A>) -> (u32, LinkEdit<A>)
        requires free { room_fault self.old ≡ None }
        requires short { length frame.bytes ≤ self.old.mtu }
        requires same { kept ≡ frame }
        ensures ticket { result.0 ≡ self.old.next }
        ensures edit_ticket { result.1.ticket ≡ self.old.next }
        ensures frame { result.1.frame ≡ frame }
        ensures link { self.new ≡ sent self.old frame }
        ensures leads_back { LinkLeadsBack (result.1 ∷ []) self.old self.new }
    {
        let ticket = self.next;
        self.set(ticket, Some(frame), ticket + 1);
        (ticket, LinkEdit::new(ticket, kept, LinkChange::Sent))
    }

    /// Sets what stands under a ticket together with the next ticket, in room that was made, and returns what stood there.
    pub(crate) fn set(
        &mut self,
        ticket: u32,
        at: Option<InFlight<A>>,
        next: u32,
    ) -> Option<InFlight<A>>
        requires kept { IsLink (with_place ticket at next self.old) }
        ensures former { result ≡ maps.get self.old.frames ticket }
        ensures link { self.new ≡ with_place ticket at next self.old }
    {
        self.next = next;
        frame_of(self.rows.set(ticket, row_of(ticket, at)))
    }
}

impl<A: Allocator + Copy> Link<A> {
    /// Sends a frame of at most `mtu` bytes to a node under the next ticket. A refusal brings the bytes back.
    pub fn send(&mut self, to: NodeId, bytes: Bytes<A>) -> Result<(u32, LinkEdit<A>), Refused<A>>
        requires short { length bytes ≤ self.old.mtu }
        ensures refused { IfErr result (λ r. r.fault ≡ or_no_memory (room_fault self.old)) }
        ensures bytes { IfErr result (λ r. r.bytes ≡ bytes) }
        ensures unchanged { OnErr result (self.new ≡ self.old) }
        ensures accepted { OnOk result (room_fault self.old ≡ None) }
        ensures ticket { IfOk result (λ r. r.0 ≡ self.old.next) }
        ensures edit_ticket { IfOk result (λ r. r.1.ticket ≡ self.old.next) }
        ensures frame { IfOk result (λ r. r.1.frame ≡ record { to = to; bytes = bytes }) }
        ensures link { OnOk result (self.new ≡ sent self.old (record { to = to; bytes = bytes })) }
        ensures leads_back { IfOk result (λ r. LinkLeadsBack (r.1 ∷ []) self.old self.new) }
    {
        if let Some(fault) = self.room_fault() {
            return Err(Refused { fault, bytes });
        }
        match bytes.copy() {
            Ok(kept) => Ok(self.add(InFlight::new(to, bytes), InFlight::new(to, kept))),
            Err(NoMemory) => Err(Refused {
                fault: LinkFault::NoMemory,
                bytes,
            }),
        }
    }

    /// Sends a copy of a frame to its receiver under the next ticket.
    pub fn copy(&mut self, ticket: u32) -> Result<(u32, LinkEdit<A>), LinkFault>
        ensures refused { IfErr result (λ fault. fault ≡ or_no_memory (copy_fault self.old ticket)) }
        ensures unchanged { OnErr result (self.new ≡ self.old) }
        ensures accepted { OnOk result (room_fault self.old ≡ None) }
        ensures ticket { IfOk result (λ r. r.0 ≡ self.old.next) }
        ensures edit_ticket { IfOk result (λ r. r.1.ticket ≡ self.old.next) }
        ensures frame { IfOk result (λ r. maps.get self.old.frames ticket ≡ Some r.1.frame) }
        ensures link { IfOk result (λ r. self.new ≡ sent self.old r.1.frame) }
        ensures leads_back { IfOk result (λ r. LinkLeadsBack (r.1 ∷ []) self.old self.new) }
    {
        let Some(frame) = self.get(ticket) else {
            return Err(LinkFault::NoSuchFrame);
        };
        if let Some(fault) = self.room_fault() {
            return Err(fault);
        }
        let copied = frame.copy()?;
        let kept = frame.copy()?;
        self.known();
        Ok(self.add(copied, kept))
    }

    /// Cuts a frame to its first `count` bytes, or all if it has fewer, and returns how many it has then.
    pub fn cut(&mut self, ticket: u32, count: usize) -> Result<(usize, LinkEdit<A>), LinkFault>
        ensures refused { IfErr result (λ fault. fault ≡ or_no_memory (missing_fault self.old ticket)) }
        ensures unchanged { OnErr result (self.new ≡ self.old) }
        ensures edit_ticket { IfOk result (λ r. r.1.ticket ≡ ticket) }
        ensures frame { IfOk result (λ r. maps.get self.old.frames ticket ≡ Some r.1.frame) }
        ensures len { IfOk result (λ r. r.0 ≡ length (cut_to r.1.frame count).bytes) }
        ensures link { IfOk result (λ r. self.new ≡ with_frame self.old ticket (cut_to r.1.frame count)) }
        ensures leads_back { IfOk result (λ r. LinkLeadsBack (r.1 ∷ []) self.old self.new) }
    {
        let Some(frame) = self.get(ticket) else {
            return Err(LinkFault::NoSuchFrame);
        };
        let short = frame.first(count)?;
        let (len, next) = (short.bytes().len(), self.next);
        match self.set(ticket, Some(short), next) {
            Some(whole) => Ok((len, LinkEdit::new(ticket, whole, LinkChange::Cut(count)))),
            None => unreachable!(),
        }
    }

    /// An equal link, in memory of its own.
    pub fn copy_all(&self) -> Result<Link<A>, NoMemory>
        ensures same { IfOk result (λ copied. copied ≡ self.now) }
    {
        let mut rows = Rows::new(self.alloc, self.limit)?;
        for row in self.rows.as_slice() {
            rows.set(row.ticket(), Some(row.copy()?));
        }
        Ok(Link {
            alloc: self.alloc,
            limit: self.limit,
            mtu: self.mtu,
            next: self.next,
            rows,
        })
    }
}

/// What stands under a ticket, as its row.
fn row_of<A: Allocator>(ticket: u32, at: Option<InFlight<A>>) -> Option<Ticketed<A>>
    ensures keyed { IfSome result (λ row. row.ticket ≡ ticket) }
    ensures frame { option_map (λ row. row.frame) result ≡ at }
{
    match at {
        Some(frame) => Some(Ticketed::new(ticket, frame)),
        None => None,
    }
}

/// The frame of a row.
fn frame_of<A: Allocator>(row: Option<Ticketed<A>>) -> Option<InFlight<A>>
    ensures frame { result ≡ option_map (λ row. row.frame) row }
{
    match row {
        Some(row) => Some(row.into_frame()),
        None => None,
    }
}
