//! The pending queues of a node.
ghost use Rattle.std.specs.Prelude.{◌≡◌, ◌==◌, ◌≤◌, ◌<◌, [], ◌∷◌, take, IfOk, IfSome, IfErr, OnErr, OnOk, OnSome, IfNone, Some, None, is_some};
ghost use Rattle.std.specs.Prelude.{nat_le, if◌then◌else◌};
ghost use Rattle.std.specs.VecDeque.Iter.{deque_iter_rest};
ghost use Rattle.pfl_base.specs.Lists.{in_order};
ghost use Rattle.pfl_edits.specs.Maps as maps;
ghost use Rattle.pfl_queue.specs.Queues.{Queue, IsQueue, empty_queue, pending, kind_of, marked, unmarked, is_requested, requested, with_status};
ghost use Rattle.pfl_queue.specs.Queues.{with_clear, most_numbers, room_fault, mark_fault, list_fault, request_fault};
ghost use Rattle.pfl_queue.specs.Laws.{NothingTwice};
ghost use Rattle.pfl_queue.specs.Taking.{mark_before, gone, left_by};
ghost use Rattle.pfl_queue.specs.Edits.{QueueLeadsBack, FindsFormer, redone, marking, unmarking, requesting, listing_status, listing_clear};

use crate::edits::QueueEdit;
use crate::lists::{copied, first, in_order as in_order_of, set_position};
use crate::marked::Marks;
use crate::requests::Requests;
use crate::{Cleared, Entry, Kind, Mark, QueueFault};
use pfl_base::{GREATEST_NUMBER, StateName};
use pfl_edits::{InOrder, NoMemory, Reversible};
use pfl_wire::BulkStatus;
use std::alloc::Allocator;
use std::collections::VecDeque;
use std::collections::vec_deque::Iter;
use std::marker::Model;

/// What is to be sent to the peer: names with a kind and a number, and lists of requests, statuses and clears. There are
/// never more than `limit` of them all, and all room is made by `new`.
pub struct Pending<A: Allocator> {
    limit: usize,
    next: u64,
    marks: Marks<A>,
    requests: Requests<A>,
    statuses: VecDeque<BulkStatus, A>,
    clears: VecDeque<Cleared, A>,
}

// Written by hand: see docs/ARCHITECTURE.md, "What the prover asks of the code".
impl<A: Allocator> Drop for Pending<A> {
    fn drop(self) {
        let Pending {
            limit: _,
            next: _,
            marks: _,
            requests: _,
            statuses: _,
            clears: _,
        } = self;
    }
}

impl<A: Allocator> Model for Pending<A> {
    ghost use Rattle.std.specs.VecDeque.{deque_capacity};
    ghost use Rattle.pfl_queue.specs.Queues.{Queue, coded_queue};

    ghost Value = { Queue };

    ghost coded = { coded_queue };

    ghost use Rattle.pfl_queue.specs.Kept.{queue_of, IsKept};

    ghost view = { λ q. queue_of q.limit q.next q.marks.lists q.requests.listed q.statuses.items q.clears.items };

    ghost invariant = { λ q.
        IsKept (queue_of q.limit q.next q.marks.lists q.requests.listed q.statuses.items q.clears.items)
        q.marks.limit q.requests.limit (deque_capacity q.statuses) (deque_capacity q.clears) };
}

impl<A: Allocator + Copy> Pending<A> {
    /// Nothing pending, and room for `limit` entries. The first number is 1. There is no memory for more than 2³⁰.
    pub fn new(alloc: A, limit: usize) -> Result<Self, NoMemory>
        ensures empty { IfOk result (λ q. q ≡ empty_queue limit 1) }
    {
        Pending::new_at(alloc, limit, 1)
    }

    /// Nothing pending, and room for `limit` entries. The first number is `next`. There is no memory for more than 2³⁰.
    pub fn new_at(alloc: A, limit: usize, next: u32) -> Result<Self, NoMemory>
        ensures empty { IfOk result (λ q. q ≡ empty_queue limit next) }
    {
        Ok(Pending {
            limit,
            next: next as u64,
            marks: Marks::new(alloc, limit)?,
            requests: Requests::new(alloc, limit)?,
            statuses: VecDeque::with_capacity(alloc, limit)?,
            clears: VecDeque::with_capacity(alloc, limit)?,
        })
    }
}

impl<A: Allocator> Pending<A> {
    /// How much there is room for.
    #[inline]
    pub fn limit(&self) -> usize
        ensures limit { result ≡ self.now.limit }
    {
        self.limit
    }

    /// The number of the next marking.
    #[inline]
    pub fn next(&self) -> u64
        ensures next { result ≡ self.now.next }
    {
        self.next
    }

    /// How much is pending.
    #[inline]
    pub fn len(&self) -> usize
        ensures pending { result ≡ pending self.now }
    {
        let limit = self.limit;
        self.marks.len() + self.requests.len() + self.statuses.len() + self.clears.len()
    }

    /// Nothing is pending.
    #[inline]
    pub fn is_empty(&self) -> bool
        ensures empty { result ≡ (pending self.now == 0) }
    {
        self.len() == 0
    }

    /// There is no room for another entry.
    #[inline]
    pub fn is_full(&self) -> bool
        ensures full { result ≡ nat_le self.now.limit (pending self.now) }
    {
        self.limit <= self.len()
    }

    /// The requests, in the order in which they were listed.
    #[inline]
    pub fn requests(&self) -> InOrder<'_, StateName>
        ensures requests { result ≡ self.now.requests }
    {
        self.requests.iter()
    }

    /// The bulk statuses, in the order in which they were listed.
    #[inline]
    pub fn statuses(&self) -> InOrder<'_, BulkStatus>
        ensures statuses { result ≡ self.now.statuses }
    {
        in_order_of(&self.statuses)
    }

    /// The clears, in the order in which they were listed.
    #[inline]
    pub fn clears(&self) -> InOrder<'_, Cleared>
        ensures clears { result ≡ self.now.clears }
    {
        in_order_of(&self.clears)
    }

    /// The first `most` requests, or all where there are fewer.
    pub(crate) fn first_requests(&self, most: usize) -> Iter<'_, StateName>
        ensures first { deque_iter_rest result ≡ take most self.now.requests }
    {
        self.requests.first(most)
    }

    /// The first `most` bulk statuses, or all where there are fewer.
    pub(crate) fn first_statuses(&self, most: usize) -> Iter<'_, BulkStatus>
        ensures first { deque_iter_rest result ≡ take most self.now.statuses }
    {
        first(&self.statuses, most)
    }

    /// The first `most` clears, or all where there are fewer.
    pub(crate) fn first_clears(&self, most: usize) -> Iter<'_, Cleared>
        ensures first { deque_iter_rest result ≡ take most self.now.clears }
    {
        first(&self.clears, most)
    }

    /// What is known of all pending queues, also of a copy and after a change was taken back.
    pub fn known(&self)
        ensures queue { IsQueue self.now }
        ensures nothing_twice { NothingTwice self.now }
    {
        let _limit = &self.limit;
    }

    /// The mark of a name.
    #[inline]
    pub fn mark_of(&self, name: StateName) -> Option<Mark>
        ensures mark { result ≡ maps.get self.now.marks name }
    {
        self.marks.get(name)
    }

    /// The queue that a name is on.
    #[inline]
    pub fn kind_of(&self, name: StateName) -> Option<Kind>
        ensures kind { result ≡ kind_of self.now name }
    {
        let mark = self.mark_of(name)?;
        Some(mark.kind)
    }

    /// Why there is no room to mark a name, if there is a reason. A name that is marked already takes no room.
    pub fn room_fault(&self, name: StateName) -> Option<QueueFault>
        ensures fault { result ≡ room_fault self.now name }
    {
        if self.mark_of(name).is_none() && self.is_full() {
            return Some(QueueFault::QueueFull);
        }
        None
    }

    /// Why a name may not be marked, if there is a reason: the first one.
    fn mark_fault(&self, name: StateName) -> Option<QueueFault>
        ensures fault { result ≡ mark_fault self.now name }
    {
        if let Some(fault) = self.room_fault(name) {
            return Some(fault);
        }
        if GREATEST_NUMBER <= self.next {
            return Some(QueueFault::CountFull);
        }
        None
    }

    /// Puts a name on a queue, and off any other, with the next number.
    pub fn mark(&mut self, name: StateName, kind: Kind) -> Result<QueueEdit, QueueFault>
        ensures fault { IfErr result (λ f. mark_fault self.old name ≡ Some f) }
        ensures unchanged { OnErr result (self.new ≡ self.old) }
        ensures no_fault { OnOk result (mark_fault self.old name ≡ None) }
        ensures marked { OnOk result (self.new ≡ marked self.old name kind) }
        ensures edit { IfOk result (λ e. e ≡ marking self.old name kind) }
        ensures leads_back { IfOk result (λ e. QueueLeadsBack (e ∷ []) self.old self.new) }
    {
        if let Some(fault) = self.mark_fault(name) {
            return Err(fault);
        }
        Ok(self.put(name, kind))
    }

    /// Marks as `mark` does, also with a number past the greatest. An event goes on so, since one that meets QueueFull
    /// later is refused with that; where it ends, the next number shows CountFull.
    pub fn mark_on(&mut self, name: StateName, kind: Kind) -> Result<QueueEdit, QueueFault>
        requires countable { self.old.next < most_numbers }
        ensures fault { IfErr result (λ f. room_fault self.old name ≡ Some f) }
        ensures unchanged { OnErr result (self.new ≡ self.old) }
        ensures no_fault { OnOk result (room_fault self.old name ≡ None) }
        ensures marked { OnOk result (self.new ≡ marked self.old name kind) }
        ensures edit { IfOk result (λ e. e ≡ marking self.old name kind) }
        ensures leads_back { IfOk result (λ e. QueueLeadsBack (e ∷ []) self.old self.new) }
    {
        if let Some(fault) = self.room_fault(name) {
            return Err(fault);
        }
        Ok(self.put(name, kind))
    }

    /// Puts a name that there is room for on a queue.
    fn put(&mut self, name: StateName, kind: Kind) -> QueueEdit
        requires room { room_fault self.old name ≡ None }
        requires countable { self.old.next < most_numbers }
        ensures marked { self.new ≡ marked self.old name kind }
        ensures edit { result ≡ marking self.old name kind }
        ensures leads_back { QueueLeadsBack (result ∷ []) self.old self.new }
    {
        let before = self.mark_of(name);
        let number = self.next;
        let edit = QueueEdit::OfMark {
            name,
            before,
            after: Some(Mark { name, kind, number }),
            next_before: number,
            next_after: number + 1,
        };
        self.make(edit);
        edit
    }

    /// Takes a name off its queue.
    pub fn unmark(&mut self, name: StateName) -> Option<QueueEdit>
        ensures marked { is_some result ≡ is_some (kind_of self.old name) }
        ensures unmarked { self.new ≡ unmarked self.old name }
        ensures unchanged { IfNone result (self.new ≡ self.old) }
        ensures edit { IfSome result (λ e. e ≡ unmarking self.old name) }
        ensures leads_back { IfSome result (λ e. QueueLeadsBack (e ∷ []) self.old self.new) }
    {
        let mark = self.marks.get(name)?;
        let edit = QueueEdit::OfName {
            name,
            before: Some(mark),
            after: None,
        };
        self.make(edit);
        Some(edit)
    }

    /// The name is on the list of requests.
    #[inline]
    pub fn is_requested(&self, name: StateName) -> bool
        ensures requested { result ≡ is_requested self.now name }
    {
        self.requests.contains(name)
    }

    /// Why no status and no clear may be listed, if there is a reason.
    pub fn list_fault(&self) -> Option<QueueFault>
        ensures fault { result ≡ list_fault self.now }
    {
        if self.is_full() {
            return Some(QueueFault::QueueFull);
        }
        None
    }

    /// Lists a request, once. There is no edit where it is listed already.
    pub fn request(&mut self, name: StateName) -> Result<Option<QueueEdit>, QueueFault>
        ensures fault { IfErr result (λ f. request_fault self.old name ≡ Some f) }
        ensures unchanged { OnErr result (self.new ≡ self.old) }
        ensures no_fault { OnOk result (request_fault self.old name ≡ None) }
        ensures requested { OnOk result (self.new ≡ requested self.old name) }
        ensures edit { IfOk result (λ o. o ≡ if is_requested self.old name then None else Some (requesting self.old name)) }
        ensures leads_back { IfOk result (λ o. IfSome o (λ e. QueueLeadsBack (e ∷ []) self.old self.new)) }
    {
        if self.is_requested(name) {
            return Ok(None);
        }
        if let Some(fault) = self.list_fault() {
            return Err(fault);
        }
        let edit = QueueEdit::OfRequest {
            position: self.requests.len(),
            before: None,
            after: Some(name),
        };
        self.make(edit);
        Ok(Some(edit))
    }

    /// Lists a bulk status.
    pub fn status(&mut self, status: BulkStatus) -> Result<QueueEdit, QueueFault>
        ensures fault { IfErr result (λ f. list_fault self.old ≡ Some f) }
        ensures unchanged { OnErr result (self.new ≡ self.old) }
        ensures no_fault { OnOk result (list_fault self.old ≡ None) }
        ensures listed { OnOk result (self.new ≡ with_status self.old status) }
        ensures edit { IfOk result (λ e. e ≡ listing_status self.old status) }
        ensures leads_back { IfOk result (λ e. QueueLeadsBack (e ∷ []) self.old self.new) }
    {
        if let Some(fault) = self.list_fault() {
            return Err(fault);
        }
        let edit = QueueEdit::OfStatus {
            position: self.statuses.len(),
            before: None,
            after: Some(status),
        };
        self.make(edit);
        Ok(edit)
    }

    /// Lists a clear: the states of a creator with an id of at most the bound are to go.
    pub fn clear(&mut self, creator: u32, bound: u64) -> Result<QueueEdit, QueueFault>
        ensures fault { IfErr result (λ f. list_fault self.old ≡ Some f) }
        ensures unchanged { OnErr result (self.new ≡ self.old) }
        ensures no_fault { OnOk result (list_fault self.old ≡ None) }
        ensures listed { OnOk result (self.new ≡ with_clear self.old creator bound) }
        ensures edit { IfOk result (λ e. e ≡ listing_clear self.old creator bound) }
        ensures leads_back { IfOk result (λ e. QueueLeadsBack (e ∷ []) self.old self.new) }
    {
        if let Some(fault) = self.list_fault() {
            return Err(fault);
        }
        let edit = QueueEdit::OfClear {
            position: self.clears.len(),
            before: None,
            after: Some(Cleared { creator, bound }),
        };
        self.make(edit);
        Ok(edit)
    }

    /// Takes entries out: each name off its queue, and for each other entry the first of its list.
    pub(crate) fn take_out(&mut self, entries: &[Entry])
        ensures left { self.new ≡ left_by self.old entries.now }
    {
        for entry in entries {
            self.take(entry);
        }
    }

    /// Takes an entry out: a name off its queue, or the first of a list.
    fn take(&mut self, entry: &Entry)
        ensures gone { self.new ≡ gone self.old entry.now }
    {
        match *entry {
            Entry::Marked { name, .. } => self.marks.remove(name),
            Entry::Request(_) => self.requests.remove(0),
            Entry::Status(_) => {
                self.statuses.pop_front();
            }
            Entry::Clear { .. } => {
                self.clears.pop_front();
            }
        }
    }

    /// Puts the new value of an edit that was undone into its place again. It returns nothing, so it cannot want memory.
    pub fn redo(&mut self, edit: QueueEdit)
        requires found { FindsFormer edit self.old }
        requires allowed { IsQueue (redone edit self.old) }
        ensures redone { self.new ≡ redone edit self.old }
    {
        self.set(edit);
    }

    /// Makes an edit that leads back.
    fn make(&mut self, edit: QueueEdit)
        requires found { FindsFormer edit self.old }
        requires allowed { IsQueue (redone edit self.old) }
        ensures made { self.new ≡ redone edit self.old }
        ensures leads_back { QueueLeadsBack (edit ∷ []) self.old self.new }
    {
        self.set(edit)
    }

    /// Puts the edit's new value into its place.
    fn set(&mut self, edit: QueueEdit)
        requires found { FindsFormer edit self.old }
        requires allowed { IsQueue (redone edit self.old) }
        ensures set { self.new ≡ redone edit self.old }
        ensures queue { IsQueue self.old }
    {
        match edit {
            QueueEdit::OfMark {
                name,
                after,
                next_after,
                ..
            } => {
                self.marks.set(name, after);
                self.next = next_after;
            }
            QueueEdit::OfName { name, after, .. } => {
                self.marks.set(name, after);
            }
            QueueEdit::OfRequest {
                position,
                before,
                after,
            } => self.requests.set(position, before, after),
            QueueEdit::OfStatus {
                position,
                before,
                after,
            } => set_position(&mut self.statuses, position, before, after),
            QueueEdit::OfClear {
                position,
                before,
                after,
            } => set_position(&mut self.clears, position, before, after),
        }
    }
}

impl<A: Allocator> Reversible for Pending<A> {
    ghost use Rattle.pfl_queue.specs.Edits.{FindsFormer, Finds, put_back, redone};
    ghost use Rattle.pfl_queue.specs.inner.BothWays.{edit-both_ways};

    type Edit = QueueEdit;

    ghost finds = { Finds };

    ghost finds_former = { FindsFormer };

    ghost put_back = { put_back };

    ghost redone = { redone };

    ghost allows = { IsQueue };

    fn undo(&mut self, edit: QueueEdit) {
        self.set(edit.reversed());
    }

    ghost both_ways = { edit-both_ways };
}

impl<A: Allocator + Copy> Pending<A> {
    /// The allocator that the room was made with.
    pub(crate) fn allocator(&self) -> A {
        *self.statuses.allocator()
    }

    /// The marks by kind and then by number, as a frame has them.
    pub fn marks_in_turn(&self) -> Result<Vec<Mark, A>, NoMemory>
        ensures turn { IfOk result (λ marks. marks.items ≡ in_order mark_before (maps.values self.now.marks)) }
    {
        let marks = self.first_marks(self.marks.len())?;
        Ok(marks)
    }

    /// The marks by kind and then by number: the first `most` of them, or all where there are fewer.
    pub(crate) fn first_marks(&self, most: usize) -> Result<Vec<Mark, A>, NoMemory>
        ensures first { IfOk result (λ marks. marks.items ≡ take most (in_order mark_before (maps.values self.now.marks))) }
    {
        let marks = self.marks.first(self.allocator(), most)?;
        Ok(marks)
    }

    /// Equal queues, with room of their own.
    pub fn copy(&self) -> Result<Self, NoMemory>
        ensures same { IfOk result (λ copied. copied ≡ self.now) }
    {
        let alloc = self.allocator();
        let statuses = copied(alloc, &self.statuses, self.limit)?;
        let clears = copied(alloc, &self.clears, self.limit)?;
        Ok(Pending {
            limit: self.limit,
            next: self.next,
            marks: self.marks.copy()?,
            requests: self.requests.copy()?,
            statuses,
            clears,
        })
    }
}
