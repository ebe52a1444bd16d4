//! What a frame takes from the pending queues.
ghost use Rattle.std.specs.Prelude.{◌≡◌, ◌≤◌, ◌+◌, ◌++◌, map, take, length, IfOk, OnErr, OnOk};
ghost use Rattle.pfl_wire.specs.Actions.{record_len};
ghost use Rattle.pfl_queue.specs.Taking.{kind_action, entry_action, entry_of, clear_of, left_by, next_frame};
ghost use Rattle.pfl_queue.specs.inner.Parts.{first_of_each};
ghost use Rattle.pfl_queue.specs.Edits.{QueueLeadsBack, taking};
ghost use Rattle.pfl_queue.specs.inner.Fitting.{added, longest};

use crate::{Cleared, Entry, Kind, Mark, Pending, QueueEdit};
use pfl_edits::{Change, NoMemory};
use pfl_wire::Action;
use std::alloc::Allocator;

/// The bytes of a frame without records.
const HEADER_LEN: usize = 20;

/// The bytes that a group has before its records.
const GROUP_LEN: usize = 4;

/// The bytes of the shortest record.
const LEAST_RECORD_LEN: usize = 8;

impl Kind {
    /// The action that announces the kind. A deletion is announced in short form.
    pub fn action(self) -> Action
        ensures action { result ≡ kind_action self }
    {
        match self {
            Kind::Insert => Action::Insert,
            Kind::InsertAck => Action::InsertAck,
            Kind::Update => Action::Update,
            Kind::UpdateShort => Action::UpdateShort,
            Kind::Delete => Action::DeleteShort,
        }
    }
}

impl Entry {
    /// The action that announces the entry.
    pub fn action(&self) -> Action
        ensures action { result ≡ entry_action self.now }
    {
        match self {
            Entry::Marked { kind, .. } => kind.action(),
            Entry::Request(_) => Action::UpdateRequest,
            Entry::Status(_) => Action::Bulk,
            Entry::Clear { .. } => Action::Clear,
        }
    }

    /// The edit that takes the entry out, where it is the first one pending.
    fn taking(&self) -> QueueEdit
        ensures edit { result ≡ taking self.now }
    {
        match *self {
            Entry::Marked { kind, number, name } => QueueEdit::OfName {
                name,
                before: Some(Mark { name, kind, number }),
                after: None,
            },
            Entry::Request(name) => QueueEdit::OfRequest {
                position: 0,
                before: Some(name),
                after: None,
            },
            Entry::Status(status) => QueueEdit::OfStatus {
                position: 0,
                before: Some(status),
                after: None,
            },
            Entry::Clear { creator, bound } => QueueEdit::OfClear {
                position: 0,
                before: Some(Cleared { creator, bound }),
                after: None,
            },
        }
    }
}

/// Records that the entries were taken out, one after another, in room that was made.
fn record<A: Allocator>(entries: &[Entry], change: &mut Change<QueueEdit, A>)
    requires room { length entries.now ≤ change.old.spare }
    ensures edits { change.new.list ≡ change.old.list ++ map taking entries.now }
{
    for entry in entries {
        let edit = entry.taking();
        change.push(edit);
    }
}

/// How many bytes a record adds to a frame whose last record is that of `before`.
fn added(before: Option<Action>, action: Action) -> usize
    ensures added { result ≡ added before action }
{
    let record = action.record_len();
    match before {
        Some(last) if last.number() == action.number() => record,
        _ => GROUP_LEN + record,
    }
}

/// How many of the entries a frame of at most `mtu` bytes takes.
fn fitting(entries: &[Entry], mtu: u32) -> usize
    ensures longest { take result entries.now ≡ longest entries.now mtu }
{
    let mtu = mtu as usize;
    if mtu < HEADER_LEN {
        return 0;
    }
    let mut left = mtu - HEADER_LEN;
    let mut before = None;
    for (i, entry) in entries.iter().enumerate() {
        let action = entry.action();
        let cost = added(before, action);
        if left < cost {
            return i;
        }
        left -= cost;
        before = Some(action);
    }
    entries.len()
}

impl From<Mark> for Entry {
    fn from(mark: Mark) -> Entry
        ensures entry { result ≡ entry_of mark }
    {
        let Mark { name, kind, number } = mark;
        Entry::Marked { kind, number, name }
    }
}

impl From<Cleared> for Entry {
    fn from(cleared: Cleared) -> Entry
        ensures entry { result ≡ clear_of cleared }
    {
        let Cleared { creator, bound } = cleared;
        Entry::Clear { creator, bound }
    }
}

impl<A: Allocator + Copy> Pending<A> {
    /// These marks, and the first requests, statuses and clears, in this order: at most this many of each.
    fn first_of_each(&self, marks: &[Mark], most: usize) -> Result<Vec<Entry, A>, NoMemory>
        ensures first { IfOk result (λ entries. entries.items ≡ first_of_each most marks.now self.now) }
    {
        let requests = self.first_requests(most);
        let statuses = self.first_statuses(most);
        let clears = self.first_clears(most);
        let entries = marks
            .iter()
            .map(|mark| Entry::from(*mark))
            .chain(requests.map(|name| Entry::Request(*name)))
            .chain(statuses.map(|status| Entry::Status(*status)))
            .chain(clears.map(|cleared| Entry::from(*cleared)))
            .collect(self.allocator())?;
        Ok(entries)
    }

    /// The entries of the frame of at most `mtu` bytes that is next.
    fn frame_of(&self, mtu: u32) -> Result<Vec<Entry, A>, NoMemory>
        ensures frame { IfOk result (λ entries. entries.items ≡ next_frame self.now mtu) }
    {
        let most = mtu as usize / LEAST_RECORD_LEN;
        let marks = self.first_marks(most)?;
        let mut entries = self.first_of_each(&marks, most)?;
        entries.truncate(fitting(&entries, mtu));
        Ok(entries)
    }

    /// Takes the frame of at most `mtu` bytes that is next out of the queues, and returns its entries and an edit for each.
    pub fn next_frame(
        &mut self,
        mtu: u32,
    ) -> Result<(Vec<Entry, A>, Change<QueueEdit, A>), NoMemory>
        ensures unchanged { OnErr result (self.new ≡ self.old) }
        ensures frame { IfOk result (λ r. r.0.items ≡ next_frame self.old mtu) }
        ensures left { OnOk result (self.new ≡ left_by self.old (next_frame self.old mtu)) }
        ensures edits { IfOk result (λ r. r.1.list ≡ map taking (next_frame self.old mtu)) }
        ensures one_each { IfOk result (λ r. length r.1.list ≡ length (next_frame self.old mtu)) }
        ensures leads_back { IfOk result (λ r. QueueLeadsBack r.1.list self.old self.new) }
    {
        let entries = self.frame_of(mtu)?;
        let mut change = Change::new(self.allocator());
        change.reserve(entries.len())?;
        record(&entries, &mut change);
        self.known();
        self.take_out(&entries);
        Ok((entries, change))
    }
}
