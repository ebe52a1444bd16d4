//! What lies under the lock.

ghost use Rattle.std.specs.Prelude.{◌≡◌, ◌-◌, ◌<◌, ◌≤◌, false, [], ◌∷◌, ◌++◌, length, slice_get, slice_set, Some, IfOk, IfErr, OnOk, OnErr, IsTrue};
ghost use Rattle.std.specs.Prelude.{IsFalse, vec_len, vec_capacity};
ghost use Rattle.pfl_publish.specs.Count.{Count};
ghost use Rattle.pfl_publish.specs.Revisions.{StartsWith};
ghost use Rattle.pfl_publish.specs.Seats.{LoadsOn, LoadsOnce};
ghost use Rattle.pfl_timeline.specs.Replies.{reply_of};
ghost use Rattle.pfl_session.specs.Totals.{HasFewEvents};
ghost use Rattle.pfl_session.specs.Journals.{after_entry, replay, IsJournal, revisions_of, count_of};
ghost use Rattle.pfl_session.specs.Passes.{seen_in, IsPassOf, GoesOn, HasSeenJournal, AddsOthers, AddsCall, IsAskFault};
ghost use Rattle.pfl_session.specs.Made.{made_after};
ghost use Rattle.pfl_session.specs.Ledgers.{one_more_counted, HasMet, IsEntered};
ghost use Rattle.pfl_session.specs.Labs.{HasSeenOwn, IsClosed};

use crate::entry::Closed;
use crate::execution::execute;
use crate::fault::AskFault;
use crate::kept::KeptEntry;
use crate::made::{Made, Next};
use crate::mark::{Called, Mark};
use crate::pass::Pass;
use crate::revision::revision_of;
use crate::which::Which;
use pfl_edits::NoMemory;
use pfl_language::Command;
use pfl_publish::{Half, Publisher, Tally, ViewerSeat, WriterSeat};
use pfl_timeline::{Reply, Timeline};
use std::alloc::Allocator;
use std::marker::{Model, PhantomData};

/// The timeline, the journal that led to it, a half of each session's count, and the writer's seat, which has published each
/// entry. Contracts see the journal.
#[derive(Drop)]
pub(crate) struct Ledger<J: Which, A: Allocator> {
    pub(crate) timeline: Timeline<A>,
    pub(crate) journal: Vec<KeptEntry<A>, A>,
    pub(crate) limit: usize,
    pub(crate) halves: Vec<Half, A>,
    pub(crate) writer: Option<WriterSeat<Mark<A>>>,
    pub(crate) of: PhantomData<J>,
}

impl<J: Which, A: Allocator> Model for Ledger<J, A> {
    ghost use Rattle.std.specs.Prelude.{◌≡◌, List, Some, length};
    ghost use Rattle.pfl_publish.specs.Seats.{Writer};
    ghost use Rattle.pfl_session.specs.declared.entry.Entry.{Entry};
    ghost use Rattle.pfl_session.specs.declared.mark.Mark.{Mark};
    ghost use Rattle.pfl_session.specs.Journals.{revisions_of, counts_of};
    ghost use Rattle.pfl_session.specs.Made.{made_after};
    ghost use Rattle.pfl_session.specs.Ledgers.{IsLedger};

    ghost Value = { List (Entry A) };

    ghost view = { λ d. d.journal.items };

    ghost invariant = { λ d. ((w : Writer (Mark A)) × (d.writer ≡ Some w) × (w.table ≡ J.publisher)
        × (w.list ≡ revisions_of J.opening d.journal.items)) × (d.halves.items ≡ counts_of 1 J.tallies d.journal.items)
        × IsLedger J.opening (length J.tallies) J.limit d.timeline d.journal.items d.limit };
}

/// Puts the entry after the others, publishes what the timeline then shows, and lets the viewer see it.
fn append<J: Which, A: Allocator>(
    publisher: &Publisher<Mark<A>, A>,
    timeline: &Timeline<A>,
    journal: &mut Vec<KeptEntry<A>, A>,
    mut writer: WriterSeat<Mark<A>>,
    viewer: ViewerSeat<Mark<A>>,
    entry: KeptEntry<A>,
) -> (WriterSeat<Mark<A>>, ViewerSeat<Mark<A>>)
    requires tables { (writer.table ≡ publisher.now) × (viewer.table ≡ publisher.now) }
    requires closed { viewer.trying ≡ false }
    requires list { writer.list ≡ revisions_of J.opening journal.old.items }
    requires executed { timeline.now ≡ after_entry (replay J.opening journal.old.items) entry }
    requires few { HasFewEvents 8589934592 timeline.now }
    requires room { vec_len journal.old < vec_capacity journal.old }
    ensures items { journal.new.items ≡ journal.old.items ++ entry ∷ [] }
    ensures tables { (result.0.table ≡ publisher.now) × (result.1.table ≡ publisher.now) }
    ensures closed { result.1.trying ≡ false }
    ensures list { result.0.list ≡ revisions_of J.opening journal.new.items }
    ensures seen { result.1.seen ≡ result.0.list }
    ensures still { StartsWith result.1.seen viewer.seen }
    ensures loads { LoadsOn viewer result.1 }
{
    let revision = revision_of(timeline, journal.len() as u64 + 1);
    publisher.publish(&mut writer, revision, &Called { entry: &entry });
    journal.push_reserved(entry);
    let (writer, viewer, _) = publisher.meet(writer, viewer);
    (writer, viewer)
}

/// Counts one more in the session's halves.
fn count_one<A: Allocator>(
    tally: &Tally<A>,
    halves: &mut Vec<Half, A>,
    place: usize,
    mine: Half,
) -> Half
    requires kept { (h : Count) × (slice_get halves.old.items place ≡ Some h) × (h.table ≡ tally.now) }
    requires mine { mine.table ≡ tally.now }
    ensures same { slice_get halves.old.items place ≡ Some mine }
    ensures kept { halves.new.items ≡ slice_set halves.old.items place (one_more_counted mine) }
    ensures mine { result ≡ one_more_counted mine }
{
    tally.count_in(&mut halves[place], mine)
}

/// States that the session's halves have one count.
fn compare_one<A: Allocator>(
    tally: &Tally<A>,
    halves: &mut Vec<Half, A>,
    place: usize,
    mine: Half,
) -> Half
    requires kept { (h : Count) × (slice_get halves.old.items place ≡ Some h) × (h.table ≡ tally.now) }
    requires mine { mine.table ≡ tally.now }
    ensures same { slice_get halves.old.items place ≡ Some mine }
    ensures kept { halves.new.items ≡ slice_set halves.old.items place mine }
    ensures mine { result ≡ mine }
{
    tally.compare_in(&mut halves[place], mine)
}

impl<J: Which, A: Allocator> Ledger<J, A> {
    /// Whether the journal has as many entries as it may have.
    fn is_full(&self) -> bool
        ensures full { IsTrue result → length self.now ≡ J.limit }
        ensures room { IsFalse result → length self.now < J.limit }
    {
        self.journal.len() >= self.limit
    }

    /// Lets the pass see the journal, and returns how many entries it has.
    fn meet(&mut self, publisher: &Publisher<Mark<A>, A>, pass: &mut Pass<A>) -> u64
        requires publisher { (publisher.now ≡ J.publisher) × (pass.old.viewer.table ≡ J.publisher) }
        ensures journal { self.new ≡ self.old }
        ensures legal { IsJournal J.opening (length J.tallies) J.limit self.old }
        ensures seen { pass.new.viewer.seen ≡ revisions_of J.opening self.old }
        ensures half { pass.new.half ≡ pass.old.half }
        ensures goes_on { GoesOn pass.old pass.new }
        ensures loaded { LoadsOnce pass.old.viewer pass.new.viewer }
        ensures number { result ≡ length self.old }
    {
        let Some(writer) = self.writer.take() else {
            unreachable!();
        };
        let Some(viewer) = pass.viewer.take() else {
            unreachable!();
        };
        let (writer, viewer, number) = publisher.meet(writer, viewer);
        self.writer = Some(writer);
        pass.viewer = Some(viewer);
        number
    }

    /// States that the pass has counted each entry of its session, and has seen each that it has counted.
    fn compare(&mut self, tally: &Tally<A>, pass: &mut Pass<A>)
        requires tally { pass.old.half.table ≡ tally.now }
        requires place { slice_get J.tallies (pass.old.session - 1) ≡ Some tally.now }
        ensures journal { self.new ≡ self.old }
        ensures pass { pass.new ≡ pass.old }
        ensures below { pass.old.half.count ≤ count_of pass.old.session (seen_in pass.old) }
        ensures counted { pass.old.half.count ≡ count_of pass.old.session self.old }
    {
        let place = pass.session as usize - 1;
        let Some(mine) = pass.half.take() else {
            unreachable!();
        };
        let mine = compare_one(tally, &mut self.halves, place, mine);
        pass.half = Some(mine);
    }

    /// Lets the pass see the journal, states that it has counted each entry of its session there, and returns how many entries
    /// the journal has.
    pub(crate) fn catch_up(
        &mut self,
        publisher: &Publisher<Mark<A>, A>,
        tally: &Tally<A>,
        pass: &mut Pass<A>,
    ) -> u64
        requires publisher { publisher.now ≡ J.publisher }
        requires lab { IsPassOf J.publisher J.tallies pass.old }
        requires tally { pass.old.half.table ≡ tally.now }
        ensures journal { self.new ≡ self.old }
        ensures met { HasMet J.opening (length J.tallies) J.limit self.new pass.old pass.new }
        ensures loaded { LoadsOnce pass.old.viewer pass.new.viewer }
        ensures number { result ≡ length self.new }
    {
        self.compare(tally, pass);
        self.meet(publisher, pass)
    }

    /// The entry after the first `from` ones, if there is one.
    fn made_after(&self, from: u64) -> Option<Made>
        ensures { result ≡ made_after from self.now }
    {
        let entry = self.journal.get(from as usize)?;
        Some(Made {
            number: from + 1,
            session: entry.session(),
            command: entry.command(),
        })
    }

    /// Lets the pass see the journal, as `catch_up` does, and returns the entry after the first `from` ones, if there is one, and how
    /// many entries the journal has.
    pub(crate) fn entry_after(
        &mut self,
        publisher: &Publisher<Mark<A>, A>,
        tally: &Tally<A>,
        pass: &mut Pass<A>,
        from: u64,
    ) -> Next
        requires publisher { publisher.now ≡ J.publisher }
        requires lab { IsPassOf J.publisher J.tallies pass.old }
        requires tally { pass.old.half.table ≡ tally.now }
        ensures journal { self.new ≡ self.old }
        ensures met { HasMet J.opening (length J.tallies) J.limit self.new pass.old pass.new }
        ensures loaded { LoadsOnce pass.old.viewer pass.new.viewer }
        ensures made { result.made ≡ made_after from self.new }
        ensures entries { result.entries ≡ length self.new }
    {
        let entries = self.catch_up(publisher, tally, pass);
        let made = self.made_after(from);
        Next { made, entries }
    }
}

impl<J: Which, A: Allocator + Copy> Ledger<J, A> {
    /// Executes the command, appends its entry, and publishes it. The pass has then seen the journal up to it. Where there is
    /// no memory, nothing changes.
    fn enter(
        &mut self,
        publisher: &Publisher<Mark<A>, A>,
        tally: &Tally<A>,
        pass: &mut Pass<A>,
        command: &Command,
    ) -> Result<Reply<A>, NoMemory>
        requires publisher { (publisher.now ≡ J.publisher) × (pass.old.viewer.table ≡ J.publisher) }
        requires tally { pass.old.half.table ≡ tally.now }
        requires place { slice_get J.tallies (pass.old.session - 1) ≡ Some tally.now }
        requires room { length self.old < J.limit }
        ensures entered { IfOk result (λ reply.
            IsEntered J.opening (length J.tallies) J.limit self.old self.new pass.old pass.new command.now (reply_of reply)) }
        ensures goes_on { GoesOn pass.old pass.new }
        ensures one_more { OnOk result (pass.new.half ≡ one_more_counted pass.old.half) }
        ensures unchanged { OnErr result ((self.new ≡ self.old) × (pass.new ≡ pass.old)) }
    {
        self.journal.reserve(1)?;
        let alloc = *self.journal.allocator();
        let (reply, entry) = execute(alloc, &mut self.timeline, pass.session, command)?;
        let Some(writer) = self.writer.take() else {
            unreachable!();
        };
        let Some(viewer) = pass.viewer.take() else {
            unreachable!();
        };
        let Some(mine) = pass.half.take() else {
            unreachable!();
        };
        let (writer, viewer) = append::<J, A>(
            publisher,
            &self.timeline,
            &mut self.journal,
            writer,
            viewer,
            entry,
        );
        let mine = count_one(tally, &mut self.halves, pass.session as usize - 1, mine);
        self.writer = Some(writer);
        pass.viewer = Some(viewer);
        pass.half = Some(mine);
        Ok(reply)
    }

    /// Takes a command of the pass, unless the journal is full. Either way the pass has then seen the journal.
    pub(crate) fn ask(
        &mut self,
        publisher: &Publisher<Mark<A>, A>,
        tally: &Tally<A>,
        pass: &mut Pass<A>,
        command: Command,
    ) -> Result<Reply<A>, AskFault>
        requires publisher { publisher.now ≡ J.publisher }
        requires lab { IsPassOf J.publisher J.tallies pass.old }
        requires tally { pass.old.half.table ≡ tally.now }
        ensures goes_on { GoesOn pass.old pass.new }
        ensures lab { IsPassOf J.publisher J.tallies pass.new }
        ensures journal { HasSeenJournal J.opening (length J.tallies) J.limit pass.new }
        ensures called { IfOk result (λ reply. AddsCall pass.old pass.new command (reply_of reply)) }
        ensures refused { IfErr result (IsAskFault J.limit pass.new) }
        ensures not_called { OnErr result (AddsOthers pass.old pass.new) }
        ensures counted { pass.old.half.count ≡ count_of pass.old.session (seen_in pass.old) }
        ensures one_more { OnOk result (pass.new.half ≡ one_more_counted pass.old.half) }
        ensures no_more { OnErr result (pass.new.half ≡ pass.old.half) }
    {
        self.catch_up(publisher, tally, pass);
        if self.is_full() {
            return Err(AskFault::JournalFull);
        }
        Ok(self.enter(publisher, tally, pass, &command)?)
    }
}

impl<J: Which, A: Allocator> Ledger<J, A> {
    /// Takes a pass back, and states that it has seen a beginning of the journal, with each entry of its session, and has called
    /// each of these.
    pub(crate) fn settle(
        &mut self,
        publisher: &Publisher<Mark<A>, A>,
        tally: &Tally<A>,
        mut pass: Pass<A>,
    )
        requires publisher { publisher.now ≡ J.publisher }
        requires lab { IsPassOf J.publisher J.tallies pass }
        requires tally { pass.half.table ≡ tally.now }
        ensures journal { self.new ≡ self.old }
        ensures seen { HasSeenOwn J.opening self.old pass }
    {
        self.catch_up(publisher, tally, &mut pass);
    }

    /// The timeline and its journal.
    pub(crate) fn closed(self) -> Closed<A>
        ensures journal { result.journal.items ≡ self }
        ensures closed { IsClosed J.opening (length J.tallies) J.limit result.timeline result.journal.items }
    {
        let Ledger {
            timeline,
            journal,
            limit: _,
            halves: _,
            writer: _,
            of: _,
        } = self;
        Closed { timeline, journal }
    }
}
