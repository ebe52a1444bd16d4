//! The lab: the publisher, the counts, and the ledger under its lock.

ghost use Rattle.std.specs.Prelude.{◌≡◌, ◌-◌, ◌<◌, ◌≤◌, ◌↔◌, ℕ, length, slice_get, slice_index, Some, IfOk, IfErr, OnOk, OnErr, IsTrue};
ghost use Rattle.std.specs.List.{AllByRecursion};
ghost use Rattle.pfl_publish.specs.Seats.{LoadsOnce, IsRead, IsOvertaken, OvertakenBefore, MakesTries};
ghost use Rattle.pfl_timeline.specs.Replies.{reply_of};
ghost use Rattle.pfl_session.specs.Passes.{IsPassOf, GoesOn, HasSeenJournal, AddsOthers, AddsCall, IsAskFault, seen_in};
ghost use Rattle.pfl_session.specs.Journals.{count_of};
ghost use Rattle.pfl_session.specs.Ledgers.{one_more_counted};
ghost use Rattle.pfl_session.specs.Made.{made_after};
ghost use Rattle.pfl_session.specs.Labs.{table_prop, tables_prop, text_prop, HasSeenOwn, IsClosed};

use crate::entry::Closed;
use crate::fault::AskFault;
use crate::ledger::Ledger;
use crate::made::Next;
use crate::mark::Mark;
use crate::pass::Pass;
use crate::which::Which;
use pfl_language::Command;
use pfl_publish::{Overtaken, Publisher, Revision, Tally, Told};
use pfl_timeline::Reply;
use std::alloc::Allocator;
use std::sync::{Mutex, Wait};

/// The lab that J names for contracts. Threads share it by reference.
pub struct Lab<J: Which, A: Allocator> {
    pub(crate) publisher: Publisher<Mark<A>, A>,
    pub(crate) tallies: Vec<Tally<A>, A>,
    pub(crate) setup: Vec<u8, A>,
    pub(crate) ledger: Mutex<Ledger<J, A>>,
    ghost publishes: { publisher ≡ J.publisher } by { table_prop publisher J.publisher },
    ghost counts: { tallies.items ≡ J.tallies } by { tables_prop tallies.items J.tallies },
    ghost shows: { setup.items ≡ J.setup } by { text_prop setup.items J.setup },
}

// Written by hand: see docs/ARCHITECTURE.md, "What the prover asks of the code".
impl<J: Which, A: Allocator> Drop for Lab<J, A> {
    fn drop(self) {
        let Lab {
            publisher: _,
            tallies: _,
            setup: _,
            ledger: _,
        } = self;
    }
}

/// The count of the pass's session.
fn tally_of<'a, A: Allocator>(tallies: &'a [Tally<A>], pass: &Pass<A>) -> &'a Tally<A>
    requires { slice_get tallies.now (pass.now.session - 1) ≡ Some pass.now.half.table }
    ensures { result.now ≡ pass.now.half.table }
{
    &tallies[pass.session() as usize - 1]
}

impl<J: Which, A: Allocator + Copy> Lab<J, A> {
    /// Asks a command, in the pass's turn. What the pass has then seen ends with this call, and between it and what it had
    /// seen before there are calls of other sessions alone. Where the journal is full, or there is no memory, no call is
    /// made.
    pub fn ask<R: Wait>(
        &self,
        rt: &R,
        pass: &mut Pass<A>,
        command: Command,
    ) -> Result<Reply<A>, AskFault>
        requires lab { IsPassOf J.publisher J.tallies pass.old }
        ensures goes_on { GoesOn pass.old pass.new }
        ensures lab { IsPassOf J.publisher J.tallies pass.new }
        ensures journal { HasSeenJournal J.opening (length J.tallies) J.limit pass.new }
        ensures called { IfOk result (λ reply. AddsCall pass.old pass.new command (reply_of reply)) }
        ensures refused { IfErr result (IsAskFault J.limit pass.new) }
        ensures not_called { OnErr result (AddsOthers pass.old pass.new) }
        ensures counted { pass.old.half.count ≡ count_of pass.old.session (seen_in pass.old) }
        ensures one_more { OnOk result (pass.new.half ≡ one_more_counted pass.old.half) }
        ensures no_more { OnErr result (pass.new.half ≡ pass.old.half) }
    {
        let tally = tally_of(&self.tallies, pass);
        self.ledger
            .lock(rt)
            .ask(&self.publisher, tally, pass, command)
    }
}

impl<J: Which, A: Allocator> Lab<J, A> {
    /// The lines that set the lab's opening up.
    pub fn setup(&self) -> &[u8]
        ensures { result.now ≡ J.setup }
    {
        self.setup.as_slice()
    }

    /// Reads a revision that is not older than the pass's floor, in at most `tries` tries, or in one where `tries` is 0. It
    /// waits for nobody.
    pub fn view(&self, pass: &mut Pass<A>, tries: u64) -> Result<Revision, Overtaken>
        requires lab { IsPassOf J.publisher J.tallies pass.old }
        ensures goes_on { GoesOn pass.old pass.new }
        ensures lab { IsPassOf J.publisher J.tallies pass.new }
        ensures half { pass.new.half ≡ pass.old.half }
        ensures ok { IfOk result (λ r. (n : ℕ) × IsRead pass.old.viewer pass.new.viewer r.words n) }
        ensures err { IfErr result (λ o. IsOvertaken pass.old.viewer pass.new.viewer o.at o.now) }
        ensures tries { IfErr result (λ o. OvertakenBefore tries pass.old.viewer o.at) }
        ensures loaded { IfOk result (λ r. (now : ℕ) × (count : ℕ)
            × MakesTries pass.old.viewer pass.new.viewer count (slice_index r.words 0) now × (count ≤ tries - 1)) }
        ensures overtaken { IfErr result (λ o. MakesTries pass.old.viewer pass.new.viewer (tries - 1) o.at o.now) }
    {
        let Some(mut viewer) = pass.viewer.take() else {
            unreachable!();
        };
        let read = self.publisher.read(&mut viewer, tries);
        pass.viewer = Some(viewer);
        read
    }

    /// Loads the number of the last revision, and returns whether it has come to the one that was announced. It waits for nobody.
    pub fn learn(&self, pass: &mut Pass<A>, told: &Told) -> bool
        requires lab { IsPassOf J.publisher J.tallies pass.old }
        ensures goes_on { GoesOn pass.old pass.new }
        ensures lab { IsPassOf J.publisher J.tallies pass.new }
        ensures half { pass.new.half ≡ pass.old.half }
        ensures loaded { LoadsOnce pass.old.viewer pass.new.viewer }
        ensures learnt { IsTrue result ↔ (told.now.number < length pass.new.viewer.seen) }
    {
        let Some(mut viewer) = pass.viewer.take() else {
            unreachable!();
        };
        let learnt = self.publisher.learn(&mut viewer, told);
        pass.viewer = Some(viewer);
        learnt
    }

    /// Shows the pass a journal, in its turn, that goes on from what it had seen with entries of other sessions alone, and returns
    /// how many entries that has. So the pass has seen each call of its own, and each revision that it ever read is the summary
    /// of what the first entries of that journal give, as many as the revision's number.
    pub fn meet<R: Wait>(&self, rt: &R, pass: &mut Pass<A>) -> u64
        requires lab { IsPassOf J.publisher J.tallies pass.old }
        ensures goes_on { GoesOn pass.old pass.new }
        ensures lab { IsPassOf J.publisher J.tallies pass.new }
        ensures journal { HasSeenJournal J.opening (length J.tallies) J.limit pass.new }
        ensures others { AddsOthers pass.old pass.new }
        ensures counted { pass.old.half.count ≡ count_of pass.old.session (seen_in pass.old) }
        ensures half { pass.new.half ≡ pass.old.half }
        ensures loaded { LoadsOnce pass.old.viewer pass.new.viewer }
        ensures number { result ≡ length (seen_in pass.new) }
    {
        let tally = tally_of(&self.tallies, pass);
        self.ledger.lock(rt).catch_up(&self.publisher, tally, pass)
    }

    /// The entry after the first `from` ones, if there is one, and how many entries the journal has, in the pass's turn. The pass has
    /// then seen that journal, as after `meet`. A session that hands in the number of the entry that it was given last, and 0 at
    /// first, is given each entry once, in their order.
    pub fn entry_after<R: Wait>(&self, rt: &R, pass: &mut Pass<A>, from: u64) -> Next
        requires lab { IsPassOf J.publisher J.tallies pass.old }
        ensures goes_on { GoesOn pass.old pass.new }
        ensures lab { IsPassOf J.publisher J.tallies pass.new }
        ensures journal { HasSeenJournal J.opening (length J.tallies) J.limit pass.new }
        ensures others { AddsOthers pass.old pass.new }
        ensures counted { pass.old.half.count ≡ count_of pass.old.session (seen_in pass.old) }
        ensures half { pass.new.half ≡ pass.old.half }
        ensures loaded { LoadsOnce pass.old.viewer pass.new.viewer }
        ensures made { result.made ≡ made_after from (seen_in pass.new) }
        ensures entries { result.entries ≡ length (seen_in pass.new) }
    {
        let tally = tally_of(&self.tallies, pass);
        self.ledger
            .lock(rt)
            .entry_after(&self.publisher, tally, pass, from)
    }

    /// Closes the lab: the timeline, and the journal whose replay gives it. Each pass has seen a beginning of it, in which each
    /// entry of its session stands, and these are its calls. It waits for nobody, and takes no memory.
    pub fn close(self, passes: Vec<Pass<A>, A>) -> Closed<A>
        requires lab { AllByRecursion (IsPassOf J.publisher J.tallies) passes.items }
        ensures closed { IsClosed J.opening (length J.tallies) J.limit result.timeline result.journal.items }
        ensures seen { AllByRecursion (HasSeenOwn J.opening result.journal.items) passes.items }
    {
        let Lab {
            publisher,
            tallies,
            setup: _,
            ledger,
        } = self;
        let mut ledger = ledger.into_inner();
        settle_all(&mut ledger, &publisher, &tallies, passes);
        ledger.closed()
    }
}

/// Takes all passes back.
fn settle_all<J: Which, A: Allocator>(
    ledger: &mut Ledger<J, A>,
    publisher: &Publisher<Mark<A>, A>,
    tallies: &[Tally<A>],
    mut passes: Vec<Pass<A>, A>,
)
    requires publisher { (publisher.now ≡ J.publisher) × (tallies.now ≡ J.tallies) }
    requires lab { AllByRecursion (IsPassOf J.publisher J.tallies) passes.items }
    ensures journal { ledger.new ≡ ledger.old }
    ensures seen { AllByRecursion (HasSeenOwn J.opening ledger.old) passes.items }
{
    while let Some(pass) = passes.pop() {
        let tally = tally_of(tallies, &pass);
        ledger.settle(publisher, tally, pass);
    }
}
