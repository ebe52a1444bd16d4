//! A lab that is opened.

ghost use Rattle.std.specs.Prelude.{◌≡◌, ◌+◌, ◌≤◌, [], ◌∷◌, ◌++◌, length, None, IfOk, IfErr, OnOk};
ghost use Rattle.std.specs.List.{AllByRecursion};
ghost use Rattle.atomic_table.specs.Seated.{TableId};
ghost use Rattle.pfl_session.specs.Totals.{HasFewEvents};
ghost use Rattle.pfl_session.specs.Journals.{revisions_of};
ghost use Rattle.pfl_session.specs.Passes.{IsPassOf};
ghost use Rattle.pfl_session.specs.Labs.{lab_fault, IsLabFault, AreNewPasses};

use crate::fault::LabFault;
use crate::kept::KeptEntry;
use crate::lab::Lab;
use crate::ledger::Ledger;
use crate::mark::{AtOpening, Mark};
use crate::pass::Pass;
use crate::revision::revision_of;
use crate::which::Which;
use pfl_publish::{Half, Publisher, Tally, ViewerSeat, WriterSeat};
use pfl_timeline::Timeline;
use std::alloc::{AllocError, Allocator};
use std::marker::{Model, PhantomData};
use std::sync::Mutex;

/// The most sessions of a lab.
const MOST_SESSIONS: u32 = 8;

/// The most entries that a journal can be opened with.
pub const MOST_ENTRIES: usize = 1_000_000;

/// Why there is no lab of this many sessions, whose journal has at most this many entries.
fn fault_of(sessions: u32, journal: usize) -> Option<LabFault>
    ensures { result ≡ lab_fault sessions journal }
{
    if sessions < 1 || MOST_SESSIONS < sessions {
        Some(LabFault::Sessions)
    } else if journal < 1 || MOST_ENTRIES < journal {
        Some(LabFault::Journal)
    } else {
        None
    }
}

/// A lab that has no name yet, with its passes. Contracts see its publisher, the counts of its sessions, its opening, the lines
/// that set the opening up, and the most entries of its journal.
pub struct Opened<A: Allocator> {
    publisher: Publisher<Mark<A>, A>,
    timeline: Timeline<A>,
    setup: Vec<u8, A>,
    journal: Vec<KeptEntry<A>, A>,
    limit: usize,
    tallies: Vec<Tally<A>, A>,
    halves: Vec<Half, A>,
    passes: Vec<Pass<A>, A>,
    writer: WriterSeat<Mark<A>>,
    viewer: Option<ViewerSeat<Mark<A>>>,
}

// Written by hand: see docs/ARCHITECTURE.md, "What the prover asks of the code".
impl<A: Allocator> Drop for Opened<A> {
    fn drop(self) {
        let Opened {
            publisher: _,
            timeline: _,
            setup: _,
            journal: _,
            limit: _,
            tallies: _,
            halves: _,
            passes: _,
            writer: _,
            viewer: _,
        } = self;
    }
}

impl<A: Allocator> Model for Opened<A> {
    ghost use Rattle.pfl_session.specs.Labs.{Setup, coded_setup};

    ghost Value = { Setup };

    ghost coded = { coded_setup };

    ghost use Rattle.std.specs.Prelude.{◌≡◌, ◌≤◌, [], Some, false};
    ghost use Rattle.pfl_publish.specs.Seats.{Viewer};
    ghost use Rattle.pfl_session.specs.declared.mark.Mark.{Mark};
    ghost use Rattle.pfl_session.specs.Totals.{HasFewEvents};
    ghost use Rattle.pfl_session.specs.Journals.{revisions_of, counts_of};
    ghost use Rattle.pfl_session.specs.Labs.{AreNewPasses};

    ghost view = { λ o. record { publisher = o.publisher; tallies = o.tallies.items; opening = o.timeline; setup = o.setup.items; limit = o.limit } };

    ghost invariant = { λ o. ((v : Viewer (Mark A)) × (o.viewer ≡ Some v) × (v.table ≡ o.publisher)
        × (v.seen ≡ revisions_of o.timeline o.journal.items) × (v.trying ≡ false)) × (o.journal.items ≡ [])
        × (o.writer.table ≡ o.publisher) × (o.writer.list ≡ revisions_of o.timeline o.journal.items)
        × (o.halves.items ≡ counts_of 1 o.tallies.items o.journal.items)
        × AreNewPasses o.publisher (revisions_of o.timeline o.journal.items) 1 o.tallies.items o.passes.items
        × HasFewEvents 4294967295 o.timeline × (o.limit ≤ 1000000) };
}

impl<A: Allocator + Copy> Opened<A> {
    /// Opens a lab of this many sessions, from 1 to 8, over a timeline in which no branch has more than 4294967295 events, nor
    /// can more be brought back on one. Its journal has at most this many entries, from 1 to 1000000. There are no entries yet,
    /// no pass has seen any, and there are no lines of a setup.
    pub fn new(
        alloc: A,
        timeline: Timeline<A>,
        sessions: u32,
        journal: usize,
    ) -> Result<Opened<A>, LabFault>
        requires few { HasFewEvents 4294967295 timeline }
        ensures refused { IfErr result (IsLabFault (lab_fault sessions journal)) }
        ensures not_refused { OnOk result (lab_fault sessions journal ≡ None) }
        ensures opened { IfOk result (λ o. (o.opening ≡ timeline) × (o.setup ≡ []) × (o.limit ≡ journal) × (length o.tallies ≡ sessions)) }
    {
        if let Some(fault) = fault_of(sessions, journal) {
            return Err(fault);
        }
        let mut opened = Opened::without_sessions(alloc, timeline, journal)?;
        for session in 0..sessions {
            opened.add(alloc, session + 1)?;
        }
        Ok(opened)
    }

    /// Opens a lab that has no sessions yet.
    fn without_sessions(
        alloc: A,
        timeline: Timeline<A>,
        limit: usize,
    ) -> Result<Opened<A>, pfl_publish::NoMemory>
        requires few { HasFewEvents 4294967295 timeline }
        requires small { limit ≤ 1000000 }
        ensures opened { IfOk result (λ o. (o.opening ≡ timeline) × (o.setup ≡ []) × (o.limit ≡ limit) × (o.tallies ≡ [])) }
    {
        let first = revision_of(&timeline, 0);
        let (publisher, writer, viewer) = Publisher::new(
            alloc,
            first,
            &AtOpening {
                timeline: &timeline,
            },
        )?;
        Ok(Opened {
            publisher,
            timeline,
            setup: Vec::new(alloc),
            journal: Vec::new(alloc),
            limit,
            tallies: Vec::new(alloc),
            halves: Vec::new(alloc),
            passes: Vec::new(alloc),
            writer,
            viewer: Some(viewer),
        })
    }

    /// Adds the session of the next number.
    fn add(&mut self, alloc: A, session: u32) -> Result<(), AllocError>
        requires next { session ≡ length self.old.tallies + 1 }
        ensures added { OnOk result ((t : TableId) × (self.new ≡ record self.old { tallies = self.old.tallies ++ t ∷ [] })) }
    {
        self.tallies.reserve(1)?;
        self.halves.reserve(1)?;
        self.passes.reserve(1)?;
        let (tally, kept, mine) = Tally::new(alloc)?;
        let Some(viewer) = self.viewer.take() else {
            unreachable!();
        };
        let (viewer, given) = self.publisher.split(viewer);
        let pass = Pass {
            session,
            half: Some(mine),
            viewer: Some(given),
        };
        self.tallies.push_reserved(tally);
        self.halves.push_reserved(kept);
        self.passes.push_reserved(pass);
        self.viewer = Some(viewer);
        Ok(())
    }
}

impl<A: Allocator> Opened<A> {
    /// The same lab, with these lines as those that set its opening up.
    pub fn with_setup(mut self, setup: Vec<u8, A>) -> Opened<A>
        ensures { result ≡ record self { setup = setup.items } }
    {
        self.setup = setup;
        self
    }

    /// Gives the lab its name, by which contracts know it, and the pass of each session in the order of their numbers. It
    /// takes no memory.
    pub fn named<J: Which>(self) -> (Lab<J, A>, Vec<Pass<A>, A>)
        requires tables { (self.publisher ≡ J.publisher) × (self.tallies ≡ J.tallies) }
        requires opening { (self.opening ≡ J.opening) × (self.setup ≡ J.setup) × (self.limit ≡ J.limit) }
        ensures new { AreNewPasses J.publisher (revisions_of J.opening []) 1 J.tallies result.1.items }
        ensures lab { AllByRecursion (IsPassOf J.publisher J.tallies) result.1.items }
    {
        let Opened {
            publisher,
            timeline,
            setup,
            journal,
            limit,
            tallies,
            halves,
            passes,
            writer,
            viewer: _,
        } = self;
        let ledger = Ledger {
            timeline,
            journal,
            limit,
            halves,
            writer: Some(writer),
            of: PhantomData,
        };
        let lab = Lab {
            publisher,
            tallies,
            setup,
            ledger: Mutex::new(ledger),
        };
        (lab, passes)
    }
}
