//! Labs over a pair in which each node passes what goes out, sessions that are served over memory, and journals as text.
ghost use Rattle.std.specs.Prelude.{IfSome};
ghost use Rattle.std.specs.List.{AllByRecursion};
ghost use Rattle.pfl_serve.specs.session.Passes.{IsPassOf};
ghost use Rattle.pfl_serve.specs.session.Totals.{HasFewEvents};

use pfl_base::Std;
use pfl_run::{Ended, EngineFault, LineReader, Timeline, set_up, write_reply};
use pfl_serve::{Closed, Entry, Gate, Lab, LabFault, Opened, Pass, Seat, Served, Service, Which};
use std::alloc::{Allocator, Global};
use std::sync::Wait;

/// A pair that is soon full.
const SETUP: &[u8] =
    b"set states 16\nset queue 16\nset frames 16\nrule a pass out\nrule b pass out\nopen\n";

/// A timeline over such a pair.
fn opening<A: Allocator + Copy>(alloc: A) -> Option<Timeline<A>>
    ensures { IfSome result (HasFewEvents 4294967295) }
{
    let mut reader = LineReader::new(Std::new(SETUP));
    match set_up(alloc, &mut reader) {
        Ok(timeline) => Some(timeline),
        Err(_) => None,
    }
}

/// A lab over such a timeline.
pub(super) fn opened<A: Allocator + Copy>(
    alloc: A,
    sessions: u32,
    journal: usize,
) -> Result<Opened<A>, LabFault> {
    let Some(timeline) = opening(alloc) else {
        return Err(LabFault::NoMemory);
    };
    Opened::new(alloc, timeline, sessions, journal)
}

/// Takes the pass of the last session.
pub(super) fn take<J: Which, A: Allocator>(passes: &mut Vec<Pass<A>, A>) -> Option<Pass<A>>
    requires { AllByRecursion (IsPassOf J.publisher J.tallies) passes.old.items }
    ensures taken { IfSome result (IsPassOf J.publisher J.tallies) }
    ensures others { AllByRecursion (IsPassOf J.publisher J.tallies) passes.new.items }
{
    passes.pop()
}

/// The replies to a session, and how it ended.
#[derive(Drop)]
pub(super) struct Spoken {
    pub(super) text: Vec<u8, Global>,
    pub(super) result: Result<Ended, EngineFault>,
}

impl Spoken {
    /// The session had these replies to its end, and this many of its lines were faulty.
    pub(super) fn is(&self, text: &[u8], lines: u64, bad: u64) -> bool {
        self.text.as_slice() == text && self.result == Ok(Ended { lines, bad })
    }
}

/// Serves a session over memory, whose text lies in the heap, wherever the lab lies. The pass comes back.
pub(super) fn speak_to_heap<J: Which, A: Allocator + Copy, G: Gate, R: Wait>(
    rt: &R,
    heap: Global,
    alloc: A,
    lab: &Lab<J, A>,
    pass: Pass<A>,
    lines: &[u8],
    gate: &G,
) -> (Spoken, Pass<A>)
    requires { IsPassOf J.publisher J.tallies pass }
    ensures { IsPassOf J.publisher J.tallies result.1 }
{
    let seat = Seat {
        pass,
        reader: LineReader::new(Std::new(lines)),
        writer: Std::new(Vec::new(heap)),
    };
    let Served { seat, result } = Service { rt, alloc, gate }.serve_session(lab, seat);
    let text = seat.writer.into_inner();
    (Spoken { text, result }, seat.pass)
}

/// Serves a session over memory. The pass comes back.
pub(super) fn speak<J: Which, G: Gate, R: Wait>(
    rt: &R,
    alloc: Global,
    lab: &Lab<J, Global>,
    pass: Pass<Global>,
    lines: &[u8],
    gate: &G,
) -> (Spoken, Pass<Global>)
    requires { IsPassOf J.publisher J.tallies pass }
    ensures { IsPassOf J.publisher J.tallies result.1 }
{
    speak_to_heap(rt, alloc, alloc, lab, pass, lines, gate)
}

/// A text, or nothing where there was no memory for it.
type Text = Option<Vec<u8, Global>>;

/// The entries of the lab's journal.
pub(super) fn entries<A: Allocator>(
    alloc: Global,
    closed: Closed<A>,
) -> Option<Vec<Entry<A>, Global>> {
    let Closed {
        timeline: _,
        journal,
    } = closed;
    let mut entries = Vec::new(alloc);
    for kept in journal {
        entries.push(kept.entry()).ok()?;
    }
    Some(entries)
}

/// The replies of the journal's entries.
fn told<A: Allocator + Copy>(alloc: Global, journal: &[Entry<A>]) -> Text {
    let mut text = Std::new(Vec::new(alloc));
    for entry in journal {
        write_reply(alloc, &entry.reply, &mut text).ok()?;
    }
    Some(text.into_inner())
}

/// Writes the reply to the entry's command: whether there is memory.
fn follow<A: Allocator>(
    alloc: Global,
    timeline: &mut Timeline<Global>,
    entry: &Entry<A>,
    text: &mut Std<Vec<u8, Global>>,
) -> bool {
    match timeline.command(entry.command) {
        Ok(reply) => write_reply(alloc, &reply, text).is_ok(),
        Err(_) => false,
    }
}

/// The replies that the journal's commands give, one after another, on a new timeline.
fn replayed<A: Allocator>(alloc: Global, journal: &[Entry<A>]) -> Text {
    let mut timeline = opening(alloc)?;
    let mut text = Std::new(Vec::new(alloc));
    let mut whole = true;
    for entry in journal {
        whole = follow(alloc, &mut timeline, entry, &mut text) && whole;
    }
    if whole { Some(text.into_inner()) } else { None }
}

/// The journal has these replies, and so does its replay.
pub(super) fn tells(alloc: Global, journal: &[Entry<Global>], text: &[u8]) -> bool {
    let told = told(alloc, journal);
    let again = replayed(alloc, journal);
    told.is_some_and(|told| told.as_slice() == text)
        && again.is_some_and(|again| again.as_slice() == text)
}

/// The journal's commands, one after another, give the replies of its entries.
pub(super) fn replays<A: Allocator + Copy>(alloc: Global, journal: &[Entry<A>]) -> bool {
    let told = told(alloc, journal);
    told.is_some() && told == replayed(alloc, journal)
}
