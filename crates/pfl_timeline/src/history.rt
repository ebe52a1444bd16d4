//! Histories.

ghost use Rattle.std.specs.Prelude.{◌≡◌, ◌+◌, ◌-◌, ◌<◌, ◌≤◌, ℕ, [], ◌∷◌, ◌++◌, length, map, nat_le, min, take, filter, Ok, Some, IfErr, IfOk, OnErr, OnOk};
ghost use Rattle.pfl_search.specs.world.Events.{step, IsEventRefusal};
ghost use Rattle.pfl_search.specs.world.Worlds.{World as Pair};
ghost use Rattle.pfl_timeline.specs.Excisions.{placed, without, sieve};
ghost use Rattle.pfl_timeline.specs.Histories.{IsHistory, reached, continued};
ghost use Rattle.pfl_timeline.specs.Kept.{mark_at};
ghost use Rattle.pfl_search.specs.Runs.{IsStop};
ghost use Rattle.pfl_timeline.specs.Searches.{runs_to_try, sought};
ghost use Rattle.pfl_timeline.specs.inner.Histories.{standing_at, first_of, Sifts, so_far};
ghost use Rattle.pfl_timeline.specs.inner.Looking.{IsSeen};
ghost use Rattle.pfl_timeline.specs.inner.Searching.{Gives};

use crate::look::{Look, Sight};
use pfl_base::Refusal;
use pfl_edits::{Change, NoMemory, Tape, redo_all, set_aside_to, undo_copies_to, undo_to};
use pfl_language::{BranchWord, Choice, Event, Goal, Outcome};
use pfl_reasons::Events;
use pfl_search::{Searched, Stopped, World, WorldTape, search_shortest};
use std::alloc::Allocator;
use std::marker::Model;

/// Events over an opening world, and the world that the first of them, those that stand, give.
///
/// The opening world is not kept: it is what taking the whole tape back would give.
pub struct History<A: Allocator> {
    world: World<A>,
    events: Events<A>,
    /// What the events that stand changed, one after another.
    tape: WorldTape<A>,
    /// How long the tape was before each of them.
    marks: Vec<usize, A>,
}

// Written by hand: see docs/ARCHITECTURE.md, "What the prover asks of the code".
impl<A: Allocator> Drop for History<A> {
    fn drop(self) {
        let History {
            world: _,
            events: _,
            tape: _,
            marks: _,
        } = self;
    }
}

impl<A: Allocator> Model for History<A> {
    ghost use Rattle.pfl_timeline.specs.Histories.{History};
    ghost use Rattle.pfl_timeline.specs.Codes.{coded_history};

    ghost Value = { History };

    ghost coded = { coded_history };

    ghost use Rattle.pfl_timeline.specs.Kept.{IsKept, history};

    ghost view = { λ h. history h.world h.events h.tape.list h.marks.items };

    ghost invariant = { λ h. IsKept h.world h.events h.tape.list h.marks.items };
}

/// Puts an event and its mark after those that stand, and returns how many events were cut. Where there is no memory, nothing changes.
fn put<A: Allocator>(
    events: &mut Events<A>,
    marks: &mut Vec<usize, A>,
    event: &Event,
    mark: usize,
) -> Result<usize, NoMemory>
    requires within { length marks.old.items ≤ length events.old }
    ensures events { OnOk result (events.new ≡ take (length marks.old.items) events.old ++ event.now ∷ []) }
    ensures marks { OnOk result (marks.new.items ≡ marks.old.items ++ mark ∷ []) }
    ensures dropped { IfOk result (λ dropped. dropped ≡ length events.old - length marks.old.items) }
    ensures unchanged { OnErr result (events.new ≡ events.old) }
    ensures unmarked { OnErr result (marks.new.items ≡ marks.old.items) }
{
    marks.reserve(1)?;
    let dropped = events.put_after(marks.len(), event)?;
    marks.push(mark).unwrap();
    Ok(dropped)
}

/// How long the tape was when this many events stood.
fn mark_of<A: Allocator>(tape: &WorldTape<A>, marks: &[usize], place: usize) -> usize
    ensures mark { result ≡ mark_at tape.now.list marks.now place }
{
    match marks.get(place) {
        Some(mark) => *mark,
        None => tape.len(),
    }
}

impl<A: Allocator> History<A> {
    /// All its events.
    pub fn events(&self) -> &Events<A>
        ensures events { result.now ≡ self.now.events }
    {
        &self.events
    }

    /// How many of its events stand.
    pub fn cursor(&self) -> usize
        ensures cursor { result ≡ self.now.cursor }
    {
        self.marks.len()
    }

    /// The place, counted from 1, that an event would have that happened after those that stand.
    pub fn next_place(&self) -> usize
        ensures place { result ≡ self.now.cursor + 1 }
    {
        self.marks.len() + 1
    }

    /// The world that those that stand give.
    pub fn world(&self) -> &World<A>
        ensures world { reached self.now ≡ Some result.now }
    {
        &self.world
    }

    /// States for proofs what is true of each history. It does nothing.
    pub fn known(&self)
        ensures history { IsHistory self.now }
    {
        let _world = &self.world;
    }

    /// Takes events back until this many stand, the newest first. It takes no memory.
    pub fn take_back_to(&mut self, place: usize)
        requires within { place ≤ self.old.cursor }
        ensures history { self.new ≡ standing_at self.old place }
    {
        if place < self.marks.len() {
            undo_to(&mut self.world, &mut self.tape, self.marks[place]);
            self.marks.truncate(place);
        }
    }
}

impl<A: Allocator + Copy> History<A> {
    /// A history without events. It takes no memory yet.
    pub fn new(alloc: A, world: World<A>) -> Self
        ensures history { result ≡ record { opening = world; events = []; cursor = 0 } }
    {
        world.known();
        History {
            world,
            events: Events::new(alloc),
            tape: Tape::new(alloc),
            marks: Vec::new(alloc),
        }
    }

    /// Puts an event after those that stand, in place of those that had been undone. Returns its outcome and how many were
    /// cut. Where it is refused, or there is no memory, nothing changes.
    pub fn extend(&mut self, event: &Event) -> Result<(Outcome, usize), Refusal>
        ensures refused { IfErr result (λ why. (w : Pair) × (reached self.old ≡ Some w) × IsEventRefusal w event.now why) }
        ensures unchanged { OnErr result (self.new ≡ self.old) }
        ensures stepped { IfOk result (λ r. (w new : Pair) × (reached self.old ≡ Some w) × (step w event.now ≡ Ok (record { world = new; outcome = r.0 }))) }
        ensures extended { OnOk result (self.new ≡ continued self.old event.now) }
        ensures dropped { IfOk result (λ r. r.1 ≡ length self.old.events - self.old.cursor) }
    {
        let mark = self.tape.len();
        match self.world.apply_on(event, &mut self.tape) {
            Err(refusal) => Err(refusal),
            Ok(outcome) => match put(&mut self.events, &mut self.marks, event, mark) {
                Ok(dropped) => Ok((outcome, dropped)),
                Err(NoMemory) => {
                    undo_to(&mut self.world, &mut self.tape, mark);
                    Err(Refusal::NoMemory)
                }
            },
        }
    }

    /// Lets the first of the events that had been undone happen again. Where there is no memory, nothing changes.
    fn redo_one(&mut self) -> Result<(), NoMemory>
        requires within { self.old.cursor < length self.old.events }
        ensures history { OnOk result (self.new ≡ standing_at self.old (self.old.cursor + 1)) }
        ensures unchanged { OnErr result (self.new ≡ self.old) }
    {
        let event = self.events.get(self.cursor());
        let mark = self.tape.len();
        self.marks.reserve(1)?;
        match self.world.apply_on(&event, &mut self.tape) {
            Ok(_) => {
                self.marks.push(mark).unwrap();
                Ok(())
            }
            // The events of a history were accepted where they stand, so only memory can be wanting.
            Err(_) => Err(NoMemory),
        }
    }

    /// Lets the first `n` of the events that had been undone happen again. Where there is no memory, those that happened
    /// are taken back, and nothing changes.
    pub fn redo(&mut self, n: usize) -> Result<(), NoMemory>
        requires within { self.old.cursor + n ≤ length self.old.events }
        ensures history { OnOk result (self.new ≡ standing_at self.old (self.old.cursor + n)) }
        ensures unchanged { OnErr result (self.new ≡ self.old) }
    {
        let cursor = self.cursor();
        for _ in 0..n {
            if self.redo_one().is_err() {
                self.take_back_to(cursor);
                return Err(NoMemory);
            }
        }
        Ok(())
    }

    /// Looks at the world that the first `place` of those that stand give: the later ones are taken back for a while. Where there is no
    /// memory for that, nothing is seen.
    fn look_back<L: Look<A, W>, W>(
        &mut self,
        name: &BranchWord,
        place: usize,
        look: &L,
        writer: &mut W,
    ) -> Result<L::Seen, NoMemory>
        requires within { place ≤ self.old.cursor }
        ensures unchanged { self.new ≡ self.old }
        ensures seen { IfOk result (IsSeen (L.sees look.now) name.now self.old.opening self.old.events place writer.old writer.new) }
        ensures untouched { OnErr result (writer.new ≡ writer.old) }
    {
        // What it ensures says that the world may be led to again.
        self.world.known();
        let mark = mark_of(&self.tape, &self.marks, place);
        let count = self.tape.len() - mark;
        // Room for all that is redone is made before anything is taken back.
        let mut undone = Change::with_room(*self.marks.allocator(), count)?;
        self.tape.reserve(count)?;
        set_aside_to(&mut self.world, &mut self.tape, mark, &mut undone);
        let sight = Sight {
            name,
            events: self.events.len(),
            cursor: place,
        };
        let seen = look.look(&sight, &mut self.world, writer);
        redo_all(&mut self.world, &mut self.tape, undone);
        Ok(seen)
    }

    /// Looks at the world that those that stand give.
    pub fn look_here<L: Look<A, W>, W>(
        &mut self,
        name: &BranchWord,
        look: &L,
        writer: &mut W,
    ) -> L::Seen
        ensures unchanged { self.new ≡ self.old }
        ensures seen { IsSeen (L.sees look.now) name.now self.old.opening self.old.events self.old.cursor writer.old writer.new result }
    {
        let sight = Sight {
            name,
            events: self.events.len(),
            cursor: self.marks.len(),
        };
        look.look(&sight, &mut self.world, writer)
    }

    /// Looks at the world that the first `place` events give. Then it stands where it stood. Where there is no memory, nothing is seen.
    pub fn look_at<L: Look<A, W>, W>(
        &mut self,
        name: &BranchWord,
        place: usize,
        look: &L,
        writer: &mut W,
    ) -> Result<L::Seen, NoMemory>
        requires within { place ≤ length self.old.events }
        ensures unchanged { self.new ≡ self.old }
        ensures seen { IfOk result (IsSeen (L.sees look.now) name.now self.old.opening self.old.events place writer.old writer.new) }
        ensures untouched { OnErr result (writer.new ≡ writer.old) }
    {
        let cursor = self.cursor();
        if place <= cursor {
            return self.look_back(name, place, look, writer);
        }
        self.redo(place - cursor)?;
        let seen = self.look_here(name, look, writer);
        self.take_back_to(cursor);
        Ok(seen)
    }

    /// Its first `count` events, of which the first `standing` stand, in memory of their own. It copies one world, and
    /// of the tape what those that stand changed. By the rest of the tape, which stays as it is, the copied world is taken back.
    fn copy_front(&self, count: usize, standing: usize) -> Result<History<A>, NoMemory>
        requires within { count ≤ length self.now.events }
        requires few { standing ≤ self.now.cursor }
        requires enough { standing ≤ count }
        ensures history { IfOk result (λ copied. copied ≡ standing_at (first_of self.now count) standing) }
    {
        let alloc = *self.marks.allocator();
        let mark = mark_of(&self.tape, &self.marks, standing);
        let events = self.events.first(alloc, count)?;
        let marks = Vec::from_slice(alloc, &self.marks[..standing])?;
        let tape = self.tape.copy_below(alloc, mark)?;
        let mut world = self.world.copy()?;
        undo_copies_to(&mut world, &self.tape, mark)?;
        Ok(History {
            world,
            events,
            tape,
            marks,
        })
    }

    /// The first events, all of which stand, in memory of their own. They can be taken back to the opening.
    pub fn first(&self, count: usize) -> Result<History<A>, NoMemory>
        requires within { count ≤ length self.now.events }
        ensures history { IfOk result (λ first. first ≡ first_of self.now count) }
    {
        let standing = count.min(self.cursor());
        let mut first = self.copy_front(count, standing)?;
        first.redo(count - standing)?;
        Ok(first)
    }

    /// Puts an event after those that stand, unless it is refused, and returns which of the two.
    fn sift(&mut self, event: &Event) -> Result<bool, NoMemory>
        ensures { IfOk result (λ kept. Sifts self.old event.now self.new kept) }
    {
        match self.extend(event) {
            Ok(_) => Ok(true),
            Err(refusal) => match refusal {
                Refusal::NoMemory => Err(NoMemory),
                _ => Ok(false),
            },
        }
    }

    /// Searches for a shortest run of the choices from where it stands to the goal. Whatever the answer, nothing changes.
    pub fn search(
        &mut self,
        choices: &[Choice],
        depth: u32,
        goal: &Goal,
        most: u64,
    ) -> Result<Searched<A>, Stopped>
        ensures gives { IfOk result (λ s. (w : Pair) × (reached self.old ≡ Some w)
            × Gives (λ run. run.items) (sought goal.now depth choices.now most) w s.found s.worlds s.asked s.ended) }
        ensures stopped { IfErr result (λ why. (w : Pair) × (reached self.old ≡ Some w)
            × IsStop most (runs_to_try (sought goal.now depth choices.now most) w) why) }
        ensures unchanged { self.new ≡ self.old }
    {
        let alloc = *self.marks.allocator();
        search_shortest(alloc, &mut self.world, choices, depth, goal, most)
    }

    /// What would have happened without the event at the place, counted from 1, in memory of its own; of the events that
    /// stand here those stand that are left. Returns the places of the events that are refused then, too.
    ///
    /// The pair is copied, since only memory brings back what was taken back: this history has to be whole until the last
    /// event is judged.
    pub fn without(&self, place: usize) -> Result<(History<A>, Vec<usize, A>), NoMemory>
        requires some { 1 ≤ place }
        requires within { place ≤ length self.now.events }
        ensures fallen { IfOk result (λ r. r.1.items ≡ map (λ p. p.place) (sieve self.now.opening (without place (placed self.now.events))).fallen) }
        ensures history { IfOk result (λ r. let s = sieve self.now.opening (without place (placed self.now.events)) in
            r.0 ≡ standing_at (so_far self.now.opening s) (length (filter (λ p. nat_le p.place self.now.cursor) s.kept))) }
    {
        self.known();
        let cursor = self.cursor();
        let mut rest = self.first(place - 1)?;
        let mut fallen = Vec::new(*self.marks.allocator());
        let mut standing = cursor.min(place - 1);
        for index in place..self.events.len() {
            if !rest.sift(&self.events.get(index))? {
                fallen.reserve(1)?;
                fallen.push(index + 1).unwrap();
            } else if index < cursor {
                standing += 1;
            }
        }
        rest.take_back_to(standing);
        Ok((rest, fallen))
    }
}
