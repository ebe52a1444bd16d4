//! Branches.

ghost use Rattle.std.specs.Prelude.{◌≡◌, ◌≢◌, ◌+◌, ◌≤◌, true, false, nat_lt, [], length, Ok, Some, None, IfErr, IfOk, IfSome, OnErr, OnOk, IsFalse, IsTrue};
ghost use Rattle.pfl_language.specs.BranchWords.{is_branch_name};
ghost use Rattle.pfl_search.specs.world.Events.{step, IsEventRefusal};
ghost use Rattle.pfl_search.specs.world.Worlds.{World as Pair, IsWorld};
ghost use Rattle.pfl_reasons.specs.Senders as meant;
ghost use Rattle.pfl_timeline.specs.Answers.{answer, explanation, extended, frame_answer, shown_at, undone, why_answer};
ghost use Rattle.pfl_timeline.specs.Commands.{first_events};
ghost use Rattle.pfl_timeline.specs.Memory.{is_refusal, makes};
ghost use Rattle.pfl_timeline.specs.Replies.{reply_of, Logged, Refused as Refusing};
ghost use Rattle.pfl_timeline.specs.Rooted.{shown};
ghost use Rattle.pfl_timeline.specs.Searches.{IsAnswer, finding_from, finding_of, sought};
ghost use Rattle.pfl_timeline.specs.inner.Answering.{Gave};
ghost use Rattle.pfl_timeline.specs.inner.Looking.{SeesAt};
ghost use Rattle.pfl_timeline.specs.Timelines.{IsBranch};

use crate::finding::{Finding, found, stopped};
use crate::history::History;
use crate::look::{CopiedSight, Explaining, Look, SentFrame};
use crate::reply::{FrameTrace, Reply, shared_copy};
use pfl_base::Refusal;
use pfl_edits::NoMemory;
use pfl_language::{Ask, BranchWord, Choice, Event, Goal, Outcome, Refused};
use pfl_reasons::{
    Events, FrameStep, count_senders, frame_steps, frames_are_counted, sending_place,
};
use pfl_search::World;
use std::alloc::{AllocError, Allocator};
use std::marker::Model;
use std::mem;

/// A branch of a timeline: its name, its events, and the world that those before its cursor give.
// The histories stand in boxes, since a branch is moved when it is made, and when one before it is dropped.
pub struct Branch<A: Allocator> {
    name: BranchWord,
    history: Box<History<A>, A>,
    /// What it was before its newest excision, as long as that can be taken back.
    former: Option<Box<History<A>, A>>,
}

// Written by hand: see docs/ARCHITECTURE.md, "What the prover asks of the code".
impl<A: Allocator> Drop for Branch<A> {
    fn drop(self) {
        let Branch {
            name: _,
            history: _,
            former: _,
        } = self;
    }
}

impl<A: Allocator> Model for Branch<A> {
    ghost use Rattle.pfl_timeline.specs.Rooted.{Rooted};
    ghost use Rattle.pfl_timeline.specs.Codes.{coded_rooted};

    ghost Value = { Rooted };

    ghost coded = { coded_rooted };

    ghost use Rattle.std.specs.Prelude.{box_value};
    ghost use Rattle.std.specs.Option.{option_map};
    ghost use Rattle.pfl_timeline.specs.Kept.{IsNamed, rooted};

    ghost view = { λ b. rooted b.name b.history.value (option_map box_value b.former) };

    ghost invariant = { λ b. IsNamed b.name b.history.value (option_map box_value b.former) };
}

/// The history in a box.
fn boxed<A: Allocator>(alloc: A, history: History<A>) -> Result<Box<History<A>, A>, NoMemory>
    ensures history { IfOk result (λ boxed. boxed.value ≡ history) }
{
    Ok(Box::new(alloc, history).map_err(AllocError::from)?)
}

/// The reply to an event that did not happen, unless it wanted memory.
fn refused<A: Allocator>(refusal: Refusal) -> Result<Reply<A>, NoMemory>
    ensures reply { IfOk result (λ reply. (refusal ≢ Refusal.NoMemory) × (reply_of reply ≡ Refusing (Refused.Event refusal))) }
    ensures memory { OnErr result (refusal ≡ Refusal.NoMemory) }
{
    match refusal {
        Refusal::NoMemory => Err(NoMemory),
        refusal => Ok(Reply::Refused(Refused::Event(refusal))),
    }
}

impl<A: Allocator> Branch<A> {
    /// Its name.
    pub fn name(&self) -> &BranchWord
        ensures name { result.now ≡ self.now.branch.name }
    {
        &self.name
    }

    /// Its events, those after the cursor too.
    pub fn events(&self) -> &Events<A>
        ensures events { result.now ≡ self.now.branch.events }
    {
        self.history.events()
    }

    /// How many of its events stand.
    pub fn cursor(&self) -> usize
        ensures cursor { result ≡ self.now.branch.cursor }
    {
        self.history.cursor()
    }

    /// The world that it shows: what the events before the cursor give.
    pub fn world(&self) -> &World<A>
        ensures world { shown self.now ≡ Some result.now }
    {
        self.history.world()
    }

    /// States for proofs what is true of each branch. It does nothing.
    pub fn known(&self)
        ensures branch { IsBranch self.now.opening self.now.branch }
        ensures opening { IsWorld self.now.opening }
    {
        self.history.known();
        if let Some(former) = &self.former {
            former.known();
        }
    }

    /// Undoes the last `n` events before the cursor, if there are that many. They stay in the branch. It takes no memory.
    fn back(&mut self, n: u32) -> Reply<A>
        ensures gave { Gave self.old (answer self.old.opening self.old.branch (Ask.Back n)) self.new (reply_of result) }
    {
        let n = n as usize;
        let cursor = self.cursor();
        if cursor < n {
            return Reply::Refused(Refused::TooFarBack);
        }
        self.history.take_back_to(cursor - n);
        Reply::At(cursor - n)
    }

    /// Brings back what the branch was before its newest excision, where that can be taken back. It takes no memory.
    fn restore(&mut self) -> Reply<A>
        ensures gave { Gave self.old (answer self.old.opening self.old.branch Ask.Restore) self.new (reply_of result) }
    {
        match self.former.take() {
            Some(former) => {
                self.history = former;
                Reply::Restored(self.cursor())
            }
            None => Reply::Refused(Refused::NothingExcised),
        }
    }
}

impl<A: Allocator + Copy> Branch<A> {
    /// A branch without events.
    pub(crate) fn new(alloc: A, name: BranchWord, world: World<A>) -> Result<Self, NoMemory>
        requires named { IsTrue (is_branch_name name) }
        ensures branch { IfOk result (λ made. made ≡ record { opening = world; branch = record { name = name; events = []; cursor = 0; former = None } }) }
    {
        Ok(Branch {
            name,
            history: boxed(alloc, History::new(alloc, world))?,
            former: None,
        })
    }

    /// Puts an event after those that stand, in place of those that had been undone, and of what could be brought back.
    /// Returns its outcome and how many were cut. Where it is refused, or there is no memory, nothing changes.
    fn extend(&mut self, event: &Event) -> Result<(Outcome, usize), Refusal>
        ensures refused { IfErr result (λ why. (w : Pair) × (shown self.old ≡ Some w) × IsEventRefusal w event.now why) }
        ensures unchanged { OnErr result (self.new ≡ self.old) }
        ensures stepped { IfOk result (λ r. (w new : Pair) × (shown self.old ≡ Some w) × (step w event.now ≡ Ok (record { world = new; outcome = r.0 }))) }
        ensures extended { OnOk result (self.new ≡ record self.old { branch = extended self.old.branch event.now }) }
        ensures dropped { IfOk result (λ r. r.1 ≡ undone self.old.branch) }
        ensures opening { self.new.opening ≡ self.old.opening }
        ensures name { self.new.branch.name ≡ self.old.branch.name }
    {
        match self.history.extend(event) {
            Err(refusal) => Err(refusal),
            Ok(stepped) => {
                self.former = None;
                Ok(stepped)
            }
        }
    }

    /// Puts an event after those that stand. Where it is refused, or there is no memory, nothing changes.
    fn step(&mut self, event: &Event) -> Result<Reply<A>, NoMemory>
        ensures gave { IfOk result (λ reply. Gave self.old (answer self.old.opening self.old.branch (Ask.Step event.now)) self.new (reply_of reply)) }
        ensures memory { OnErr result (IsFalse (is_refusal (answer self.old.opening self.old.branch (Ask.Step event.now)).reply)) }
        ensures unchanged { OnErr result (self.new ≡ self.old) }
    {
        match self.extend(event) {
            Ok((outcome, dropped)) => Ok(Reply::Stepped { outcome, dropped }),
            Err(refusal) => refused(refusal),
        }
    }

    /// Lets the next `n` events after the cursor happen again, if there are that many. Where there is no memory, nothing changes.
    fn forward(&mut self, n: u32) -> Result<Reply<A>, NoMemory>
        ensures gave { IfOk result (λ reply. Gave self.old (answer self.old.opening self.old.branch (Ask.Forward n)) self.new (reply_of reply)) }
        ensures memory { OnErr result (IsFalse (is_refusal (answer self.old.opening self.old.branch (Ask.Forward n)).reply)) }
        ensures unchanged { OnErr result (self.new ≡ self.old) }
    {
        self.history.known();
        let n = n as usize;
        let cursor = self.cursor();
        if self.events().len() - cursor < n {
            return Ok(Reply::Refused(Refused::NothingForward));
        }
        self.history.redo(n)?;
        Ok(Reply::At(cursor + n))
    }

    /// Takes the event at the place out, counted from 1, where there is one, and lets the rest happen again without it.
    /// Reports the places of the events that are refused then: they fall out, too. What the branch was can be brought back.
    /// Where there is no memory, nothing changes.
    fn excise(&mut self, place: u32) -> Result<Reply<A>, NoMemory>
        ensures gave { IfOk result (λ reply. Gave self.old (answer self.old.opening self.old.branch (Ask.Excise place)) self.new (reply_of reply)) }
        ensures memory { OnErr result (IsFalse (is_refusal (answer self.old.opening self.old.branch (Ask.Excise place)).reply)) }
        ensures unchanged { OnErr result (self.new ≡ self.old) }
    {
        let place = place as usize;
        if place == 0 || self.events().len() < place {
            return Ok(Reply::Refused(Refused::NoEvent));
        }
        let (rest, fallen) = self.history.without(place)?;
        let history = boxed(*Box::allocator(&self.history), rest)?;
        self.former = Some(mem::replace(&mut self.history, history));
        Ok(Reply::Excised(fallen))
    }

    /// Where it stands, with a copy of the world that it shows.
    fn show(&self) -> Result<Reply<A>, NoMemory>
        ensures answer { IfOk result (λ reply. (w : Pair) × (shown self.now ≡ Some w)
            × (reply_of reply ≡ shown_at self.now.branch self.now.branch.cursor w)) }
    {
        let world = shared_copy(*Box::allocator(&self.history), self.world())?;
        Ok(Reply::Shown {
            name: self.name,
            events: self.events().len(),
            cursor: self.cursor(),
            world,
        })
    }

    /// Its events, those after the cursor too, in memory of their own, and its cursor. No pair is copied.
    fn log(&self) -> Result<Reply<A>, NoMemory>
        ensures answer { IfOk result (λ reply. reply_of reply ≡ Logged self.now.branch.name self.now.branch.events self.now.branch.cursor) }
    {
        let events = self.events().to_vec(*Box::allocator(&self.history))?;
        Ok(Reply::Logged {
            name: self.name,
            events,
            cursor: self.cursor(),
        })
    }

    /// Looks at the world that the first `place` events give, those after the cursor too, where there are as many. Nothing changes,
    /// whatever there is to be seen.
    pub(crate) fn look_at<L: Look<A, W>, W>(
        &mut self,
        place: u32,
        look: &L,
        writer: &mut W,
    ) -> Result<Option<L::Seen>, NoMemory>
        ensures seen { IfOk result (SeesAt (L.sees look.now) self.old.branch.name self.old.opening self.old.branch.events place writer.old writer.new) }
        ensures memory { OnErr result (nat_lt (length self.old.branch.events) place ≡ false) }
        ensures untouched { OnErr result (writer.new ≡ writer.old) }
        ensures unchanged { self.new ≡ self.old }
    {
        let place = place as usize;
        if self.events().len() < place {
            return Ok(None);
        }
        let seen = self.history.look_at(&self.name, place, look, writer)?;
        Ok(Some(seen))
    }

    /// Where it would stand at another place, with a copy of the world that it would show there. Nothing changes, whatever the answer.
    fn past(&mut self, place: u32) -> Result<Reply<A>, NoMemory>
        ensures gave { IfOk result (λ reply. Gave self.old (answer self.old.opening self.old.branch (Ask.Past place)) self.new (reply_of reply)) }
        ensures memory { OnErr result (IsFalse (is_refusal (answer self.old.opening self.old.branch (Ask.Past place)).reply)) }
        ensures unchanged { self.new ≡ self.old }
    {
        self.known();
        let look = CopiedSight {
            alloc: *Box::allocator(&self.history),
        };
        match self.look_at(place, &look, &mut ())? {
            Some(copied) => copied,
            None => Ok(Reply::Refused(Refused::NothingForward)),
        }
    }

    /// What came of the event at the place, counted from 1, those after the cursor too, and why. Nothing changes, whatever the answer.
    fn why(&mut self, place: u32) -> Result<Reply<A>, NoMemory>
        ensures answer { IfOk result (λ reply. reply_of reply ≡ why_answer self.old.opening place self.old.branch) }
        ensures memory { OnErr result (is_refusal (why_answer self.old.opening place self.old.branch) ≡ false) }
        ensures unchanged { self.new ≡ self.old }
    {
        let place = place as usize;
        let count = self.events().len();
        if place == 0 || place > count {
            return Ok(Reply::Refused(Refused::NoEvent));
        }
        self.known();
        let look = Explaining {
            alloc: *Box::allocator(&self.history),
            place,
            event: self.events().get(place - 1),
        };
        self.history.look_at(&self.name, place - 1, &look, &mut ())?
    }

    /// What would come of the event where it stands, and why. Nothing changes, whatever the answer.
    fn why_step(&mut self, event: &Event) -> Result<Reply<A>, NoMemory>
        ensures answer { IfOk result (λ reply. (w : Pair) × (shown self.old ≡ Some w)
            × (reply_of reply ≡ explanation self.old.branch.name (self.old.branch.cursor + 1) w event.now)) }
        ensures unchanged { self.new ≡ self.old }
    {
        let look = Explaining {
            alloc: *Box::allocator(&self.history),
            place: self.history.next_place(),
            event: *event,
        };
        self.history.look_here(&self.name, &look, &mut ())
    }

    /// The place of its event that sent the frame of the ticket, those after the cursor too, if one did.
    fn sending_place(&self, ticket: u32) -> Option<usize>
        ensures place { result ≡ meant.sending_place self.now.opening.link.next ticket self.now.branch.events }
        ensures within { IfSome result (λ k. (1 ≤ k) × (k ≤ length self.now.branch.events)) }
    {
        self.known();
        frames_are_counted();
        // The pair that it shows is at hand, and the opening is not: since that, each frame sent took a ticket.
        let events = self.events();
        let sent = count_senders(events, self.cursor());
        let first = self.world().link().next() - sent as u32;
        sending_place(first, ticket, events)
    }

    /// The trace of the frame that the event at the place sent under the ticket.
    fn trace(&mut self, ticket: u32, place: usize) -> Result<Reply<A>, NoMemory>
        requires some { 1 ≤ place }
        requires within { place ≤ length self.old.branch.events }
        requires sent { meant.sending_place self.old.opening.link.next ticket self.old.branch.events ≡ Some place }
        ensures answer { IfOk result (λ reply. reply_of reply ≡ frame_answer self.old.opening ticket self.old.branch) }
        ensures unchanged { self.new ≡ self.old }
    {
        self.known();
        frames_are_counted();
        let look = SentFrame { ticket };
        let seen = self.history.look_at(&self.name, place, &look, &mut ())??;
        let Some(frame) = seen else {
            return Ok(Reply::Refused(Refused::NoFrame));
        };
        let alloc = *Box::allocator(&self.history);
        let events = self.events();
        let len = frame.bytes().len();
        let first = FrameStep {
            place,
            event: events.get(place - 1),
            outcome: Outcome::Sent { ticket, len },
        };
        let later = frame_steps(alloc, ticket, place, &frame, events)?;
        let trace = FrameTrace {
            name: self.name,
            ticket,
            first,
            frame,
            later,
        };
        trace.reply(alloc)
    }

    /// The frame that one of its events sent under the ticket, those after the cursor too, and what befell it. Nothing changes,
    /// whatever the answer.
    fn frame(&mut self, ticket: u32) -> Result<Reply<A>, NoMemory>
        ensures answer { IfOk result (λ reply. reply_of reply ≡ frame_answer self.old.opening ticket self.old.branch) }
        ensures memory { OnErr result (is_refusal (frame_answer self.old.opening ticket self.old.branch) ≡ false) }
        ensures unchanged { self.new ≡ self.old }
    {
        self.known();
        frames_are_counted();
        match self.sending_place(ticket) {
            Some(place) => self.trace(ticket, place),
            None => Ok(Reply::Refused(Refused::NoFrame)),
        }
    }

    /// Answers what is asked of it. Where there is no memory, nothing changes. Memory is wanted last: by no way back and no restoration,
    /// and by nothing that is refused.
    pub(crate) fn answer(&mut self, ask: &Ask) -> Result<Reply<A>, NoMemory>
        ensures gave { IfOk result (λ reply. Gave self.old (answer self.old.opening self.old.branch ask.now) self.new (reply_of reply)) }
        ensures memory { OnErr result (IsTrue (makes ask.now) × IsFalse (is_refusal (answer self.old.opening self.old.branch ask.now).reply)) }
        ensures unchanged { OnErr result (self.new ≡ self.old) }
    {
        self.known();
        match ask {
            Ask::Step { event } => self.step(event),
            Ask::Back { n } => Ok(self.back(*n)),
            Ask::Forward { n } => self.forward(*n),
            Ask::Show => self.show(),
            Ask::Past { place } => self.past(*place),
            Ask::Why { place } => self.why(*place),
            Ask::WhyStep { event } => self.why_step(event),
            Ask::Frame { ticket } => self.frame(*ticket),
            Ask::Excise { place } => self.excise(*place),
            Ask::Restore => Ok(self.restore()),
            Ask::Log => self.log(),
        }
    }

    /// Searches for a shortest run of the choices from where it stands to the goal. Nothing changes, whatever the answer.
    pub(crate) fn search(
        &mut self,
        choices: &[Choice],
        depth: u32,
        goal: &Goal,
        most: u64,
    ) -> Result<Finding<A>, NoMemory>
        ensures finding { IfOk result (λ f. (w : Pair) × (shown self.old ≡ Some w)
            × (finding_of f ≡ finding_from (sought goal.now depth choices.now most) self.old.branch w)) }
        ensures means { IfOk result (λ f. (w : Pair) × (shown self.old ≡ Some w)
            × IsAnswer (sought goal.now depth choices.now most) w (finding_of f)) }
        ensures unchanged { self.new ≡ self.old }
    {
        match self.history.search(choices, depth, goal, most) {
            Ok(searched) => Ok(found(self.name, depth, searched)),
            Err(why) => stopped(why, most),
        }
    }

    /// A branch of the first events, all of which stand, in memory of its own. It can be taken back to the opening.
    pub(crate) fn forked(&self, place: usize, name: BranchWord) -> Result<Branch<A>, NoMemory>
        requires within { place ≤ length self.now.branch.events }
        requires named { IsTrue (is_branch_name name) }
        ensures branch { IfOk result (λ forked. forked ≡ record { opening = self.now.opening; branch = first_events place name self.now.branch }) }
    {
        let history = self.history.first(place)?;
        Ok(Branch {
            name,
            history: boxed(*Box::allocator(&self.history), history)?,
            former: None,
        })
    }
}
