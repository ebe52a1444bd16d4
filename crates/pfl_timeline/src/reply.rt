//! Replies.

ghost use Rattle.std.specs.Prelude.{◌≡◌, IfOk};
ghost use Rattle.std.specs.Arc.{arc_value};
ghost use Rattle.pfl_timeline.specs.Replies.{explanation_of, reply_of, trace_of};

use pfl_base::Refusal;
use pfl_edits::NoMemory;
use pfl_language::{BranchWord, Event, Outcome, Refused};
use pfl_reasons::{Explained, FrameStep, InFlight};
use pfl_search::World;
use std::alloc::{AllocError, Allocator};
use std::sync::Arc;

/// What comes of an event of a branch, and why: the branch's name, the event and its place, counted from 1, its outcome or its
/// refusal, and the reason for that. Clauses say by `explanation_of` what it contains.
#[derive(Drop)]
pub struct Explanation<A: Allocator> {
    pub name: BranchWord,
    pub place: usize,
    pub event: Event,
    pub came: Result<Outcome, Refusal>,
    pub why: Explained<A>,
}

impl<A: Allocator> Explanation<A> {
    /// The reply that it is, in a box.
    pub fn reply(self, alloc: A) -> Result<Reply<A>, NoMemory>
        ensures { IfOk result (λ reply. reply_of reply ≡ explanation_of self) }
    {
        let boxed = Box::new(alloc, self).map_err(AllocError::from)?;
        Ok(Reply::Explained(boxed))
    }
}

impl<A: Allocator + Copy> Explanation<A> {
    /// An equal one, in memory of its own.
    pub fn copy(&self, alloc: A) -> Result<Explanation<A>, NoMemory>
        ensures { IfOk result (λ copied. explanation_of copied ≡ explanation_of self.now) }
    {
        let why = self.why.copy(alloc)?;
        Ok(Explanation {
            name: self.name,
            place: self.place,
            event: self.event,
            came: self.came,
            why,
        })
    }
}

/// A frame that an event of a branch sent: the branch's name, the frame's ticket, the event that sent it, the frame as it was sent,
/// and the events that befell it. Clauses say by `trace_of` what it contains.
#[derive(Drop)]
pub struct FrameTrace<A: Allocator> {
    pub name: BranchWord,
    pub ticket: u32,
    pub first: FrameStep,
    pub frame: InFlight<A>,
    pub later: Vec<FrameStep, A>,
}

impl<A: Allocator> FrameTrace<A> {
    /// The reply that it is, in a box.
    pub fn reply(self, alloc: A) -> Result<Reply<A>, NoMemory>
        ensures { IfOk result (λ reply. reply_of reply ≡ trace_of self) }
    {
        let boxed = Box::new(alloc, self).map_err(AllocError::from)?;
        Ok(Reply::Traced(boxed))
    }
}

impl<A: Allocator + Copy> FrameTrace<A> {
    /// An equal one, in memory of its own.
    pub fn copy(&self, alloc: A) -> Result<FrameTrace<A>, NoMemory>
        ensures { IfOk result (λ copied. trace_of copied ≡ trace_of self.now) }
    {
        let frame = self.frame.copy()?;
        let later = Vec::from_slice(alloc, self.later.as_slice())?;
        Ok(FrameTrace {
            name: self.name,
            ticket: self.ticket,
            first: self.first,
            frame,
            later,
        })
    }
}

/// The reply to a command. Clauses say by `reply_of` what it contains. The world that one shows can have several owners, so that who keeps
/// a reply and who reads it need one copy; an explanation and the trace of a frame are in a box. So the others are small.
#[derive(Drop)]
pub enum Reply<A: Allocator> {
    /// The event happened, and this many events that had been undone were cut.
    Stepped {
        outcome: Outcome,
        dropped: usize,
    },
    /// This many events of the branch stand.
    At(usize),
    /// The branch is made.
    Forked,
    /// The branch is removed.
    Removed,
    /// The branch: its name, how many events it has, how many of them stand, and the world that it shows.
    Shown {
        name: BranchWord,
        events: usize,
        cursor: usize,
        world: Arc<World<A>, A>,
    },
    /// The names of the branches, in the order of their making.
    Names(Vec<BranchWord, A>),
    /// The event is taken out, and with it the events that were at these places, since they are refused without it.
    Excised(Vec<usize, A>),
    /// The branch is as it was before its newest excision, and this many of its events stand.
    Restored(usize),
    /// The branch: its name, all its events in order, and how many of them stand.
    Logged {
        name: BranchWord,
        events: Vec<Event, A>,
        cursor: usize,
    },
    /// What comes of an event, and why.
    Explained(Box<Explanation<A>, A>),
    /// A frame, and what became of it.
    Traced(Box<FrameTrace<A>, A>),
    /// The command is refused.
    Refused(Refused),
}

/// An equal world that can have several owners, in memory of its own.
pub(crate) fn shared_copy<A: Allocator + Copy>(
    alloc: A,
    world: &World<A>,
) -> Result<Arc<World<A>, A>, NoMemory>
    ensures same { IfOk result (λ shared. arc_value shared ≡ world.now) }
{
    let copied = world.copy()?;
    Ok(Arc::new(alloc, copied).map_err(AllocError::from)?)
}
