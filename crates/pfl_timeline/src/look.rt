//! Looks at the world that a branch shows, or would show if it stood at another place.

use crate::reply::{Explanation, Reply, shared_copy};
use pfl_edits::NoMemory;
use pfl_language::{BranchWord, Event, Refused};
use pfl_reasons::{InFlight, explain};
use pfl_search::World;
use std::alloc::Allocator;

/// What is seen of a branch beside the world that the first `cursor` of its events give: its name, and how many events it has.
#[derive(Drop)]
pub struct Sight<'a> {
    pub name: &'a BranchWord,
    pub events: usize,
    pub cursor: usize,
}

/// Who looks at a world that is lent for a while, and writes to a `W` what there is to be seen. A look may change the world to find
/// out what follows, and leaves it as it was.
pub trait Look<A: Allocator, W> {
    ghost use Rattle.std.specs.Prelude.{◌≡◌};
    ghost use Rattle.pfl_timeline.specs.Replies.{Reply, Shown};

    /// What the look comes to.
    type Seen;

    /// What becomes of a `W`, and what the look comes to, where a `show` of the sight would have this reply.
    ghost sees: { Self → Reply → W → W → Self.Seen → Type 0 };

    /// Looks.
    fn look(&self, sight: &Sight<'_>, world: &mut World<A>, writer: &mut W) -> Self::Seen
        ensures sees { sees self.now (Shown sight.now.name.now sight.now.events sight.now.cursor world.old) writer.old writer.new result }
        ensures still { world.new ≡ world.old };
}

/// Why nothing is seen.
#[derive(Clone, Copy, Debug)]
pub enum NotSeen {
    /// There is no such branch, or no such place.
    Refused(Refused),
    NoMemory,
}

impl From<NoMemory> for NotSeen {
    ghost use Rattle.std.specs.Prelude.{◌≡◌};
    ghost use Rattle.pfl_timeline.specs.declared.look.NotSeen.TheVariants as not_seen;

    ghost from_gives = { λ _ fault. fault ≡ not_seen.NoMemory };

    fn from(_: NoMemory) -> Self {
        NotSeen::NoMemory
    }
}

/// Copies what is seen into a reply.
#[derive(Clone, Copy, Debug)]
pub(crate) struct CopiedSight<A: Allocator + Copy> {
    pub(crate) alloc: A,
}

impl<A: Allocator + Copy> Look<A, ()> for CopiedSight<A> {
    ghost use Rattle.std.specs.Prelude.{◌≡◌, IfOk};
    ghost use Rattle.pfl_timeline.specs.Replies.{Shown, reply_of};

    type Seen = Result<Reply<A>, NoMemory>;

    ghost sees = { λ self told old new seen. IfOk seen (λ reply. reply_of reply ≡ told) };

    fn look(
        &self,
        sight: &Sight<'_>,
        world: &mut World<A>,
        _nothing: &mut (),
    ) -> Result<Reply<A>, NoMemory>
        ensures sees { IfOk result (λ reply. reply_of reply ≡ Shown sight.now.name.now sight.now.events sight.now.cursor world.old) }
        ensures still { world.new ≡ world.old }
    {
        let world = shared_copy(self.alloc, world)?;
        Ok(Reply::Shown {
            name: *sight.name,
            events: sight.events,
            cursor: sight.cursor,
            world,
        })
    }
}

/// Explains an event at a place of a branch, where the events before it have happened.
#[derive(Clone, Copy, Debug)]
pub(crate) struct Explaining<A: Allocator + Copy> {
    pub(crate) alloc: A,
    pub(crate) place: usize,
    pub(crate) event: Event,
}

impl<A: Allocator + Copy> Look<A, ()> for Explaining<A> {
    ghost use Rattle.std.specs.Prelude.{◌≡◌, IfOk};
    ghost use Rattle.pfl_timeline.specs.Replies.{Shown, reply_of};
    ghost use Rattle.pfl_timeline.specs.inner.Looking.{explained_there};

    type Seen = Result<Reply<A>, NoMemory>;

    ghost sees = { λ self told old new seen. IfOk seen (λ reply. reply_of reply ≡ explained_there self.place self.event told) };

    fn look(
        &self,
        sight: &Sight<'_>,
        world: &mut World<A>,
        _nothing: &mut (),
    ) -> Result<Reply<A>, NoMemory>
        ensures sees { IfOk result (λ reply. reply_of reply
            ≡ explained_there self.now.place self.now.event (Shown sight.now.name.now sight.now.events sight.now.cursor world.old)) }
        ensures still { world.new ≡ world.old }
    {
        let (came, why) = explain(self.alloc, world, &self.event)?;
        let explanation = Explanation {
            name: *sight.name,
            place: self.place,
            event: self.event,
            came,
            why,
        };
        explanation.reply(self.alloc)
    }
}

/// Copies the frame that is in flight under a ticket, if there is one.
#[derive(Clone, Copy, Debug)]
pub(crate) struct SentFrame {
    pub(crate) ticket: u32,
}

impl<A: Allocator + Copy> Look<A, ()> for SentFrame {
    ghost use Rattle.std.specs.Prelude.{◌≡◌, IfOk};
    ghost use Rattle.pfl_timeline.specs.Replies.{Shown};
    ghost use Rattle.pfl_timeline.specs.inner.Looking.{frame_there};

    type Seen = Result<Option<InFlight<A>>, NoMemory>;

    ghost sees = { λ self told old new seen. IfOk seen (λ frame. frame ≡ frame_there self.ticket told) };

    fn look(
        &self,
        sight: &Sight<'_>,
        world: &mut World<A>,
        _nothing: &mut (),
    ) -> Result<Option<InFlight<A>>, NoMemory>
        ensures sees { IfOk result (λ frame. frame ≡ frame_there self.now.ticket (Shown sight.now.name.now sight.now.events sight.now.cursor world.old)) }
        ensures still { world.new ≡ world.old }
    {
        match world.link().get(self.ticket) {
            Some(frame) => Ok(Some(frame.copy()?)),
            None => Ok(None),
        }
    }
}
