//! Commands whose reply is kept in an entry.

ghost use Rattle.std.specs.Prelude.{◌≡◌, ◌≤◌, [], length, IfOk, OnErr, IsTrue, vec_capacity};
ghost use Rattle.pfl_timeline.specs.Commands.{command_step, replied};
ghost use Rattle.pfl_timeline.specs.Replies.{reply_of};
ghost use Rattle.pfl_timeline.specs.Sizes.{is_listing};
ghost use Rattle.pfl_session.specs.Listings.{places_in};

use crate::kept::KeptEntry;
use crate::room::{filled, most_places};
use pfl_edits::NoMemory;
use pfl_language::Command;
use pfl_timeline::{Reply, Timeline};
use std::alloc::Allocator;
use std::sync::Arc;

/// An equal reply, whose places are in the room that was made for them, and whose world is the same one. It can want memory only for
/// what shows a branch, lists its events, explains an event or shows what became of a frame, or names the branches.
fn copy_reply<A: Allocator + Copy>(
    reply: &Reply<A>,
    room: Vec<usize, A>,
) -> Result<Reply<A>, NoMemory>
    requires empty { room.items ≡ [] }
    requires enough { length (places_in (reply_of reply.now)) ≤ vec_capacity room }
    ensures same { IfOk result (λ copied. reply_of copied ≡ reply_of reply.now) }
    ensures memory { OnErr result (IsTrue (is_listing (reply_of reply.now))) }
{
    Ok(match reply {
        Reply::Stepped { outcome, dropped } => Reply::Stepped {
            outcome: *outcome,
            dropped: *dropped,
        },
        Reply::At(cursor) => Reply::At(*cursor),
        Reply::Forked => Reply::Forked,
        Reply::Removed => Reply::Removed,
        Reply::Shown {
            name,
            events,
            cursor,
            world,
        } => Reply::Shown {
            name: *name,
            events: *events,
            cursor: *cursor,
            world: Arc::try_clone(world)?,
        },
        Reply::Names(names) => Reply::Names(Vec::from_slice(*names.allocator(), names)?),
        Reply::Excised(places) => Reply::Excised(filled(room, places)),
        Reply::Restored(cursor) => Reply::Restored(*cursor),
        Reply::Logged {
            name,
            events,
            cursor,
        } => Reply::Logged {
            name: *name,
            events: Vec::from_slice(*events.allocator(), events)?,
            cursor: *cursor,
        },
        Reply::Explained(explanation) => {
            let alloc = *room.allocator();
            explanation.copy(alloc)?.reply(alloc)?
        }
        Reply::Traced(trace) => {
            let alloc = *room.allocator();
            trace.copy(alloc)?.reply(alloc)?
        }
        Reply::Refused(why) => Reply::Refused(*why),
    })
}

/// Executes a command of a session, and returns its reply with the entry that keeps it. Where there is no memory, nothing
/// changes: room for the places that the reply lists is made first, and a reply that wants memory for its copy even so comes
/// of a command that changes nothing. So does an entry that wants memory: it has such a reply, or a word that no branch has
/// as its name.
pub(crate) fn execute<A: Allocator + Copy>(
    alloc: A,
    timeline: &mut Timeline<A>,
    session: u32,
    command: &Command,
) -> Result<(Reply<A>, KeptEntry<A>), NoMemory>
    ensures step { IfOk result (λ r. command_step timeline.old command.now ≡ replied timeline.new (reply_of r.0)) }
    ensures entry { IfOk result (λ r. (r.1.session ≡ session) × (r.1.command ≡ command.now) × (reply_of r.1.reply ≡ reply_of r.0)) }
    ensures unchanged { OnErr result (timeline.new ≡ timeline.old) }
{
    timeline.known();
    let room = Vec::with_capacity(alloc, most_places(timeline, command))?;
    let reply = timeline.command(*command)?;
    let kept = copy_reply(&reply, room)?;
    let entry = KeptEntry::new(alloc, session, command, kept)?;
    Ok((reply, entry))
}
