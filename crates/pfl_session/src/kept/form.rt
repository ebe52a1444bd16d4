//! What a kept entry is made of.

ghost use Rattle.std.specs.Prelude.{◌≡◌, IfErr, IfOk, IsTrue};
ghost use Rattle.pfl_timeline.specs.Replies.{reply_of};
ghost use Rattle.pfl_session.specs.inner.Fitting.{is_kept_whole};
ghost use Rattle.pfl_session.specs.inner.Kept.{entry_in};

use crate::entry::Entry;
use crate::kept::command::{Asked, KeptCommand};
use crate::kept::event::JournalEvent;
use crate::kept::reply::KeptReply;
use crate::kept::short_word::ShortWord;
use pfl_language::Command;
use pfl_timeline::Reply;
use std::alloc::Allocator;

/// An entry in 120 bytes: the tag, the branch's name and the session's number in 24, what is asked in 64, and the reply in 32; or one
/// that does not fit, in a box.
#[derive(Drop)]
pub(crate) enum Form<A: Allocator> {
    Step {
        name: ShortWord,
        session: u32,
        event: JournalEvent,
        reply: KeptReply<A>,
    },
    WhyStep {
        name: ShortWord,
        session: u32,
        event: JournalEvent,
        reply: KeptReply<A>,
    },
    Plain {
        name: ShortWord,
        session: u32,
        command: KeptCommand,
        reply: KeptReply<A>,
    },
    Whole(Box<Entry<A>, A>),
}

impl<A: Allocator> Form<A> {
    /// The entry of these parts, unless it has to be kept whole. Then the reply is given back.
    pub(crate) fn of(session: u32, command: &Command, reply: Reply<A>) -> Result<Form<A>, Reply<A>>
        ensures kept { IfOk result (λ form. entry_in form ≡ record { session = session; command = command.now; reply = reply }) }
        ensures given_back { IfErr result (λ given. given ≡ reply) }
        ensures whole { IfErr result (λ given. IsTrue (is_kept_whole command.now (reply_of reply))) }
    {
        let Some(asked) = Asked::of(command) else {
            return Err(reply);
        };
        let reply = KeptReply::of(reply)?;
        Ok(match asked {
            Asked::Step { name, event } => Form::Step {
                name,
                session,
                event,
                reply,
            },
            Asked::WhyStep { name, event } => Form::WhyStep {
                name,
                session,
                event,
                reply,
            },
            Asked::Plain { name, command } => Form::Plain {
                name,
                session,
                command,
                reply,
            },
        })
    }
}
