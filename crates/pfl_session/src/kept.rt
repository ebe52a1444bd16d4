//! Entries as a journal keeps them.

ghost use Rattle.std.specs.Prelude.{◌≡◌, IfOk, IsTrue, OnErr};
ghost use Rattle.pfl_timeline.specs.Replies.{reply_of};
ghost use Rattle.pfl_session.specs.inner.Fitting.{is_kept_whole};

mod command;
mod event;
mod form;
mod outcome;
mod reply;
mod short_word;

use crate::entry::Entry;
use crate::kept::form::Form;
use pfl_edits::NoMemory;
use pfl_language::Command;
use pfl_timeline::Reply;
use std::alloc::{AllocError, Allocator, Global};
use std::marker::Model;
use std::mem::size_of;

/// An entry of a journal in 120 bytes, where an [`Entry`] takes 192. One that does not fit, since a word of its command has more than
/// 16 bytes, or since its reply shows a branch or lists its events, stands in a box beside it. Contracts see the entry.
pub struct KeptEntry<A: Allocator> {
    form: Form<A>,
}

const _: () = prove!(size_of::<KeptEntry<Global>>() <= 120);

// Written by hand: see docs/ARCHITECTURE.md, "What the prover asks of the code".
impl<A: Allocator> Drop for KeptEntry<A> {
    fn drop(self) {
        let KeptEntry { form: _ } = self;
    }
}

impl<A: Allocator> Model for KeptEntry<A> {
    ghost use Rattle.pfl_session.specs.declared.entry.Entry.{Entry};

    ghost Value = { Entry A };

    ghost use Rattle.pfl_session.specs.inner.Kept.{entry_in};

    ghost view = { λ k. entry_in k.form };
}

impl<A: Allocator> KeptEntry<A> {
    /// The entry of these parts. It wants memory only where they do not fit.
    pub(crate) fn new(
        alloc: A,
        session: u32,
        command: &Command,
        reply: Reply<A>,
    ) -> Result<KeptEntry<A>, NoMemory>
        ensures entry { IfOk result (λ kept. kept ≡ record { session = session; command = command.now; reply = reply }) }
        ensures memory { OnErr result (IsTrue (is_kept_whole command.now (reply_of reply))) }
    {
        let form = match Form::of(session, command, reply) {
            Ok(form) => form,
            Err(reply) => {
                let entry = Entry::new(session, *command, reply);
                Form::Whole(Box::new(alloc, entry).map_err(AllocError::from)?)
            }
        };
        Ok(KeptEntry { form })
    }

    /// The session that made the call. Sessions count from 1.
    pub fn session(&self) -> u32
        ensures { result ≡ self.now.session }
    {
        match &self.form {
            Form::Step { session, .. }
            | Form::WhyStep { session, .. }
            | Form::Plain { session, .. } => *session,
            Form::Whole(entry) => entry.session,
        }
    }

    /// The command of the call.
    pub fn command(&self) -> Command
        ensures { result ≡ self.now.command }
    {
        match &self.form {
            Form::Step { name, event, .. } => Command::step(name.word(), event.event()),
            Form::WhyStep { name, event, .. } => Command::why_step(name.word(), event.event()),
            Form::Plain { name, command, .. } => command.command(name),
            Form::Whole(entry) => entry.command,
        }
    }

    /// The entry itself. It takes no memory.
    pub fn entry(self) -> Entry<A>
        ensures { result ≡ self }
    {
        let command = self.command();
        let KeptEntry { form } = self;
        match form {
            Form::Step { session, reply, .. }
            | Form::WhyStep { session, reply, .. }
            | Form::Plain { session, reply, .. } => Entry::new(session, command, reply.reply()),
            Form::Whole(entry) => Box::into_inner(entry),
        }
    }
}
