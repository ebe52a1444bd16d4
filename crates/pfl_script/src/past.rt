//! What a branch shows at another place, written from where it is seen.

ghost use Rattle.std.specs.Prelude.{◌≡◌, ℕ, take, OnOk, OnErr, IfErr};
ghost use Rattle.std.specs.Io.KnownBytes.{Appends};
ghost use Rattle.pfl_script.specs.Readers.{IsWriteFault};
ghost use Rattle.pfl_script.specs.Replies.{reply_text};
ghost use Rattle.pfl_language.specs.declared.ask.Ask.TheVariants as ask;
ghost use Rattle.pfl_language.specs.declared.command.Command.TheVariants as command;
ghost use Rattle.pfl_timeline.specs.Commands.{past_command};
ghost use Rattle.pfl_timeline.specs.Memory.{MayWantMemory};

use crate::fault::EngineFault;
use crate::output::{write_reply, write_text};
use crate::shown::shown_text;
use pfl_base::Output;
use pfl_language::BranchWord;
use pfl_timeline::{Look, NotSeen, Reply, Sight, Timeline, World};
use std::alloc::Allocator;

/// Writes what it sees as `show` would.
#[derive(Clone, Copy, Debug)]
struct Writing<A: Allocator + Copy> {
    alloc: A,
}

impl<A: Allocator + Copy, B: Allocator + Copy, W: Output> Look<B, W> for Writing<A> {
    ghost use Rattle.pfl_script.specs.inner.Answers.{WritesReply};

    type Seen = Result<(), EngineFault>;

    ghost sees = { λ self told old new written. WritesReply W.written W.has_failed told old new written };

    fn look(
        &self,
        sight: &Sight<'_>,
        world: &mut World<B>,
        writer: &mut W,
    ) -> Result<(), EngineFault> {
        let name = sight.name.bytes();
        let text = shown_text(self.alloc, name, sight.events, sight.cursor, world);
        let Ok(text) = text else {
            return Err(EngineFault::NoMemory);
        };
        write_text(writer, text.as_slice())
    }
}

/// Writes what the branch showed when its first `place` events stood, or what it will show. No pair is copied, and nothing changes.
pub(crate) fn answer_past<A: Allocator + Copy, B: Allocator + Copy, W: Output>(
    alloc: A,
    name: &BranchWord,
    place: u32,
    writer: &mut W,
    timeline: &mut Timeline<B>,
) -> Result<(), EngineFault>
    ensures still { timeline.new ≡ timeline.old }
    ensures timeline { (past_command timeline.old name.now place).timeline ≡ timeline.old }
    ensures whole { OnOk result (Appends (W.written writer.old) (W.written writer.new) (reply_text (past_command timeline.old name.now place).reply)) }
    ensures stays { OnOk result (W.has_failed writer.new ≡ W.has_failed writer.old) }
    ensures untouched { IfErr result (λ e. e ≡ EngineFault.NoMemory → writer.new ≡ writer.old) }
    ensures part { OnErr result ((n : ℕ)
        × Appends (W.written writer.old) (W.written writer.new) (take n (reply_text (past_command timeline.old name.now place).reply))) }
    ensures memory { IfErr result (λ e. e ≡ EngineFault.NoMemory → MayWantMemory timeline.old (command.On name.now (ask.Past place))) }
    ensures fault { IfErr result (λ e. IsWriteFault e (W.has_failed writer.new)) }
{
    match timeline.past(name, place, &Writing { alloc }, writer) {
        Ok(written) => written,
        Err(NotSeen::NoMemory) => Err(EngineFault::NoMemory),
        Err(NotSeen::Refused(why)) => {
            let reply: Reply<B> = Reply::Refused(why);
            write_reply(alloc, &reply, writer)
        }
    }
}
