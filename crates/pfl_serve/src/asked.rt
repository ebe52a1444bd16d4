//! Answers to commands that were asked. They are formed and written without a handle, so none of them can wait.

ghost use Rattle.std.specs.Prelude.{◌≡◌, ℕ, true, take, IfErr, OnErr, OnOk};
ghost use Rattle.std.specs.Io.KnownBytes.{Appends};
ghost use Rattle.pfl_script.specs.Readers.{IsWriteFault};
ghost use Rattle.pfl_serve.specs.inner.Answers.{asked_text, has_answer, may_lack};

use crate::texts::FULL;
use pfl_base::Output;
use pfl_script::{EngineFault, write_reply, write_text};
use pfl_session::{AskFault, Reply};
use std::alloc::Allocator;

/// Writes the answer to a command: its reply, or that the journal is full; or the first part of that. Where memory was wanting for the
/// call, or is wanting for the reply, nothing is written.
pub(crate) fn write_asked<A: Allocator + Copy, B: Allocator, W: Output>(
    alloc: B,
    asked: Result<Reply<A>, AskFault>,
    writer: &mut W,
) -> Result<(), EngineFault>
    ensures answered { OnOk result (has_answer asked ≡ true) }
    ensures whole { OnOk result (Appends (W.written writer.old) (W.written writer.new) (asked_text asked)) }
    ensures stays { OnOk result (W.has_failed writer.new ≡ W.has_failed writer.old) }
    ensures begun { IfErr result (λ e. e ≡ EngineFault.Write → has_answer asked ≡ true) }
    ensures part { OnErr result ((n : ℕ) × Appends (W.written writer.old) (W.written writer.new) (take n (asked_text asked))) }
    ensures memory { IfErr result (λ e. e ≡ EngineFault.NoMemory → may_lack asked ≡ true) }
    ensures untouched { IfErr result (λ e. e ≡ EngineFault.NoMemory → writer.new ≡ writer.old) }
    ensures fault { IfErr result (λ e. IsWriteFault e (W.has_failed writer.new)) }
{
    match asked {
        Ok(reply) => write_reply(alloc, &reply, writer),
        Err(AskFault::JournalFull) => write_text(writer, FULL.as_bytes()),
        Err(AskFault::NoMemory) => Err(EngineFault::NoMemory),
    }
}
