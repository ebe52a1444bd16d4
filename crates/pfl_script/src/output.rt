//! Writing of a whole text.

ghost use Rattle.std.specs.Prelude.{◌≡◌, ◌≤◌, ℕ, true, length, take, OnOk, OnErr, IfErr, IfSome};
ghost use Rattle.std.specs.Io.KnownBytes.{Appends};
ghost use Rattle.pfl_timeline.specs.Replies.{Stepped, reply_of};
ghost use Rattle.pfl_timeline.specs.Sizes.{is_listing};
ghost use Rattle.pfl_script.specs.Readers.{IsWriteFault};
ghost use Rattle.pfl_script.specs.Replies.{reply_text};
ghost use Rattle.pfl_script.specs.inner.Answers.{branch_text};
ghost use Rattle.pfl_timeline.specs.Rooted.{shown};

use crate::fault::EngineFault;
use crate::replies::{push_stepped, reply_text};
use crate::short_line::ShortLine;
use crate::shown::shown_text;
use pfl_base::Output;
use pfl_language::Outcome;
use pfl_timeline::{Branch, Reply};
use std::alloc::Allocator;

/// Writes the whole text, or the first part of it.
pub fn write_text<W: Output>(writer: &mut W, text: &[u8]) -> Result<(), EngineFault>
    ensures whole { OnOk result (Appends (W.written writer.old) (W.written writer.new) text.now) }
    ensures stays { OnOk result (W.has_failed writer.new ≡ W.has_failed writer.old) }
    ensures part { OnErr result ((n : ℕ) × (n ≤ length text.now) × Appends (W.written writer.old) (W.written writer.new) (take n text.now)) }
    ensures fails { OnErr result (W.has_failed writer.new ≡ true) }
    ensures fault { IfErr result (λ e. e ≡ EngineFault.Write) }
{
    let mut done = 0;
    while done < text.len() {
        match writer.write(&text[done..]) {
            Ok(n) => done += n,
            Err(_) => return Err(EngineFault::Write),
        }
    }
    Ok(())
}

/// Writes the line of an event that was accepted, or the first part of it. The commonest reply is written from where it is made.
fn write_stepped<W: Output>(
    writer: &mut W,
    outcome: Outcome,
    dropped: usize,
) -> Result<(), EngineFault>
    ensures whole { OnOk result (Appends (W.written writer.old) (W.written writer.new) (reply_text (Stepped outcome dropped))) }
    ensures stays { OnOk result (W.has_failed writer.new ≡ W.has_failed writer.old) }
    ensures part { OnErr result ((n : ℕ) × Appends (W.written writer.old) (W.written writer.new) (take n (reply_text (Stepped outcome dropped)))) }
    ensures fails { OnErr result (W.has_failed writer.new ≡ true) }
    ensures fault { IfErr result (λ e. e ≡ EngineFault.Write) }
{
    let mut line = ShortLine::new();
    push_stepped(&mut line, outcome, dropped);
    write_text(writer, line.as_str().as_bytes())
}

/// Writes the lines of a reply, or the first part of them. Without memory for them nothing is written; none is wanted but
/// where the reply lists branches or events, shows a branch, or explains an event.
pub fn write_reply<A: Allocator, B: Allocator + Copy, W: Output>(
    alloc: A,
    reply: &Reply<B>,
    writer: &mut W,
) -> Result<(), EngineFault>
    ensures whole { OnOk result (Appends (W.written writer.old) (W.written writer.new) (reply_text (reply_of reply.now))) }
    ensures stays { OnOk result (W.has_failed writer.new ≡ W.has_failed writer.old) }
    ensures memory { IfErr result (λ e. e ≡ EngineFault.NoMemory → is_listing (reply_of reply.now) ≡ true) }
    ensures untouched { IfErr result (λ e. e ≡ EngineFault.NoMemory → writer.new ≡ writer.old) }
    ensures part { OnErr result ((n : ℕ) × Appends (W.written writer.old) (W.written writer.new) (take n (reply_text (reply_of reply.now)))) }
    ensures fault { IfErr result (λ e. IsWriteFault e (W.has_failed writer.new)) }
{
    if let Reply::Stepped { outcome, dropped } = reply {
        return write_stepped(writer, *outcome, *dropped);
    }
    match reply_text(alloc, reply) {
        Ok(text) => text.write(writer),
        Err(_) => Err(EngineFault::NoMemory),
    }
}

/// Writes the lines that show a branch, or the first part of them. Without memory for them nothing is written.
pub(crate) fn write_shown<A: Allocator, B: Allocator + Copy, W: Output>(
    alloc: A,
    branch: &Branch<B>,
    writer: &mut W,
) -> Result<(), EngineFault>
    ensures whole { OnOk result (IfSome (shown branch.now)
        (λ world. Appends (W.written writer.old) (W.written writer.new) (branch_text branch.now.branch world))) }
    ensures stays { OnOk result (W.has_failed writer.new ≡ W.has_failed writer.old) }
    ensures untouched { IfErr result (λ e. e ≡ EngineFault.NoMemory → writer.new ≡ writer.old) }
    ensures part { OnErr result (IfSome (shown branch.now)
        (λ world. (n : ℕ) × Appends (W.written writer.old) (W.written writer.new) (take n (branch_text branch.now.branch world)))) }
    ensures fault { IfErr result (λ e. IsWriteFault e (W.has_failed writer.new)) }
{
    let (events, cursor) = (branch.events().len(), branch.cursor());
    let shown = shown_text(alloc, branch.name().bytes(), events, cursor, branch.world());
    let Ok(text) = shown else {
        return Err(EngineFault::NoMemory);
    };
    write_text(writer, text.as_slice())
}
