//! The answers to searches.

ghost use Rattle.std.specs.Prelude.{◌≡◌, ◌+◌, ◌≤◌, ◌++◌, ℕ, true, take, IfErr, IfOk, OnErr, OnOk};
ghost use Rattle.std.specs.Io.KnownBytes.{Appends};
ghost use Rattle.pfl_script.specs.Readers.{IsWriteFault};
ghost use Rattle.arrayvec.specs.ArrayString.{array_string_len};
ghost use Rattle.pfl_script.specs.Searches.{finding_text, found_line, found_text, length_text};
ghost use Rattle.pfl_script.specs.inner.Answers.{is_run};
ghost use Rattle.pfl_script.specs.inner.Texts.{bytes_of};
ghost use Rattle.pfl_timeline.specs.Searches.{GaveUp, Nothing, finding_of};

use crate::fault::EngineFault;
use crate::listed::push_shown;
use crate::logged::push_events;
use crate::replies::refused_line;
use crate::reply_text::ReplyText;
use crate::short_line::{ShortLine, plain_line, push_number};
use pfl_base::Output;
use pfl_edits::NoMemory;
use pfl_language::Event;
use pfl_timeline::Finding;
use std::alloc::Allocator;

/// Puts the first line of a run that was found after a text.
fn push_found<A: Allocator>(
    text: &mut Vec<u8, A>,
    name: &[u8],
    events: usize,
    tried: u64,
) -> Result<(), NoMemory>
    ensures { OnOk result (text.new.items ≡ text.old.items ++ found_line name.now events tried) }
{
    text.extend_from_slice(b"found ")?;
    text.extend_from_slice(name)?;
    push_shown(text, format_args!(" events {events} runs {tried}\n"))
}

/// The text of a run that was found: its events, each as the line that steps it.
fn found_text<A: Allocator>(
    alloc: A,
    name: &[u8],
    run: &[Event],
    tried: u64,
) -> Result<Vec<u8, A>, NoMemory>
    ensures { IfOk result (λ text. text.items ≡ found_text name.now run.now tried) }
{
    let mut text = Vec::new(alloc);
    push_found(&mut text, name, run.len(), tried)?;
    push_events(&mut text, name, run)?;
    text.extend_from_slice(b"end\n")?;
    Ok(text)
}

/// Appends how many events a run may have for which there is none.
fn push_length(line: &mut ShortLine, depth: u32, ended: bool)
    requires room { array_string_len line.old ≤ 172 }
    ensures bytes { line.new.bytes ≡ line.old.bytes ++ length_text depth ended }
    ensures few { array_string_len line.new ≤ array_string_len line.old + 20 }
{
    if ended {
        line.push_str("any");
    } else {
        push_number(line, u64::from(depth));
    }
}

/// The line of a search that found nothing.
fn nothing_line(depth: u32, tried: u64, asked: u64, ended: bool) -> ShortLine
    ensures { result.bytes ≡ finding_text (Nothing depth tried asked ended) }
{
    let mut line = plain_line("none ");
    push_length(&mut line, depth, ended);
    line.push_str(" ");
    push_number(&mut line, tried);
    line.push_str(" ");
    push_number(&mut line, asked);
    line.push_str("\n");
    line
}

/// The line of a search that was given up.
fn gave_up_line(most: u64) -> ShortLine
    ensures { result.bytes ≡ finding_text (GaveUp most) }
{
    let mut line = plain_line("gave up ");
    push_number(&mut line, most);
    line.push_str("\n");
    line
}

/// The text of the answer to a search. Only that of a run takes memory.
fn text_of<'a, A: Allocator, B: Allocator>(
    alloc: A,
    finding: &Finding<B>,
) -> Result<ReplyText<'a, A>, NoMemory>
    ensures bytes { IfOk result (λ text. bytes_of text ≡ finding_text (finding_of finding.now)) }
    ensures memory { OnErr result (is_run (finding_of finding.now) ≡ true) }
{
    Ok(match finding {
        Finding::Found { name, run, tried } => {
            ReplyText::Long(found_text(alloc, name.bytes(), run.as_slice(), *tried)?)
        }
        Finding::Nothing {
            depth,
            tried,
            asked,
            ended,
        } => ReplyText::Short(nothing_line(*depth, *tried, *asked, *ended)),
        Finding::GaveUp(most) => ReplyText::Short(gave_up_line(*most)),
        Finding::Refused(why) => ReplyText::Short(refused_line(*why)),
    })
}

/// Writes the answer to a search, or the first part of it. Without memory for it nothing is written; none is wanted but for that of a run.
pub(crate) fn write_finding<A: Allocator, B: Allocator, W: Output>(
    alloc: A,
    finding: &Finding<B>,
    writer: &mut W,
) -> Result<(), EngineFault>
    ensures whole { OnOk result (Appends (W.written writer.old) (W.written writer.new) (finding_text (finding_of finding.now))) }
    ensures stays { OnOk result (W.has_failed writer.new ≡ W.has_failed writer.old) }
    ensures untouched { IfErr result (λ e. e ≡ EngineFault.NoMemory → writer.new ≡ writer.old) }
    ensures part { OnErr result ((n : ℕ) × Appends (W.written writer.old) (W.written writer.new) (take n (finding_text (finding_of finding.now)))) }
    ensures memory { IfErr result (λ e. e ≡ EngineFault.NoMemory → is_run (finding_of finding.now) ≡ true) }
    ensures fault { IfErr result (λ e. IsWriteFault e (W.has_failed writer.new)) }
{
    match text_of(alloc, finding) {
        Ok(text) => text.write(writer),
        Err(_) => Err(EngineFault::NoMemory),
    }
}
