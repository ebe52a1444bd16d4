//! The text of replies.

ghost use Rattle.std.specs.Prelude.{◌≡◌, ◌++◌, true, codes, IfOk, OnOk, OnErr};
ghost use Rattle.std.specs.List.{flat_map};
ghost use Rattle.std.specs.Fmt.{decimal};
ghost use Rattle.arrayvec.specs.ArrayString.{array_string_len};
ghost use Rattle.pfl_timeline.specs.Replies.{Stepped, At, Names, Restored, Refused as Refusing, reply_of};
ghost use Rattle.pfl_timeline.specs.Sizes.{is_listing};
ghost use Rattle.pfl_script.specs.Texts.{bad_text};
ghost use Rattle.pfl_script.specs.Replies.{named, reply_text};
ghost use Rattle.pfl_script.specs.inner.Texts.{bytes_of};

use crate::explained::explained_text;
use crate::logged::logged_text;
use crate::outcomes::push_outcome;
use crate::refusals::push_refused;
use crate::reply_text::ReplyText;
use crate::short_line::{ShortLine, plain_line, push_number};
use crate::shown::shown_text;
use crate::traced::traced_text;
use pfl_edits::NoMemory;
use pfl_language::{BranchWord, Outcome, Refused};
use pfl_lines::LineFault;
use pfl_timeline::Reply;
use std::alloc::Allocator;

/// The line for a faulty line. It takes no memory.
pub fn fault_line(fault: LineFault) -> &'static str
    ensures { result.now ≡ bad_text fault }
{
    match fault {
        LineFault::Long => "bad 1 Long\n",
        LineFault::NotAscii => "bad 2 NotAscii\n",
        LineFault::Unknown => "bad 3 Unknown\n",
        LineFault::Missing => "bad 4 Missing\n",
        LineFault::Number => "bad 5 Number\n",
        LineFault::Extra => "bad 6 Extra\n",
        LineFault::Packet(_) => "bad 7 Packet\n",
    }
}

/// Appends the line of an event that was accepted to an empty one.
pub(crate) fn push_stepped(line: &mut ShortLine, outcome: Outcome, dropped: usize)
    requires empty { array_string_len line.old ≡ 0 }
    ensures { line.new.bytes ≡ line.old.bytes ++ reply_text (Stepped outcome dropped) }
{
    line.push_str("step ");
    push_outcome(line, outcome);
    line.push_str(" dropped ");
    push_number(line, dropped as u64);
    line.push_str("\n");
}

/// The line of an event that was accepted.
fn stepped_line(outcome: Outcome, dropped: usize) -> ShortLine
    ensures { result.bytes ≡ reply_text (Stepped outcome dropped) }
{
    let mut line = ShortLine::new();
    push_stepped(&mut line, outcome, dropped);
    line
}

/// The line of a cursor that moved.
fn cursor_line(cursor: usize) -> ShortLine
    ensures { result.bytes ≡ reply_text (At cursor) }
{
    let mut line = plain_line("at ");
    push_number(&mut line, cursor as u64);
    line.push_str("\n");
    line
}

/// The line of a branch that is as it was.
fn restored_line(cursor: usize) -> ShortLine
    ensures { result.bytes ≡ reply_text (Restored cursor) }
{
    let mut line = plain_line("restored ");
    push_number(&mut line, cursor as u64);
    line.push_str("\n");
    line
}

/// The line of a command that is refused.
pub(crate) fn refused_line(why: Refused) -> ShortLine
    ensures { result.bytes ≡ reply_text (Refusing why) }
{
    let mut line = plain_line("refused ");
    push_refused(&mut line, why);
    line.push_str("\n");
    line
}

/// Appends names to a text, each after a space.
fn push_names<A: Allocator>(text: &mut Vec<u8, A>, names: &[BranchWord]) -> Result<(), NoMemory>
    ensures { OnOk result (text.new.items ≡ text.old.items ++ flat_map named names.now) }
{
    for name in names {
        text.extend_from_slice(b" ")?;
        text.extend_from_slice(name.bytes())?;
    }
    Ok(())
}

/// The line of the branches' names.
fn names_line<A: Allocator>(alloc: A, names: &[BranchWord]) -> Result<Vec<u8, A>, NoMemory>
    ensures { IfOk result (λ text. text.items ≡ reply_text (Names names.now)) }
{
    let mut text = Vec::new(alloc);
    text.extend_from_slice(b"names")?;
    push_names(&mut text, names)?;
    text.extend_from_slice(b"\n")?;
    Ok(text)
}

/// The text of a reply. Memory is taken only for one that lists branches or events, shows a branch or a frame, or explains an event:
/// no such reply is that of a command which changes something.
pub fn reply_text<'a, A: Allocator, B: Allocator + Copy>(
    alloc: A,
    reply: &'a Reply<B>,
) -> Result<ReplyText<'a, A>, NoMemory>
    ensures text { IfOk result (λ text. bytes_of text ≡ reply_text (reply_of reply.now)) }
    ensures memory { OnErr result (is_listing (reply_of reply.now) ≡ true) }
{
    Ok(match reply {
        Reply::Stepped { outcome, dropped } => ReplyText::Short(stepped_line(*outcome, *dropped)),
        Reply::At(cursor) => ReplyText::Short(cursor_line(*cursor)),
        Reply::Forked => ReplyText::Short(plain_line("forked\n")),
        Reply::Removed => ReplyText::Short(plain_line("removed\n")),
        Reply::Names(names) => ReplyText::Long(names_line(alloc, names.as_slice())?),
        Reply::Shown {
            name,
            events,
            cursor,
            world,
        } => ReplyText::Long(shown_text(alloc, name.bytes(), *events, *cursor, world)?),
        Reply::Excised(places) => ReplyText::Excised(places.as_slice()),
        Reply::Restored(cursor) => ReplyText::Short(restored_line(*cursor)),
        Reply::Logged {
            name,
            events,
            cursor,
        } => ReplyText::Long(logged_text(alloc, name.bytes(), events.as_slice(), *cursor)?),
        Reply::Explained(explanation) => ReplyText::Long(explained_text(alloc, explanation)?),
        Reply::Traced(trace) => ReplyText::Long(traced_text(alloc, trace)?),
        Reply::Refused(why) => ReplyText::Short(refused_line(*why)),
    })
}
