//! The words of outcomes.

ghost use Rattle.std.specs.Prelude.{◌≡◌, ◌+◌, ◌≤◌, ◌++◌, length};
ghost use Rattle.std.specs.Fmt.{decimal};
ghost use Rattle.arrayvec.specs.ArrayString.{array_string_len};
ghost use Rattle.pfl_base.specs.Texts.{name_text};
ghost use Rattle.pfl_script.specs.Texts.{reason_text, fate_text, given_text, outcome_text};

use crate::short_line::{ShortLine, push_number};
use pfl_base::StateName;
use pfl_language::{Fate, NodeOutcome, Outcome, Reason, Retried};
use pfl_wire::FrameFault;

/// Appends a word and the number after it.
fn push_counted(line: &mut ShortLine, word: &str, number: u64)
    requires word { length word.now ≤ 10 }
    requires room { array_string_len line.old ≤ 100 }
    ensures bytes { line.new.bytes ≡ line.old.bytes ++ (word.now ++ decimal number) }
    ensures few { array_string_len line.new ≤ array_string_len line.old + 30 }
{
    line.push_str(word);
    push_number(line, number);
}

/// Appends the name of a state.
fn push_name(line: &mut ShortLine, name: StateName)
    requires room { array_string_len line.old ≤ 110 }
    ensures bytes { line.new.bytes ≡ line.old.bytes ++ name_text name }
    ensures few { array_string_len line.new ≤ array_string_len line.old + 41 }
{
    push_number(line, u64::from(name.creator));
    line.push_str(".");
    push_number(line, name.id);
}

/// The word for why a packet is dropped.
fn reason_word(reason: Reason) -> &'static str
    ensures { result.now ≡ reason_text reason }
{
    match reason {
        Reason::Block => "block",
        Reason::Max => "max",
        Reason::Full => "full",
        Reason::Key => "key",
        Reason::Window => "window",
    }
}

/// Appends what became of a packet.
fn push_fate(line: &mut ShortLine, fate: Fate)
    requires room { array_string_len line.old ≤ 100 }
    ensures bytes { line.new.bytes ≡ line.old.bytes ++ fate_text fate }
    ensures few { array_string_len line.new ≤ array_string_len line.old + 60 }
{
    match fate {
        Fate::Pass(None) => line.push_str("pass -"),
        Fate::Pass(Some(name)) => {
            line.push_str("pass ");
            push_name(line, name)
        }
        Fate::Held(name) => {
            line.push_str("held ");
            push_name(line, name)
        }
        Fate::Dropped(reason) => {
            line.push_str("drop ");
            line.push_str(reason_word(reason))
        }
    }
}

/// Appends what an event of a node gave.
fn push_given(line: &mut ShortLine, given: NodeOutcome)
    requires room { array_string_len line.old ≤ 100 }
    ensures bytes { line.new.bytes ≡ line.old.bytes ++ given_text given }
    ensures few { array_string_len line.new ≤ array_string_len line.old + 60 }
{
    match given {
        NodeOutcome::Handled(fate) => push_fate(line, fate),
        NodeOutcome::Clock(ms) => push_counted(line, "clock ", ms),
        NodeOutcome::Purged(states) => push_counted(line, "purged ", states as u64),
        NodeOutcome::Released(packets) => push_counted(line, "released ", packets as u64),
        NodeOutcome::Killed => line.push_str("killed"),
        NodeOutcome::Cleared(states) => push_counted(line, "cleared ", states as u64),
        NodeOutcome::Queued(states) => push_counted(line, "queued ", states as u64),
        NodeOutcome::Tried(Retried::Asked(tries)) => push_counted(line, "asked ", u64::from(tries)),
        NodeOutcome::Tried(Retried::Served) => line.push_str("served"),
    }
}

/// Appends the ticket and the length of a frame that was sent.
fn push_sent(line: &mut ShortLine, ticket: u32, len: usize)
    requires room { array_string_len line.old ≤ 100 }
    ensures bytes { line.new.bytes ≡ line.old.bytes ++ outcome_text (Outcome.Sent ticket len) }
    ensures few { array_string_len line.new ≤ array_string_len line.old + 60 }
{
    push_counted(line, "sent ", u64::from(ticket));
    line.push_str(" ");
    push_number(line, len as u64);
}

/// Appends what came of an event.
pub fn push_outcome(line: &mut ShortLine, outcome: Outcome)
    requires room { array_string_len line.old ≤ 100 }
    ensures bytes { line.new.bytes ≡ line.old.bytes ++ outcome_text outcome }
    ensures few { array_string_len line.new ≤ array_string_len line.old + 60 }
{
    match outcome {
        Outcome::At(given) => push_given(line, given),
        Outcome::Sent { ticket, len } => push_sent(line, ticket, len),
        Outcome::Taken(records) => push_counted(line, "taken ", records as u64),
        Outcome::Broken(why) => {
            let number = FrameFault::from(why).number();
            push_counted(line, "broken ", u64::from(number))
        }
        Outcome::Lost => line.push_str("lost"),
        Outcome::CutTo(len) => push_counted(line, "cut ", len as u64),
        Outcome::Boot(number) => push_counted(line, "boot ", u64::from(number)),
    }
}
