//! The words of refused commands.

ghost use Rattle.std.specs.Prelude.{◌≡◌, ◌+◌, ◌≤◌, ◌++◌};
ghost use Rattle.arrayvec.specs.ArrayString.{array_string_len};
ghost use Rattle.pfl_script.specs.Texts.{refused_text};

use crate::short_line::{ShortLine, push_number};
use pfl_base::Refusal;
use pfl_language::Refused;

/// Appends why an event is refused: the number and the word of a refused event, and those of its refusal.
fn push_refusal(line: &mut ShortLine, refusal: Refusal)
    requires room { array_string_len line.old ≤ 100 }
    ensures bytes { line.new.bytes ≡ line.old.bytes ++ refused_text (Refused.Event refusal) }
    ensures few { array_string_len line.new ≤ array_string_len line.old + 60 }
{
    line.push_str("8 Event ");
    push_number(line, u64::from(refusal.number()));
    line.push_str(" ");
    line.push_str(refusal.word());
}

/// Appends why a command is refused: its number and its word, and for an event the refusal after them.
pub fn push_refused(line: &mut ShortLine, why: Refused)
    requires room { array_string_len line.old ≤ 100 }
    ensures bytes { line.new.bytes ≡ line.old.bytes ++ refused_text why }
    ensures few { array_string_len line.new ≤ array_string_len line.old + 60 }
{
    match why {
        Refused::NoBranch => line.push_str("1 NoBranch"),
        Refused::NameTaken => line.push_str("2 NameTaken"),
        Refused::BadName => line.push_str("3 BadName"),
        Refused::TooFarBack => line.push_str("4 TooFarBack"),
        Refused::NothingForward => line.push_str("5 NothingForward"),
        Refused::LastBranch => line.push_str("6 LastBranch"),
        Refused::BranchesFull => line.push_str("7 BranchesFull"),
        Refused::Event(refusal) => push_refusal(line, refusal),
        Refused::NoEvent => line.push_str("9 NoEvent"),
        Refused::NothingExcised => line.push_str("10 NothingExcised"),
        Refused::NoFrame => line.push_str("11 NoFrame"),
    }
}
