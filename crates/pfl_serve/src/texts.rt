//! The lines that only a session has as replies.

ghost use Rattle.std.specs.Prelude.{◌≡◌, ◌+◌, ◌*◌, ◌≤◌, ◌++◌, length, codes, IfOk};
ghost use Rattle.std.specs.Fmt.{decimal};
ghost use Rattle.arrayvec.specs.ArrayString.{array_string_len};
ghost use Rattle.std.specs.List.{flat_map};
ghost use Rattle.pfl_serve.specs.Texts.{behind_text, first_sent, followed_text, following_text, is_behind, numbered, overtaken_text, sent_text, view_text};

use pfl_edits::NoMemory;
use pfl_script::{ShortLine, entry_line, plain_line, push_number};
use pfl_session::{Made, Overtaken, Revision};
use std::alloc::Allocator;

/// The line for a command that finds the journal full.
pub(crate) const FULL: &str = "full\n";

/// Appends a number after a space.
fn push_word(line: &mut ShortLine, word: u64)
    requires room { array_string_len line.old ≤ 171 }
    ensures bytes { line.new.bytes ≡ line.old.bytes ++ numbered word }
    ensures few { array_string_len line.new ≤ array_string_len line.old + 21 }
{
    line.push_str(" ");
    push_number(line, word);
}

/// Appends numbers, each after a space.
fn push_words(line: &mut ShortLine, words: &[u64])
    requires room { array_string_len line.old + 21 * length words.now ≤ 192 }
    ensures bytes { line.new.bytes ≡ line.old.bytes ++ flat_map numbered words.now }
    ensures few { array_string_len line.new ≤ array_string_len line.old + 21 * length words.now }
{
    for word in words {
        push_word(line, *word);
    }
}

/// The line of a revision.
pub(crate) fn view_line(revision: &Revision) -> ShortLine
    ensures { result.bytes ≡ view_text revision.now.words }
{
    let mut line = plain_line("view");
    push_words(&mut line, &revision.words);
    line.push_str("\n");
    line
}

/// The line that reports that no revision was read.
pub(crate) fn overtaken_line(overtaken: Overtaken) -> ShortLine
    ensures { result.bytes ≡ overtaken_text overtaken.at overtaken.now }
{
    let mut line = plain_line("overtaken ");
    push_number(&mut line, overtaken.at);
    line.push_str(" ");
    push_number(&mut line, overtaken.now);
    line.push_str("\n");
    line
}

/// After how many entries a session begins to be shown them, where it asks for those after the first `from` and there are `entries`.
pub(crate) fn first_sent(from: Option<u32>, entries: u64) -> u64
    ensures { result ≡ first_sent from entries }
{
    match from {
        Some(from) => u64::from(from).min(entries),
        None => entries,
    }
}

/// A word and a number, as a line.
fn number_line(word: &str, number: u64) -> ShortLine
    requires short { length word.now ≤ 16 }
    ensures { result.bytes ≡ word.now ++ decimal number ++ codes "\n" }
{
    let mut line = plain_line(word);
    push_number(&mut line, number);
    line.push_str("\n");
    line
}

/// The line that a session follows the journal after its first `number` entries.
pub(crate) fn following_line(number: u64) -> ShortLine
    ensures { result.bytes ≡ following_text number }
{
    number_line("following ", number)
}

/// The line that it follows no longer, and has been shown the entries up to this number.
pub(crate) fn followed_line(number: u64) -> ShortLine
    ensures { result.bytes ≡ followed_text number }
{
    number_line("followed ", number)
}

/// After each this many entries a session is shown how many there are, where as many are still to come.
const STRIDE: u64 = 100;

/// Whether a session that was shown entry `at` is shown that it is behind.
fn is_behind(at: u64, entries: u64) -> bool
    ensures { result ≡ is_behind at entries }
{
    at % STRIDE == 0 && entries.saturating_sub(at) >= STRIDE
}

/// The line that a session is behind.
fn behind_line(at: u64, entries: u64) -> ShortLine
    ensures { result.bytes ≡ codes "behind " ++ decimal at ++ codes " " ++ decimal entries ++ codes "\n" }
{
    let mut line = plain_line("behind ");
    push_number(&mut line, at);
    line.push_str(" ");
    push_number(&mut line, entries);
    line.push_str("\n");
    line
}

/// The lines of an entry, where the journal has `entries`.
pub(crate) fn sent_text<B: Allocator>(
    alloc: B,
    made: &Made,
    entries: u64,
) -> Result<Vec<u8, B>, NoMemory>
    ensures { IfOk result (λ text. text.items ≡ sent_text made.now.number entries made.now.session made.now.command) }
{
    let Made {
        number,
        session,
        command,
    } = made;
    let mut text = entry_line(alloc, *number, *session, command)?;
    if is_behind(*number, entries) {
        text.extend_from_slice(behind_line(*number, entries).as_str().as_bytes())?;
    }
    Ok(text)
}
