//! The words of a line.

ghost use Rattle.std.specs.Prelude.{◌≡◌, ◌≤◌, ◌⊎◌, true, [], length, take, drop, bytes_eq};
ghost use Rattle.pfl_lines.specs.Words.{words, is_blank, begins_word};
ghost use Rattle.pfl_lines.specs.inner.Words.{front, behind};
ghost use Rattle.pfl_lines.specs.inner.Readings.{Gives};
ghost use Rattle.pfl_lines.specs.Readings.{word_at};

use crate::fault::LineFault;

/// What a call has read, or the fault that it found, which is returned. `?` does the same for most values, but not for
/// those that hold a value with an invariant beside a part of the line.
macro_rules! try_read {
    ($call:expr) => {
        match $call {
            Ok(read) => read,
            Err(fault) => return Err(fault),
        }
    };
}

pub(crate) use try_read;

/// What the first word of a line says, and what follows it.
macro_rules! one_word {
    ($line:expr, $word:ident => $said:expr) => {{
        let ($word, rest) = word_at($line)?;
        let said = $said?;
        Ok((said, rest))
    }};
}

pub(crate) use one_word;

/// Whether the word is this one.
pub fn is_word(word: &[u8], name: &str) -> bool
    ensures { result ≡ bytes_eq word.now name.now }
{
    word == name.as_bytes()
}

/// Whether the byte is a space or a tab.
fn is_blank(byte: u8) -> bool
    ensures { result ≡ is_blank byte }
{
    byte == b' ' || byte == b'\t'
}

/// The line without the blanks that lead.
fn skip_blanks(line: &[u8]) -> &[u8]
    ensures words { words result.now ≡ words line.now }
    ensures begins { (begins_word result.now ≡ true) ⊎ (result.now ≡ []) }
{
    let mut rest = line;
    while let Some((first, others)) = rest.split_first() {
        if !is_blank(*first) {
            return rest;
        }
        rest = others;
    }
    rest
}

/// How long the word is that the line begins with.
fn word_len(line: &[u8]) -> usize
    ensures within { result ≤ length line.now }
    ensures front { front line.now ≡ take result line.now }
    ensures behind { behind line.now ≡ drop result line.now }
{
    for (i, byte) in line.iter().enumerate() {
        if is_blank(*byte) {
            return i;
        }
    }
    line.len()
}

/// The first word, and what follows it.
pub fn word_at(line: &[u8]) -> Result<(&[u8], &[u8]), LineFault>
    ensures { Gives (λ x. (x.0.now, words x.1.now)) result (word_at (words line.now)) }
{
    let line = skip_blanks(line);
    if line.is_empty() {
        return Err(LineFault::Missing);
    }
    let end = word_len(line);
    Ok((&line[..end], &line[end..]))
}
