//! The parts of commands and events, each by one word.

ghost use Rattle.std.specs.Prelude.{◌≡◌, ◌≤◌, IfOk};
ghost use Rattle.pfl_lines.specs.Words.{words};
ghost use Rattle.pfl_lines.specs.inner.Readings.{Gives};
ghost use Rattle.pfl_lines.specs.Parts.{number_at, end_at, node_at, dir_at, numbered_proto, proto_of, proto_at, name_of, name_at, with_letter};
ghost use Rattle.pfl_lines.specs.Parts.{letters_of, flags_at_word, flags_at, branch_at};

use crate::addresses::end_of;
use crate::fault::LineFault;
use crate::numbers::{cut, number_of};
use crate::words::{is_word, one_word, word_at};
use pfl_base::{Dir, End, GREATEST_NUMBER, NodeId, Proto, StateName, TcpFlags};
use pfl_language::BranchWord;

/// A number up to the greatest.
pub fn number_at(line: &[u8], greatest: u64) -> Result<(u64, &[u8]), LineFault>
    ensures exact { Gives (λ x. (x.0, words x.1.now)) result (number_at greatest (words line.now)) }
    ensures within { IfOk result (λ x. x.0 ≤ greatest) }
{
    one_word!(line, word => number_of(word, greatest))
}

/// An end.
pub fn end_at(line: &[u8]) -> Result<(End, &[u8]), LineFault>
    ensures { Gives (λ x. (x.0, words x.1.now)) result (end_at (words line.now)) }
{
    one_word!(line, word => end_of(word))
}

/// A node.
pub fn node_at(line: &[u8]) -> Result<(NodeId, &[u8]), LineFault>
    ensures { Gives (λ x. (x.0, words x.1.now)) result (node_at (words line.now)) }
{
    one_word!(line, word => NodeId::of_word(word).ok_or(LineFault::Number))
}

/// A direction.
pub fn dir_at(line: &[u8]) -> Result<(Dir, &[u8]), LineFault>
    ensures { Gives (λ x. (x.0, words x.1.now)) result (dir_at (words line.now)) }
{
    one_word!(line, word => Dir::of_word(word).ok_or(LineFault::Number))
}

/// A protocol by its number.
#[tactic(auto, unfolding(crate::specs::Parts::numbered_proto))]
fn numbered_proto(word: &[u8]) -> Result<Proto, LineFault>
    ensures { result ≡ numbered_proto word.now }
{
    let number = number_of(word, 255)?;
    Ok(Proto::of(number as u8))
}

/// A protocol by its word or its number.
fn proto_of(word: &[u8]) -> Result<Proto, LineFault>
    ensures { result ≡ proto_of word.now }
{
    match Proto::of_word(word) {
        Some(proto) => Ok(proto),
        None => numbered_proto(word),
    }
}

/// A protocol.
pub fn proto_at(line: &[u8]) -> Result<(Proto, &[u8]), LineFault>
    ensures { Gives (λ x. (x.0, words x.1.now)) result (proto_at (words line.now)) }
{
    one_word!(line, word => proto_of(word))
}

/// `CREATOR.ID`.
#[tactic(auto, unfolding(crate::specs::Parts::name_of))]
fn name_of(word: &[u8]) -> Result<StateName, LineFault>
    ensures { result ≡ name_of word.now }
{
    let (creator, id) = cut(word, b'.')?;
    let creator = number_of(creator, GREATEST_NUMBER)?;
    let id = number_of(id, u64::MAX)?;
    Ok(StateName {
        creator: creator as u32,
        id,
    })
}

/// The name of a state.
pub fn name_at(line: &[u8]) -> Result<(StateName, &[u8]), LineFault>
    ensures { Gives (λ x. (x.0, words x.1.now)) result (name_at (words line.now)) }
{
    one_word!(line, word => name_of(word))
}

/// The letters of the flags, in the order in which they are written.
const LETTERS: [(u8, TcpFlags); 6] = [
    (b'F', TcpFlags::FIN),
    (b'S', TcpFlags::SYN),
    (b'R', TcpFlags::RST),
    (b'P', TcpFlags::PSH),
    (b'A', TcpFlags::ACK),
    (b'U', TcpFlags::URG),
];

/// The flags with this one, and what follows its letter, where that comes first.
fn with_letter(flags: TcpFlags, bytes: &[u8], letter: (u8, TcpFlags)) -> (TcpFlags, &[u8])
    ensures { (result.0, result.1.now) ≡ with_letter (flags, bytes.now) letter }
{
    match bytes.split_first() {
        Some((first, rest)) if *first == letter.0 => (flags.with(letter.1), rest),
        _ => (flags, bytes),
    }
}

/// Letters of flags in their order, each at most once.
fn letters_of(word: &[u8]) -> Result<TcpFlags, LineFault>
    ensures { result ≡ letters_of word.now }
{
    let (mut flags, mut rest) = (TcpFlags::NONE, word);
    for letter in LETTERS {
        (flags, rest) = with_letter(flags, rest, letter);
    }
    if rest.is_empty() {
        Ok(flags)
    } else {
        Err(LineFault::Number)
    }
}

/// `-` for no flags, or their letters.
fn flags_at_word(word: &[u8]) -> Result<TcpFlags, LineFault>
    ensures { result ≡ flags_at_word word.now }
{
    if is_word(word, "-") {
        Ok(TcpFlags::NONE)
    } else {
        letters_of(word)
    }
}

/// Flags of TCP.
pub fn flags_at(line: &[u8]) -> Result<(TcpFlags, &[u8]), LineFault>
    ensures { Gives (λ x. (x.0, words x.1.now)) result (flags_at (words line.now)) }
{
    one_word!(line, word => flags_at_word(word))
}

/// A branch word.
pub fn branch_at(line: &[u8]) -> Result<(BranchWord, &[u8]), LineFault>
    ensures { Gives (λ x. (x.0, words x.1.now)) result (branch_at (words line.now)) }
{
    one_word!(line, word => BranchWord::of(word).ok_or(LineFault::Number))
}
