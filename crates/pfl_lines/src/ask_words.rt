//! The words of what is asked of a branch.

ghost use Rattle.std.specs.Prelude.{◌≡◌};
ghost use Rattle.pfl_lines.specs.AskWords as meant;

use crate::words::is_word;
use pfl_language::Ask;

/// What is asked by a line that says nothing but the word and the branch.
const BARE_ASKS: [Ask; 3] = [Ask::Show, Ask::Restore, Ask::Log];

/// The word of what is asked.
pub fn ask_word(ask: &Ask) -> &'static str
    ensures { result.now ≡ meant.ask_word ask.now }
{
    match ask {
        Ask::Step { .. } => "step",
        Ask::Back { .. } => "back",
        Ask::Forward { .. } => "forward",
        Ask::Show => "show",
        Ask::Past { .. } => "past",
        Ask::Why { .. } | Ask::WhyStep { .. } => "why",
        Ask::Frame { .. } => "frame",
        Ask::Excise { .. } => "excise",
        Ask::Restore => "restore",
        Ask::Log => "log",
    }
}

/// What is asked by the word, if its line says nothing but that and the branch.
pub(crate) fn bare_ask(word: &[u8]) -> Option<Ask>
    ensures { result ≡ meant.bare_ask word.now }
{
    BARE_ASKS
        .iter()
        .copied()
        .find(|ask| ask_word(ask).as_bytes() == word)
}

/// What is asked by the word, if its line says a number after that and the branch.
pub(crate) fn numbered_ask(word: &[u8], n: u32) -> Option<Ask>
    ensures { result ≡ meant.numbered_ask word.now n }
{
    let asks = [
        Ask::Back { n },
        Ask::Forward { n },
        Ask::Past { place: n },
        Ask::Why { place: n },
        Ask::Frame { ticket: n },
        Ask::Excise { place: n },
    ];
    asks.iter()
        .copied()
        .find(|ask| ask_word(ask).as_bytes() == word)
}

/// Whether the word asks something of a branch. The commonest word is tried first.
pub(crate) fn is_ask_word(word: &[u8]) -> bool
    ensures { result ≡ meant.is_ask_word word.now }
{
    is_word(word, "step") || bare_ask(word).is_some() || numbered_ask(word, 0).is_some()
}
