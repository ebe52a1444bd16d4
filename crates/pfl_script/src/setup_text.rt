//! Texts of setups.

ghost use Rattle.std.specs.Prelude.{◌≡◌, [], ◌∷◌, ◌++◌, IfSome};
ghost use Rattle.pfl_script.specs.inner.Setups.{Grows};

use std::alloc::Allocator;

/// What is kept of the lines of a setup. Clauses say by `IsKeptText` what it is.
#[derive(Drop)]
pub enum SetupText<A: Allocator> {
    /// The lines up to `open`, comments and blank lines among them, each with a line feed and cut after 512 bytes.
    Kept(Vec<u8, A>),
    /// None of them: those before `open` have more than 16 MiB, with a line feed each and cut after 512 bytes.
    TooLong,
    /// None of them: there was no memory for their text.
    NoMemory,
}

/// The length of a setup's text, in bytes, after which no further line is kept: some 30,000 lines of 512 bytes.
const LONGEST_TEXT: usize = 1 << 24;

/// The text with a line more and a line feed, where there is memory for it.
fn lengthened<A: Allocator>(text: Vec<u8, A>, line: &[u8]) -> Option<Vec<u8, A>>
    ensures { IfSome result (λ longer. longer.items ≡ text.items ++ (line.now ++ 10 ∷ [])) }
{
    let mut text = text;
    text.extend_from_slice(line).ok()?;
    text.push(b'\n').ok()?;
    Some(text)
}

impl<A: Allocator> SetupText<A> {
    /// The text with a line more and a line feed, unless it is too long already.
    pub(crate) fn with_line(self, line: &[u8]) -> SetupText<A>
        ensures { Grows self result (line.now ++ 10 ∷ []) }
    {
        match self {
            SetupText::Kept(text) => {
                if text.len() > LONGEST_TEXT {
                    return SetupText::TooLong;
                }
                match lengthened(text, line) {
                    Some(longer) => SetupText::Kept(longer),
                    None => SetupText::NoMemory,
                }
            }
            SetupText::TooLong => SetupText::TooLong,
            SetupText::NoMemory => SetupText::NoMemory,
        }
    }
}
