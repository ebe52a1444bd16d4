//! Words in few bytes.

ghost use Rattle.std.specs.Prelude.{◌≡◌};
ghost use Rattle.pfl_session.specs.inner.Fitting.{short_word};

use pfl_language::BranchWord;
use std::marker::Model;

/// The most bytes of a short word.
const LONGEST: usize = 16;

/// A word of at most 16 bytes, in 17 bytes, where a [`BranchWord`] takes 33.
#[derive(Drop)]
pub(crate) struct ShortWord {
    bytes: [u8; 16],
    len: u8,
}

impl Model for ShortWord {
    ghost use Rattle.std.specs.Prelude.{◌≤◌, List, ℕ, take};

    ghost Value = { List ℕ };

    ghost view = { λ w. take w.len w.bytes };

    ghost invariant = { λ w. w.len ≤ 16 };
}

impl ShortWord {
    ghost use Rattle.std.specs.Prelude.{[]};

    /// The word without bytes.
    pub(crate) fn none() -> ShortWord
        ensures { result ≡ [] }
    {
        ShortWord {
            bytes: [0; 16],
            len: 0,
        }
    }

    /// The same word, unless it has more than 16 bytes.
    pub(crate) fn of(word: &BranchWord) -> Option<ShortWord>
        ensures { result ≡ short_word word.now }
    {
        let word = word.bytes();
        if word.len() > LONGEST {
            return None;
        }
        let mut bytes = [0; 16];
        bytes[..word.len()].copy_from_slice(word);
        Some(ShortWord {
            bytes,
            len: word.len() as u8,
        })
    }

    /// The same word.
    pub(crate) fn word(&self) -> BranchWord
        ensures { result ≡ self.now }
    {
        BranchWord::of(&self.bytes[..usize::from(self.len)]).unwrap()
    }
}
