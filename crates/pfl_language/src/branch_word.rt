//! Words for branches.

ghost use Rattle.std.specs.Prelude.{◌≡◌};
ghost use Rattle.std.specs.Cmp.{partial_equiv_from_equiv};
ghost use Rattle.std.specs.Hash as fed;
ghost use Rattle.std.specs.List.{list_all};
ghost use Rattle.std.proofs.Common.{ap};
ghost use Rattle.std.proofs.lemmas.Cmp.{nat_list_eq_equiv};
ghost use Rattle.std.proofs.lemmas.Slice.Eq.{bytes_eq-Decides};
ghost use Rattle.pfl_language.specs.BranchWords.{main_name, same_name, is_letter, is_name_byte, is_branch_name, branch_word};

use std::hash::{Hash, Hasher};
use std::marker::Model;

/// The most bytes of a word.
const LONGEST: usize = 32;

/// The name of the branch that a timeline opens with.
const MAIN: &[u8] = b"main";

/// The most bytes of a name after its first letter.
const MOST_BEHIND: usize = 15;

/// Whether the byte is a letter from a to z.
fn is_letter(byte: u8) -> bool
    ensures { result ≡ is_letter byte }
{
    byte.is_ascii_lowercase()
}

/// Whether the byte is such a letter, a digit or a dash.
fn is_name_byte(byte: u8) -> bool
    ensures { result ≡ is_name_byte byte }
{
    is_letter(byte) || byte.is_ascii_digit() || byte == b'-'
}

/// Whether each byte is a letter, a digit or a dash.
fn are_name_bytes(bytes: &[u8]) -> bool
    ensures { result ≡ list_all is_name_byte bytes.now }
{
    bytes.iter().all(|byte| is_name_byte(*byte))
}

/// A word of at most 32 bytes; the bytes after it are 0.
#[derive(Clone, Copy, Debug)]
pub struct BranchWord {
    bytes: [u8; 32],
    len: u8,
}

impl Model for BranchWord {
    ghost use Rattle.std.specs.Prelude.{List, ℕ, length, take};

    ghost Value = { List ℕ };

    ghost use Rattle.pfl_language.specs.BranchWords.{IsWord, filled};
    ghost use Rattle.pfl_language.specs.inner.BranchWords.{filled-word, length-word};

    ghost view = { λ w. take w.len w.bytes };

    ghost invariant = { λ w. IsWord w.bytes w.len };

    ghost inverse = { λ w. record { bytes = filled w; len = length w } };

    ghost inverse_ok = { λ w is i. record { bytes = filled-word w.bytes w.len is i; len = length-word w.bytes w.len is i } };
}

impl BranchWord {
    /// The word of these bytes, unless there are more than 32.
    pub fn of(bytes: &[u8]) -> Option<BranchWord>
        ensures { result ≡ branch_word bytes.now }
    {
        if bytes.len() > LONGEST {
            return None;
        }
        let mut word = [0; 32];
        word[..bytes.len()].copy_from_slice(bytes);
        Some(BranchWord {
            bytes: word,
            len: bytes.len() as u8,
        })
    }

    /// The name of the branch that a timeline opens with.
    pub fn main() -> BranchWord
        ensures { result ≡ main_name }
    {
        BranchWord::of(MAIN).unwrap()
    }

    /// Whether a branch may have it as its name: a letter, and at most 15 letters, digits and dashes.
    pub fn is_name(&self) -> bool
        ensures { result ≡ is_branch_name self.now }
    {
        match self.bytes().split_first() {
            Some((first, behind)) => {
                is_letter(*first) && are_name_bytes(behind) && behind.len() <= MOST_BEHIND
            }
            None => false,
        }
    }

    /// The bytes of the word.
    pub fn bytes(&self) -> &[u8]
        ensures { result.now ≡ self.now }
    {
        &self.bytes[..usize::from(self.len)]
    }
}

// Not derived: to a reader a word is its bytes, and not the zeros after them.
impl PartialEq for BranchWord {
    ghost eq = { same_name };

    ghost laws = { partial_equiv_from_equiv nat_list_eq_equiv };

    fn eq(&self, other: &BranchWord) -> bool {
        self.bytes() == other.bytes()
    }
}

impl Eq for BranchWord {
    ghost laws = { nat_list_eq_equiv };
}

impl Hash for BranchWord {
    ghost hash_input = { fed.slice fed.u8 };

    ghost respects_eq = { λ v w same. ap (fed.slice fed.u8) ((bytes_eq-Decides v w).0 same) };

    fn hash<H: Hasher>(&self, state: &mut H) {
        self.bytes().hash(state);
    }
}
