//! Directions of packets.

ghost use Rattle.std.specs.Prelude.{◌≡◌, Some};

use std::fmt;

/// Which way a packet goes through a node. It prints as `in` or `out`.
#[derive(Clone, Copy, Debug, PartialEq, Eq)]
pub enum Dir {
    Inbound,
    Outbound,
}

impl Dir {
    ghost use Rattle.std.specs.Prelude.{IfSome};
    ghost use Rattle.pfl_base.specs.Keys.{other_dir};
    ghost use Rattle.pfl_base.specs.Texts.{dir_text};
    ghost use Rattle.pfl_base.specs.Words.{dir_at_word};

    /// Both directions.
    pub const ALL: [Dir; 2] = [Dir::Inbound, Dir::Outbound];

    /// The other direction.
    pub fn other(self) -> Dir
        ensures { result ≡ other_dir self }
    {
        match self {
            Dir::Inbound => Dir::Outbound,
            Dir::Outbound => Dir::Inbound,
        }
    }

    /// The direction's word in lines, which no other direction has.
    pub fn word(self) -> &'static str
        ensures word { result.now ≡ dir_text self }
        ensures read_again { dir_at_word result.now ≡ Some self }
    {
        match self {
            Dir::Inbound => "in",
            Dir::Outbound => "out",
        }
    }

    /// The direction with the word, if there is one.
    pub fn of_word(word: &[u8]) -> Option<Dir>
        ensures found { result ≡ dir_at_word word.now }
        ensures word { IfSome result (λ dir. dir_text dir ≡ word.now) }
    {
        Dir::ALL
            .iter()
            .copied()
            .find(|dir| dir.word().as_bytes() == word)
    }
}

impl fmt::Display for Dir {
    ghost use Rattle.pfl_base.specs.Texts.{dir_text};

    ghost output = { λ dir. Some (dir_text dir) };

    fn fmt<W: fmt::Write>(&self, f: &mut fmt::Formatter<W>) -> fmt::Result {
        f.write_str(self.word())
    }
}
