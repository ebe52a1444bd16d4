//! Directions of rules.

ghost use Rattle.std.specs.Prelude.{◌≡◌, Some};

use pfl_base::Dir;
use std::fmt;

/// Which way a packet goes that a rule matches (pf.conf(5)). It prints as `in`, `out` or `any`.
#[derive(Clone, Copy, Debug, PartialEq, Eq)]
pub enum RuleDir {
    In,
    Out,
    /// Either way.
    Any,
}

impl RuleDir {
    ghost use Rattle.std.specs.Prelude.{IfSome};
    ghost use Rattle.pfl_rules.specs.Matching.{goes};
    ghost use Rattle.pfl_rules.specs.Rules.{is_in, is_out};
    ghost use Rattle.pfl_rules.specs.Texts.{direction_text};
    ghost use Rattle.pfl_rules.specs.Words.{direction_at_word};

    /// All directions of rules.
    pub const ALL: [RuleDir; 3] = [RuleDir::In, RuleDir::Out, RuleDir::Any];

    /// The direction's word in lines, which no other direction has.
    pub fn word(self) -> &'static str
        ensures word { result.now ≡ direction_text self }
        ensures read_again { direction_at_word result.now ≡ Some self }
    {
        match self {
            RuleDir::In => "in",
            RuleDir::Out => "out",
            RuleDir::Any => "any",
        }
    }

    /// The direction with the word, if there is one.
    pub fn of_word(word: &[u8]) -> Option<RuleDir>
        ensures found { result ≡ direction_at_word word.now }
        ensures word { IfSome result (λ direction. direction_text direction ≡ word.now) }
    {
        RuleDir::ALL
            .iter()
            .copied()
            .find(|direction| direction.word().as_bytes() == word)
    }

    /// Whether the rule is for packets that go this way.
    pub(crate) fn goes(self, dir: Dir) -> bool
        ensures { result ≡ goes self dir }
    {
        matches!(
            (self, dir),
            (RuleDir::In, Dir::Inbound) | (RuleDir::Out, Dir::Outbound) | (RuleDir::Any, _)
        )
    }

    /// Whether the rule is for the way out alone.
    pub(crate) fn is_out(self) -> bool
        ensures { result ≡ is_out self }
    {
        matches!(self, RuleDir::Out)
    }

    /// Whether the rule is for the way in alone.
    pub(crate) fn is_in(self) -> bool
        ensures { result ≡ is_in self }
    {
        matches!(self, RuleDir::In)
    }
}

impl fmt::Display for RuleDir {
    ghost use Rattle.pfl_rules.specs.Texts.{direction_text};

    ghost output = { λ direction. Some (direction_text direction) };

    fn fmt<W: fmt::Write>(&self, f: &mut fmt::Formatter<W>) -> fmt::Result {
        f.write_str(self.word())
    }
}
