//! What rules do.

ghost use Rattle.std.specs.Prelude.{◌≡◌, Some};

use std::fmt;

/// What a rule does with a packet (pf.conf(5)). It prints as `pass` or `block`.
#[derive(Clone, Copy, Debug, PartialEq, Eq)]
pub enum Action {
    /// The packet goes on, and the rule keeps its state.
    Pass,
    /// The packet is dropped.
    Block,
}

impl Action {
    ghost use Rattle.std.specs.Prelude.{IfSome};
    ghost use Rattle.pfl_rules.specs.Matching.{is_pass};
    ghost use Rattle.pfl_rules.specs.Texts.{action_text};
    ghost use Rattle.pfl_rules.specs.Words.{action_at_word};

    /// All actions.
    pub const ALL: [Action; 2] = [Action::Pass, Action::Block];

    /// The action's word in lines, which no other action has.
    pub fn word(self) -> &'static str
        ensures word { result.now ≡ action_text self }
        ensures read_again { action_at_word result.now ≡ Some self }
    {
        match self {
            Action::Pass => "pass",
            Action::Block => "block",
        }
    }

    /// The action with the word, if there is one.
    pub fn of_word(word: &[u8]) -> Option<Action>
        ensures found { result ≡ action_at_word word.now }
        ensures word { IfSome result (λ action. action_text action ≡ word.now) }
    {
        Action::ALL
            .iter()
            .copied()
            .find(|action| action.word().as_bytes() == word)
    }

    /// Whether the packet goes on.
    pub(crate) fn is_pass(self) -> bool
        ensures { result ≡ is_pass self }
    {
        matches!(self, Action::Pass)
    }
}

impl fmt::Display for Action {
    ghost use Rattle.pfl_rules.specs.Texts.{action_text};

    ghost output = { λ action. Some (action_text action) };

    fn fmt<W: fmt::Write>(&self, f: &mut fmt::Formatter<W>) -> fmt::Result {
        f.write_str(self.word())
    }
}
