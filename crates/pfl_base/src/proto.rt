//! IP protocols.

ghost use Rattle.std.specs.Prelude.{◌≡◌, Some};

use std::fmt;
use std::marker::Model;

/// The number of a protocol that is none of ICMP, TCP and UDP.
#[derive(Clone, Copy, Debug, PartialEq, Eq)]
pub struct OtherProto {
    number: u8,
}

impl Model for OtherProto {
    ghost use Rattle.std.specs.Prelude.{ℕ};
    ghost use Rattle.pfl_base.specs.Numbers.{IsOtherNumber};

    ghost Value = { ℕ };

    ghost view = { λ p. p.number };

    ghost invariant = { λ p. IsOtherNumber p.number };

    ghost inverse = { λ n. record { number = n } };
}

impl OtherProto {
    ghost use Rattle.pfl_base.specs.Numbers.{IsOtherNumber};

    /// The number itself.
    pub fn number(self) -> u8
        ensures number { result ≡ self }
        ensures known { IsOtherNumber result }
    {
        self.number
    }
}

/// An IP protocol. Each number is one value: `Other` holds none of the first three. It prints as `tcp`, `udp`, `icmp` or
/// its number.
#[derive(Clone, Copy, Debug, PartialEq, Eq)]
pub enum Proto {
    Tcp,
    Udp,
    Icmp,
    Other(OtherProto),
}

impl Proto {
    ghost use Rattle.std.specs.Prelude.{IfSome, bytes_eq, false};
    ghost use Rattle.std.specs.Option.{option_map, option_map_or};
    ghost use Rattle.pfl_base.specs.Ends.{proto_number, proto_of, IsProto};
    ghost use Rattle.pfl_base.specs.Texts.{proto_word};
    ghost use Rattle.pfl_base.specs.Words.{proto_at_word};

    /// The protocols that have words.
    pub const NAMED: [Proto; 3] = [Proto::Tcp, Proto::Udp, Proto::Icmp];

    /// The protocol of a number.
    pub fn of(number: u8) -> Proto
        ensures { result ≡ proto_of number }
    {
        match number {
            6 => Proto::Tcp,
            17 => Proto::Udp,
            1 => Proto::Icmp,
            _ => Proto::Other(OtherProto { number }),
        }
    }

    /// The protocol's number.
    pub fn number(self) -> u8
        ensures number { result ≡ proto_number self }
        ensures known { IsProto self }
    {
        match self {
            Proto::Tcp => 6,
            Proto::Udp => 17,
            Proto::Icmp => 1,
            Proto::Other(other) => other.number(),
        }
    }

    /// The protocol's word in lines, if it has one, which no other protocol has.
    pub fn word(self) -> Option<&'static str>
        ensures word { option_map (λ word. word.now) result ≡ proto_word self }
        ensures read_again { IfSome result (λ word. proto_at_word word.now ≡ Some self) }
    {
        match self {
            Proto::Tcp => Some("tcp"),
            Proto::Udp => Some("udp"),
            Proto::Icmp => Some("icmp"),
            Proto::Other(_) => None,
        }
    }

    /// The protocol with the word, if there is one.
    #[tactic(auto, using(crate::proofs::Words::found_word))]
    pub fn of_word(word: &[u8]) -> Option<Proto>
        ensures found { result ≡ proto_at_word word.now }
        ensures word { IfSome result (λ proto. proto_word proto ≡ Some word.now) }
    {
        Proto::NAMED
            .iter()
            .copied()
            .find(|proto| proto.has_word(word))
    }

    fn has_word(self, word: &[u8]) -> bool
        ensures { result ≡ option_map_or (λ own. bytes_eq own word.now) (proto_word self) false }
    {
        match self.word() {
            Some(own) => own.as_bytes() == word,
            None => false,
        }
    }
}

impl fmt::Display for Proto {
    ghost use Rattle.pfl_base.specs.Texts.{proto_text};

    ghost output = { λ proto. Some (proto_text proto) };

    fn fmt<W: fmt::Write>(&self, f: &mut fmt::Formatter<W>) -> fmt::Result {
        match self.word() {
            Some(word) => f.write_str(word),
            None => {
                let number = self.number();
                write!(f, "{number}")
            }
        }
    }
}
