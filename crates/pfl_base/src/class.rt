//! Classes of states.

ghost use Rattle.std.specs.Prelude.{◌≡◌, Some};

use std::fmt;

/// The class of a state, which chooses its timeout (pf.conf(5)). It prints as its word, such as `tcp.first`.
#[derive(Clone, Copy, Debug, PartialEq, Eq)]
pub enum Class {
    TcpFirst,
    TcpOpening,
    TcpEstablished,
    TcpClosing,
    TcpFinWait,
    TcpClosed,
    UdpFirst,
    UdpSingle,
    UdpMultiple,
    IcmpFirst,
    IcmpError,
    OtherFirst,
    OtherSingle,
    OtherMultiple,
}

impl Class {
    ghost use Rattle.std.specs.Prelude.{IfSome};
    ghost use Rattle.pfl_base.specs.Classes.{class_number, class_of, default_timeout};
    ghost use Rattle.pfl_base.specs.Texts.{class_text};
    ghost use Rattle.pfl_base.specs.Words.{class_at_word};

    /// The classes in the order of their numbers.
    pub const ALL: [Class; 14] = [
        Class::TcpFirst,
        Class::TcpOpening,
        Class::TcpEstablished,
        Class::TcpClosing,
        Class::TcpFinWait,
        Class::TcpClosed,
        Class::UdpFirst,
        Class::UdpSingle,
        Class::UdpMultiple,
        Class::IcmpFirst,
        Class::IcmpError,
        Class::OtherFirst,
        Class::OtherSingle,
        Class::OtherMultiple,
    ];

    /// The class's number in a frame, from 0 to 13.
    pub fn number(self) -> u8
        ensures { result ≡ class_number self }
    {
        self as u8
    }

    /// The class with the number, if there is one.
    pub fn of_number(number: u8) -> Option<Class>
        ensures { result ≡ class_of number }
    {
        Class::ALL.get(usize::from(number)).copied()
    }

    /// The class's word in lines, which no other class has.
    pub fn word(self) -> &'static str
        ensures word { result.now ≡ class_text self }
        ensures read_again { class_at_word result.now ≡ Some self }
    {
        match self {
            Class::TcpFirst => "tcp.first",
            Class::TcpOpening => "tcp.opening",
            Class::TcpEstablished => "tcp.established",
            Class::TcpClosing => "tcp.closing",
            Class::TcpFinWait => "tcp.finwait",
            Class::TcpClosed => "tcp.closed",
            Class::UdpFirst => "udp.first",
            Class::UdpSingle => "udp.single",
            Class::UdpMultiple => "udp.multiple",
            Class::IcmpFirst => "icmp.first",
            Class::IcmpError => "icmp.error",
            Class::OtherFirst => "other.first",
            Class::OtherSingle => "other.single",
            Class::OtherMultiple => "other.multiple",
        }
    }

    /// The class with the word, if there is one.
    pub fn of_word(word: &[u8]) -> Option<Class>
        ensures found { result ≡ class_at_word word.now }
        ensures word { IfSome result (λ class. class_text class ≡ word.now) }
    {
        Class::ALL
            .iter()
            .copied()
            .find(|class| class.word().as_bytes() == word)
    }

    /// Seconds after which a state of the class expires, where no rule says otherwise.
    pub fn default_seconds(self) -> u32
        ensures { result ≡ default_timeout self }
    {
        match self {
            Class::TcpFirst => 120,
            Class::TcpOpening | Class::UdpSingle | Class::OtherSingle => 30,
            Class::TcpEstablished => 86400,
            Class::TcpClosing => 900,
            Class::TcpFinWait => 45,
            Class::TcpClosed => 90,
            Class::UdpFirst | Class::UdpMultiple => 60,
            Class::IcmpFirst => 20,
            Class::IcmpError => 10,
            Class::OtherFirst | Class::OtherMultiple => 60,
        }
    }
}

impl fmt::Display for Class {
    ghost use Rattle.pfl_base.specs.Texts.{class_text};

    ghost output = { λ class. Some (class_text class) };

    fn fmt<W: fmt::Write>(&self, f: &mut fmt::Formatter<W>) -> fmt::Result {
        f.write_str(self.word())
    }
}
