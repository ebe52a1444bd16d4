//! The parts of a rule's text that are said only if they are set, each word after a space.

ghost use Rattle.std.specs.Prelude.{◌≡◌, Some, if◌then◌else◌, []};

use crate::net::Net;
use crate::pool::Pool;
use crate::ports::Ports;
use pfl_base::{Class, Proto};
use std::fmt;

/// A text that prints only if it is set.
#[derive(Clone, Copy)]
pub(crate) struct Mark(pub(crate) &'static str, pub(crate) bool);

impl fmt::Display for Mark {
    ghost output = { λ mark. Some (if mark.1 then mark.0.now else []) };

    fn fmt<W: fmt::Write>(&self, f: &mut fmt::Formatter<W>) -> fmt::Result {
        let Mark(text, is_set) = *self;
        f.write_str(if is_set { text } else { "" })
    }
}

/// What follows the word of an option.
#[derive(Clone, Copy)]
enum Value {
    Proto(Proto),
    Net(Net),
    Ports(Ports),
    Number(u32),
    Pool(Pool),
}

impl fmt::Display for Value {
    ghost use Rattle.pfl_rules.specs.Parts.{value_text};

    ghost output = { λ value. Some (value_text value) };

    fn fmt<W: fmt::Write>(&self, f: &mut fmt::Formatter<W>) -> fmt::Result {
        match self {
            Value::Proto(proto) => write!(f, "{proto}"),
            Value::Net(net) => write!(f, "{net}"),
            Value::Ports(ports) => write!(f, "{ports}"),
            Value::Number(number) => write!(f, "{number}"),
            Value::Pool(pool) => write!(f, "{pool}"),
        }
    }
}

/// The word of an option and its value, each after a space; nothing if there is none.
#[derive(Clone, Copy)]
pub(crate) struct Said {
    word: &'static str,
    value: Option<Value>,
}

impl Said {
    ghost use Rattle.std.specs.Fmt.{decimal};
    ghost use Rattle.pfl_base.specs.Texts.{proto_text};
    ghost use Rattle.pfl_rules.specs.Parts.{said_text};
    ghost use Rattle.pfl_rules.specs.inner.Parts.{spaced};
    ghost use Rattle.pfl_rules.specs.Texts.{net_text, option_words, pool_text, ports_text};

    pub(crate) fn proto(word: &'static str, proto: Option<Proto>) -> Said
        ensures { said_text result.word.now result.value ≡ spaced (option_words word.now proto_text proto) }
    {
        let value = match proto {
            Some(proto) => Some(Value::Proto(proto)),
            None => None,
        };
        Said { word, value }
    }

    pub(crate) fn net(word: &'static str, net: Option<Net>) -> Said
        ensures { said_text result.word.now result.value ≡ spaced (option_words word.now net_text net) }
    {
        let value = match net {
            Some(net) => Some(Value::Net(net)),
            None => None,
        };
        Said { word, value }
    }

    pub(crate) fn ports(word: &'static str, ports: Option<Ports>) -> Said
        ensures { said_text result.word.now result.value ≡ spaced (option_words word.now ports_text ports) }
    {
        let value = match ports {
            Some(ports) => Some(Value::Ports(ports)),
            None => None,
        };
        Said { word, value }
    }

    pub(crate) fn number(word: &'static str, number: Option<u32>) -> Said
        ensures { said_text result.word.now result.value ≡ spaced (option_words word.now decimal number) }
    {
        Said {
            word,
            value: number.map(Value::Number),
        }
    }

    pub(crate) fn pool(word: &'static str, pool: Option<Pool>) -> Said
        ensures { said_text result.word.now result.value ≡ spaced (option_words word.now pool_text pool) }
    {
        let value = match pool {
            Some(pool) => Some(Value::Pool(pool)),
            None => None,
        };
        Said { word, value }
    }
}

impl fmt::Display for Said {
    ghost use Rattle.pfl_rules.specs.Parts.{said_text};

    ghost output = { λ said. Some (said_text said.word.now said.value) };

    fn fmt<W: fmt::Write>(&self, f: &mut fmt::Formatter<W>) -> fmt::Result {
        let Said { word, value } = self;
        match value {
            Some(value) => write!(f, " {word} {value}"),
            None => Ok(()),
        }
    }
}

/// Seconds for a class, if they are set.
#[derive(Clone, Copy)]
struct Timeout(Class, Option<u32>);

impl fmt::Display for Timeout {
    ghost use Rattle.pfl_rules.specs.Parts.{timeout_text};

    ghost output = { λ timeout. Some (timeout_text timeout.0 timeout.1) };

    fn fmt<W: fmt::Write>(&self, f: &mut fmt::Formatter<W>) -> fmt::Result {
        let Timeout(class, seconds) = self;
        match seconds {
            Some(seconds) => write!(f, " timeout {class} {seconds}"),
            None => Ok(()),
        }
    }
}

/// The timeouts of the classes, in the order of their numbers.
#[derive(Clone, Copy)]
pub(crate) struct Timeouts<'a>(pub(crate) &'a [Option<u32>]);

impl fmt::Display for Timeouts<'_> {
    ghost use Rattle.pfl_rules.specs.Parts.{timeouts_text};

    ghost output = { λ timeouts. Some (timeouts_text timeouts.0.now) };

    fn fmt<W: fmt::Write>(&self, f: &mut fmt::Formatter<W>) -> fmt::Result {
        for (number, seconds) in self.0.iter().enumerate() {
            if let Some(class) = Class::ALL.get(number) {
                let timeout = Timeout(*class, *seconds);
                write!(f, "{timeout}")?;
            }
        }
        Ok(())
    }
}
