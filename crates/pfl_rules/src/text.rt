//! The canonical text of rules (this project's profile, after pf.conf(5)).

ghost use Rattle.std.specs.Prelude.{◌≡◌, IfOk, Some, string_bytes};
ghost use Rattle.pfl_rules.specs.Texts.{canonical_text};

use crate::parts::{Mark, Said, Timeouts};
use crate::rule::Rule;
use std::alloc::{AllocError, Allocator};
use std::fmt;

/// The text of these rules.
pub(crate) fn text_of<A: Allocator>(alloc: A, rules: &[Rule]) -> Result<String<A>, AllocError>
    ensures { IfOk result (λ text. string_bytes text ≡ canonical_text rules.now) }
{
    let text = Canonical(rules);
    format!(in alloc; "{text}")
}

/// Rules that print as their canonical text: each in a line of its own.
#[derive(Clone, Copy)]
pub(crate) struct Canonical<'a>(pub(crate) &'a [Rule]);

impl fmt::Display for Canonical<'_> {
    ghost output = { λ text. Some (canonical_text text.0.now) };

    fn fmt<W: fmt::Write>(&self, f: &mut fmt::Formatter<W>) -> fmt::Result {
        for rule in self.0 {
            writeln!(f, "{rule}")?;
        }
        Ok(())
    }
}

impl fmt::Display for Rule {
    ghost use Rattle.pfl_rules.specs.Texts.{rule_line};

    ghost output = { λ rule. Some (rule_line rule) };

    fn fmt<W: fmt::Write>(&self, f: &mut fmt::Formatter<W>) -> fmt::Result {
        let Rule {
            action,
            direction,
            ..
        } = self;
        let quick = Mark(" quick", self.quick);
        let proto = Said::proto("proto", self.proto);
        let from = Said::net("from", self.from);
        let from_port = Said::ports("fport", self.from_port);
        let to = Said::net("to", self.to);
        let to_port = Said::ports("tport", self.to_port);
        let any_flags = Mark(" flags any", self.any_flags);
        let no_sync = Mark(" no-sync", self.no_sync);
        let max = Said::number("max", self.max);
        let nat = Said::pool("nat", self.nat);
        let rdr = Said::pool("rdr", self.rdr);
        let timeouts = Timeouts(&self.timeouts);
        write!(
            f,
            "{action} {direction}{quick}{proto}{from}{from_port}{to}{to_port}{any_flags}{no_sync}{max}{nat}{rdr}{timeouts}"
        )
    }
}
