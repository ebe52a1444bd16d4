//! Rule sets.

ghost use Rattle.std.specs.Prelude.{◌≡◌, ◌&&◌, ◌==◌, false, is_some, not, Some, IfOk, IfErr, slice_get, unwrap_or};
ghost use Rattle.std.specs.List.{list_any};
ghost use Rattle.std.specs.Option.{option_map_or};
ghost use Rattle.pfl_base.specs.Classes.{default_timeout};
ghost use Rattle.pfl_rules.specs.Rules.{is_in, is_out, rule_fault, said_timeout};

use crate::fault::RuleFault;
use crate::rule::{Rule, said_timeout};
use crate::text::{Canonical, text_of};
use crate::verdict::Verdict;
use md5::{Digest, Md5};
use pfl_base::{Class, Dir, Packet};
use pfl_edits::NoMemory;
use std::alloc::Allocator;
use std::fmt;
use std::marker::Model;

/// The greatest number of rules in a set.
pub const MAX_RULES: usize = 256;

/// Rules in the order in which packets are tested against them, the first being number 0, with the timeouts that hold where a rule
/// says none, and the checksum of the rules' canonical text, as which the set prints.
#[derive(Drop)]
pub struct RuleSet<A: Allocator> {
    rules: Vec<Rule, A>,
    timeouts: [Option<u32>; 14],
    print: [u8; 16],
}

impl<A: Allocator> Model for RuleSet<A> {
    ghost use Rattle.pfl_rules.specs.Rules.{Rules, AreRules};

    ghost Value = { Rules };

    ghost view = { λ s. record { list = s.rules.items; timeouts = s.timeouts; print = s.print } };

    ghost invariant = { λ s. AreRules (record { list = s.rules.items; timeouts = s.timeouts; print = s.print }) };
}

impl<A: Allocator> RuleSet<A> {
    ghost use Rattle.pfl_rules.specs.Rules.{rule_fault, rule_set, timed, timeout, verdict as verdict_of, AreRules};

    /// The rule set of these rules, or the first fault of any of them. It sets no timeouts. `alloc` lends memory for their text.
    pub fn new<B: Allocator>(alloc: B, rules: Vec<Rule, A>) -> Result<RuleSet<A>, RuleFault>
        ensures faultless { IfOk result (λ _. rule_fault rules.items ≡ None) }
        ensures set { IfOk result (λ set. set ≡ rule_set rules.items) }
        ensures fault { IfErr result (λ fault. fault ≡ unwrap_or (rule_fault rules.items) RuleFault.NoMemory) }
    {
        match fault_of(&rules) {
            Some(fault) => Err(fault),
            None => {
                let text = text_of(alloc, &rules)?;
                let print = Md5::digest(text.as_bytes());
                Ok(RuleSet {
                    rules,
                    timeouts: [None; 14],
                    print,
                })
            }
        }
    }

    /// The rule set with these timeouts, in seconds and in the order of the classes' numbers (pf.conf(5), `set timeout`); where there
    /// is none, the class has its default.
    pub fn with_timeouts(self, timeouts: [Option<u32>; 14]) -> RuleSet<A>
        ensures { result ≡ timed timeouts self }
    {
        RuleSet {
            rules: self.rules,
            timeouts,
            print: self.print,
        }
    }

    /// What the rules say of a packet on its way: the last rule that matches decides, or the first `quick` one.
    pub fn verdict(&self, packet: &Packet, dir: Dir) -> Verdict
        ensures { result ≡ verdict_of self.now.list packet.now dir }
    {
        let mut verdict = Verdict {
            rule: None,
            pass: true,
        };
        for (number, rule) in self.rules.iter().enumerate() {
            if rule.matches(packet, dir) {
                verdict = Verdict {
                    rule: Some(number as u16),
                    pass: rule.action.is_pass(),
                };
                if rule.quick {
                    return verdict;
                }
            }
        }
        verdict
    }

    /// The timeout of a state of the class that the rule with the number made, in seconds; `scaled` may shorten it.
    pub fn timeout(&self, rule: Option<u16>, class: Class) -> u32
        ensures { result ≡ timeout self.now rule class }
    {
        rule.and_then(|number| self.rules.get(usize::from(number)))
            .and_then(|rule| rule.own_timeout(class))
            .unwrap_or(self.set_timeout(class))
    }

    /// The timeout of a class where a rule says none.
    fn set_timeout(&self, class: Class) -> u32
        ensures { result ≡ unwrap_or (said_timeout self.now.timeouts class) (default_timeout class) }
    {
        said_timeout(&self.timeouts, class).unwrap_or(class.default_seconds())
    }

    /// The rule with the number, if there is one.
    pub fn rule(&self, number: u16) -> Option<Rule>
        ensures { result ≡ slice_get self.now.list number }
    {
        self.rules.get(usize::from(number)).copied()
    }

    /// The rules in their order.
    pub fn rules(&self) -> &[Rule]
        ensures { result.now ≡ self.now.list }
    {
        self.rules.as_slice()
    }

    /// The MD5 of the rules' canonical text (RFC 1321). By it a node takes the peer's rules for its own.
    pub fn print(&self) -> [u8; 16]
        ensures { result ≡ self.now.print }
    {
        self.print
    }

    /// States for proofs what each rule set keeps. It does nothing.
    pub fn known(&self)
        ensures { AreRules self.now }
    {
        let _print = &self.print;
    }
}

impl<A: Allocator + Copy> RuleSet<A> {
    /// The same rules, in memory of their own.
    pub fn copy(&self) -> Result<RuleSet<A>, NoMemory>
        ensures same { IfOk result (λ copied. copied ≡ self.now) }
    {
        let mut rules = Vec::with_capacity(*self.rules.allocator(), self.rules.len())?;
        rules.extend_from_slice(&self.rules)?;
        Ok(RuleSet {
            rules,
            timeouts: self.timeouts,
            print: self.print,
        })
    }
}

impl<A: Allocator> fmt::Display for RuleSet<A> {
    ghost use Rattle.pfl_rules.specs.Texts.{canonical_text};

    ghost output = { λ set. Some (canonical_text set.list) };

    fn fmt<W: fmt::Write>(&self, f: &mut fmt::Formatter<W>) -> fmt::Result {
        let text = Canonical(self.rules.as_slice());
        write!(f, "{text}")
    }
}

/// Why the rules are no rule set: the first fault that holds of any of them.
fn fault_of(rules: &[Rule]) -> Option<RuleFault>
    ensures { result ≡ rule_fault rules.now }
{
    if rules.len() > MAX_RULES {
        Some(RuleFault::TooMany)
    } else if any_nats_not_out(rules) {
        Some(RuleFault::NatNotOut)
    } else if any_has_zero_max(rules) {
        Some(RuleFault::ZeroMax)
    } else if any_redirects_not_in(rules) {
        Some(RuleFault::RdrNotIn)
    } else {
        None
    }
}

fn any_nats_not_out(rules: &[Rule]) -> bool
    ensures { result ≡ list_any (λ r. is_some r.nat && not (is_out r.direction)) rules.now }
{
    rules.iter().any(|rule| rule.nats_not_out())
}

fn any_redirects_not_in(rules: &[Rule]) -> bool
    ensures { result ≡ list_any (λ r. is_some r.rdr && not (is_in r.direction)) rules.now }
{
    rules.iter().any(|rule| rule.redirects_not_in())
}

fn any_has_zero_max(rules: &[Rule]) -> bool
    ensures { result ≡ list_any (λ r. option_map_or (λ n. n == 0) r.max false) rules.now }
{
    rules.iter().any(|rule| rule.has_zero_max())
}
