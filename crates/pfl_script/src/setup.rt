//! Setups of pairs.

ghost use Rattle.std.specs.Prelude.{◌≡◌, ◌+◌, ◌≤◌, ◌^◌, [], true, IfOk, IfErr, OnOk, OnErr, Ok, None, Some};
ghost use Rattle.pfl_base.specs.Counts.{Counts};
ghost use Rattle.pfl_rules.specs.Rules.{rule_fault, rule_set};
ghost use Rattle.pfl_script.specs.Setups.{kept_words, nothing_set, with_rule, is_rule, CountsLines, Finishes, IsKeptText, IsSetupFault, ReadsSetup};
ghost use Rattle.pfl_script.specs.Setups.{ReadsSetupTo};
ghost use Rattle.pfl_script.specs.inner.Setups.{IsFinishStop, IsRuleStop, IsTakeFault, Takes};

use crate::setup_fault::SetupFault;
use crate::setup_text::SetupText;
use pfl_base::{Input, NodeId};
use pfl_language::Limits;
use pfl_lines::SetupLine;
use pfl_reader::{Line, LineReader};
use pfl_rules::{Rule, RuleFault, RuleSet};
use std::alloc::{AllocError, Allocator};
use std::marker::Model;

/// What a pair is made from.
#[derive(Drop)]
pub struct Setup<A: Allocator> {
    pub limits: Limits,
    pub rules_a: RuleSet<A>,
    pub rules_b: RuleSet<A>,
    /// What is kept of the lines that it was read from.
    pub text: SetupText<A>,
}

/// What lines have set.
#[derive(Drop)]
struct SetupDraft<A: Allocator> {
    limits: Limits,
    timeouts: [Option<u32>; 14],
    a: Vec<Rule, A>,
    b: Vec<Rule, A>,
}

impl<A: Allocator> Model for SetupDraft<A> {
    ghost use Rattle.pfl_script.specs.Setups.{Draft};

    ghost Value = { Draft };

    ghost view = { λ d. record { limits = d.limits; timeouts = d.timeouts; a = d.a.items; b = d.b.items } };
}

impl<A: Allocator> SetupDraft<A> {
    /// Nothing is set.
    fn new(a: Vec<Rule, A>, b: Vec<Rule, A>) -> Self
        requires a { a.items ≡ [] }
        requires b { b.items ≡ [] }
        ensures { result ≡ nothing_set }
    {
        SetupDraft {
            limits: Limits::default(),
            timeouts: [None; 14],
            a,
            b,
        }
    }

    /// Takes the next rule of a node.
    fn push_rule(&mut self, node: NodeId, rule: Rule) -> Result<(), AllocError>
        ensures { OnOk result (self.new ≡ with_rule self.old node rule) }
    {
        match node {
            NodeId::A => self.a.push(rule)?,
            NodeId::B => self.b.push(rule)?,
        }
        Ok(())
    }

    /// Takes a setup line, and says whether it is `open`.
    fn take_setup(&mut self, setup: SetupLine) -> Result<bool, SetupFault>
        ensures taken { IfOk result (λ opened. Takes opened (Some (Ok setup)) self.old self.new) }
        ensures fault { IfErr result (λ e. e ≡ SetupFault.NoMemory) }
        ensures rule { OnErr result (is_rule setup ≡ true) }
    {
        match setup {
            SetupLine::Set { limit, n } => {
                self.limits = self.limits.with(limit, n);
                Ok(false)
            }
            SetupLine::Timeout { class, seconds } => {
                self.timeouts[usize::from(class.number())] = Some(seconds);
                Ok(false)
            }
            SetupLine::Rule { node, rule } => match self.push_rule(node, rule) {
                Ok(()) => Ok(false),
                Err(_) => Err(SetupFault::NoMemory),
            },
            SetupLine::Kernel(kernel) => {
                self.limits = self.limits.with_kernel(kernel);
                Ok(false)
            }
            SetupLine::Open => Ok(true),
        }
    }

    /// Takes the line with the number, if it has a word and is no comment, and says whether it is `open`.
    #[tactic(auto, unfolding(crate::specs::Setups::kept_words))]
    fn take_line(&mut self, line: &Line, number: u64) -> Result<bool, SetupFault>
        ensures taken { IfOk result (λ opened. Takes opened (kept_words line.now) self.old self.new) }
        ensures fault { IfErr result (λ e. IsTakeFault e number (kept_words line.now)) }
    {
        if !line.has_word() {
            return Ok(false);
        }
        match line.parse_setup() {
            Ok(setup) => self.take_setup(setup),
            Err(fault) => Err(SetupFault::Line(number, fault)),
        }
    }
}

/// The rule set of these rules, whose setup ends at the line with the number.
fn rule_set_of<A: Allocator + Copy>(
    alloc: A,
    rules: Vec<Rule, A>,
    number: u64,
) -> Result<RuleSet<A>, SetupFault>
    ensures faultless { IfOk result (λ _. rule_fault rules.items ≡ None) }
    ensures set { IfOk result (λ set. set ≡ rule_set rules.items) }
    ensures fault { IfErr result (λ e. IsRuleStop e number (rule_fault rules.items)) }
{
    match RuleSet::new(alloc, rules) {
        Ok(set) => Ok(set),
        Err(RuleFault::NoMemory) => Err(SetupFault::NoMemory),
        Err(fault) => Err(SetupFault::Rule(number, fault)),
    }
}

/// The setup of what was set up to the line with the number, with the text of its lines.
fn finish<A: Allocator + Copy>(
    alloc: A,
    draft: SetupDraft<A>,
    text: SetupText<A>,
    number: u64,
) -> Result<Setup<A>, SetupFault>
    ensures setup { IfOk result (λ s. Finishes draft s.limits s.rules_a s.rules_b) }
    ensures text { IfOk result (λ s. s.text ≡ text) }
    ensures fault { IfErr result (λ e. IsFinishStop e number draft) }
{
    let SetupDraft {
        limits,
        timeouts,
        a,
        b,
    } = draft;
    let rules_a = rule_set_of(alloc, a, number)?;
    let rules_b = rule_set_of(alloc, b, number)?;
    Ok(Setup {
        limits,
        rules_a: rules_a.with_timeouts(timeouts),
        rules_b: rules_b.with_timeouts(timeouts),
        text,
    })
}

/// Reads the lines of a setup up to `open`. Nothing that stands after that line is taken.
pub fn read_setup<A: Allocator + Copy, R: Input>(
    alloc: A,
    reader: &mut LineReader<R>,
) -> Result<Setup<A>, SetupFault>
    ensures setup { IfOk result (λ s. ReadsSetup reader.old.left reader.new.left s.limits s.rules_a s.rules_b) }
    ensures counted { IfOk result (λ s. reader.old.lines ≡ 0 → ReadsSetupTo reader.old.left reader.new.left reader.new.lines s.limits s.rules_a s.rules_b) }
    ensures text { IfOk result (λ s. IsKeptText reader.old.left reader.new.left s.text) }
    ensures few_lines { OnOk result (reader.new.lines ≤ reader.old.lines + 2 ^ 41) }
    ensures fault { IfErr result (λ e. IsSetupFault e reader.old.left reader.new) }
    ensures lines { IfErr result (λ e. CountsLines e reader.old reader.new) }
    ensures reads { Counts reader.old.reads reader.new.reads reader.new.turns }
    ensures few { reader.new.turns ≤ 16777216 }
    ensures stays { OnOk result (reader.new.failed ≡ reader.old.failed) }
{
    reader.begin();
    let mut draft = SetupDraft::new(Vec::new(alloc), Vec::new(alloc));
    let mut text = SetupText::Kept(Vec::new(alloc));
    let mut number: u64 = 0;
    while reader.advance()? {
        number += 1;
        let line = reader.line();
        text = text.with_line(line.text());
        if draft.take_line(&line, number)? {
            return finish(alloc, draft, text, number);
        }
    }
    Err(SetupFault::NoOpen(number))
}
