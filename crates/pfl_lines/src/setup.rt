//! Setup lines.

ghost use Rattle.std.specs.Prelude.{◌≡◌};
ghost use Rattle.pfl_lines.specs.Words.{words};
ghost use Rattle.pfl_lines.specs.inner.Readings.{Gives};
ghost use Rattle.pfl_lines.specs.Commands.{finished};
ghost use Rattle.pfl_lines.specs.Setup.{limit_at, limit_line_of, timeout_line_of, set_of, rule_line_of, kernel_line_of, kernel_rules_of, kernel_with};
ghost use Rattle.pfl_lines.specs.Setup.{setup_by, setup_of, parsed_setup};

use crate::commands::checked;
use crate::fault::LineFault;
use crate::parts::{node_at, number_at};
use crate::rules::{behind_word, class_at, rule_of};
use crate::words::{is_word, one_word, word_at};
use pfl_base::{Class, GREATEST_NUMBER, Kernel, KernelWord, NodeId};
use pfl_language::Limit;
use pfl_rules::Rule;

/// What a setup line says.
#[derive(Clone, Copy, Debug)]
pub enum SetupLine {
    /// A limit gets a value.
    Set { limit: Limit, n: u32 },
    /// A class gets its seconds, where a rule says none.
    Timeout { class: Class, seconds: u32 },
    /// A node gets its next rule.
    Rule { node: NodeId, rule: Rule },
    /// These rules are the kernel's, at both nodes.
    Kernel(Kernel),
    /// The setup ends.
    Open,
}

/// A limit.
fn limit_at(line: &[u8]) -> Result<(Limit, &[u8]), LineFault>
    ensures { Gives (λ x. (x.0, words x.1.now)) result (limit_at (words line.now)) }
{
    one_word!(line, word => Limit::of_word(word).ok_or(LineFault::Unknown))
}

/// The setup line, if no word is left over.
fn ended(setup: SetupLine, line: &[u8]) -> Result<SetupLine, LineFault>
    ensures { result ≡ finished (setup, words line.now) }
{
    match word_at(line) {
        Ok(_) => Err(LineFault::Extra),
        Err(_) => Ok(setup),
    }
}

/// `CLASS SECONDS`.
#[tactic(auto, unfolding(crate::specs::Setup::timeout_line_of))]
fn timeout_line_of(line: &[u8]) -> Result<SetupLine, LineFault>
    ensures { result ≡ timeout_line_of (words line.now) }
{
    let (class, rest) = class_at(line)?;
    let (seconds, rest) = number_at(rest, GREATEST_NUMBER)?;
    let seconds = seconds as u32;
    ended(SetupLine::Timeout { class, seconds }, rest)
}

/// `LIMIT N`, or `timeout CLASS SECONDS`.
fn set_of(line: &[u8]) -> Result<SetupLine, LineFault>
    ensures { result ≡ set_of (words line.now) }
{
    match behind_word(line, "timeout") {
        Some(rest) => timeout_line_of(rest),
        None => limit_line_of(line),
    }
}

/// `LIMIT N`.
#[tactic(auto, unfolding(crate::specs::Setup::limit_line_of))]
fn limit_line_of(line: &[u8]) -> Result<SetupLine, LineFault>
    ensures { result ≡ limit_line_of (words line.now) }
{
    let (limit, rest) = limit_at(line)?;
    let (n, rest) = number_at(rest, limit.greatest_said())?;
    let n = n as u32;
    ended(SetupLine::Set { limit, n }, rest)
}

/// `NODE RULE`.
#[tactic(auto, unfolding(crate::specs::Setup::rule_line_of))]
fn rule_line_of(line: &[u8]) -> Result<SetupLine, LineFault>
    ensures { result ≡ rule_line_of (words line.now) }
{
    let (node, rest) = node_at(line)?;
    let rule = rule_of(rest)?;
    Ok(SetupLine::Rule { node, rule })
}

/// The rules of the kernel that a word stands for: one, or `all`.
fn kernel_rules_of(word: &[u8]) -> Result<Kernel, LineFault>
    ensures { result ≡ kernel_rules_of word.now }
{
    if is_word(word, "all") {
        return Ok(Kernel::all());
    }
    match KernelWord::of_word(word) {
        Some(rule) => Ok(Kernel::profile().with(rule)),
        None => Err(LineFault::Unknown),
    }
}

/// These rules, and those of further words.
fn kernel_with(first: Kernel, line: &[u8]) -> Result<Kernel, LineFault>
    ensures { result ≡ kernel_with first (words line.now) }
{
    let mut kernel = first;
    let mut rest = line;
    while let Ok((word, others)) = word_at(rest) {
        kernel = kernel.union(kernel_rules_of(word)?);
        rest = others;
    }
    Ok(kernel)
}

/// `WORD..`.
#[tactic(auto, unfolding(crate::specs::Setup::kernel_line_of))]
fn kernel_line_of(line: &[u8]) -> Result<SetupLine, LineFault>
    ensures { result ≡ kernel_line_of (words line.now) }
{
    let (word, rest) = word_at(line)?;
    let first = kernel_rules_of(word)?;
    let kernel = kernel_with(first, rest)?;
    Ok(SetupLine::Kernel(kernel))
}

/// What belongs to a setup line's word.
fn setup_by(word: &[u8], line: &[u8]) -> Result<SetupLine, LineFault>
    ensures { result ≡ setup_by word.now (words line.now) }
{
    if is_word(word, "set") {
        return set_of(line);
    }
    if is_word(word, "rule") {
        return rule_line_of(line);
    }
    if is_word(word, "kernel") {
        return kernel_line_of(line);
    }
    if is_word(word, "open") {
        return ended(SetupLine::Open, line);
    }
    Err(LineFault::Unknown)
}

/// What the words of a line say.
#[tactic(auto, unfolding(crate::specs::Setup::setup_of))]
fn setup_of(line: &[u8]) -> Result<SetupLine, LineFault>
    ensures { result ≡ setup_of (words line.now) }
{
    let (word, rest) = word_at(line)?;
    setup_by(word, rest)
}

/// What a setup line says. It takes no memory.
#[tactic(auto, unfolding(crate::specs::Setup::parsed_setup))]
pub fn parse_setup(line: &[u8]) -> Result<SetupLine, LineFault>
    ensures { result ≡ parsed_setup line.now }
{
    let text = checked(line)?;
    setup_of(text)
}
