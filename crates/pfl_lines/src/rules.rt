//! Rules.

ghost use Rattle.std.specs.Prelude.{◌≡◌, codes, bytes_eq};
ghost use Rattle.std.specs.List.{list_any};
ghost use Rattle.std.specs.Option.{option_map};
ghost use Rattle.pfl_base.specs.Classes.{classes};
ghost use Rattle.pfl_base.specs.Numbers.{greatest};
ghost use Rattle.pfl_lines.specs.Words.{words};
ghost use Rattle.pfl_lines.specs.inner.Readings.{Gives};
ghost use Rattle.pfl_lines.specs.Parts.{number_at, proto_at};
ghost use Rattle.pfl_lines.specs.Rules.{action_at, rule_dir_at, net_at, ports_at, pool_at, any_of, any_at, class_at, behind_word, option_at};
ghost use Rattle.pfl_lines.specs.Rules.{flag_word_at, any_flags_at, behind_class, timeout_at, timeouts_at, option_names, misplaced, rule_ended};
ghost use Rattle.pfl_lines.specs.Rules.{rule_of};

use crate::addresses::{net_at_word, pool_at_word, ports_at_word};
use crate::fault::LineFault;
use crate::parts::{number_at, proto_at};
use crate::words::{is_word, one_word, try_read, word_at};
use pfl_base::{Class, GREATEST_NUMBER, Proto};
use pfl_rules::{Action, Net, Pool, Ports, Rule, RuleDir};

/// An action.
fn action_at(line: &[u8]) -> Result<(Action, &[u8]), LineFault>
    ensures { Gives (λ x. (x.0, words x.1.now)) result (action_at (words line.now)) }
{
    one_word!(line, word => Action::of_word(word).ok_or(LineFault::Number))
}

/// The way of a rule's packets.
fn rule_dir_at(line: &[u8]) -> Result<(RuleDir, &[u8]), LineFault>
    ensures { Gives (λ x. (x.0, words x.1.now)) result (rule_dir_at (words line.now)) }
{
    one_word!(line, word => RuleDir::of_word(word).ok_or(LineFault::Number))
}

/// A net.
fn net_at(line: &[u8]) -> Result<(Net, &[u8]), LineFault>
    ensures { Gives (λ x. (x.0, words x.1.now)) result (net_at (words line.now)) }
{
    one_word!(line, word => net_at_word(word))
}

/// A range of ports.
fn ports_at(line: &[u8]) -> Result<(Ports, &[u8]), LineFault>
    ensures { Gives (λ x. (x.0, words x.1.now)) result (ports_at (words line.now)) }
{
    one_word!(line, word => ports_at_word(word))
}

/// What translation puts in the place of an end.
fn pool_at(line: &[u8]) -> Result<(Pool, &[u8]), LineFault>
    ensures { Gives (λ x. (x.0, words x.1.now)) result (pool_at (words line.now)) }
{
    one_word!(line, word => pool_at_word(word))
}

/// The word `any`.
fn any_of(word: &[u8]) -> Result<bool, LineFault>
    ensures { result ≡ any_of word.now }
{
    if is_word(word, "any") {
        Ok(true)
    } else {
        Err(LineFault::Number)
    }
}

/// The word `any`.
fn any_at(line: &[u8]) -> Result<(bool, &[u8]), LineFault>
    ensures { Gives (λ x. (x.0, words x.1.now)) result (any_at (words line.now)) }
{
    one_word!(line, word => any_of(word))
}

/// A class by its word.
pub fn class_at(line: &[u8]) -> Result<(Class, &[u8]), LineFault>
    ensures { Gives (λ x. (x.0, words x.1.now)) result (class_at (words line.now)) }
{
    one_word!(line, word => Class::of_word(word).ok_or(LineFault::Number))
}

/// What follows an option's word, if the line begins with it.
pub fn behind_word<'a>(line: &'a [u8], name: &str) -> Option<&'a [u8]>
    ensures { option_map (λ x. words x.now) result ≡ behind_word name.now (words line.now) }
{
    match word_at(line) {
        Ok((word, rest)) if is_word(word, name) => Some(rest),
        _ => None,
    }
}

/// Whether the line begins with an option's word, which has no value.
fn flag_word_at<'a>(line: &'a [u8], name: &str) -> (bool, &'a [u8])
    ensures { (result.0, words result.1.now) ≡ flag_word_at name.now (words line.now) }
{
    match behind_word(line, name) {
        Some(rest) => (true, rest),
        None => (false, line),
    }
}

/// `[proto P]`.
fn proto_option_at(line: &[u8]) -> Result<(Option<Proto>, &[u8]), LineFault>
    ensures { Gives (λ x. (x.0, words x.1.now)) result (option_at (codes "proto") proto_at (words line.now)) }
{
    let Some(rest) = behind_word(line, "proto") else {
        return Ok((None, line));
    };
    let (proto, rest) = try_read!(proto_at(rest));
    Ok((Some(proto), rest))
}

/// `[from NET]` or `[to NET]`.
fn net_option_at<'a>(line: &'a [u8], name: &str) -> Result<(Option<Net>, &'a [u8]), LineFault>
    ensures { Gives (λ x. (x.0, words x.1.now)) result (option_at name.now net_at (words line.now)) }
{
    let Some(rest) = behind_word(line, name) else {
        return Ok((None, line));
    };
    let (net, rest) = try_read!(net_at(rest));
    Ok((Some(net), rest))
}

/// `[fport PORTS]` or `[tport PORTS]`.
fn ports_option_at<'a>(line: &'a [u8], name: &str) -> Result<(Option<Ports>, &'a [u8]), LineFault>
    ensures { Gives (λ x. (x.0, words x.1.now)) result (option_at name.now ports_at (words line.now)) }
{
    let Some(rest) = behind_word(line, name) else {
        return Ok((None, line));
    };
    let (ports, rest) = try_read!(ports_at(rest));
    Ok((Some(ports), rest))
}

/// `[flags any]`.
fn any_flags_at(line: &[u8]) -> Result<(bool, &[u8]), LineFault>
    ensures { Gives (λ x. (x.0, words x.1.now)) result (any_flags_at (words line.now) (behind_word (codes "flags") (words line.now))) }
{
    match behind_word(line, "flags") {
        Some(rest) => any_at(rest),
        None => Ok((false, line)),
    }
}

/// `[max N]`.
fn max_option_at(line: &[u8]) -> Result<(Option<u32>, &[u8]), LineFault>
    ensures { Gives (λ x. (x.0, words x.1.now)) result (option_at (codes "max") (number_at greatest) (words line.now)) }
{
    let Some(rest) = behind_word(line, "max") else {
        return Ok((None, line));
    };
    let (max, rest) = number_at(rest, GREATEST_NUMBER)?;
    Ok((Some(max as u32), rest))
}

/// `[nat POOL]` or `[rdr POOL]`.
fn pool_option_at<'a>(line: &'a [u8], name: &str) -> Result<(Option<Pool>, &'a [u8]), LineFault>
    ensures { Gives (λ x. (x.0, words x.1.now)) result (option_at name.now pool_at (words line.now)) }
{
    let Some(rest) = behind_word(line, name) else {
        return Ok((None, line));
    };
    let (pool, rest) = try_read!(pool_at(rest));
    Ok((Some(pool), rest))
}

/// What follows `timeout` and the class, if the line begins with them.
fn behind_class(line: &[u8], class: Class) -> Option<&[u8]>
    ensures { option_map (λ x. words x.now) result ≡ behind_class class (words line.now) }
{
    match behind_word(line, "timeout") {
        Some(rest) => behind_word(rest, class.word()),
        None => None,
    }
}

/// `[timeout CLASS S]`.
#[tactic(auto, unfolding(crate::specs::Rules::timeout_at))]
fn timeout_at(line: &[u8], class: Class) -> Result<(Option<u32>, &[u8]), LineFault>
    ensures { Gives (λ x. (x.0, words x.1.now)) result (timeout_at class (words line.now)) }
{
    let Some(rest) = behind_class(line, class) else {
        return Ok((None, line));
    };
    let (seconds, rest) = number_at(rest, GREATEST_NUMBER)?;
    Ok((Some(seconds as u32), rest))
}

/// The timeouts of all classes, in their order.
fn timeouts_at(line: &[u8]) -> Result<([Option<u32>; 14], &[u8]), LineFault>
    ensures { Gives (λ x. (x.0, words x.1.now)) result (timeouts_at classes (words line.now)) }
{
    let mut timeouts = [None; 14];
    let mut rest = line;
    for (i, class) in Class::ALL.iter().enumerate() {
        let (seconds, others) = timeout_at(rest, *class)?;
        timeouts[i] = seconds;
        rest = others;
    }
    Ok((timeouts, rest))
}

/// Whether the word is that of an option.
fn is_option_name(word: &[u8]) -> bool
    ensures { result ≡ list_any (bytes_eq word.now) option_names }
{
    is_word(word, "quick")
        || is_word(word, "proto")
        || is_word(word, "from")
        || is_word(word, "fport")
        || is_word(word, "to")
        || is_word(word, "tport")
        || is_word(word, "flags")
        || is_word(word, "no-sync")
        || is_word(word, "max")
        || is_word(word, "nat")
        || is_word(word, "rdr")
        || is_word(word, "timeout")
}

/// What is wrong with a word that is no next option.
fn misplaced(word: &[u8], rest: &[u8]) -> LineFault
    ensures { result ≡ misplaced word.now (words rest.now) }
{
    if is_word(word, "timeout") {
        return match class_at(rest) {
            Ok(_) => LineFault::Extra,
            Err(fault) => fault,
        };
    }
    if is_option_name(word) {
        LineFault::Extra
    } else {
        LineFault::Unknown
    }
}

/// The rule, if no word is left over.
fn rule_ended(rule: Rule, line: &[u8]) -> Result<Rule, LineFault>
    ensures { result ≡ rule_ended rule (words line.now) }
{
    match word_at(line) {
        Ok((word, rest)) => Err(misplaced(word, rest)),
        Err(_) => Ok(rule),
    }
}

/// `pass|block in|out|any [quick] [proto P] [from NET] [fport PORTS] [to NET] [tport PORTS] [flags any] [no-sync] [max N]
/// [nat POOL] [rdr POOL] [timeout CLASS S]...`.
#[tactic(auto, unfolding(crate::specs::Rules::rule_of))]
pub fn rule_of(line: &[u8]) -> Result<Rule, LineFault>
    ensures { result ≡ rule_of (words line.now) }
{
    let (action, rest) = action_at(line)?;
    let (direction, rest) = rule_dir_at(rest)?;
    let (quick, rest) = flag_word_at(rest, "quick");
    let (proto, rest) = try_read!(proto_option_at(rest));
    let (from, rest) = try_read!(net_option_at(rest, "from"));
    let (from_port, rest) = try_read!(ports_option_at(rest, "fport"));
    let (to, rest) = try_read!(net_option_at(rest, "to"));
    let (to_port, rest) = try_read!(ports_option_at(rest, "tport"));
    let (any_flags, rest) = any_flags_at(rest)?;
    let (no_sync, rest) = flag_word_at(rest, "no-sync");
    let (max, rest) = max_option_at(rest)?;
    let (nat, rest) = try_read!(pool_option_at(rest, "nat"));
    let (rdr, rest) = try_read!(pool_option_at(rest, "rdr"));
    let (timeouts, rest) = timeouts_at(rest)?;
    let rule = Rule {
        action,
        direction,
        quick,
        proto,
        from,
        from_port,
        to,
        to_port,
        any_flags,
        no_sync,
        max,
        nat,
        rdr,
        timeouts,
    };
    rule_ended(rule, rest)
}
