//! How many rows each rule has.

ghost use Rattle.std.specs.Prelude.{◌≡◌, ◌+◌, ◌-◌, ◌<◌, ◌≤◌, ◌^◌, ℕ, [], get_or, length, vec_capacity, IfOk};
ghost use Rattle.pfl_table.specs.inner.Counts.{once};

use pfl_edits::NoMemory;
use std::alloc::Allocator;
use std::marker::Model;

/// How many numbers of rules there are.
const NUMBERS: usize = 1 << 16;

/// How many rows each rule has, by the number of the rule. Room for every number is made by `new`, and by `copy` for the copy, but no
/// more of it is touched than up to the greatest number that came.
#[derive(Drop)]
pub(crate) struct RuleCounts<A: Allocator> {
    counts: Vec<u32, A>,
}

impl<A: Allocator> Model for RuleCounts<A> {
    ghost use Rattle.std.specs.Prelude.{ℕ, ◌≤◌, ◌^◌, List, vec_capacity};

    ghost Value = { List ℕ };

    ghost view = { λ c. c.counts.items };

    ghost invariant = { λ c. 2 ^ 16 ≤ vec_capacity c.counts };
}

impl<A: Allocator + Copy> RuleCounts<A> {
    /// No rows.
    pub(crate) fn new(alloc: A) -> Result<Self, NoMemory>
        ensures none { IfOk result (λ c. c ≡ []) }
    {
        let counts = Vec::with_capacity(alloc, NUMBERS)?;
        Ok(RuleCounts { counts })
    }

    /// The same rows, with room of their own.
    pub(crate) fn copy(&self) -> Result<Self, NoMemory>
        ensures same { IfOk result (λ c. c ≡ self.now) }
    {
        let mut counts = Vec::with_capacity(*self.counts.allocator(), NUMBERS)?;
        counts.extend_from_slice(&self.counts)?;
        Ok(RuleCounts { counts })
    }
}

impl<A: Allocator> RuleCounts<A> {
    /// How many rows a rule has.
    pub(crate) fn count_of(&self, rule: u16) -> usize
        ensures count { result ≡ get_or self.now rule 0 }
    {
        match self.counts.get(rule as usize) {
            Some(&count) => count as usize,
            None => 0,
        }
    }

    /// Counts a row more of a rule, if it has one.
    pub(crate) fn more(&mut self, rule: Option<u16>)
        requires few { (r : ℕ) → get_or self.old r 0 < 2 ^ 32 - 1 }
        ensures counted { (r : ℕ) → get_or self.new r 0 ≡ get_or self.old r 0 + once r rule }
    {
        if let Some(rule) = rule {
            reach(&mut self.counts, rule);
            self.counts[rule as usize] += 1;
        }
    }

    /// Counts a row less of a rule, if it has one.
    pub(crate) fn less(&mut self, rule: Option<u16>)
        requires counted { (r : ℕ) → once r rule ≤ get_or self.old r 0 }
        ensures counted { (r : ℕ) → get_or self.old r 0 ≡ get_or self.new r 0 + once r rule }
    {
        if let Some(rule) = rule {
            self.counts[rule as usize] -= 1;
        }
    }
}

/// Counts on to the number of a rule, in room that was made.
fn reach<A: Allocator>(counts: &mut Vec<u32, A>, rule: u16)
    requires room { 2 ^ 16 ≤ vec_capacity counts.old }
    ensures reached { rule < length counts.new.items }
    ensures same { (r : ℕ) → get_or counts.new.items r 0 ≡ get_or counts.old.items r 0 }
    ensures room { 2 ^ 16 ≤ vec_capacity counts.new }
{
    let rule = rule as usize;
    if rule >= counts.len() {
        counts.resize(rule + 1, 0).unwrap();
    }
}
