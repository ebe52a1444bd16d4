//! The oldest edits of a tape that is only read.
ghost use Rattle.std.specs.Prelude.{◌≡◌, ◌<◌, ◌≤◌, [], ◌∷◌, ◌++◌, length, IfOk, OnErr};
ghost use Rattle.std.specs.List.{count_by};
ghost use Rattle.pfl_edits.specs.Tapes.{below};

use crate::no_memory::NoMemory;
use crate::packed::{Copied, Packed};
use crate::tapes::Tape;
use std::alloc::Allocator;
use std::marker::Model;

/// The oldest edits of a tape, which stays as it is.
#[derive(Drop)]
pub(super) struct Front<'a, E: Packed> {
    turns: &'a [bool],
    small: &'a [E::Small],
    larger_turns: &'a [bool],
    middle: &'a [E::Middle],
    large: &'a [E],
}

impl<'a, E: Packed> Model for Front<'a, E> {
    ghost use Rattle.std.specs.Prelude.{List};
    ghost use Rattle.pfl_edits.specs.inner.Tapes.{all_edits, HaveTurns};

    ghost Value = { List E };

    ghost view = { λ f. all_edits E.whole_small f.turns.now f.small.now (all_edits E.whole_middle f.larger_turns.now f.middle.now f.large.now) };

    ghost invariant = { λ f. HaveTurns f.turns.now f.small.now (all_edits E.whole_middle f.larger_turns.now f.middle.now f.large.now)
        × HaveTurns f.larger_turns.now f.middle.now f.large.now };
}

/// How many of the turns are marked.
fn count_marked(turns: &[bool]) -> usize
    ensures count { result ≡ count_by (λ is_marked. is_marked) turns.now }
{
    turns.iter().filter(|is_marked| **is_marked).count()
}

impl<'a, E: Packed> Front<'a, E> {
    /// All edits of a tape.
    pub(super) fn of<A: Allocator>(tape: &'a Tape<E, A>) -> Front<'a, E>
        ensures edits { result ≡ tape.now.list }
    {
        Front {
            turns: &tape.turns,
            small: &tape.small,
            larger_turns: &tape.larger_turns,
            middle: &tape.middle,
            large: &tape.large,
        }
    }

    /// How many edits there are.
    pub(super) fn len(&self) -> usize
        ensures length { result ≡ length self.now }
    {
        self.turns.len()
    }

    /// The oldest of them, as many as the mark says.
    pub(super) fn below(&self, mark: usize) -> Front<'a, E>
        requires within { mark ≤ length self.now }
        ensures edits { result ≡ below mark self.now }
    {
        let turns = &self.turns[..mark];
        let small = count_marked(turns);
        let larger_turns = &self.larger_turns[..mark - small];
        let middle = count_marked(larger_turns);
        let large = mark - small - middle;
        Front {
            turns,
            small: &self.small[..small],
            larger_turns,
            middle: &self.middle[..middle],
            large: &self.large[..large],
        }
    }
}

impl<'a, E: Packed + Copied> Front<'a, E> {
    /// Leaves the newest edit out, and returns an equal one. Where there is no memory for that, it stays.
    pub(super) fn pop_copied(&mut self) -> Result<E, NoMemory>
        requires some { 0 < length self.old }
        ensures edit { IfOk result (λ edit. self.old ≡ self.new ++ edit ∷ []) }
        ensures stays { OnErr result (self.new ≡ self.old) }
    {
        let (is_small, turns) = self.turns.split_last().unwrap();
        if *is_small {
            let (small, rest) = self.small.split_last().unwrap();
            self.turns = turns;
            self.small = rest;
            return Ok(E::unpack_small(*small));
        }
        let (is_middle, larger_turns) = self.larger_turns.split_last().unwrap();
        if *is_middle {
            let (middle, rest) = self.middle.split_last().unwrap();
            self.turns = turns;
            self.larger_turns = larger_turns;
            self.middle = rest;
            return Ok(E::unpack_middle(*middle));
        }
        let (large, rest) = self.large.split_last().unwrap();
        let edit = large.copied()?;
        self.turns = turns;
        self.larger_turns = larger_turns;
        self.large = rest;
        Ok(edit)
    }
}

impl<'a, E: Packed + Copied + Drop> Front<'a, E> {
    /// A tape of equal edits, in memory of its own.
    pub(super) fn copied<A: Allocator + Copy>(&self, alloc: A) -> Result<Tape<E, A>, NoMemory>
        ensures same { IfOk result (λ copied. copied.list ≡ self.now) }
    {
        let turns = Vec::from_slice(alloc, self.turns)?;
        let small = Vec::from_slice(alloc, self.small)?;
        let larger_turns = Vec::from_slice(alloc, self.larger_turns)?;
        let middle = Vec::from_slice(alloc, self.middle)?;
        let large = copy_all(alloc, self.large)?;
        Ok(Tape {
            turns,
            small,
            larger_turns,
            middle,
            large,
            spare: 0,
        })
    }
}

/// Equal values, in memory of their own.
fn copy_all<X: Copied + Drop, A: Allocator>(alloc: A, values: &[X]) -> Result<Vec<X, A>, NoMemory>
    ensures same { IfOk result (λ copied. copied.items ≡ values.now) }
{
    let mut copied = Vec::with_capacity(alloc, values.len())?;
    for value in values {
        copied.push(value.copied()?).unwrap();
    }
    Ok(copied)
}
