//! Lists of edits whose room is made beforehand.
ghost use Rattle.std.specs.Prelude.{◌≡◌, ℕ, ◌+◌, ◌<◌, ◌≤◌, List, [], ◌∷◌, ◌++◌, length, map, OnOk, OnErr, IfOk, IsOk, IsTrue, ◌↔◌, MatchOption};
ghost use Rattle.pfl_edits.specs.Changes.{Edits};

use crate::no_memory::NoMemory;
use crate::recorder::{OfPart, Recorder};
use std::alloc::Allocator;
use std::marker::Model;

/// The edits of one value, the oldest first, and room for `spare` more.
///
/// Room is made before an edit is recorded, so that recording one cannot fail.
#[derive(Drop)]
pub struct Change<E, A: Allocator> {
    edits: Vec<E, A>,
    spare: usize,
}

impl<E, A: Allocator> Model for Change<E, A> {
    ghost use Rattle.std.specs.Prelude.{◌+◌, ◌≤◌, vec_len, vec_capacity};
    ghost use Rattle.pfl_edits.specs.Changes.{Edits};

    ghost Value = { Edits E };

    ghost view = { λ c. record { list = c.edits.items; spare = c.spare } };

    ghost invariant = { λ c. vec_len c.edits + c.spare ≤ vec_capacity c.edits };
}

impl<E, A: Allocator> Change<E, A> {
    /// A change without edits, which takes no memory yet.
    pub fn new(alloc: A) -> Self
        ensures list { result.list ≡ [] }
        ensures spare { result.spare ≡ 0 }
    {
        Change {
            edits: Vec::new(alloc),
            spare: 0,
        }
    }

    /// A change without edits, with room for `n`.
    pub fn with_room(alloc: A, n: usize) -> Result<Self, NoMemory>
        ensures list { IfOk result (λ c. c.list ≡ []) }
        ensures spare { IfOk result (λ c. c.spare ≡ n) }
    {
        Ok(Change {
            edits: Vec::with_capacity(alloc, n)?,
            spare: n,
        })
    }

    /// Makes room for `n` more edits.
    pub fn reserve(&mut self, n: usize) -> Result<(), NoMemory>
        ensures list { self.new.list ≡ self.old.list }
        ensures room { OnOk result (n ≤ self.new.spare) }
        ensures kept { self.old.spare ≤ self.new.spare }
        ensures enough { n ≤ self.old.spare → IsOk result }
        ensures unchanged { OnErr result (self.new ≡ self.old) }
    {
        self.edits.reserve(n)?;
        if self.spare < n {
            self.spare = n;
        }
        Ok(())
    }

    /// Appends an edit, in room that was made.
    pub fn push(&mut self, edit: E)
        requires room { 0 < self.old.spare }
        ensures list { self.new.list ≡ self.old.list ++ edit ∷ [] }
        ensures spare { self.new.spare + 1 ≡ self.old.spare }
    {
        self.spare -= 1;
        self.edits.push(edit).unwrap();
    }

    /// How many edits there are.
    pub fn len(&self) -> usize
        ensures length { result ≡ length self.now.list }
    {
        self.edits.len()
    }

    /// There is no edit.
    pub fn is_empty(&self) -> bool
        ensures none { IsTrue result ↔ (self.now.list ≡ []) }
    {
        self.edits.is_empty()
    }

    /// Takes the newest edit out, if there is one. The room that it had is given back.
    pub fn pop(&mut self) -> Option<E>
        ensures edit { MatchOption result ((self.old.list ≡ []) × (self.new ≡ self.old)) (λ edit. self.old.list ≡ self.new.list ++ edit ∷ []) }
        ensures room { self.new.spare + length self.new.list ≡ self.old.spare + length self.old.list }
    {
        let edit = self.edits.pop()?;
        self.spare += 1;
        Some(edit)
    }

    /// The edits, the oldest first.
    pub fn into_edits(self) -> Vec<E, A>
        ensures edits { result.items ≡ self.list }
    {
        let Change { edits, spare: _ } = self;
        edits
    }

    /// Gives up a change that has no edits. Unlike a drop, it asks nothing of the type of the edits.
    pub(crate) fn destroy_empty(self)
        requires empty { self.list ≡ [] }
    {
        self.into_edits().destroy_empty();
    }
}

impl<E: Drop, A: Allocator> Change<E, A> {
    /// Gives the edits up. The room that they had is given back.
    pub fn clear(&mut self)
        ensures none { self.new.list ≡ [] }
        ensures room { self.new.spare ≡ self.old.spare + length self.old.list }
    {
        self.spare += self.edits.len();
        self.edits.truncate(0);
    }
}

impl<E: Copy, A: Allocator> Change<E, A> {
    /// Records the edits elsewhere too, as edits of a part, in room that was made there.
    pub fn record_in<W: OfPart<E>, R: Recorder<W>>(&self, part: W::Part, to: &mut R)
        requires room { length self.now.list ≤ R.spare to.old }
        ensures list { R.list to.new ≡ R.list to.old ++ map (W.of part) self.now.list }
        ensures spare { R.spare to.new + length self.now.list ≡ R.spare to.old }
    {
        for edit in &self.edits {
            to.push(W::of_part(part, *edit));
        }
    }
}
