//! Lists of edits that grow, and are taken back to a mark.

mod front;

ghost use Rattle.std.specs.Prelude.{◌≡◌, ◌+◌, ◌<◌, ◌≤◌, [], ◌∷◌, ◌++◌, length, IfOk, OnOk, OnErr, IsOk, MatchOption};
ghost use Rattle.pfl_edits.specs.Changes.{back, Fits};
ghost use Rattle.pfl_edits.specs.Redoing.{set_aside, AreUndone};
ghost use Rattle.pfl_edits.specs.Tapes.{above, below, IsSomeWayBack};

use crate::changes::Change;
use crate::no_memory::NoMemory;
use crate::packed::{Copied, Packed, Packing};
use crate::reversible::{Redoable, Reversible};
use crate::tapes::front::Front;
use std::alloc::Allocator;
use std::marker::Model;

/// The edits of one value over many events, the oldest first, and room for `spare` more.
///
/// A mark is the length that the tape had before an event: `undo_to` takes back what was recorded since. Small edits are kept
/// in few bytes and those of middle size in some more, so that a long tape of them takes little memory.
#[derive(Drop)]
pub struct Tape<E: Packed, A: Allocator> {
    /// Of each edit, whether it is small.
    turns: Vec<bool, A>,
    small: Vec<E::Small, A>,
    /// Of each edit that is not small, whether it is of middle size.
    larger_turns: Vec<bool, A>,
    middle: Vec<E::Middle, A>,
    large: Vec<E, A>,
    spare: usize,
}

impl<E: Packed, A: Allocator> Model for Tape<E, A> {
    ghost use Rattle.std.specs.Prelude.{◌+◌, ◌≤◌, vec_len, vec_capacity};
    ghost use Rattle.pfl_edits.specs.Tapes.{Taped};
    ghost use Rattle.pfl_edits.specs.inner.Tapes.{all_edits, HaveTurns};

    ghost Value = { Taped E };

    ghost view = { λ t.
        let larger = all_edits E.whole_middle t.larger_turns.items t.middle.items t.large.items in
        record { list = all_edits E.whole_small t.turns.items t.small.items larger; spare = t.spare } };

    ghost invariant = { λ t. HaveTurns t.turns.items t.small.items (all_edits E.whole_middle t.larger_turns.items t.middle.items t.large.items)
        × HaveTurns t.larger_turns.items t.middle.items t.large.items
        × (vec_len t.turns + t.spare ≤ vec_capacity t.turns)
        × (vec_len t.small + t.spare ≤ vec_capacity t.small)
        × (vec_len t.larger_turns + t.spare ≤ vec_capacity t.larger_turns)
        × (vec_len t.middle + t.spare ≤ vec_capacity t.middle)
        × (vec_len t.large + t.spare ≤ vec_capacity t.large) };
}

impl<E: Packed, A: Allocator + Copy> Tape<E, A> {
    /// A tape without edits, which takes no memory yet.
    pub fn new(alloc: A) -> Self
        ensures list { result.list ≡ [] }
        ensures spare { result.spare ≡ 0 }
    {
        Tape {
            turns: Vec::new(alloc),
            small: Vec::new(alloc),
            larger_turns: Vec::new(alloc),
            middle: Vec::new(alloc),
            large: Vec::new(alloc),
            spare: 0,
        }
    }
}

impl<E: Packed, A: Allocator> Tape<E, A> {
    /// Makes room for `n` more edits, whether they are small or not. Where the memory has to grow it grows by a share of what
    /// it is, so that a long tape is not moved at every event.
    pub fn reserve(&mut self, n: usize) -> Result<(), NoMemory>
        ensures list { self.new.list ≡ self.old.list }
        ensures room { OnOk result (n ≤ self.new.spare) }
        ensures kept { self.old.spare ≤ self.new.spare }
        ensures enough { n ≤ self.old.spare → IsOk result }
        ensures unchanged { OnErr result (self.new ≡ self.old) }
    {
        self.turns.reserve(n)?;
        self.small.reserve(n)?;
        self.larger_turns.reserve(n)?;
        self.middle.reserve(n)?;
        self.large.reserve(n)?;
        if self.spare < n {
            self.spare = n;
        }
        Ok(())
    }

    /// Appends an edit, in room that was made.
    pub fn push(&mut self, edit: E)
        requires room { 0 < self.old.spare }
        ensures list { self.new.list ≡ self.old.list ++ edit ∷ [] }
        ensures spare { self.new.spare + 1 ≡ self.old.spare }
    {
        self.spare -= 1;
        match edit.pack() {
            Packing::Small(small) => {
                self.turns.push(true).unwrap();
                self.small.push(small).unwrap();
            }
            Packing::Middle(middle) => {
                self.turns.push(false).unwrap();
                self.larger_turns.push(true).unwrap();
                self.middle.push(middle).unwrap();
            }
            Packing::Large(large) => {
                self.turns.push(false).unwrap();
                self.larger_turns.push(false).unwrap();
                self.large.push(large).unwrap();
            }
        }
    }

    /// How many edits there are.
    pub fn len(&self) -> usize
        ensures length { result ≡ length self.now.list }
    {
        self.turns.len()
    }

    /// Takes the newest edit out, if there is one. No room is lost.
    fn pop(&mut self) -> Option<E>
        ensures edit { MatchOption result ((self.old.list ≡ []) × (self.new ≡ self.old)) (λ edit. self.old.list ≡ self.new.list ++ edit ∷ []) }
        ensures room { self.new.spare ≡ self.old.spare }
    {
        let is_small = self.turns.pop()?;
        if is_small {
            Some(E::unpack_small(self.small.pop().unwrap()))
        } else if self.larger_turns.pop().unwrap() {
            Some(E::unpack_middle(self.middle.pop().unwrap()))
        } else {
            Some(self.large.pop().unwrap())
        }
    }
}

impl<E: Packed + Copied + Drop, A: Allocator + Copy> Tape<E, A> {
    /// A tape of edits that equal those below the mark, in memory of its own. Those above it are not copied.
    pub fn copy_below(&self, alloc: A, mark: usize) -> Result<Self, NoMemory>
        requires within { mark ≤ length self.now.list }
        ensures edits { IfOk result (λ copied. copied.list ≡ below mark self.now.list) }
    {
        Front::of(self).below(mark).copied(alloc)
    }
}

/// Takes the edits above the mark back, the newest first, and shortens the tape to the mark, without memory. No room is lost.
pub fn undo_to<T: Reversible<Edit: Packed>, A: Allocator>(
    value: &mut T,
    tape: &mut Tape<T::Edit, A>,
    mark: usize,
)
    requires within { mark ≤ length tape.old.list }
    requires fits { Fits T.finds T.allows T.put_back (above mark tape.old.list) value.old }
    ensures value { value.new ≡ back T.put_back (above mark tape.old.list) value.old }
    ensures list { tape.new.list ≡ below mark tape.old.list }
    ensures room { tape.new.spare ≡ tape.old.spare }
{
    while tape.len() > mark {
        if let Some(edit) = tape.pop() {
            value.undo(edit);
        }
    }
}

/// Takes the edits above the mark back from a value that equals the one which they led to, the newest first. The tape stays as
/// it is: what is taken back are copies, one at a time. Where there is no memory for one, the value is back some of the way.
pub fn undo_copies_to<T: Reversible<Edit: Packed + Copied>, A: Allocator>(
    value: &mut T,
    tape: &Tape<T::Edit, A>,
    mark: usize,
) -> Result<(), NoMemory>
    requires within { mark ≤ length tape.now.list }
    requires fits { Fits T.finds T.allows T.put_back (above mark tape.now.list) value.old }
    ensures value { OnOk result (value.new ≡ back T.put_back (above mark tape.now.list) value.old) }
    ensures stopped { OnErr result (IsSomeWayBack T.put_back mark tape.now.list value.old value.new) }
{
    let mut front = Front::of(tape);
    while front.len() > mark {
        value.undo(front.pop_copied()?);
    }
    Ok(())
}

/// Takes the edits above the mark back for a while, the newest first, shortens the tape to the mark, and keeps what it takes to redo
/// them, in room that was made. No room of the tape is lost.
pub fn set_aside_to<T: Redoable<Edit: Packed>, A: Allocator>(
    value: &mut T,
    tape: &mut Tape<T::Edit, A>,
    mark: usize,
    undone: &mut Change<T::Undone, A>,
)
    requires within { mark ≤ length tape.old.list }
    requires fits { Fits T.finds T.allows T.put_back (above mark tape.old.list) value.old }
    requires room { length (above mark tape.old.list) ≤ undone.old.spare }
    ensures value { value.new ≡ back T.put_back (above mark tape.old.list) value.old }
    ensures list { tape.new.list ≡ below mark tape.old.list }
    ensures tape_room { tape.new.spare ≡ tape.old.spare }
    ensures kept { undone.new.list ≡ undone.old.list ++ set_aside T.undone (above mark tape.old.list) }
    ensures left { undone.new.spare + length (above mark tape.old.list) ≡ undone.old.spare }
{
    while mark < tape.len() {
        if let Some(edit) = tape.pop() {
            undone.push(value.set_aside(edit));
        }
    }
}

/// Redoes the edits that were taken back for a while, the oldest first, and appends them to the tape, in room that was made.
pub fn redo_all<T: Redoable<Edit: Packed>, A: Allocator>(
    value: &mut T,
    tape: &mut Tape<T::Edit, A>,
    mut undone: Change<T::Undone, A>,
)
    requires room { length undone.list ≤ tape.old.spare }
    requires undone { AreUndone T.finds T.allows T.put_back T.undone undone.list value.old }
    ensures value { (of : AreUndone T.finds T.allows T.put_back T.undone undone.list value.old) → value.new ≡ of.led_to }
    ensures list { (of : AreUndone T.finds T.allows T.put_back T.undone undone.list value.old) → tape.new.list ≡ tape.old.list ++ of.edits }
    ensures tape_room { tape.new.spare + length undone.list ≡ tape.old.spare }
{
    while let Some(kept) = undone.pop() {
        tape.push(value.redo(kept));
    }
    undone.destroy_empty();
}
