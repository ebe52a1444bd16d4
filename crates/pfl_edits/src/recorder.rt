//! Where edits are recorded, and edits of a part as edits of the whole.

ghost use Rattle.std.specs.Prelude.{◌≡◌, ◌+◌, ◌<◌, ◌≤◌, ℕ, List, [], ◌∷◌, ◌++◌, IsOk, OnOk};

use crate::changes::Change;
use crate::no_memory::NoMemory;
use crate::packed::Packed;
use crate::tapes::Tape;
use std::alloc::Allocator;

/// Where edits are recorded, in room that is made beforehand.
pub trait Recorder<E> {
    /// The edits that it has, the oldest first.
    ghost list: { Self → List E };

    /// For how many more there is room.
    ghost spare: { Self → ℕ };

    /// Makes room for `n` more edits.
    fn reserve(&mut self, n: usize) -> Result<(), NoMemory>
        ensures list { list self.new ≡ list self.old }
        ensures room { OnOk result (n ≤ spare self.new) }
        ensures enough { n ≤ spare self.old → IsOk result }
        ensures kept { spare self.old ≤ spare self.new };

    /// Appends an edit, in room that was made.
    fn push(&mut self, edit: E)
        requires room { 0 < spare self.old }
        ensures list { list self.new ≡ list self.old ++ edit ∷ [] }
        ensures spare { spare self.new + 1 ≡ spare self.old };
}

impl<E, A: Allocator> Recorder<E> for Change<E, A> {
    ghost list = { λ change. change.list };

    ghost spare = { λ change. change.spare };

    fn reserve(&mut self, n: usize) -> Result<(), NoMemory> {
        Change::reserve(self, n)
    }

    fn push(&mut self, edit: E) {
        Change::push(self, edit);
    }
}

impl<E: Packed, A: Allocator> Recorder<E> for Tape<E, A> {
    ghost list = { λ tape. tape.list };

    ghost spare = { λ tape. tape.spare };

    fn reserve(&mut self, n: usize) -> Result<(), NoMemory> {
        Tape::reserve(self, n)
    }

    fn push(&mut self, edit: E) {
        Tape::push(self, edit);
    }
}

/// Edits of a whole, as which the edits of its parts can be recorded.
pub trait OfPart<E>: Sized {
    /// What names the part.
    type Part: Copy;

    /// The edit of a part, as an edit of the whole.
    ghost of: { Self.Part → E → Self };

    /// The edit of a part, as an edit of the whole.
    fn of_part(part: Self::Part, edit: E) -> Self
        ensures whole { result ≡ of part edit };
}
