//! Edits of which those of two sizes are kept in fewer bytes.
ghost use Rattle.std.specs.Prelude.{◌≡◌, IfOk};
ghost use Rattle.pfl_edits.specs.Packings.{edit_of};

use crate::no_memory::NoMemory;

/// What is to be kept of an edit.
pub enum Packing<S, M, E> {
    /// Few bytes.
    Small(S),
    /// Some more.
    Middle(M),
    /// The edit itself.
    Large(E),
}

/// Edits of which the small ones can be kept in few bytes, and those of middle size in some more.
pub trait Packed: Sized {
    /// What is kept of a small edit.
    type Small: Copy;

    /// What is kept of an edit of middle size.
    type Middle: Copy;

    /// The small edit that is kept so.
    ghost whole_small: { Self.Small → Self };

    /// The edit of middle size that is kept so.
    ghost whole_middle: { Self.Middle → Self };

    /// What is to be kept of the edit, and where it is neither small nor of middle size, the edit itself.
    fn pack(self) -> Packing<Self::Small, Self::Middle, Self>
        ensures packed { edit_of whole_small whole_middle result ≡ self };

    /// The small edit that is kept so.
    fn unpack_small(small: Self::Small) -> Self
        ensures whole { result ≡ whole_small small };

    /// The edit of middle size that is kept so.
    fn unpack_middle(middle: Self::Middle) -> Self
        ensures whole { result ≡ whole_middle middle };
}

/// Values of which an equal one can be made, in memory of its own.
pub trait Copied: Sized {
    /// An equal value, in memory of its own.
    fn copied(&self) -> Result<Self, NoMemory>
        ensures same { IfOk result (λ copied. copied ≡ self.now) };
}
