//! Values that stand under a key of their own.
ghost use Rattle.std.specs.Prelude.{◌≡◌};
ghost use Rattle.std.specs.declared.cmp.Ordering.{Ordering};
ghost use Rattle.std.specs.Cmp.{IsTotalOrder};
ghost use Rattle.std.specs.FinMap.{IsAntisymmetric};

use std::cmp::Ordering;

/// A value that stands under a key of its own.
pub trait Keyed {
    /// What a value stands under.
    type Key: Copy;

    /// The key of a value.
    ghost key: { Self → Self.Key };

    /// The order of the keys.
    ghost order: { Self.Key → Self.Key → Ordering };

    /// The key that the value stands under.
    fn key(&self) -> Self::Key
        ensures key { result ≡ key self.now };

    /// Compares two keys.
    fn compare(a: Self::Key, b: Self::Key) -> Ordering
        ensures order { result ≡ order a b };

    /// The order is total,
    ghost total: { IsTotalOrder order };

    /// and keys that compare as equal are one.
    ghost exact: { IsAntisymmetric order };
}
