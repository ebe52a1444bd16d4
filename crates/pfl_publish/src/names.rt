//! What a revision stands for, as contracts see it.
ghost use Rattle.std.specs.Prelude.{List, []};

use std::marker::Brand;

/// States for contracts what a revision stands for: the start for revision 0, and an entry for each later one. It has no call,
/// and so costs nothing.
pub trait Naming<H> {
    /// What the revision stands for.
    ghost named: { Self → H };
}

/// A revision that stands for nothing.
impl Naming<()> for () {
    ghost named = { λ _. tt };
}

/// The name that is passed to the store of a number, as a list of that one name. A step sees no argument of the call that makes
/// it, so the call picks an impl.
pub(crate) trait Picked<H> {
    ghost picked: { List H };
}

impl<H> Picked<H> for Brand {
    ghost picked = { [] };
}
