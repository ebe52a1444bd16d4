//! The rule of a count, and what each step shows.
use crate::count::view::View;
use atomic_table::{Join, Play, Split, TableRule};

/// What holds of all seats, between any two steps of any threads.
pub(crate) struct CountRule;

impl TableRule<(), View, ()> for CountRule {
    ghost use Rattle.pfl_publish.specs.Counted.{IsCounted, whole};

    ghost holds = { λ _. IsCounted };

    ghost first = { λ _. whole 0 };
}

/// The whole loads the word, which shows that the counts are equal.
pub(crate) struct Compares;

impl Play<(), View> for Compares {
    ghost use Rattle.pfl_publish.specs.Counted.{Agrees};

    ghost then = { Agrees };
}

/// The whole loads the word, and counts one more.
pub(crate) struct CountsOneMore;

impl Play<(), View> for CountsOneMore {
    ghost use Rattle.pfl_publish.specs.Counted.{GoesOn};

    ghost then = { GoesOn };
}

/// The whole is cut into halves.
pub(crate) struct Cuts;

impl Split<View> for Cuts {
    ghost use Rattle.pfl_publish.specs.Counted.{left_half, right_half};

    ghost left = { left_half };

    ghost right = { right_half };
}

/// The halves are made a whole, which keeps both counts.
pub(crate) struct Unites;

impl Join<View> for Unites {
    ghost use Rattle.pfl_publish.specs.Counted.{united, idle};

    ghost both = { united };

    ghost spent = { idle };
}
