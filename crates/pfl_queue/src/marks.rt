//! The turns of marks in a frame, by which they are found.
ghost use Rattle.std.specs.Prelude.{◌≡◌};
ghost use Rattle.pfl_queue.specs.inner.Marked.{turn_cmp, turn_total, turn_exact, turn_of};

use crate::{Kind, Mark};
use pfl_containers::Ordered;
use std::cmp::Ordering;

/// A mark's turn in a frame: by the place of its kind, and then by its number.
#[derive(Clone, Copy)]
pub(crate) struct Turn {
    pub(crate) kind: usize,
    pub(crate) number: u64,
}

impl Turn {
    /// The turn of a mark.
    pub(crate) fn of(mark: &Mark) -> Turn
        ensures turn { result ≡ turn_of mark.now }
    {
        Turn {
            kind: mark.kind.place() as usize,
            number: mark.number,
        }
    }
}

impl Ordered for Turn {
    ghost order = { turn_cmp };

    fn compare(self, other: Turn) -> Ordering {
        match self.kind.cmp(&other.kind) {
            Ordering::Equal => self.number.cmp(&other.number),
            apart => apart,
        }
    }

    ghost total = { turn_total };

    ghost exact = { turn_exact };
}

impl Kind {
    ghost use Rattle.pfl_queue.specs.Taking.{kind_place};

    /// The place of the kind in a frame, from 0 to 4.
    pub(crate) fn place(self) -> u8
        ensures place { result ≡ kind_place self }
    {
        self as u8
    }
}
