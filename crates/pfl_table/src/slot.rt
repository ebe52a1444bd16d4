//! Where rows stand.

/// Where a row stood when it was found. It is a hint: a call that takes one looks first whether the row of the name stands there, and
/// looks the name up where it does not. So a hint that is wrong costs time, and nothing else.
#[derive(Clone, Copy, Debug, PartialEq, Eq)]
pub struct Slot {
    number: u32,
}

impl Slot {
    /// No hint.
    pub const UNKNOWN: Slot = Slot { number: u32::MAX };

    /// The hint of a place among the rows.
    pub(crate) fn of(place: usize) -> Slot {
        Slot {
            number: u32::try_from(place).unwrap_or(u32::MAX),
        }
    }

    /// The place among the rows.
    pub(crate) fn place(self) -> usize {
        self.number as usize
    }
}
