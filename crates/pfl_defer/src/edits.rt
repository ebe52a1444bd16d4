//! Edits of the held packets.
ghost use Rattle.std.specs.Prelude.{◌≡◌};

use crate::Held;

/// One packet was held or let go, at a place of the list, counted from 0.
#[derive(Clone, Copy, Debug, PartialEq, Eq)]
pub enum DeferEdit {
    /// It was held, and stands there now.
    Added { place: usize, held: Held },
    /// It was let go, and stood there.
    Removed { place: usize, held: Held },
}

impl DeferEdit {
    ghost use Rattle.pfl_defer.specs.Edits.{held_by};

    /// The packet that was held or let go.
    pub fn held(&self) -> Held
        ensures held { result ≡ held_by self.now }
    {
        match self {
            DeferEdit::Added { held, .. } | DeferEdit::Removed { held, .. } => *held,
        }
    }
}

/// What holding a packet changed: a full list let its oldest go first.
#[derive(Clone, Copy, Debug, PartialEq, Eq)]
pub struct HoldChange {
    /// The oldest was let go.
    pub released: Option<DeferEdit>,
    /// The packet was held.
    pub held: DeferEdit,
}
