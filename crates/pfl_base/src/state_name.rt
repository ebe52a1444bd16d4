//! Names of states.

ghost use Rattle.std.specs.Prelude.{◌≡◌, Some};

use std::cmp::Ordering;
use std::fmt;

/// The name of a state: the number of the boot that made it, and its number there. Names are in order by creator, and
/// then by id. A name prints as `1.12`.
#[derive(Clone, Copy, Debug, PartialEq, Eq, PartialOrd, Ord)]
pub struct StateName {
    /// The number of the boot.
    pub creator: u32,
    /// The number that the boot gave.
    pub id: u64,
}

impl StateName {
    ghost use Rattle.pfl_base.specs.Names.{name_cmp};

    /// The name that no state has. As a request it asks for all states.
    pub const NONE: StateName = StateName { creator: 0, id: 0 };

    /// The order of names, which is that of `Ord` too: by creator, and then by id.
    pub fn compare(self, other: StateName) -> Ordering
        ensures { result ≡ name_cmp self other }
    {
        self.cmp(&other)
    }
}

impl fmt::Display for StateName {
    ghost use Rattle.pfl_base.specs.Texts.{name_text};

    ghost output = { λ name. Some (name_text name) };

    fn fmt<W: fmt::Write>(&self, f: &mut fmt::Formatter<W>) -> fmt::Result {
        let StateName { creator, id } = self;
        write!(f, "{creator}.{id}")
    }
}
