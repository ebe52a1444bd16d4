//! Names of states as keys of maps, and their hashes.
ghost use Rattle.std.specs.Prelude.{◌≡◌};
ghost use Rattle.pfl_containers.specs.NameKeys.{by_name_cmp, by_name_hash};
ghost use Rattle.pfl_containers.specs.inner.NameOrder.{by_name_total, by_name_exact};

use crate::hash::mix;
use crate::order::ordered::Ordered;
use pfl_base::StateName;
use std::cmp::Ordering;

/// A name, as a key of maps.
#[derive(Clone, Copy)]
pub struct ByName(pub StateName);

impl ByName {
    /// The hash of the name.
    pub fn hash(self) -> u64
        ensures hash { result ≡ by_name_hash self }
    {
        mix(mix(0, self.0.creator as u64), self.0.id)
    }
}

impl Ordered for ByName {
    ghost order = { by_name_cmp };

    fn compare(self, other: ByName) -> Ordering {
        self.0.compare(other.0)
    }

    ghost total = { by_name_total };

    ghost exact = { by_name_exact };
}
