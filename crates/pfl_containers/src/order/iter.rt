//! The entries of a map in the order of their keys.
ghost use Rattle.std.specs.Prelude.{length};
ghost use Rattle.std.specs.Iterator.{at_most};
ghost use Rattle.std.specs.Map.Iter.{TakesFirst, GivesInOrder};

use crate::order::OrderedMap;
use crate::order::ordered::Ordered;
use std::alloc::Allocator;
use std::marker::Model;

/// An iterator over the entries of a map, in the order of their keys. Each step takes time in the logarithm of the map's
/// length.
#[derive(Drop)]
pub struct Iter<'a, K: Ordered, V: Copy, A: Allocator> {
    map: &'a OrderedMap<K, V, A>,
    seen: Option<K>,
}

impl<'a, K: Ordered, V: Copy, A: Allocator> Model for Iter<'a, K, V, A> {
    ghost use Rattle.std.specs.Prelude.{List};
    ghost use Rattle.pfl_containers.specs.OrderEntries.{behind};

    ghost Value = { List (K × V) };

    ghost view = { λ s. behind K.order s.seen s.map.now.list };
}

impl<K: Ordered, V: Copy, A: Allocator> OrderedMap<K, V, A> {
    ghost use Rattle.std.specs.Prelude.{◌≡◌};
    ghost use Rattle.pfl_containers.specs.inner.Views.{IsNextBehind};

    /// The entries, in the order of their keys.
    pub fn iter(&self) -> Iter<'_, K, V, A>
        ensures rest { result ≡ self.now.list }
        ensures runs { GivesInOrder (K × V) }
    {
        Iter {
            map: self,
            seen: None,
        }
    }

    /// The first entry above a key, or of all.
    fn next_after(&self, seen: Option<K>) -> Option<(K, V)>
        ensures next { IsNextBehind K.order seen self.now.list result }
    {
        self.known();
        match seen {
            Some(key) => self.after(key),
            None => self.first(),
        }
    }
}

impl<'a, K: Ordered, V: Copy, A: Allocator> Iterator for Iter<'a, K, V, A> {
    type Item = (K, V);

    ghost next_gives = { TakesFirst (λ e. e) };

    ghost remaining = { λ s. at_most (length s) };

    fn next(&mut self) -> Option<(K, V)> {
        let entry = self.map.next_after(self.seen)?;
        self.seen = Some(entry.0);
        Some(entry)
    }
}
