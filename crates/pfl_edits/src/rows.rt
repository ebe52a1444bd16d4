//! Rows in the order of their keys, in room that was made at once.
ghost use Rattle.std.specs.Prelude.{◌≡◌, ◌==◌, ◌≤◌, ℕ, List, [], IfOk, IfSome, MatchResult, Option, filter, length};
ghost use Rattle.std.specs.Option.{option_copied};
ghost use Rattle.std.specs.Ordering.{is_lt};
ghost use Rattle.pfl_edits.specs.Maps as maps;
ghost use Rattle.pfl_edits.specs.Maps.{set_at};
ghost use Rattle.pfl_edits.specs.Rows.{map_of};
ghost use Rattle.pfl_edits.specs.Ordered.{RowList, AreRows, IsRising};
ghost use Rattle.pfl_edits.specs.inner.Ordered.{StandsIn, IsGap};

use crate::keyed::Keyed;
use crate::no_memory::NoMemory;
use std::alloc::Allocator;
use std::cmp::Ordering;
use std::marker::Model;
use std::mem;

/// Rows in the order of their keys, no two with one key. All room is made by `new`.
#[derive(Drop)]
pub struct Rows<X: Keyed, A: Allocator> {
    limit: usize,
    rows: Vec<X, A>,
}

impl<X: Keyed, A: Allocator> Model for Rows<X, A> {
    ghost use Rattle.std.specs.Prelude.{◌≤◌, vec_capacity};
    ghost use Rattle.pfl_edits.specs.Ordered.{RowList, AreRows};

    ghost Value = { RowList X };

    ghost view = { λ r. record { list = r.rows.items; limit = r.limit } };

    ghost invariant = { λ r. (r.limit ≤ vec_capacity r.rows) × AreRows X.order X.key (record { list = r.rows.items; limit = r.limit }) };
}

impl<X: Keyed, A: Allocator> Rows<X, A> {
    /// No rows, and room for `limit` of them.
    pub fn new(alloc: A, limit: usize) -> Result<Self, NoMemory>
        ensures limit { IfOk result (λ r. r.limit ≡ limit) }
        ensures empty { IfOk result (λ r. r.list ≡ []) }
    {
        let rows = Vec::with_capacity(alloc, limit)?;
        Ok(Rows { limit, rows })
    }

    /// How many rows there are.
    pub fn len(&self) -> usize
        ensures rows { result ≡ length self.now.list }
        ensures map { result ≡ maps.len (map_of X.order X.key self.now.list) }
    {
        self.as_slice().len()
    }

    /// There is no room for another row.
    pub fn is_full(&self) -> bool
        ensures full { result ≡ (length self.now.list == self.now.limit) }
    {
        self.len() == self.limit
    }

    /// The rows, in the order of their keys.
    pub fn as_slice(&self) -> &[X]
        ensures rows { result.now ≡ self.now.list }
        ensures ordered { AreRows X.order X.key self.now }
    {
        self.rows.as_slice()
    }

    /// The row with the key.
    pub fn get(&self, key: X::Key) -> Option<&X>
        ensures found { option_copied result ≡ maps.get (map_of X.order X.key self.now.list) key }
    {
        match place_of(&self.rows, key) {
            Ok(place) => Some(&self.rows[place]),
            Err(_) => None,
        }
    }

    /// The rows whose keys are above this one.
    pub fn after(&self, key: X::Key) -> &[X]
        ensures above { result.now ≡ filter (λ x. is_lt (X.order key (X.key x))) self.now.list }
    {
        match place_of(&self.rows, key) {
            Ok(place) => &self.rows[place + 1..],
            Err(place) => &self.rows[place..],
        }
    }

    /// Sets what stands under a key, in room that was made, and returns what stood there.
    pub fn set(&mut self, key: X::Key, at: Option<X>) -> Option<X>
        requires keyed { IfSome at (λ x. X.key x ≡ key) }
        requires room { maps.len (set_at (map_of X.order X.key self.old.list) key at) ≤ self.old.limit }
        ensures former { result ≡ maps.get (map_of X.order X.key self.old.list) key }
        ensures map { map_of X.order X.key self.new.list ≡ set_at (map_of X.order X.key self.old.list) key at }
        ensures limit { self.new.limit ≡ self.old.limit }
    {
        match (place_of(&self.rows, key), at) {
            (Ok(place), Some(row)) => Some(mem::replace(&mut self.rows[place], row)),
            (Ok(place), None) => Some(self.rows.remove(place)),
            (Err(place), Some(row)) => {
                self.rows.insert(place, row).unwrap();
                None
            }
            (Err(_), None) => None,
        }
    }

    /// What is true of each list of rows.
    pub fn known(&self)
        ensures rows { AreRows X.order X.key self.now }
    {
        let _ = &self.limit;
    }
}

impl<X: Keyed + Copy, A: Allocator + Copy> Rows<X, A> {
    /// The same rows, with room of their own.
    pub fn copy(&self) -> Result<Self, NoMemory>
        ensures same { IfOk result (λ copied. copied ≡ self.now) }
    {
        let mut rows = Vec::with_capacity(*self.rows.allocator(), self.limit)?;
        rows.extend_from_slice(&self.rows)?;
        Ok(Rows {
            limit: self.limit,
            rows,
        })
    }
}

/// Where the row with the key stands, or where it would.
fn place_of<X: Keyed>(rows: &[X], key: X::Key) -> Result<usize, usize>
    requires rising { IsRising X.order X.key rows.now }
    ensures place { MatchResult result (StandsIn X.key rows.now key) (IsGap X.order X.key rows.now key) }
{
    let mut low = 0;
    let mut high = rows.len();
    while low < high {
        let middle = low + (high - low) / 2;
        match X::compare(rows[middle].key(), key) {
            Ordering::Less => low = middle + 1,
            Ordering::Equal => return Ok(middle),
            Ordering::Greater => high = middle,
        }
    }
    Err(low)
}
