//! More buckets for an index of slots, in room that was made.
ghost use Rattle.std.specs.Prelude.{◌≡◌, ◌≤◌, ◌<◌, ◌+◌, ◌*◌, ◌/◌, ◌^◌, [], length, vec_capacity};
ghost use Rattle.std.specs.Ordering.{nat_cmp};
ghost use Rattle.pfl_edits.specs.Maps as maps;
ghost use Rattle.pfl_containers.specs.inner.Entries.{Distinct, NoGap};
ghost use Rattle.pfl_containers.specs.inner.SlotWords.{entries_in, tag_map, AreWords, AreFields, AreSpare};

use crate::slots::words::{Word, put};
use std::alloc::Allocator;

/// The buckets that an index begins with, where it has room for as many slots. More come with the slots, so that an index
/// of few slots is small.
const FIRST: usize = 16;

/// The buckets of an index of no slots.
#[inline]
pub(crate) fn first_buckets(limit: usize) -> usize
    requires small { limit ≤ 2 ^ 30 }
    ensures some { 0 < result }
    ensures most { result ≤ 2 * limit + 1 }
    ensures sparse { result < 2 * limit + 1 → result ≤ limit }
{
    if limit < FIRST { 2 * limit + 1 } else { FIRST }
}

/// Sees to room for an entry more: where there are half as many entries as buckets, they are spread over more of these.
/// Returns the number of buckets.
#[inline]
pub(crate) fn with_room<A: Allocator>(
    words: &mut Vec<Word, A>,
    spare: &mut Vec<Word, A>,
    limit: usize,
    len: usize,
    buckets: usize,
) -> usize
    requires fields { AreFields limit len buckets words.old.items (vec_capacity words.old) }
    requires spare { AreSpare limit spare.old.items (vec_capacity spare.old) }
    requires room { len < limit }
    ensures fields { AreFields limit len result words.new.items (vec_capacity words.new) }
    ensures spare { AreSpare limit spare.new.items (vec_capacity spare.new) }
    ensures map { tag_map words.new.items ≡ tag_map words.old.items }
    ensures room { len < result / 2 }
{
    if len < buckets / 2 {
        return buckets;
    }
    let more = more_buckets(buckets, limit);
    spread(words, spare, more);
    more
}

/// Twice as many buckets, as long as these are no more than the limit, and then the most.
#[inline]
fn more_buckets(buckets: usize, limit: usize) -> usize
    requires some { 0 < buckets }
    requires few { buckets ≤ limit }
    requires small { limit ≤ 2 ^ 30 }
    ensures more { buckets < result }
    ensures most { result ≤ 2 * limit + 1 }
    ensures sparse { result < 2 * limit + 1 → result ≤ limit }
    ensures room { buckets / 2 < result / 2 }
{
    if 2 * buckets <= limit {
        2 * buckets
    } else {
        2 * limit + 1
    }
}

/// Spreads the entries over more buckets.
fn spread<A: Allocator>(words: &mut Vec<Word, A>, spare: &mut Vec<Word, A>, buckets: usize)
    requires some { 0 < buckets }
    requires few { buckets < 2 ^ 32 }
    requires distinct { Distinct nat_cmp (entries_in words.old.items) }
    requires entries { maps.len (tag_map words.old.items) ≤ buckets / 2 }
    requires room { buckets + buckets / 2 ≤ vec_capacity words.old }
    requires spare { spare.old.items ≡ [] }
    requires spare_room { length words.old.items ≤ vec_capacity spare.old }
    ensures words { AreWords buckets words.new.items NoGap }
    ensures map { tag_map words.new.items ≡ tag_map words.old.items }
    ensures long { length words.new.items ≡ buckets + buckets / 2 }
    ensures room { vec_capacity words.old ≤ vec_capacity words.new }
    ensures spare { spare.new.items ≡ [] }
    ensures spare_room { vec_capacity spare.old ≤ vec_capacity spare.new }
{
    spare.extend_from_slice(words).unwrap();
    words.clear();
    words.resize(buckets + buckets / 2, Word::free()).unwrap();
    put_all(words, spare, buckets);
}

/// Takes each entry out of the spare words and puts it in.
fn put_all<A: Allocator>(words: &mut [Word], spare: &mut Vec<Word, A>, buckets: usize)
    requires some { 0 < buckets }
    requires few { buckets < 2 ^ 32 }
    requires words { AreWords buckets words.old NoGap }
    requires empty { tag_map words.old ≡ maps.empty }
    requires distinct { Distinct nat_cmp (entries_in spare.old.items) }
    requires room { maps.len (tag_map spare.old.items) + buckets ≤ length words.old }
    ensures words { AreWords buckets words.new NoGap }
    ensures map { tag_map words.new ≡ tag_map spare.old.items }
    ensures spare { spare.new.items ≡ [] }
    ensures spare_room { vec_capacity spare.new ≡ vec_capacity spare.old }
{
    while let Some(word) = spare.pop() {
        if let Some((slot, tag)) = word.entry() {
            put(words, slot, tag, buckets);
        }
    }
}
