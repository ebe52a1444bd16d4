//! An index by hash of slots, in room that was made at once.
//!
//! An entry is the number of a slot and a tag, the upper half of a hash: the index knows no keys, and asks its caller of
//! a slot whether it is the one. An entry stands in the bucket that its tag names, its home, or in the next free word
//! after it. There are twice as many buckets as entries at least, so that a search ends after few steps, and half as many
//! words again after them, so that no search goes round. An entry that is taken out leaves no mark: those after it
//! move up.

mod growth;
mod words;

ghost use Rattle.std.specs.Prelude.{◌≡◌, ◌==◌, ◌<◌, ◌-◌, ◌^◌, None, IfOk};
ghost use Rattle.pfl_edits.specs.Maps as maps;
ghost use Rattle.pfl_containers.specs.Slots.{AreTags, FindsBy, HasTag, tag_in};

use crate::slots::growth::{first_buckets, with_room};
use crate::slots::words::{Word, find_in, home_of, put, take_out};
use pfl_edits::NoMemory;
use std::alloc::Allocator;
use std::marker::Model;

/// The most slots that an index can have room for, and so the most rows and entries that are found by one.
pub const MOST_SLOTS: usize = 1 << 30;

/// The tag of a hash: its upper half.
#[inline]
pub fn tag_of(hash: u64) -> u32
    ensures tag { result ≡ tag_in hash }
{
    (hash >> 32) as u32
}

/// The tags of slots, by which a slot is found. All room is made by `new`, and by `copy` for the copy: no other call takes
/// memory, and a slot that is taken out leaves its room to another.
#[derive(Drop)]
pub struct SlotIndex<A: Allocator> {
    limit: usize,
    len: usize,
    buckets: usize,
    words: Vec<Word, A>,
    spare: Vec<Word, A>,
}

impl<A: Allocator> Model for SlotIndex<A> {
    ghost use Rattle.std.specs.Prelude.{vec_capacity};
    ghost use Rattle.pfl_containers.specs.Slots.{Tags, coded_tags};
    ghost use Rattle.pfl_containers.specs.inner.SlotWords.{tag_map, AreFields, AreSpare};

    ghost Value = { Tags };

    ghost coded = { coded_tags };

    ghost view = { λ h. record { tags = tag_map h.words.items; limit = h.limit } };

    ghost invariant = { λ h. AreFields h.limit h.len h.buckets h.words.items (vec_capacity h.words) × AreSpare h.limit h.spare.items (vec_capacity h.spare) };
}

impl<A: Allocator + Copy> SlotIndex<A> {
    /// No slots, and room for `limit` of them. There is no memory for more than 2³⁰.
    pub fn new(alloc: A, limit: usize) -> Result<Self, NoMemory>
        ensures limit { IfOk result (λ index. index.limit ≡ limit) }
        ensures empty { IfOk result (λ index. index.tags ≡ maps.empty) }
    {
        if limit > MOST_SLOTS {
            return Err(NoMemory);
        }
        let buckets = first_buckets(limit);
        let mut words = Vec::with_capacity(alloc, 3 * limit + 1)?;
        words.resize(buckets + buckets / 2, Word::free())?;
        let spare = Vec::with_capacity(alloc, limit + limit / 2)?;
        Ok(SlotIndex {
            limit,
            len: 0,
            buckets,
            words,
            spare,
        })
    }
}

impl<A: Allocator> SlotIndex<A> {
    /// How many slots there are.
    #[inline]
    pub fn len(&self) -> usize
        ensures len { result ≡ maps.len self.now.tags }
    {
        self.len
    }

    /// How many slots there is room for.
    #[inline]
    pub fn limit(&self) -> usize
        ensures limit { result ≡ self.now.limit }
    {
        self.limit
    }

    /// There is no room for another slot.
    #[inline]
    pub fn is_full(&self) -> bool
        ensures full { result ≡ (maps.len self.now.tags == self.now.limit) }
    {
        self.len == self.limit
    }

    /// The slot of this tag that is the one. `is_it` is asked of slots with the tag alone, until it says yes.
    #[inline]
    pub fn find<F: Fn(usize) -> bool>(&self, tag: u32, is_it: F) -> Option<usize>
        requires callable { (slot : _) → HasTag self.now.tags tag slot → F.pre is_it slot }
        ensures found { FindsBy (F.post is_it) self.now.tags tag result }
    {
        find_in(&self.words, home_of(tag, self.buckets), tag, is_it)
    }

    /// Puts a slot in, with its tag.
    pub fn insert(&mut self, tag: u32, slot: usize)
        requires small { slot < 2 ^ 32 - 1 }
        requires new { maps.get self.old.tags slot ≡ None }
        requires room { maps.len self.old.tags < self.old.limit }
        ensures tags { self.new.tags ≡ maps.insert self.old.tags slot tag }
        ensures limit { self.new.limit ≡ self.old.limit }
    {
        self.buckets = with_room(
            &mut self.words,
            &mut self.spare,
            self.limit,
            self.len,
            self.buckets,
        );
        put(&mut self.words, slot, tag, self.buckets);
        self.len += 1;
    }

    /// Takes a slot out, by its tag.
    pub fn remove(&mut self, tag: u32, slot: usize)
        requires stands { HasTag self.old.tags tag slot }
        ensures tags { self.new.tags ≡ maps.remove self.old.tags slot }
        ensures limit { self.new.limit ≡ self.old.limit }
    {
        take_out(&mut self.words, slot, tag, self.buckets);
        self.len -= 1;
    }

    /// What is true of each index.
    pub fn known(&self)
        ensures tags { AreTags self.now }
    {
        let _ = &self.limit;
    }
}

impl<A: Allocator + Copy> SlotIndex<A> {
    /// The same slots, with room of their own.
    pub fn copy(&self) -> Result<Self, NoMemory>
        ensures same { IfOk result (λ copied. copied ≡ self.now) }
    {
        let mut words = Vec::with_capacity(*self.words.allocator(), 3 * self.limit + 1)?;
        words.extend_from_slice(&self.words)?;
        let spare = Vec::with_capacity(*self.words.allocator(), self.limit + self.limit / 2)?;
        Ok(SlotIndex {
            limit: self.limit,
            len: self.len,
            buckets: self.buckets,
            words,
            spare,
        })
    }
}
