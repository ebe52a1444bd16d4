//! The words of an index of slots. An entry stands at the home of its tag, or after it with no free word between.
ghost use Rattle.std.specs.Prelude.{◌≡◌, ◌↔◌, ◌≤◌, ◌<◌, ◌+◌, ◌^◌, ℕ, IfSome, IsTrue, length, Some, None, true, false};
ghost use Rattle.pfl_edits.specs.Maps as maps;
ghost use Rattle.pfl_containers.specs.inner.Entries.{NoGap, GapAt};
ghost use Rattle.pfl_containers.specs.inner.SlotWords.{no_slot, entry_in, entry_at, tag_map, home_in, AreWords, StandsAt, SearchGives, IsFree};

/// The number that no slot has: it marks a free word.
const NO_SLOT: u32 = u32::MAX;

/// The number of a slot and its tag, or neither.
#[derive(Clone, Copy)]
pub(crate) struct Word {
    slot: u32,
    tag: u32,
}

impl Word {
    /// A free word.
    #[inline]
    pub(crate) fn free() -> Self
        ensures free { entry_in result ≡ None }
    {
        Word {
            slot: NO_SLOT,
            tag: 0,
        }
    }

    /// The slot and its tag.
    #[inline]
    pub(crate) fn entry(self) -> Option<(usize, u32)>
        ensures entry { result ≡ entry_in self }
        ensures small { IfSome result (λ e. e.0 < no_slot) }
    {
        if self.slot == NO_SLOT {
            None
        } else {
            Some((self.slot as usize, self.tag))
        }
    }

    /// It has the number of the slot.
    #[inline]
    fn is_of(self, slot: usize) -> bool
        ensures same { IsTrue result ↔ (self.slot ≡ slot) }
    {
        self.slot as usize == slot
    }
}

/// The place from which a tag is looked for: as a part of 2³², taken of the buckets.
#[inline]
pub(crate) fn home_of(tag: u32, buckets: usize) -> usize
    requires some { 0 < buckets }
    requires few { buckets < 2 ^ 32 }
    ensures home { result ≡ home_in buckets tag }
    ensures within { result < buckets }
{
    const WHOLE: usize = 1 << 32;
    tag as usize * buckets / WHOLE
}

/// The first slot of the tag that is the one looked for.
#[inline]
pub(crate) fn find_in<F: Fn(usize) -> bool>(
    words: &[Word],
    home: usize,
    tag: u32,
    is_it: F,
) -> Option<usize>
    requires within { home ≤ length words.now }
    requires callable { (place slot : ℕ) → StandsAt words.now tag slot place → F.pre is_it slot }
    ensures found { SearchGives (λ slot. F.post is_it slot true) (λ slot. F.post is_it slot false) words.now tag home result }
{
    for place in home..words.len() {
        match words[place].entry() {
            None => return None,
            Some((slot, found)) => {
                if found == tag && is_it(slot) {
                    return Some(slot);
                }
            }
        }
    }
    None
}

/// Puts an entry at the first free place from its home on.
pub(crate) fn put(words: &mut [Word], slot: usize, tag: u32, buckets: usize)
    requires some { 0 < buckets }
    requires few { buckets < 2 ^ 32 }
    requires words { AreWords buckets words.old NoGap }
    requires small { slot < no_slot }
    requires new { maps.get (tag_map words.old) slot ≡ None }
    requires room { maps.len (tag_map words.old) + buckets ≤ length words.old }
    ensures words { AreWords buckets words.new NoGap }
    ensures map { tag_map words.new ≡ maps.insert (tag_map words.old) slot tag }
{
    let place = free_from(words, home_of(tag, buckets));
    words[place] = Word {
        slot: slot as u32,
        tag,
    };
}

/// The first free place from a place on, and the end where each is taken.
#[inline]
fn free_from(words: &[Word], home: usize) -> usize
    requires within { home ≤ length words.now }
    ensures free { IsFree words.now home result }
{
    for place in home..words.len() {
        if words[place].entry().is_none() {
            return place;
        }
    }
    words.len()
}

/// Takes the entry of a slot out.
pub(crate) fn take_out(words: &mut [Word], slot: usize, tag: u32, buckets: usize)
    requires some { 0 < buckets }
    requires few { buckets < 2 ^ 32 }
    requires words { AreWords buckets words.old NoGap }
    requires stands { maps.get (tag_map words.old) slot ≡ Some tag }
    ensures words { AreWords buckets words.new NoGap }
    ensures map { tag_map words.new ≡ maps.remove (tag_map words.old) slot }
{
    let place = place_of(words, home_of(tag, buckets), slot);
    words[place] = Word::free();
    close_gap(words, place, buckets);
}

/// Where the entry of a slot stands.
#[inline]
fn place_of(words: &[Word], home: usize, slot: usize) -> usize
    requires stands { (place tag : ℕ) × (home ≤ place) × StandsAt words.now tag slot place }
    ensures here { (tag : ℕ) × StandsAt words.now tag slot result }
{
    let mut place = home;
    while !words[place].is_of(slot) {
        place += 1;
    }
    place
}

/// Moves entries towards their homes, so that a word that was freed hides none of them.
fn close_gap(words: &mut [Word], mut gap: usize, buckets: usize)
    requires some { 0 < buckets }
    requires few { buckets < 2 ^ 32 }
    requires within { gap < length words.old }
    requires free { entry_at words.old gap ≡ None }
    requires words { AreWords buckets words.old (GapAt gap) }
    ensures words { AreWords buckets words.new NoGap }
    ensures map { tag_map words.new ≡ tag_map words.old }
{
    for place in gap + 1..words.len() {
        let word = words[place];
        match word.entry() {
            None => return,
            Some((_, tag)) => {
                if home_of(tag, buckets) <= gap {
                    words[place] = Word::free();
                    words[gap] = word;
                    gap = place;
                }
            }
        }
    }
}
