//! The first row of each timeout.

ghost use Rattle.std.specs.Prelude.{◌≡◌, ◌≤◌, find, map};
ghost use Rattle.std.specs.List.{All, slice_get};
ghost use Rattle.std.specs.Option.{option_copied, option_map};
ghost use Rattle.std.specs.Ordering.{is_lt};
ghost use Rattle.pfl_base.specs.Lists.{in_order};
ghost use Rattle.pfl_edits.specs.Maps as maps;
ghost use Rattle.pfl_table.specs.inner.DueHeads.{due_head, earlier as earlier_of, is_before};
ghost use Rattle.pfl_table.specs.inner.Heads.{by_timeout, comes_first as is_first_of, entry_of, head_after, heads_with, heads_without, is_head, timeout_of};
ghost use Rattle.pfl_table.specs.inner.Ordering.{due_before, expiry_cmp};
ghost use Rattle.pfl_table.specs.inner.Scales.{IsScaled};

use crate::keys::Expiry;
use crate::scales::{ScaledTimeout, seconds_of};
use pfl_containers::{Ordered, OrderedMap};
use pfl_edits::{Keyed, Rows};
use pfl_rules::Adaptive;
use std::alloc::Allocator;
use std::cmp::Ordering;

/// The first row of a timeout, by when it expires, and its slot.
#[derive(Clone, Copy)]
pub(crate) struct Head {
    key: Expiry,
    slot: usize,
}

impl Head {
    /// The timeout of its row, in seconds.
    #[inline]
    pub(crate) fn timeout(&self) -> u32
        ensures { result ≡ timeout_of self.now }
    {
        self.key.timeout()
    }
}

impl Keyed for Head {
    ghost use Rattle.std.specs.Ordering.{nat_cmp};
    ghost use Rattle.std.proofs.lemmas.Cmp.{nat_cmp_total};
    ghost use Rattle.std.proofs.lemmas.Map.Lookups.{exact_unsigned};
    ghost use Rattle.pfl_table.specs.inner.Heads.{timeout_of};

    type Key = u32;

    ghost key = { timeout_of };

    ghost order = { nat_cmp };

    fn key(&self) -> u32 {
        self.timeout()
    }

    fn compare(a: u32, b: u32) -> Ordering {
        a.cmp(&b)
    }

    ghost total = { nat_cmp_total };

    ghost exact = { exact_unsigned };
}

/// Puts an entry that came among the first of each timeout, if it is one of them.
pub(crate) fn enter<A: Allocator>(heads: &mut Rows<Head, A>, key: Expiry, slot: usize)
    requires room { maps.len (heads_with (by_timeout heads.old.list) (record { key = key; slot = slot })) ≤ heads.old.limit }
    ensures heads { by_timeout heads.new.list ≡ heads_with (by_timeout heads.old.list) (record { key = key; slot = slot }) }
    ensures limit { heads.new.limit ≡ heads.old.limit }
{
    if comes_first(key, heads.get(key.timeout())) {
        heads.set(key.timeout(), Some(Head { key, slot }));
    }
}

/// Whether no entry is first of the timeout of this one, or one that is not before it.
fn comes_first(key: Expiry, first: Option<&Head>) -> bool
    ensures first { result ≡ is_first_of (option_copied first.entry) key }
{
    match first {
        Some(first) => !first.key.compare(key).is_lt(),
        None => true,
    }
}

/// Puts the entry after one that went in the place of this one among the first of each timeout, or none.
pub(crate) fn leave<A: Allocator>(
    heads: &mut Rows<Head, A>,
    order: &OrderedMap<Expiry, usize, A>,
    key: Expiry,
)
    requires room { maps.len (heads_without (by_timeout heads.old.list) key (find (λ e. is_lt (expiry_cmp key e.0)) order.now.list)) ≤ heads.old.limit }
    ensures heads { by_timeout heads.new.list ≡ heads_without (by_timeout heads.old.list) key (find (λ e. is_lt (expiry_cmp key e.0)) order.now.list) }
    ensures limit { heads.new.limit ≡ heads.old.limit }
{
    if is_first(key, heads.get(key.timeout())) {
        heads.set(key.timeout(), with_timeout(key.timeout(), order.after(key)));
    }
}

/// Whether this entry is the first one of its timeout.
fn is_first(key: Expiry, first: Option<&Head>) -> bool
    ensures first { result ≡ is_head (option_copied first.entry) key }
{
    match first {
        Some(first) => key.compare(first.key).is_eq(),
        None => false,
    }
}

/// An entry as the first one of a timeout, if it has that timeout.
fn with_timeout(timeout: u32, entry: Option<(Expiry, usize)>) -> Option<Head>
    ensures head { result ≡ head_after timeout entry }
{
    let (key, slot) = entry?;
    if key.timeout() == timeout {
        Some(Head { key, slot })
    } else {
        None
    }
}

/// The entry that is due first of these where timeouts are scaled for this number of states. `scales` may have, at a head's place, what
/// its timeout is scaled to; where it has another timeout there, or none, this one is scaled here.
pub(crate) fn first_due(
    heads: &[Head],
    scales: &[ScaledTimeout],
    adaptive: Adaptive,
    states: usize,
) -> Option<(Expiry, usize)>
    requires scaled { All (IsScaled adaptive states) scales.now }
    ensures first { result ≡ slice_get (in_order (λ e f. due_before adaptive states e.0 f.0) (map entry_of heads.now)) 0 }
{
    let mut first = None;
    for (place, head) in heads.iter().enumerate() {
        let seconds = seconds_of(scales.get(place), head.timeout(), adaptive, states);
        first = Some(earlier(first, DueHead::of(head, seconds)));
    }
    entry_in(first)
}

/// A head, and when its row is due, in milliseconds.
#[derive(Clone, Copy)]
struct DueHead {
    at: u128,
    head: Head,
}

impl DueHead {
    /// The head with when it is due, if its timeout scales to this many seconds.
    #[inline]
    fn of(head: &Head, seconds: u32) -> DueHead
        ensures { result ≡ due_head head.now seconds }
    {
        DueHead {
            at: head.key.due_after(seconds),
            head: *head,
        }
    }

    /// Whether its row is due before that of another one: by when, then by name.
    #[inline]
    fn is_before(&self, other: &DueHead) -> bool
        ensures { result ≡ is_before self.now other.now }
    {
        self.at < other.at
            || (self.at == other.at && self.head.key.name().compare(other.head.key.name()).is_lt())
    }
}

/// Which of two heads is due first: the latter one unless the former is due before it.
#[inline]
fn earlier(first: Option<DueHead>, other: DueHead) -> DueHead
    ensures { result ≡ earlier_of first other }
{
    match first {
        Some(first) if first.is_before(&other) => first,
        _ => other,
    }
}

/// The entry of the head.
fn entry_in(first: Option<DueHead>) -> Option<(Expiry, usize)>
    ensures { result ≡ option_map (λ d. entry_of d.head) first }
{
    let first = first?;
    Some((first.head.key, first.head.slot))
}
