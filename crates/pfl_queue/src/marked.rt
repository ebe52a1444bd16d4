//! Marks at slots: a list of each kind, in the order of the numbers, and the slot of each name and of each turn.
ghost use Rattle.std.specs.Prelude.{◌≡◌, ◌↔◌, [], ◌++◌, ◌<◌, ◌≤◌, IfOk, IfSome, IsTrue, None, OnOk, length, map, take};
ghost use Rattle.pfl_containers.specs.Lists.{Place, count_of, link, links_of, with_links};
ghost use Rattle.pfl_edits.specs.Maps as maps;
ghost use Rattle.pfl_edits.specs.Maps.{set_at};
ghost use Rattle.pfl_queue.specs.inner.Marked.{AreApart, AreInTurn, AreOrdered, AreTagged, IsNew, all_links, listed, mark_number, mark_of_link};
ghost use Rattle.pfl_queue.specs.inner.Marked.{marks_of, name_tag, slot_named};
ghost use Rattle.pfl_queue.specs.inner.Rising.{HasNone, InsertsInOrder, IsAbove, IsBelow, IsRising, OrderedGap};
ghost use Rattle.pfl_queue.specs.Taking.{kind_place};

use crate::Mark;
use crate::marks::Turn;
use pfl_base::StateName;
use pfl_containers::{ByName, Chains, MOST_SLOTS, OrderedMap, SlotIndex, tag_of};
use pfl_edits::NoMemory;
use std::alloc::{AllocError, Allocator};
use std::marker::Model;

/// How many kinds there are.
const KINDS: usize = 5;

/// Marks at slots: a list of each kind, in the order of the numbers, and the slot of each name and of each turn, so that
/// a name is found in a few steps, and the place where a mark belongs in time in the logarithm of what stands. All room
/// is made by `new` and by `copy`.
#[derive(Drop)]
pub(crate) struct Marks<A: Allocator> {
    queues: Chains<Mark, A>,
    names: SlotIndex<A>,
    order: OrderedMap<Turn, usize, A>,
}

impl<A: Allocator> Model for Marks<A> {
    ghost use Rattle.pfl_containers.specs.Lists.{Lists};
    ghost use Rattle.pfl_queue.specs.declared.Mark.{Mark};
    ghost use Rattle.pfl_queue.specs.inner.Marked.{AreMarked};

    ghost Value = { Lists Mark };

    ghost view = { λ m. m.queues };

    ghost invariant = { λ m. AreMarked m.queues m.names m.order };
}

impl<A: Allocator + Copy> Marks<A> {
    /// No marks, and room for `limit` of them. There is no memory for more than 2³⁰.
    pub(crate) fn new(alloc: A, limit: usize) -> Result<Self, NoMemory>
        ensures limit { IfOk result (λ m. m.limit ≡ limit) }
        ensures empty { IfOk result (λ m. marks_of m.lists ≡ maps.empty) }
    {
        if limit > MOST_SLOTS {
            return Err(NoMemory);
        }
        let queues = Chains::new(alloc, KINDS, limit)?;
        let names = SlotIndex::new(alloc, limit)?;
        let order = OrderedMap::new(alloc, limit)?;
        Ok(Marks {
            queues,
            names,
            order,
        })
    }

    /// The same marks, with room of their own.
    pub(crate) fn copy(&self) -> Result<Self, NoMemory>
        ensures same { IfOk result (λ m. m ≡ self.now) }
    {
        let queues = self.queues.copy()?;
        let names = self.names.copy()?;
        let order = self.order.copy()?;
        Ok(Marks {
            queues,
            names,
            order,
        })
    }
}

impl<A: Allocator> Marks<A> {
    /// How many marks there are.
    #[inline]
    pub(crate) fn len(&self) -> usize
        ensures marks { result ≡ maps.len (marks_of self.now.lists) }
    {
        self.queues.len()
    }

    /// The mark of a name.
    #[inline]
    pub(crate) fn get(&self, name: StateName) -> Option<Mark>
        ensures found { result ≡ maps.get (marks_of self.now.lists) name }
    {
        match slot_of(&self.queues, &self.names, name) {
            Some(slot) => Some(self.queues.value(slot)),
            None => None,
        }
    }

    /// Sets what stands under a name, in room that was made. The mark stands where its number belongs, whatever was set
    /// before it.
    pub(crate) fn set(&mut self, name: StateName, at: Option<Mark>)
        requires keyed { IfSome at (λ m. m.name ≡ name) }
        requires room { maps.len (set_at (marks_of self.old.lists) name at) ≤ self.old.limit }
        requires apart { AreApart (set_at (marks_of self.old.lists) name at) }
        ensures set { marks_of self.new.lists ≡ set_at (marks_of self.old.lists) name at }
        ensures limit { self.new.limit ≡ self.old.limit }
    {
        self.remove(name);
        match at {
            Some(mark) => self.insert(mark),
            None => {}
        }
    }

    /// Takes the mark of a name out, if there is one.
    pub(crate) fn remove(&mut self, name: StateName)
        ensures marks { marks_of self.new.lists ≡ maps.remove (marks_of self.old.lists) name }
        ensures limit { self.new.limit ≡ self.old.limit }
    {
        match slot_of(&self.queues, &self.names, name) {
            Some(slot) => {
                let gone = self.queues.remove(slot);
                self.names.remove(tag(name), slot);
                self.order.remove(Turn::of(&gone));
            }
            None => {}
        }
    }

    /// Puts a mark whose name is off into the list of its kind, at the place of its number.
    fn insert(&mut self, mark: Mark)
        requires room { maps.len (marks_of self.old.lists) < self.old.limit }
        requires off { maps.get (marks_of self.old.lists) mark.name ≡ None }
        requires new { IsNew (marks_of self.old.lists) mark.number }
        ensures marks { marks_of self.new.lists ≡ maps.insert (marks_of self.old.lists) mark.name mark }
        ensures limit { self.new.limit ≡ self.old.limit }
    {
        let slot = put_in_order(&mut self.queues, &self.order, mark);
        self.names.insert(tag(mark.name), slot);
        self.order.insert(Turn::of(&mark), slot);
    }
}

impl<A: Allocator + Copy> Marks<A> {
    /// The marks, kind after kind and then by number: the first `most` of them, or all where there are fewer.
    pub(crate) fn first(&self, alloc: A, most: usize) -> Result<Vec<Mark, A>, NoMemory>
        ensures first { IfOk result (λ marks. marks.items ≡ take most (listed self.now.lists)) }
        ensures turn { OnOk result (AreInTurn self.now) }
    {
        let mut marks = Vec::with_capacity(alloc, most.min(self.queues.len()))?;
        push_kinds(&self.queues, most, &mut marks)?;
        Ok(marks)
    }
}

/// The tag that the index has for a name.
#[inline]
#[tactic(auto, unfolding(crate::specs::inner::Marked::name_tag))]
fn tag(name: StateName) -> u32
    ensures tag { result ≡ name_tag name }
{
    tag_of(ByName(name).hash())
}

/// The slot where the mark of a name stands. Each mark whose name has the same tag may be asked for its name.
#[inline]
fn slot_of<A: Allocator>(
    queues: &Chains<Mark, A>,
    names: &SlotIndex<A>,
    name: StateName,
) -> Option<usize>
    requires tagged { AreTagged queues.now.lists names.now.tags }
    ensures slot { result ≡ slot_named (all_links queues.now.lists) name }
{
    names.find(
        tag(name),
        |slot|
            requires { Place queues.now slot }
            ensures { (at : Place queues.entry.now slot) → IsTrue result ↔ (at.value.name ≡ name) }
        { queues.at(slot).name == name },
    )
}

/// Puts a mark into the list of its kind, at the place of its number. Returns its slot, which no list had.
fn put_in_order<A: Allocator>(
    queues: &mut Chains<Mark, A>,
    order: &OrderedMap<Turn, usize, A>,
    mark: Mark,
) -> usize
    requires ordered { AreOrdered queues.old order.now }
    requires room { count_of queues.old.lists < queues.old.limit }
    requires new { HasNone mark_number mark.number (links_of queues.old (kind_place mark.kind)) }
    ensures inserted { InsertsInOrder mark_number (links_of queues.old (kind_place mark.kind)) (links_of queues.new (kind_place mark.kind)) (link result mark) }
    ensures others { queues.new ≡ with_links queues.old (kind_place mark.kind) (links_of queues.new (kind_place mark.kind)) }
    ensures fresh { Place queues.old result → ⊥ }
    ensures below { result < queues.new.limit }
{
    let turn = Turn::of(&mark);
    let previous = place_of(queues, order, turn);
    let slot = queues.insert_after(turn.kind, previous, mark);
    queues.known();
    slot
}

/// The slot of its list after which a turn belongs: None is in front of the first. The list's ends are looked at before
/// the order is searched: marks that a frame had taken belong in front, and a new mark at the end.
fn place_of<A: Allocator>(
    queues: &Chains<Mark, A>,
    order: &OrderedMap<Turn, usize, A>,
    turn: Turn,
) -> Option<usize>
    requires ordered { AreOrdered queues.now order.now }
    requires kind { turn.kind < length queues.now.lists }
    requires new { HasNone mark_number turn.number (links_of queues.now turn.kind) }
    ensures gap { OrderedGap mark_number turn.number queues.now turn.kind result }
{
    if belongs_first(queues, turn.kind, turn.number) {
        return None;
    }
    if belongs_last(queues, turn.kind, turn.number) {
        return queues.last(turn.kind);
    }
    place_among(queues, order, turn)
}

/// A number is below those of a list.
fn belongs_first<A: Allocator>(queues: &Chains<Mark, A>, kind: usize, number: u64) -> bool
    requires kind { kind < length queues.now.lists }
    requires rising { IsRising mark_number (links_of queues.now kind) }
    ensures first { IsTrue result → IsAbove mark_number number (links_of queues.now kind) }
{
    match queues.first(kind) {
        Some(slot) => number < queues.at(slot).number,
        None => true,
    }
}

/// A number is above those of a list.
fn belongs_last<A: Allocator>(queues: &Chains<Mark, A>, kind: usize, number: u64) -> bool
    requires kind { kind < length queues.now.lists }
    requires rising { IsRising mark_number (links_of queues.now kind) }
    ensures last { IsTrue result → IsBelow mark_number number (links_of queues.now kind) }
{
    match queues.last(kind) {
        Some(slot) => queues.at(slot).number < number,
        None => true,
    }
}

/// The slot of its list after which a turn belongs, by the first turn above it: that is of the same list, or else the
/// turn belongs at the list's end.
fn place_among<A: Allocator>(
    queues: &Chains<Mark, A>,
    order: &OrderedMap<Turn, usize, A>,
    turn: Turn,
) -> Option<usize>
    requires ordered { AreOrdered queues.now order.now }
    requires kind { turn.kind < length queues.now.lists }
    requires new { HasNone mark_number turn.number (links_of queues.now turn.kind) }
    ensures gap { OrderedGap mark_number turn.number queues.now turn.kind result }
{
    order.known();
    match order.after(turn) {
        Some((above, next)) => {
            if above.kind == turn.kind {
                queues.previous(next)
            } else {
                queues.last(turn.kind)
            }
        }
        None => queues.last(turn.kind),
    }
}

/// Puts the marks of all kinds one after another: the first `most` of them, or all where there are fewer.
fn push_kinds<A: Allocator>(
    queues: &Chains<Mark, A>,
    most: usize,
    marks: &mut Vec<Mark, A>,
) -> Result<(), AllocError>
    requires five { length queues.now.lists ≡ 5 }
    requires none { marks.old.items ≡ [] }
    ensures pushed { OnOk result (marks.new.items ≡ take most (listed queues.now.lists)) }
{
    for kind in 0..KINDS {
        push_kind(queues, kind, most, marks)?;
    }
    Ok(())
}

/// Puts the marks of one kind after others, in the order of their numbers, until there are `most` in all.
fn push_kind<A: Allocator>(
    queues: &Chains<Mark, A>,
    kind: usize,
    most: usize,
    marks: &mut Vec<Mark, A>,
) -> Result<(), AllocError>
    requires kind { kind < length queues.now.lists }
    requires few { length marks.old.items ≤ most }
    ensures pushed { OnOk result (marks.new.items ≡ take most (marks.old.items ++ map mark_of_link (links_of queues.now kind))) }
{
    let mut next = queues.first(kind);
    while marks.len() < most {
        let Some(slot) = next else { return Ok(()) };
        marks.push(queues.value(slot))?;
        next = queues.next(slot);
    }
    Ok(())
}
