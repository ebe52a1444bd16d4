//! Entries one after another, wherever they are kept.
ghost use Rattle.std.specs.Prelude.{◌≡◌, [], ◌∷◌, ◌++◌, MatchOption};
ghost use Rattle.std.specs.Iterator.{YieldsFirstRef, item_count};
ghost use Rattle.pfl_edits.specs.Linked.{entries_from, next_of as next_in};

use std::marker::Model;

/// A node of a ring of entries.
#[derive(Clone, Copy)]
pub struct Node {
    /// The number of the ring.
    pub ring: u32,

    /// The node before it.
    pub previous: u32,

    /// The node after it.
    pub next: u32,
}

/// Entries one after another, seen as the list of those that are left. It says nothing of where they are kept.
#[derive(Drop)]
pub struct InOrder<'a, X> {
    rest: &'a [X],
    back: &'a [X],
    linked: Option<Linked<'a, X>>,
}

impl<'a, X> Model for InOrder<'a, X> {
    ghost use Rattle.std.specs.Prelude.{List, [], ◌++◌};
    ghost use Rattle.std.specs.Option.{unwrap_or};

    ghost Value = { List X };

    ghost view = { λ entries. entries.rest.now ++ entries.back.now ++ unwrap_or entries.linked [] };
}

impl<'a, X> InOrder<'a, X> {
    /// The entries of a slice.
    pub fn of(entries: &'a [X]) -> InOrder<'a, X>
        ensures entries { result ≡ entries.now }
    {
        InOrder::of_slices(entries, &entries[..0])
    }

    /// The entries of two slices, one after the other: those of a queue, say, whose room is a ring.
    pub fn of_slices(front: &'a [X], back: &'a [X]) -> InOrder<'a, X>
        ensures entries { result ≡ front.now ++ back.now }
    {
        InOrder {
            rest: front,
            back,
            linked: None,
        }
    }

    /// The values of linked nodes, from one on: at most this many, up to the first node that has none.
    pub fn linked(nodes: &'a [Node], values: &'a [X], at: usize, steps: usize) -> InOrder<'a, X>
        ensures entries { result ≡ entries_from nodes.now values.now steps at }
    {
        let linked = Linked {
            nodes,
            values,
            at,
            steps,
        };
        InOrder {
            rest: &values[..0],
            back: &values[..0],
            linked: Some(linked),
        }
    }
}

impl<'a, X> Iterator for InOrder<'a, X> {
    type Item = &'a X;

    ghost next_gives = { YieldsFirstRef (λ rest. rest) };

    ghost remaining = { item_count (λ rest. rest) };

    fn next(&mut self) -> Option<&'a X> {
        if let Some((first, others)) = self.rest.split_first() {
            self.rest = others;
            return Some(first);
        }
        if let Some((first, others)) = self.back.split_first() {
            self.back = others;
            return Some(first);
        }
        let (first, others) = self.linked.take()?.step()?;
        self.linked = Some(others);
        Some(first)
    }
}

/// Entries that are linked: at most `steps` of them, from a node on.
#[derive(Drop)]
struct Linked<'a, X> {
    nodes: &'a [Node],
    values: &'a [X],
    at: usize,
    steps: usize,
}

impl<'a, X> Model for Linked<'a, X> {
    ghost use Rattle.std.specs.Prelude.{List};
    ghost use Rattle.pfl_edits.specs.Linked.{entries_from};

    ghost Value = { List X };

    ghost view = { λ l. entries_from l.nodes.now l.values.now l.steps l.at };
}

impl<'a, X> Linked<'a, X> {
    /// The first entry, and those after it.
    fn step(self) -> Option<(&'a X, Linked<'a, X>)>
        ensures first { MatchOption result (self.entry ≡ []) (λ r. self.entry ≡ r.0.now ∷ r.1) }
    {
        if self.steps == 0 {
            return None;
        }
        let value = self.values.get(self.at)?;
        let behind = Linked {
            at: next_of(self.nodes, self.at),
            steps: self.steps - 1,
            ..self
        };
        Some((value, behind))
    }
}

/// The node after a node.
fn next_of(nodes: &[Node], at: usize) -> usize
    ensures next { result ≡ next_in nodes.now at }
{
    match nodes.get(at) {
        Some(node) => node.next as usize,
        None => 0,
    }
}
