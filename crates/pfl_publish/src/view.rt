//! What each seat knows. Values of these types stand in contracts and proofs alone: this crate makes none.
use std::collections::LinkedList;

/// A revision as contracts see it: its eight words, and what it stands for.
pub struct Published<H> {
    pub words: LinkedList<u64>,
    pub named: H,
}

/// What one seat knows of the one list of revisions.
pub struct View<H> {
    /// Whether the seat has the writer's part. There is one such seat.
    pub writes: bool,
    /// The writer's part: all revisions.
    pub list: LinkedList<Published<H>>,
    /// The writer's part: the words that it has stored of the next revision.
    pub next: LinkedList<u64>,
    /// The viewer's part: the revisions up to its floor.
    pub seen: LinkedList<Published<H>>,
    /// The shorter list of the last join, until the seat loads the number again.
    pub old: LinkedList<Published<H>>,
    /// Whether a try is open. It is at the floor.
    pub trying: bool,
    /// The words that were loaded in the try.
    pub held: LinkedList<u64>,
    /// The numbers that this seat has loaded, the oldest first.
    pub loads: LinkedList<u64>,
}
