//! Queues whose entries are named by their positions.
ghost use Rattle.std.specs.Prelude.{◌≡◌, ◌≤◌, IfOk, length, take};
ghost use Rattle.std.specs.VecDeque.Iter.{deque_iter_rest};
ghost use Rattle.std.specs.VecDeque.{deque_capacity};
ghost use Rattle.pfl_edits.specs.Places.{StandsAt, with_position};

use pfl_edits::{InOrder, NoMemory};
use std::alloc::Allocator;
use std::collections::VecDeque;
use std::collections::vec_deque::Iter;

/// Changes what stands at a position, in room that was made. None means that the entry is absent, and those after it
/// move by one, or those before it where they are fewer.
pub fn set_position<X: Copy, A: Allocator>(
    list: &mut VecDeque<X, A>,
    position: usize,
    before: Option<X>,
    after: Option<X>,
)
    requires stands { StandsAt list.old.items position before }
    requires room { length (with_position list.old.items position before after) ≤ deque_capacity list.old }
    ensures list { list.new.items ≡ with_position list.old.items position before after }
    ensures room { deque_capacity list.old ≤ deque_capacity list.new }
{
    match (before, after) {
        (None, None) => {}
        (None, Some(new)) => list.insert(position, new).unwrap(),
        (Some(_), None) => {
            list.remove(position);
        }
        (Some(_), Some(new)) => list[position] = new,
    }
}

/// The entries, from the front to the back.
#[inline]
pub fn in_order<X, A: Allocator>(list: &VecDeque<X, A>) -> InOrder<'_, X>
    ensures entries { result ≡ list.now.items }
{
    let (front, back) = list.as_slices();
    InOrder::of_slices(front, back)
}

/// The first `most` entries, or all where there are fewer.
#[inline]
pub fn first<X, A: Allocator>(list: &VecDeque<X, A>, most: usize) -> Iter<'_, X>
    ensures first { deque_iter_rest result ≡ take most list.now.items }
{
    list.range(..most.min(list.len()))
}

/// The same entries, in room of their own for `limit` of them, and for more where there are more.
pub fn copied<X: Copy, A: Allocator>(
    alloc: A,
    list: &VecDeque<X, A>,
    limit: usize,
) -> Result<VecDeque<X, A>, NoMemory>
    ensures entries { IfOk result (λ r. r.items ≡ list.now.items) }
    ensures room { IfOk result (λ r. limit ≤ deque_capacity r) }
{
    let (front, back) = list.as_slices();
    let mut entries = Vec::with_capacity(alloc, limit)?;
    entries.extend_from_slice(front)?;
    entries.extend_from_slice(back)?;
    Ok(VecDeque::from_vec(entries))
}
