//! Containers in room that is fixed when they are made: indexes of slots by hash, maps in the order of their keys, and lists linked by
//! slots. Names as keys stand beside them.
#![tactic(auto)]

mod by_name;
mod chains;
mod hash;
mod order;
mod slots;

pub use by_name::ByName;
pub use chains::Chains;
pub use hash::mix;
pub use order::OrderedMap;
pub use order::iter::Iter;
pub use order::ordered::Ordered;
pub use slots::{MOST_SLOTS, SlotIndex, tag_of};
