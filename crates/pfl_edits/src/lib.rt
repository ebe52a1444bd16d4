//! Values whose edits can be taken back, and the lists of edits that do it.
#![tactic(auto)]

mod changes;
mod in_order;
mod keyed;
mod no_memory;
mod packed;
mod recorder;
mod reversible;
mod rows;
mod tapes;

pub use changes::Change;
pub use in_order::{InOrder, Node};
pub use keyed::Keyed;
pub use no_memory::NoMemory;
pub use packed::{Copied, Packed, Packing};
pub use recorder::{OfPart, Recorder};
pub use reversible::{Redoable, Reversible, take_back, undo_all};
pub use rows::Rows;
pub use tapes::{Tape, redo_all, set_aside_to, undo_copies_to, undo_to};
