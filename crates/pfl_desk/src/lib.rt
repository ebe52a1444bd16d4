//! The desk on which the events of one node of the pair are carried out: the parts of the node, and the small changes that events
//! are made of, each recorded (pf.c, if_pfsync.c).
#![tactic(auto)]

mod counters;
mod desk;
mod edit;
mod laws;
mod parts;

pub use counters::Counters;
pub use desk::Desk;
pub use edit::{Counter, MotionEdit, NodeEdit, StateEdit};
pub use laws::new_nodes_are_nodes;
pub use parts::Parts;
pub use parts::judge::{Overfull, judged};
pub use pfl_defer::Deferrals;
pub use pfl_queue::{Entry, Kind, Pending, QueueEdit};
pub use pfl_table::{Slot, StateTable};
