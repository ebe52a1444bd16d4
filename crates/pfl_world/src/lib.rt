//! The pair of nodes, the link between them, and the events that happen to them.
#![tactic(auto)]

mod apply;
mod at_node;
mod deliver;
mod edit;
mod fault;
mod flush;
mod in_flight;
mod laws;
mod lift;
mod nodes;
mod record;
mod restart;
mod restart_edit;
mod restart_undone;
mod small_edit;
mod tape;
mod undo;
mod undone;
mod world;

pub use edit::{WorldChange, WorldEdit, WorldTape};
pub use fault::WorldFault;
pub use laws::new_worlds_are_worlds;
pub use pfl_node::{
    BadRecord, Counters, Decision, Node, Parts, Ruling, ask_rules, decide, records_leave_the_rest,
};
pub use restart_edit::RestartEdit;
pub use restart_undone::RestartUndone;
pub use small_edit::{MiddleEdit, SmallEdit};
pub use undone::WorldUndone;
pub use world::World;
