//! What a record from the peer comes to at a node, and does there, and the records of a frame one after another (if_pfsync.c).
#![tactic(auto)]

mod clear;
mod deciding;
mod decision;
mod frame;
mod import;
mod records;

pub use deciding::decide;
pub use decision::{BadRecord, Decision};
pub use frame::take_frame;
pub use pfl_desk::{
    Counter, Counters, Desk, Entry, Kind, MotionEdit, NodeEdit, Overfull, Parts, QueueEdit, Slot,
    judged,
};
pub use records::take_record;
