//! One node of the pair, and the events that happen at it (pf.c, if_pfsync.c).
#![tactic(auto)]

mod alone;
mod clear;
mod flush;
mod kill;
mod laws;
mod message;
mod node;
mod packet;
mod purge;
mod receive;
mod release;
mod restart;
mod retry;
mod step;
mod tick;
mod turn;

pub use laws::{one_state_per_key, records_leave_the_rest};
pub use node::Node;
pub use packet::ruling::Ruling;
pub use packet::start::ask_rules;
pub use pfl_bulk::BulkClient;
pub use pfl_receive::{
    BadRecord, Counter, Counters, Decision, MotionEdit, NodeEdit, Parts, QueueEdit, decide,
};
