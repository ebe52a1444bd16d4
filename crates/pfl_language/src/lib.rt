//! The language of the laboratory, as plain data: its events and what comes of them, commands and why they are refused, what is
//! searched for, names of branches, and limits. It knows nothing of how lines spell it, but for limits, nor of the pair that it is
//! said to.
#![tactic(auto)]

mod ask;
mod branch_word;
mod choice;
mod command;
mod event;
mod fate;
mod goal;
mod limits;
mod node_event;
mod outcome;
mod refused;
mod retried;

pub use ask::Ask;
pub use branch_word::BranchWord;
pub use choice::{Choice, Move};
pub use command::Command;
pub use event::{Event, FrameEvent};
pub use fate::{Fate, Reason};
pub use goal::{Goal, Question, Scope};
pub use limits::{Limit, LimitFault, Limits};
pub use node_event::{NodeEvent, NodeOutcome};
pub use outcome::Outcome;
pub use refused::Refused;
pub use retried::Retried;
