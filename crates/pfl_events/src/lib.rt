//! The events of a branch in their order, each in few bytes: their packets lie in a list of their own.
#![tactic(auto)]

mod events;
mod kept_event;

pub use events::Events;
