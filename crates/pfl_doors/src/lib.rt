//! Doors, through which the connections of sessions come: a trait, the doors of the network, and a reader that gives nothing of what a
//! browser sends.
#![tactic(auto)]

mod doors;
mod laws;
mod network;
mod request;
mod screened;

pub use doors::{DoorFault, Doors, Sides, Visit};
pub use laws::requests_are_turned_away;
pub use network::Network;
pub use pfl_base::{Input, Output};
pub use request::judged_so_far;
pub use screened::Screened;
