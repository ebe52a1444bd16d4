//! The program without its devices: what the words of the command line ask for, over any reader, any two writers and any doors, and the
//! server of sessions.
#![tactic(auto)]

mod admission;
mod closing;
mod lobby;
mod pairs;
mod program;
mod report;
mod reports;
mod seats;
mod server;

pub use pfl_doors::{DoorFault, Doors, Network, Sides, Visit};
pub use pfl_run::{RunFault, report_fault};
pub use pfl_serve::{Gate, Open};
pub use program::Program;
pub use server::Server;
