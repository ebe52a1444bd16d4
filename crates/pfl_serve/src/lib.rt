//! Sessions that are served by lines, over any readers and writers.
//!
//! A session reads commands as a run of lines does, and has the same replies. Beside that it may ask for a `view`, which waits for
//! nobody, for the lines of the `setup`, and to `follow` the journal. Several sessions are served at the same time, one thread each.
#![tactic(auto)]

mod asked;
mod closing;
mod following;
mod gate;
mod laws;
mod seat;
mod service;
mod serving;
mod texts;
mod threads;

pub use closing::{Closing, EndedSeat};
pub use gate::{Gate, Open};
pub use laws::sessions_see_their_calls;
pub use pfl_session::{Closed, Entry, Lab, LabFault, MOST_ENTRIES, Opened, Pass, Which};
pub use seat::{Seat, ServeFault, Served};
pub use service::Service;
