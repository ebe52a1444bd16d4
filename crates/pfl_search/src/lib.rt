//! Exhaustive search of the runs of a pair, depth first: an event happens, the search goes on from there, and the event is taken
//! back. No world is copied. Of two events that commute one order is tried.
#![tactic(auto)]

mod append;
mod differing;
mod fate;
mod goal;
mod laws;
mod names;
mod order;
mod runs;
mod shortest;
mod stopped;
mod tally;
mod turns;

pub use laws::searches_are_exhaustive;
pub use order::{EventKind, Last};
pub use pfl_language::{Choice, Goal, Move, Question, Scope};
pub use pfl_world::{Counters, Parts, World, WorldFault, WorldTape};
pub use runs::{Searched, search};
pub use shortest::search_shortest;
pub use stopped::Stopped;
pub use tally::Tally;
pub use turns::Candidate;
