//! What fails, for tests of what is returned then, and of what stands after it: memory that is wanting, at each request or at
//! one; a reader and a writer; and a reader without end.
#![tactic(auto)]

mod devices;
mod memory;

pub use devices::{Bytewise, Endless, Narrow};
pub use memory::{RefusesOne, Refusing, Requests, Try, requests_of};
