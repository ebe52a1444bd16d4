//! What is counted as a search goes.

/// How many worlds may still be visited, in how many the question was asked, and how many were visited by runs of as many events as
/// there may be.
#[derive(Clone, Copy, Debug)]
pub struct Tally {
    pub left: u64,
    pub asked: u64,
    pub at_end: u64,
}
