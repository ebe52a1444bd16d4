//! An exact count that two holders keep.
//!
//! Each holder has a half, with its count of its own. The halves are joined and split again over one word that is never
//! written: whoever has both knows that their counts are equal, and only then can it count one more. So a holder's count is
//! the other's for as long as neither has counted without it, which neither can.

mod rule;
mod tally;
mod view;

pub use tally::{Half, Tally};
