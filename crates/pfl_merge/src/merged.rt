//! What comes of a merge.

use pfl_track::State;

/// The state after a merge, and which ends of the peer's were behind.
#[derive(Clone, Copy, Debug, PartialEq, Eq)]
pub struct Merged {
    /// The state.
    pub state: State,
    /// The end that sent the first packet was behind.
    pub stale_src: bool,
    /// The other end was behind.
    pub stale_dst: bool,
}
