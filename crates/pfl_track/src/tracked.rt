//! What packets do to states.

use crate::state::State;

/// What a packet does to a state.
#[derive(Clone, Copy, Debug, PartialEq, Eq)]
pub enum Tracked {
    /// The state after the packet.
    Moved(State),
    /// The packet is outside the window, and changes nothing.
    OutOfWindow,
    /// The packet asks for a new connection over a closed one.
    Reused,
}
