//! What becomes of packets.

use pfl_base::StateName;

/// Why a packet is dropped.
#[derive(Clone, Copy, Debug, PartialEq, Eq)]
pub enum Reason {
    /// A rule blocks it.
    Block,
    /// Its rule has as many states as it may.
    Max,
    /// The table is full.
    Full,
    /// Another state has its wire key or its stack key.
    Key,
    /// It is outside the window.
    Window,
}

/// What becomes of a packet.
#[derive(Clone, Copy, Debug, PartialEq, Eq)]
pub enum Fate {
    /// It goes on, by this state if by any.
    Pass(Option<StateName>),
    /// It is held until the peer knows of its state.
    Held(StateName),
    /// It is dropped.
    Dropped(Reason),
}
