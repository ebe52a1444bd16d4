//! What the peer sends of a state.

use pfl_base::Class;
use pfl_track::Peer;

/// What the peer sends of a state.
#[derive(Clone, Copy, Debug, PartialEq, Eq)]
pub struct Received {
    /// The end that sent the first packet.
    pub src: Peer,
    /// The other end.
    pub dst: Peer,
    /// What the state's timeout goes by.
    pub class: Class,
    /// Seconds until the state expires at the peer.
    pub remaining: u32,
}
