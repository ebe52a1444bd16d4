//! Flows.

use crate::addr::End;
use crate::proto::Proto;

/// A flow as a node sees it. The far end is the source of an inbound packet and the destination of an outbound one.
#[derive(Clone, Copy, Debug, PartialEq, Eq)]
pub struct Key {
    /// The protocol of its packets.
    pub proto: Proto,
    /// The source of its inbound packets.
    pub far: End,
    /// The source of its outbound packets.
    pub near: End,
}
