//! What the operations of a link do under a ticket.

/// What was done under a ticket.
#[derive(Clone, Copy)]
pub(crate) enum LinkChange {
    /// A frame came under the next ticket, which rose.
    Sent,
    /// The frame left.
    Taken,
    /// The frame kept this many of its first bytes.
    Cut(usize),
}
