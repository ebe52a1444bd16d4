//! What a client of a bulk update does that waited too long.

/// What a client does that waited too long.
#[derive(Clone, Copy, Debug, PartialEq, Eq)]
pub enum Retried {
    /// It asked again; how often it has asked.
    Asked(u8),
    /// It goes on as if served.
    Served,
}
