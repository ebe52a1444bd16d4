//! Why no line came.

use thiserror::Error;

/// Why a reader gave no line.
#[derive(Clone, Copy, Debug, PartialEq, Eq, Error)]
pub enum ReadFault {
    /// The device failed.
    #[error("read")]
    Read,
    /// More calls of `read` were wanted than one run may make.
    #[error("too many turns")]
    TooManyTurns,
}
