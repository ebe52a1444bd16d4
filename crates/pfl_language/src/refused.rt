//! Why commands are refused.

use pfl_base::Refusal;

/// Why a command is refused: the first that applies.
#[derive(Clone, Copy, Debug, PartialEq, Eq)]
pub enum Refused {
    /// No branch has the name.
    NoBranch,
    /// A branch has the name already.
    NameTaken,
    /// The word is no name of a branch.
    BadName,
    /// There are not that many events before the cursor.
    TooFarBack,
    /// There are not that many events after the cursor, or in the branch.
    NothingForward,
    /// It is the last branch.
    LastBranch,
    /// There are as many branches as may be.
    BranchesFull,
    /// The event is refused.
    Event(Refusal),
    /// The branch has no event at the place.
    NoEvent,
    /// The branch has nothing from before an excision that could be brought back.
    NothingExcised,
    /// No event of the branch sent a frame under the ticket.
    NoFrame,
}
