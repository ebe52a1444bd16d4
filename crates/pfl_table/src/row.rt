//! Rows of the table.

ghost use Rattle.std.specs.Prelude.{◌≡◌};
ghost use Rattle.pfl_table.specs.Tables.{row_with};

use pfl_track::State;

/// A state with its timeout.
#[derive(Clone, Copy, Debug, PartialEq, Eq)]
pub struct Row {
    /// The state.
    pub state: State,
    /// After how many seconds it expires where no timeout is scaled.
    pub timeout: u32,
}

/// The row of a state with this timeout, if there is a state.
pub(crate) fn row_with(state: Option<State>, timeout: u32) -> Option<Row>
    ensures { result ≡ row_with state timeout }
{
    let state = state?;
    Some(Row { state, timeout })
}
