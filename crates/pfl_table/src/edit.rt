//! Edits of the table.

use crate::row::Row;
use pfl_base::StateName;

/// What was done under one name: the row that stood there, and the one that stands there now.
#[derive(Clone, Copy, Debug, PartialEq, Eq)]
pub struct TableEdit {
    /// The name.
    pub name: StateName,
    /// What stood under it; `None`: no row.
    pub before: Option<Row>,
    /// What stands under it now; `None`: no row.
    pub after: Option<Row>,
}
