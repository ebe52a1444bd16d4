//! Which of some rows expires first, whatever timeouts are scaled to.

ghost use Rattle.std.specs.List.{slice_get};
ghost use Rattle.std.specs.Option.{option_copied};
ghost use Rattle.std.specs.Prelude.{◌≡◌};
ghost use Rattle.pfl_base.specs.Lists.{in_order};
ghost use Rattle.pfl_table.specs.inner.Ordering.{sooner as sooner_of};
ghost use Rattle.pfl_table.specs.Tables.{row_before};

use crate::keys::Expiry;
use crate::row::Row;
use pfl_edits::InOrder;
use pfl_rules::Adaptive;

/// The row that expires first of these, each of which is looked at.
pub(crate) fn earliest<'a>(
    mut rows: InOrder<'a, Row>,
    adaptive: Adaptive,
    states: usize,
) -> Option<&'a Row>
    ensures first { option_copied result ≡ slice_get (in_order (row_before adaptive states) rows.entry) 0 }
{
    let mut first = None;
    while let Some(row) = rows.next() {
        first = Some(sooner(first, row, adaptive, states));
    }
    first
}

/// Which of two rows expires first: the latter one unless the former expires before it.
fn sooner<'a>(first: Option<&'a Row>, row: &'a Row, adaptive: Adaptive, states: usize) -> &'a Row
    ensures { result.now ≡ sooner_of adaptive states (option_copied first.entry) row.now }
{
    match first {
        Some(first) if Expiry::of(first).is_before(Expiry::of(row), adaptive, states) => first,
        _ => row,
    }
}
