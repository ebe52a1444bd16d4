//! Filing rows anew that were used since they were filed.

ghost use Rattle.std.specs.Prelude.{◌≡◌, IfNone, IfSome, length};
ghost use Rattle.pfl_base.specs.Names.{name_cmp};
ghost use Rattle.pfl_edits.specs.Ordered.{IsRising};
ghost use Rattle.pfl_containers.specs.Lists.{links_of as links_in};
ghost use Rattle.pfl_containers.specs.SlotIndexes.{key_of};
ghost use Rattle.pfl_table.specs.inner.Dues.{AreDues, IsSettled, IsStale};
ghost use Rattle.pfl_table.specs.inner.Filed.{name_of};

use crate::due_order::DueOrder;
use crate::row::Row;
use pfl_containers::Chains;
use pfl_rules::Adaptive;
use std::alloc::Allocator;

/// Files stale rows anew until the one that is due first is filed at its last use, and keeps which one that is.
pub(crate) fn settle<A: Allocator>(
    rows: &Chains<Row, A>,
    expiries: &mut DueOrder<A>,
    adaptive: Adaptive,
    states: usize,
)
    requires one { length rows.now.lists ≡ 1 }
    requires rising { IsRising name_cmp (key_of name_of) (links_in rows.now 0) }
    requires dues { AreDues rows.now.limit (links_in rows.now 0) expiries.old }
    ensures dues { AreDues rows.now.limit (links_in rows.now 0) expiries.new }
    ensures settled { IsSettled adaptive states rows.now expiries.new }
{
    rows.known();
    expiries.find_first(adaptive, states);
    while let Some(slot) = stale_first(rows, expiries, adaptive, states) {
        let row = rows.at(slot);
        expiries.file_anew(slot, row, row);
        expiries.find_first(adaptive, states);
    }
}

/// The slot of the row that is due first as the rows were filed, if it was used since.
fn stale_first<A: Allocator>(
    rows: &Chains<Row, A>,
    expiries: &DueOrder<A>,
    adaptive: Adaptive,
    states: usize,
) -> Option<usize>
    requires one { length rows.now.lists ≡ 1 }
    requires dues { AreDues rows.now.limit (links_in rows.now 0) expiries.now }
    ensures stale { IfSome result (IsStale rows.now expiries.now) }
    ensures settled { IfNone result (IsSettled adaptive states rows.now expiries.now) }
{
    rows.known();
    expiries.known();
    let slot = expiries.first(adaptive, states)?;
    if expiries.is_stale(slot, rows.at(slot)) {
        Some(slot)
    } else {
        None
    }
}
