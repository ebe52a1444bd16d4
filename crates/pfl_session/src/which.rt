//! Which lab it is.
use std::marker::Brand;

/// What contracts know of a lab: its publisher, the counts of its sessions, its opening, the lines that set the opening up, and
/// the most entries of its journal. It has no call, and so costs nothing.
pub trait Which {
    ghost use Rattle.std.specs.Prelude.{ℕ, List};
    ghost use Rattle.atomic_table.specs.Seated.{TableId};
    ghost use Rattle.pfl_timeline.specs.Timelines.{Timeline};

    /// The publisher.
    ghost publisher: { TableId };

    /// The count of each session, the first one's first.
    ghost tallies: { List TableId };

    /// The timeline that the lab opened with.
    ghost opening: { Timeline };

    /// The lines that set the opening up, as sessions are shown them.
    ghost setup: { List ℕ };

    /// The most entries of the journal.
    ghost limit: { ℕ };
}

/// Any lab, where none is named.
impl Which for Brand {
    ghost use Rattle.std.specs.Prelude.{[]};
    ghost use Rattle.pfl_timeline.specs.Kept.{timeline_of};
    ghost use Rattle.pfl_session.specs.Passes.{no_table};

    ghost publisher = { no_table };

    ghost tallies = { [] };

    ghost opening = { timeline_of [] };

    ghost setup = { [] };

    ghost limit = { 0 };
}
