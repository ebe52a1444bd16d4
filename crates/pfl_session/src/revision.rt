//! The revision that shows a timeline.

ghost use Rattle.std.specs.Prelude.{◌≡◌, slice_index};
ghost use Rattle.pfl_timeline.specs.Summaries.{summary};
ghost use Rattle.pfl_session.specs.Totals.{HasFewEvents};

use crate::counts::Counts;
use pfl_publish::Revision;
use pfl_timeline::Timeline;
use std::alloc::Allocator;

/// The revision of this number that shows the timeline.
pub(crate) fn revision_of<A: Allocator>(timeline: &Timeline<A>, number: u64) -> Revision
    requires few { HasFewEvents 8589934592 timeline.now }
    ensures words { result.words ≡ summary timeline.now number }
    ensures number { slice_index result.words 0 ≡ number }
{
    timeline.known();
    let branches = timeline.branches();
    let counts = Counts::of_branches(branches);
    Revision {
        words: [
            number,
            branches.len() as u64,
            counts.events,
            counts.cursors,
            counts.states_a,
            counts.states_b,
            counts.frames,
            counts.pending,
        ],
    }
}
