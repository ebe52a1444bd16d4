//! Laws of journals. They have no code: each is a theorem over the definitions, which a function's contract names.

ghost use Rattle.pfl_session.specs.Laws.{RevisionsShowTimelines, SeenEntriesAreFirst, LastCallersHaveSeenAll, JournalsAreCommands};
ghost use Rattle.pfl_session.specs.Laws.{BranchesShowTheirRunsInJournals};

use std::alloc::Allocator;

/// Each revision that a pass has seen is the summary of what the first entries of the journal give, as many as its number
/// says, and the entries that it has seen are the first ones of the journal.
pub fn revisions_show_timelines<A: Allocator>()
    ensures words { RevisionsShowTimelines A }
    ensures entries { SeenEntriesAreFirst A }
{}

/// A pass that `Lab::close` takes back has seen all entries of the journal, where its session made the last of them. So where
/// the pass of each session is handed in, the journal is what one of them has seen, and empty where none has seen an entry.
pub fn last_callers_have_seen_all<A: Allocator>()
    ensures { LastCallersHaveSeenAll A }
{}

/// A journal gives the timeline of its commands, one after another. So whatever the sessions asked, and in whatever order,
/// each branch shows the world that the events before its cursor give from the opening.
pub fn journals_are_commands<A: Allocator>()
    ensures replay { JournalsAreCommands A }
    ensures shown { BranchesShowTheirRunsInJournals A }
{}
