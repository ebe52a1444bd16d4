//! Laws of timelines. They have no code: each is a theorem over the definitions, which a function's contract names.

ghost use Rattle.pfl_timeline.specs.Laws.{NewTimelinesAreTimelines, CommandsKeepTimelines, BranchesShowWorlds, BranchesShowTheirRuns};
ghost use Rattle.pfl_timeline.specs.Laws.{LooksChangeNothing, CommandsLeaveOthers, PastsAreShown, WhysAreSteps, WhysForetellSteps, ExcisionsAreRunsWithout};
ghost use Rattle.pfl_timeline.specs.Laws.{ExcisionsLeaveStanding, ExcisionsReportTheRefused, NothingElseFallsOut, RestorationsTakeBack};
ghost use Rattle.pfl_timeline.specs.Laws.{NoReplyReportsWantOfMemory, RefusedCommandsChangeNothing, StepsAreRuns};

/// The timeline that opens over a world keeps all that is true of each timeline.
pub fn new_timelines_are_timelines()
    ensures { NewTimelinesAreTimelines }
{}

/// Commands leave all that is true of each timeline, and so each of its branches shows a world.
pub fn commands_keep_timelines()
    ensures kept { CommandsKeepTimelines }
    ensures shown { BranchesShowWorlds }
{}

/// Whatever commands came, each branch shows the world that the events before its cursor give from the opening.
pub fn branches_show_their_runs()
    ensures { BranchesShowTheirRuns }
{}

/// What is seen of a branch at a place is what it shows when it stands there.
pub fn pasts_are_shown()
    ensures { PastsAreShown }
{}

/// What is reported of an event of a branch is what a step of it replies where the branch stands before it.
pub fn whys_are_steps()
    ensures { WhysAreSteps }
{}

/// What is reported of an event that has not happened is what a step of it replies.
pub fn whys_foretell_steps()
    ensures { WhysForetellSteps }
{}

/// A question that only looks at a branch changes nothing.
pub fn looks_change_nothing()
    ensures { LooksChangeNothing }
{}

/// A command that is refused changes nothing.
pub fn refused_commands_change_nothing()
    ensures { RefusedCommandsChangeNothing }
{}

/// A command leaves every branch but the one that it changes as it was.
pub fn commands_leave_others()
    ensures { CommandsLeaveOthers }
{}

/// No reply reports want of memory, which is returned in place of a reply.
pub fn no_reply_reports_want_of_memory()
    ensures { NoReplyReportsWantOfMemory }
{}

/// Events that are stepped one after another show the world of their run.
pub fn steps_are_runs()
    ensures { StepsAreRuns }
{}

/// An excision leaves what the list without the event gives: each event that is refused then falls out, and where none is
/// refused, none falls out. Those stand that stood. The reply lists the places of those that fall out, in the list as it was.
/// A restoration takes it back.
pub fn excisions_are_runs_without_the_event()
    ensures runs { ExcisionsAreRunsWithout }
    ensures standing { ExcisionsLeaveStanding }
    ensures told { ExcisionsReportTheRefused }
    ensures alone { NothingElseFallsOut }
    ensures restored { RestorationsTakeBack }
{}
