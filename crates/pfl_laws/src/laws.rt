//! Laws of runs. They have no code: each is a theorem over the definitions, which a function's contract names.

ghost use Rattle.pfl_laws.specs.Laws.{LevelsNeverFall, RecordsLowerNoLevel, LevelsNeverFallAlong, StatesStayApart, StatesStayApartAlong};
ghost use Rattle.pfl_laws.specs.Laws.{SourcesNeverFall, RecordsLowerNoSource, RecordsLowerOnlySo, SourcesNeverFallAlong};
ghost use Rattle.pfl_laws.specs.Laws.{OpeningsAreBoots, LaterOpeningsAreBoots, EventsKeepBoots, NewStatesAreNamed, NoNameIsGivenTwice};
ghost use Rattle.pfl_laws.specs.Laws.{NoTicketIsGivenTwice, NoBootIsGivenTwice};
ghost use Rattle.pfl_laws.specs.Laws.{EventsSendOnlySo, FramesWereSent};
ghost use Rattle.pfl_laws.specs.Laws.{OpeningsAreTied, LaterOpeningsAreTied, EventsKeepTied, RecordsKeepTied, EventsKeepTiedAlong};
ghost use Rattle.pfl_laws.specs.Laws.{HeldPacketsLeaveOnlySo, RecordsLetGoOnlySo};
ghost use Rattle.pfl_laws.specs.Rest.{CopiesComeToRest, OthersComeToRest, CrossedGoOn, LevelAndNumberCross};

/// An event lowers the level of no end of a state at either node (pf.c) that is not removed in it, and neither does a record of
/// the peer's; nor do events, one after the other, where the state was not removed in between. So it is by the profile, and
/// whichever other rules are the kernel's, but not with `merge` (if_pfsync.c, as far as we know it).
pub fn levels_never_fall()
    ensures event { LevelsNeverFall }
    ensures taken { RecordsLowerNoLevel }
    ensures along { LevelsNeverFallAlong }
{}

/// With `merge` too, no event, no record and no run of events lowers the level of the end that sent the first packet. That of the
/// other end a record lowers only as an update whose first end is not stale, and then both ends are what it says.
pub fn sources_never_fall()
    ensures event { SourcesNeverFall }
    ensures taken { RecordsLowerNoSource }
    ensures falls { RecordsLowerOnlySo }
    ensures along { SourcesNeverFallAlong }
{}

/// Two copies of a state, of which one is sent, and whoever finds an end of what comes stale answers with what it then has: with
/// `merge` they have the same ends after three messages at most, and the last is not answered (if_pfsync.c, as far as we know it).
/// Without it they do after two, unless each finds the end that did not send the first packet stale in the other's copy, as where
/// one is ahead in its level, and the other in its number: those are answered without end, and each keeps its own.
pub fn copies_come_to_rest()
    ensures merge { CopiesComeToRest }
    ensures others { OthersComeToRest }
    ensures crossed { CrossedGoOn }
    ensures cross { LevelAndNumberCross }
{}

/// No two states of a node have one wire key or one stack key (pf.c), after each event and along all events.
pub fn states_stay_apart()
    ensures event { StatesStayApart }
    ensures along { StatesStayApartAlong }
{}

/// No name is given twice, by neither node, also across restarts: for the two nodes are of different boots, both below the next
/// boot number, before any event and after each. And a state that no frame brings has a name that its node gives.
pub fn no_name_is_given_twice()
    ensures opening { OpeningsAreBoots }
    ensures later_opening { LaterOpeningsAreBoots }
    ensures event { EventsKeepBoots }
    ensures named { NewStatesAreNamed }
    ensures along { NoNameIsGivenTwice }
{}

/// No ticket and no boot number is given twice.
pub fn no_number_is_given_twice()
    ensures ticket { NoTicketIsGivenTwice }
    ensures boot { NoBootIsGivenTwice }
{}

/// What is in flight after events was in flight before them, or is the spelling of a frame that a node sent on the way to the
/// other node; or it is a beginning of such.
pub fn frames_were_sent()
    ensures event { EventsSendOnlySo }
    ensures along { FramesWereSent }
{}

/// A state waits for an acknowledgement exactly while its packet is held (ifconfig(8), `defer`): so it is before any event, and
/// after each event, and after each record of the peer's; hence along all events.
pub fn held_packets_have_waiting_states()
    ensures opening { OpeningsAreTied }
    ensures later_opening { LaterOpeningsAreTied }
    ensures event { EventsKeepTied }
    ensures taken { RecordsKeepTied }
    ensures along { EventsKeepTiedAlong }
{}

/// A held packet leaves only by a later accepted packet of its state, by a full list that lets its oldest go, by a release at
/// its time, by a deletion or a clear of its state, by a record of the peer's that acknowledges the state, announces it, deletes
/// or clears it, or by a restart (if_pfsync.c, `defer`).
pub fn held_packets_leave_only_so()
    ensures event { HeldPacketsLeaveOnlySo }
    ensures taken { RecordsLetGoOnlySo }
{}
