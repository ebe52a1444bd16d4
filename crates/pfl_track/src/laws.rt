//! Laws of tracking. They have no code: each is a theorem over the definitions, which a function's contract names.

ghost use Rattle.pfl_track.specs.Edges.{TestsAgree};
ghost use Rattle.pfl_track.specs.Laws.{PacketsLowerNoLevel, PacketsLowerNoLevelAlong, OnlyEndsMove, OnlyEndsMoveAlong, StatesBegin, StatesStayStates};
ghost use Rattle.pfl_track.specs.Laws.{StatesStayStatesAlong};

/// A packet lowers the level of no end, and lifts none above [`crate::MAX_LEVEL`]; nor do packets, one after the other.
pub fn levels_never_fall()
    ensures packet { PacketsLowerNoLevel }
    ensures along { PacketsLowerNoLevelAlong }
{}

/// A packet that moves a state changes its ends, the class that follows from their levels, and its last use, and leaves
/// the rest: its name, its keys and all. So after any packets, one after the other, its class follows from its levels, or
/// nothing has changed.
pub fn only_ends_move()
    ensures packet { OnlyEndsMove }
    ensures along { OnlyEndsMoveAlong }
{}

/// What a packet begins, and what packets make of a state, has levels and scales in their ranges, and all four ends of one
/// family and one protocol.
pub fn states_stay_states()
    ensures begun { StatesBegin }
    ensures moved { StatesStayStates }
    ensures along { StatesStayStatesAlong }
{}

/// A packet is inside the window where it misses no edge of it.
pub fn tests_agree()
    ensures { TestsAgree }
{}
