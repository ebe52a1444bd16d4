//! Laws of searches. They have no code: each is a theorem over the definitions, which a function's contract names.

ghost use Rattle.pfl_search.specs.Laws.{NoVisitIsNeverAsked, NoneIsExhaustive, RunsAreVisited, RunsEnd, RunsLeadSomewhere, VisitsAreOfRuns, VisitsAreOrdered};

/// What a search visits is exactly what runs of the choices lead to, and it visits by ordered runs alone. Where none is found, no run
/// of the choices leads to a world that meets the goal; and the question was asked in no visit exactly where no run leads to a world in
/// which it is asked. Where no run has exactly some number of events, none has more.
pub fn searches_are_exhaustive()
    ensures runs { RunsLeadSomewhere }
    ensures sound { VisitsAreOfRuns }
    ensures complete { RunsAreVisited }
    ensures ordered { VisitsAreOrdered }
    ensures none { NoneIsExhaustive }
    ensures asked { NoVisitIsNeverAsked }
    ensures end { RunsEnd }
{}
