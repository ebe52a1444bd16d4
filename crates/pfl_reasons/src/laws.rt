//! Laws of explanations. Each is a theorem over the definitions, which a function's contract names; what its proof takes from another law
//! it calls.

ghost use Rattle.pfl_reasons.specs.Explaining.{ReasonsAgree};
ghost use Rattle.pfl_reasons.specs.Laws.{RecordsAreCountedSo};
ghost use Rattle.pfl_reasons.specs.Senders.{TicketsAreCounted, TicketsAreNumbers, TracesAreCounted, TracesAreThere};

use pfl_track::judgements_agree;

/// Each event agrees with its explanation, by the pair before it and the pair after it, with any rules of the kernel. A packet has the fate
/// that its reason gives: by the state that has its key and the tests of that state's window, or by the rule that decides about it, which
/// is the last one that matches or the first such that is quick, and by what prevents a new state at the node. The records of a frame are
/// its own; one after another they lead from its receiver to what that is after it, each as its fate says. A purge deletes the states that
/// are due by its list, and no other. Where nothing is explained, the event is none of these. The numbers that are shown of one that is
/// refused are those of its refusal, they are the pair's own, and do stand against it.
pub fn reasons_agree()
    ensures { ReasonsAgree }
{
    judgements_agree();
}

/// Each record counts as its fate says, which is one of a record of its kind. One that is bad is so for the reason that is shown, counts as
/// bad, and does nothing else; one whose fate is that nothing changes leaves the node as it is. A state that is taken over was not known, and
/// has the last use that is shown then. One that is merged has it, too, counts as stale where an end of the record is older than the
/// node's, and then has the ends that were taken as the record has them, and any other as it was. Taken are those that are not older; with
/// the kernel's rule `merge` also a destination that is older, if the source is not, and then the fate says which. What is asked for is on
/// the list of requests then, and what is queued on the queue of updates. A state that is acknowledged waited and does not any more, one
/// that is deleted is gone, and a clear leaves as many states fewer as it says. A client that hears a status waited. What is said of a state
/// that is merged or acknowledged is so where each state of the node is under its own name.
pub fn records_are_counted()
    ensures { RecordsAreCountedSo }
{}

/// The frames that events send get tickets one after another, and what became of a frame follows from the events and its bytes.
pub fn frames_are_counted()
    ensures tickets { TicketsAreCounted }
    ensures numbers { TicketsAreNumbers }
    ensures traces { TracesAreCounted }
    ensures there { TracesAreThere }
{}
