//! Laws of the pending queues. They have no code: each is a theorem over the definitions, which a function's contract names.

ghost use Rattle.pfl_queue.specs.Laws.{NothingTwiceAfterCalls, FramesTakeFromTheFront, FormerMarksGoBack};

/// After any calls no name stands on two queues, no number and no request stands twice, and no more is pending than there
/// is room for.
pub fn nothing_is_queued_twice()
    ensures { NothingTwiceAfterCalls }
{}

/// A frame takes its records from the front of what is pending and skips nothing, and what left the queues is exactly what
/// the frame carries (if_pfsync.c). It changes neither the room nor the next number.
pub fn frames_take_from_the_front()
    ensures { FramesTakeFromTheFront }
{}

/// What taking a name off recorded fits later queues too, whatever their next number: it is enough that there is room, that
/// the name is off, and that its former number was given and stands nowhere.
pub fn former_marks_go_back()
    ensures { FormerMarksGoBack }
{}
