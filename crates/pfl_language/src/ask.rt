//! What is asked of a branch.

use crate::event::Event;

/// What is asked of a branch of a timeline.
#[derive(Clone, Copy, Debug)]
pub enum Ask {
    /// Puts an event after those before the branch's cursor.
    Step { event: Event },
    /// Undoes the last `n` events before the cursor; they stay in the branch.
    Back { n: u32 },
    /// Lets the next `n` events after the cursor happen again.
    Forward { n: u32 },
    /// Asks for the branch's world.
    Show,
    /// Asks for the world that the branch's first `place` events give, those after the cursor too.
    Past { place: u32 },
    /// Asks what came of the branch's event at the place, counted from 1, and why.
    Why { place: u32 },
    /// Asks what would come of the event where the branch stands, and why.
    WhyStep { event: Event },
    /// Asks for the frame that an event of the branch sent under the ticket, and what became of it.
    Frame { ticket: u32 },
    /// Takes an event out of the branch, and with it each later one that is refused then. Places count from 1.
    Excise { place: u32 },
    /// Brings back what the branch had before its newest excision, unless an event was accepted since.
    Restore,
    /// Asks for the branch's events, those after the cursor too, and for its cursor.
    Log,
}
