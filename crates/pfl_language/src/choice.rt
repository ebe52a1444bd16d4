//! What may happen in a run that is searched for.

use crate::event::{Event, FrameEvent};

/// A pattern of events.
#[derive(Clone, Copy, Debug)]
pub enum Move {
    /// This event.
    Given(Event),
    /// This happens to a frame in flight, whichever it is.
    AnyFrame(FrameEvent),
}

/// A move, how many times it may be made at most, and in which phase of a run.
#[derive(Clone, Copy, Debug)]
pub struct Choice {
    pub what: Move,
    pub uses: u32,
    /// Once an event of a later phase came, it is made no more.
    pub phase: u32,
}

/// A choice that is never made.
impl Default for Choice {
    fn default() -> Choice {
        Choice {
            what: Move::AnyFrame(FrameEvent::Deliver),
            uses: 0,
            phase: 0,
        }
    }
}
