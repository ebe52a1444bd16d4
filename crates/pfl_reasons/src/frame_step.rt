//! Events of a frame, as data.

use pfl_language::{Event, Outcome};

/// An event that sent a frame, or that befell it: its place among the events, counted from 1, and its outcome.
#[derive(Clone, Copy, Debug, PartialEq, Eq)]
pub struct FrameStep {
    pub place: usize,
    pub event: Event,
    pub outcome: Outcome,
}
