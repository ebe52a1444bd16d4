//! The gate of sessions that came through doors.

use pfl_doors::Doors;
use pfl_serve::Gate;
use std::sync::Wait;

/// A gate over another one. When a session has ended, the doors have it known to whoever reads there, although other sessions go on.
#[derive(Clone, Copy)]
pub(crate) struct Lobby<'a, G: Gate, D: Doors> {
    gate: &'a G,
    doors: &'a D,
}

impl<'a, G: Gate, D: Doors> Lobby<'a, G, D> {
    /// The gate over this one, with the doors that the sessions came through.
    pub(crate) fn new(gate: &'a G, doors: &'a D) -> Self {
        Lobby { gate, doors }
    }
}

impl<'a, G: Gate, D: Doors> Gate for Lobby<'a, G, D> {
    ghost heard = { D.heard };

    fn enter<R: Wait>(&self, rt: &R, session: u32, nth: u64) {
        self.gate.enter(rt, session, nth);
    }

    fn leave<R: Wait>(&self, rt: &R, session: u32, nth: u64) {
        self.gate.leave(rt, session, nth);
    }

    /// The gate below is not asked: what has come through doors is no choice of a caller.
    fn hears<R: Wait>(&self, rt: &R, session: u32) -> bool {
        self.doors.hears(rt, session)
    }

    fn end<R: Wait>(&self, rt: &R, session: u32) {
        self.doors.end(session);
        self.gate.end(rt, session);
    }
}
