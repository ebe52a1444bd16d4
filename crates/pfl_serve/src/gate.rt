//! What the calls of sessions go through.

ghost use Rattle.std.specs.Prelude.{◌≡◌, ℕ, true};

use std::sync::Wait;

/// A gate that the calls of sessions go through: a test holds one session back until another is there, and a server hears whether a
/// client's next line has come. Sessions count from 1, and so do the calls of a session, anew each time it is served. A gate has no part
/// in the reply to a call, but for the wait; where an answer to `follow` ends, it has. Of its calls a contract speaks of `hears` alone: that
/// the others are made, and when, is for tests to show.
pub trait Gate {
    /// The session's next line has come, or its end. What that means is for the gate to say; by itself this says nothing.
    ghost heard: { ℕ → Type 0 } = { λ _. Unit {0} };

    /// Before the session's nth call.
    fn enter<R: Wait>(&self, rt: &R, session: u32, nth: u64);

    /// After the answer to its nth call was written, where all of it could be written.
    fn leave<R: Wait>(&self, rt: &R, session: u32, nth: u64);

    /// Whether the session's next line has come, or its end, as `heard` says it. A session that follows the journal asks this before it
    /// looks again, and stops where it has. The gate may wait for that. One that knows nothing of lines is to answer that each has come:
    /// no session would stop otherwise.
    fn hears<R: Wait>(&self, rt: &R, session: u32) -> bool
        ensures { result ≡ true → heard session };

    /// After the session has ended, or where there was no thread for it.
    fn end<R: Wait>(&self, rt: &R, session: u32);
}

/// A gate that is open: it does nothing, and answers that each line has come, of which it knows nothing.
#[derive(Clone, Copy, Debug)]
pub struct Open;

impl Gate for Open {
    fn enter<R: Wait>(&self, _rt: &R, _session: u32, _nth: u64) {}

    fn leave<R: Wait>(&self, _rt: &R, _session: u32, _nth: u64) {}

    fn hears<R: Wait>(&self, _rt: &R, _session: u32) -> bool {
        true
    }

    fn end<R: Wait>(&self, _rt: &R, _session: u32) {}
}
