//! Laws of sessions that are served. They have no code: each is a theorem over the definitions, which a function's contract names.

ghost use Rattle.pfl_serve.specs.Laws.{SessionsSeeTheirCalls, SessionsSeeAllTheirCalls, RunsAreOne};

use std::alloc::Allocator;

/// What is sent to a session are the replies of its own entries of the journal, one after another, and each of its entries is reported:
/// from any moment on, and from the opening of its lab to the closing, whose journal then has these calls of the session and no
/// others. Where a session is served in several runs, they are one run of all its lines.
pub fn sessions_see_their_calls<A: Allocator>()
    ensures since { SessionsSeeTheirCalls A }
    ensures all { SessionsSeeAllTheirCalls A }
    ensures runs { RunsAreOne A }
{}
