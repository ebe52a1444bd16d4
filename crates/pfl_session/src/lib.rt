//! Sessions of several people over one timeline.
//!
//! The timeline, the journal of all commands and the writer's seat of the publisher stand under one lock. A session asks a
//! command under it: the command is executed, its entry is appended and its revision published under one hold, and the
//! session's pass has then seen the journal up to its own entry. Whoever only reads waits for nobody: a revision comes whole
//! from the publisher, and is never older than what the pass has seen.
//!
//! Each session's entries are counted twice: in a half that stands under the lock and in a half that its pass has. The halves
//! count together, so a pass knows that what it has seen holds each call of its own, and no other one.
#![tactic(auto)]

mod counts;
mod entry;
mod execution;
mod fault;
mod kept;
mod lab;
mod laws;
mod ledger;
mod made;
mod mark;
mod opened;
mod pass;
mod revision;
mod room;
mod which;

pub use entry::{Closed, Entry};
pub use fault::{AskFault, LabFault};
pub use kept::KeptEntry;
pub use lab::Lab;
pub use laws::{journals_are_commands, last_callers_have_seen_all, revisions_show_timelines};
pub use made::{Made, Next};
pub use mark::Mark;
pub use opened::{MOST_ENTRIES, Opened};
pub use pass::Pass;
pub use pfl_publish::{Overtaken, Revision};
pub use pfl_timeline::{
    Against, Branch, Events, Explained, Explanation, FrameStep, FrameTrace, InFlight, Parts, Reply,
    Timeline, World,
};
pub use which::Which;
