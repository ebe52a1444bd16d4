//! Branches of events.
#![tactic(auto)]

mod branch;
mod finding;
mod history;
mod laws;
mod look;
mod reply;
mod timeline;

pub use branch::Branch;
pub use finding::Finding;
pub use laws::{
    branches_show_their_runs, commands_keep_timelines, commands_leave_others,
    excisions_are_runs_without_the_event, looks_change_nothing, new_timelines_are_timelines,
    no_reply_reports_want_of_memory, pasts_are_shown, refused_commands_change_nothing,
    steps_are_runs, whys_are_steps, whys_foretell_steps,
};
pub use look::{Look, NotSeen, Sight};
pub use pfl_reasons::{
    Against, BadRecord, Events, Expiry, Explained, FrameStep, InFlight, Judged, PacketReason,
    RecordFate, TakenEnds, TakenRecord,
};
pub use pfl_search::{Counters, Parts, World, WorldFault};
pub use reply::{Explanation, FrameTrace, Reply};
pub use timeline::Timeline;
