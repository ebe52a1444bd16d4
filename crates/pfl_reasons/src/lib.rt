//! Why an event of the pair has its outcome: which rule decided, which edge of the window was missed and by how much, what became of
//! each record of a frame, when each state expires; or, where it is refused, which numbers stand against it. It is read off the pair as
//! it stands before the event, which stays as it is.
#![tactic(auto)]

mod against;
mod cleared;
mod expiry;
mod explained;
mod explaining;
mod fate;
mod frame_step;
mod frames;
mod laws;
mod packet;
mod packet_reason;
mod record_fate;
mod records;

pub use against::Against;
pub use expiry::Expiry;
pub use explained::Explained;
pub use explaining::explain;
pub use frame_step::FrameStep;
pub use frames::{count_senders, frame_steps, sending_place};
pub use laws::{frames_are_counted, reasons_agree, records_are_counted};
pub use packet_reason::{Judged, PacketReason};
pub use pfl_events::Events;
pub use pfl_link::InFlight;
pub use pfl_world::{BadRecord, World};
pub use record_fate::{RecordFate, TakenEnds, TakenRecord};
