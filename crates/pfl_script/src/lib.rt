//! Lines that are read and executed: setups, commands, and the text of their replies.
#![tactic(auto)]

mod against_lines;
mod answer;
mod check;
mod command_lines;
mod engine;
mod expiry_lines;
mod explained;
mod fault;
mod found;
mod frame_lines;
mod link_lines;
mod listed;
mod logged;
mod node_lines;
mod optional;
mod outcomes;
mod output;
mod packet_lines;
mod past;
mod places;
mod record_lines;
mod refusals;
mod replies;
mod reply_text;
mod setup;
mod setup_fault;
mod setup_text;
mod short_line;
mod shown;
mod state_lines;
mod traced;

pub use check::{Checked, check_lines};
pub use command_lines::entry_line;
pub use engine::{Ended, run_lines};
pub use fault::EngineFault;
pub use link_lines::{FrameLine, LinkLine};
pub use output::{write_reply, write_text};
pub use pfl_lines::{LineFault, SessionLine};
pub use pfl_reader::{Line, LineReader};
pub use pfl_timeline::{Timeline, World, WorldFault};
pub use replies::fault_line;
pub use setup::{Setup, read_setup};
pub use setup_fault::SetupFault;
pub use setup_text::SetupText;
pub use short_line::{ShortLine, plain_line, push_number};
