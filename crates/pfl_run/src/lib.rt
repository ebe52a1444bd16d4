//! What the words of the laboratory's program ask for, and runs of its lines.
#![tactic(auto)]

mod check;
mod fault;
mod mode;
mod opened;
mod run;
mod setups;
mod version;

pub use check::{check_lab, check_whole};
pub use fault::RunFault;
pub use mode::{Mode, WordsFault, mode_of};
pub use opened::{Opening, open_pair, set_up};
pub use pfl_script::{
    Ended, EngineFault, LineReader, Setup, SetupText, ShortLine, Timeline, World, WorldFault,
    plain_line, push_number, read_setup, run_lines, write_reply, write_text,
};
pub use run::{print_text, report_fault, run_lab, run_whole};
