//! What lines say: the commands of a timeline, the setup of a pair, and searches.
#![tactic(auto)]

mod addresses;
mod ask_words;
mod commands;
mod draft;
mod event_words;
mod fault;
mod laws;
mod numbers;
mod packets;
mod parts;
mod rules;
mod search;
mod session;
mod setup;
mod words;
mod written;

pub use ask_words::ask_word;
pub use commands::{LONGEST, parse_line};
pub use fault::LineFault;
pub use laws::{commands_read_back, steps_read_back, whys_read_back};
pub use search::{ScriptLine, SearchLine, is_search, parse_plain, parse_script};
pub use session::{SessionLine, parse_session};
pub use setup::{SetupLine, parse_setup};
pub use written::EventWords;
