//! A journal's entries as a session that follows is shown them, one after another.

use pfl_language::Command;

/// An entry without its reply: its number, from 1, its session and its command.
#[derive(Clone, Copy, Debug)]
pub struct Made {
    pub number: u64,
    pub session: u32,
    pub command: Command,
}

/// What `Lab::entry_after` returns: the next entry, if there is one, and how many entries the journal has.
#[derive(Clone, Copy, Debug)]
pub struct Next {
    pub made: Option<Made>,
    pub entries: u64,
}
