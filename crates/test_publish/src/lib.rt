//! Worked revisions and readings, through the public calls of pfl_publish.
#![tactic(auto)]

#[cfg(test)]
mod publish;
