//! A line that was read.

ghost use Rattle.std.specs.Prelude.{◌≡◌, false};
ghost use Rattle.pfl_lines.specs.Search.{SaysCommand};
ghost use Rattle.pfl_reader.specs.Saids.{kept_said, kept_search, kept_session, kept_setup};
ghost use Rattle.pfl_reader.specs.Scans.{has_word};

use crate::head::Head;
use pfl_language::Command;
use pfl_lines::{
    LineFault, ScriptLine, SessionLine, SetupLine, is_search, parse_plain, parse_script,
    parse_session, parse_setup,
};
use std::marker::Model;

/// A line where its reader has it.
#[derive(Drop)]
pub struct Line<'a> {
    bytes: &'a [u8],
    long: bool,
    head: Head,
}

impl<'a> Model for Line<'a> {
    ghost use Rattle.pfl_reader.specs.Scans.{Kept};

    ghost Value = { Kept };

    ghost view = { λ l. record { bytes = l.bytes.now; long = l.long; head = l.head } };
}

impl<'a> Line<'a> {
    /// A line with this beginning: it is all of the line, or the line is longer.
    pub(crate) fn new(bytes: &'a [u8], long: bool, head: Head) -> Line<'a>
        ensures bytes { result.bytes ≡ bytes.now }
        ensures long { result.long ≡ long }
        ensures head { result.head ≡ head }
    {
        Line { bytes, long, head }
    }

    /// What is kept of the line: its first 512 bytes, without its end.
    pub fn text(&self) -> &[u8]
        ensures { result.now ≡ self.now.bytes }
    {
        self.bytes
    }

    /// The line has a word and is no comment.
    pub fn has_word(&self) -> bool
        ensures { result ≡ has_word self.now.head }
    {
        matches!(self.head, Head::Word)
    }

    /// What the line says as one of a script.
    pub fn parse(&self) -> Result<ScriptLine, LineFault>
        ensures { result ≡ kept_said self.now }
    {
        if self.long {
            return Err(LineFault::Long);
        }
        parse_script(self.bytes)
    }

    /// Whether the line begins with `search`.
    pub fn is_search(&self) -> bool
        ensures { result ≡ kept_search self.now }
    {
        is_search(self.bytes)
    }

    /// The command of a line of a script that does not begin with `search`. It is small, where `parse` has room for the choices of a
    /// search.
    pub fn parse_plain(&self) -> Result<Command, LineFault>
        requires plain { kept_search self.now ≡ false }
        ensures { SaysCommand result (kept_said self.now) }
    {
        if self.long {
            return Err(LineFault::Long);
        }
        parse_plain(self.bytes)
    }

    /// What the line says as one of a setup.
    pub fn parse_setup(&self) -> Result<SetupLine, LineFault>
        ensures { result ≡ kept_setup self.now }
    {
        if self.long {
            return Err(LineFault::Long);
        }
        parse_setup(self.bytes)
    }

    /// What the line says to a session.
    pub fn parse_session(&self) -> Result<SessionLine, LineFault>
        ensures { result ≡ kept_session self.now }
    {
        if self.long {
            return Err(LineFault::Long);
        }
        parse_session(self.bytes)
    }
}
