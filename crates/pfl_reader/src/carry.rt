//! A line that is read byte by byte.

ghost use Rattle.std.specs.Prelude.{◌≡◌, ◌≢◌, ◌≤◌, ◌<◌, true, false, IfOk, IfErr, OnOk};
ghost use Rattle.pfl_reader.specs.Readers.{room, CountsTurns, IsReadFault};
ghost use Rattle.pfl_reader.specs.Scans.{Gives};
ghost use Rattle.pfl_reader.specs.inner.Feeds.{idle};
ghost use Rattle.pfl_reader.specs.inner.Scans.{nothing, pushed, settled, added, kept};

use crate::fault::ReadFault;
use crate::feed::{Feed, LINE_FEED};
use crate::head::Head;
use crate::line::Line;
use pfl_base::Input;
use pfl_lines::LONGEST;
use std::marker::Model;

pub(crate) const CARRIAGE_RETURN: u8 = 13;

/// What is kept of a line while it is read.
#[derive(Drop)]
pub(crate) struct Carry {
    bytes: [u8; 512],
    len: usize,
    long: bool,
    head: Head,
    carriage: bool,
}

impl Model for Carry {
    ghost use Rattle.std.specs.Prelude.{take, ◌≤◌};
    ghost use Rattle.pfl_reader.specs.inner.Scans.{Carried};

    ghost Value = { Carried };

    ghost view = { λ l. record { bytes = take l.len l.bytes; long = l.long; head = l.head; carriage = l.carriage } };

    ghost invariant = { λ l. l.len ≤ 512 };
}

impl Carry {
    /// Nothing of a line.
    pub(crate) fn new() -> Carry
        ensures { result ≡ nothing }
    {
        Carry {
            bytes: [0; 512],
            len: 0,
            long: false,
            head: Head::Blank,
            carriage: false,
        }
    }

    /// Nothing of a line again.
    fn clear(&mut self)
        ensures { self.new ≡ nothing }
    {
        self.len = 0;
        self.long = false;
        self.head = Head::Blank;
        self.carriage = false;
    }

    /// One more byte of the line.
    fn push(&mut self, byte: u8)
        ensures { self.new ≡ pushed self.old byte }
    {
        if self.len < LONGEST {
            self.bytes[self.len] = byte;
            self.len += 1;
        } else {
            self.long = true;
        }
        self.head = self.head.after(byte);
    }

    /// Counts a CR that came last.
    fn settle(&mut self)
        ensures { self.new ≡ settled self.old }
    {
        if self.carriage {
            self.push(CARRIAGE_RETURN);
            self.carriage = false;
        }
    }

    /// A byte that ends no line.
    fn add(&mut self, byte: u8)
        ensures { self.new ≡ added self.old byte }
    {
        self.settle();
        if byte == CARRIAGE_RETURN {
            self.carriage = true;
        } else {
            self.push(byte);
        }
    }

    /// Nothing of the line has come.
    fn is_empty(&self) -> bool
        ensures empty { result ≡ true → self.now ≡ nothing }
        ensures some { result ≡ false → self.now ≢ nothing }
    {
        self.len == 0 && !self.long && matches!(self.head, Head::Blank) && !self.carriage
    }

    /// The line.
    pub(crate) fn line(&self) -> Line<'_>
        ensures { result ≡ kept self.now }
    {
        Line::new(&self.bytes[..self.len], self.long, self.head)
    }

    /// Reads the next line in place of the last one, and says whether there was one.
    pub(crate) fn read<R: Input>(&mut self, feed: &mut Feed<R>) -> Result<bool, ReadFault>
        ensures line { IfOk result (λ more. Gives feed.old.left feed.new.left more (kept self.new)) }
        ensures awaited { IfOk result (λ more. more ≡ false → feed.old.waiting ≡ 0) }
        ensures room { IfOk result (λ more. more ≡ true → room (idle feed.new) < room (idle feed.old)) }
        ensures turns { CountsTurns (idle feed.old) (idle feed.new) }
        ensures few { feed.old.turns ≤ 16777216 → feed.new.turns ≤ 16777216 }
        ensures stays { OnOk result (feed.new.failed ≡ feed.old.failed) }
        ensures fault { IfErr result (λ e. IsReadFault e (idle feed.new)) }
    {
        self.clear();
        while let Some(byte) = feed.take_byte()? {
            if byte == LINE_FEED {
                return Ok(true);
            }
            self.add(byte);
        }
        if self.is_empty() {
            return Ok(false);
        }
        self.settle();
        Ok(true)
    }
}
