//! A reader of lines.

ghost use Rattle.std.specs.Prelude.{◌≡◌, ◌+◌, ◌<◌, ◌≤◌, ◌^◌, ◌↔◌, true, false, IfOk, IfErr, IsTrue, OnOk, OnErr};
ghost use Rattle.std.specs.Io.KnownBytes.{Keeps, IsAtEnd};
ghost use Rattle.pfl_reader.specs.Readers.{room, CountsTurns, IsReadFault, Releases, one_more, lines_after};
ghost use Rattle.pfl_reader.specs.Scans.{Gives};

use crate::carry::Carry;
use crate::fault::ReadFault;
use crate::feed::{Feed, Place};
use crate::head::Head;
use crate::line::Line;
use pfl_base::Input;
use pfl_lines::LONGEST;
use std::marker::Model;

/// Reads lines from a device, in blocks of 64 KiB.
#[derive(Drop)]
pub struct LineReader<R: Input> {
    feed: Feed<R>,
    carry: Carry,
    carried: bool,
    place: Place,
    long: bool,
    head: Head,
    lines: u64,
}

impl<R: Input> Model for LineReader<R> {
    ghost use Rattle.std.specs.Prelude.{◌≤◌};
    ghost use Rattle.pfl_reader.specs.Readers.{Source};
    ghost use Rattle.pfl_reader.specs.inner.Feeds.{source, line_read};

    ghost Value = { Source };

    ghost view = { λ r. source r.feed r.lines (line_read r.carried r.carry r.feed r.place.from r.place.to r.long r.head) };

    ghost invariant = { λ r. (r.place.from ≤ r.place.to) × (r.place.to ≤ 65536) };
}

impl<R: Input> LineReader<R> {
    /// A reader of the device's lines.
    pub fn new(device: R) -> Self
        ensures left { result.left ≡ R.left device }
        ensures lines { result.lines ≡ 0 }
        ensures turns { result.turns ≡ 0 }
        ensures reads { result.reads ≡ R.reads device }
        ensures failed { result.failed ≡ R.has_failed device }
    {
        LineReader {
            feed: Feed::new(device),
            carry: Carry::new(),
            carried: true,
            place: Place { from: 0, to: 0 },
            long: false,
            head: Head::Blank,
            lines: 0,
        }
    }

    /// The device itself. Bytes that it gave and that no line took are lost.
    pub fn into_inner(self) -> R
        ensures left { Releases self.left (R.left result) }
        ensures reads { R.reads result ≡ self.reads }
        ensures failed { R.has_failed result ≡ self.failed }
    {
        let LineReader { feed, .. } = self;
        feed.into_inner()
    }

    /// The lines read so far.
    pub fn lines(&self) -> u64
        ensures { result ≡ self.now.lines }
    {
        self.lines
    }

    /// How many calls of `read` the run has made.
    pub fn turns(&self) -> u32
        ensures turns { result ≡ self.now.turns }
        ensures few { result ≤ 16777216 }
    {
        self.feed.turns()
    }

    /// Whether a byte that was read waits to be taken. If not, the next `advance` reads.
    pub fn waits(&self) -> bool
        ensures { IsTrue result ↔ (0 < self.now.waiting) }
    {
        self.feed.waits()
    }

    /// Begins a run: no call of `read` counts yet.
    pub fn begin(&mut self)
        ensures left { self.new.left ≡ self.old.left }
        ensures lines { self.new.lines ≡ self.old.lines }
        ensures counted { self.new.lines < 2 ^ 64 }
        ensures turns { self.new.turns ≡ 0 }
        ensures reads { self.new.reads ≡ self.old.reads }
        ensures failed { self.new.failed ≡ self.old.failed }
        ensures room { room self.new ≤ 2 ^ 41 }
    {
        self.feed.begin();
    }

    /// Counts a line.
    fn count_line(&mut self)
        ensures { self.new ≡ record self.old { lines = one_more self.old.lines } }
    {
        self.lines = self.lines.saturating_add(1);
    }

    /// Reads a block if no byte waits, and says whether one does then: at the end none does.
    fn await_bytes(&mut self) -> Result<bool, ReadFault>
        ensures left { Keeps self.old.left self.new.left }
        ensures some { IfOk result (λ some. some ≡ true → 0 < self.new.waiting) }
        ensures end { IfOk result (λ some. some ≡ false → IsAtEnd self.new.left) }
        ensures awaited { IfOk result (λ some. some ≡ false → self.old.waiting ≡ 0) }
        ensures room { OnOk result (room self.new ≤ room self.old) }
        ensures lines { self.new.lines ≡ self.old.lines }
        ensures turns { CountsTurns self.old self.new }
        ensures few { self.old.turns ≤ 16777216 → self.new.turns ≤ 16777216 }
        ensures stays { OnOk result (self.new.failed ≡ self.old.failed) }
        ensures fault { IfErr result (λ e. IsReadFault e self.new) }
    {
        self.feed.await_bytes()
    }

    /// Takes the next line where it lies, if all of it is in the block, and says whether it is.
    fn take_whole(&mut self) -> bool
        ensures line { result ≡ true → Gives self.old.left self.new.left true self.new.line }
        ensures room { result ≡ true → room self.new < room self.old }
        ensures not { result ≡ false → self.new ≡ self.old }
        ensures lines { self.new.lines ≡ self.old.lines }
        ensures turns { self.new.turns ≡ self.old.turns }
        ensures reads { self.new.reads ≡ self.old.reads }
        ensures stays { self.new.failed ≡ self.old.failed }
    {
        let Some(place) = self.feed.take_line() else {
            return false;
        };
        let body = self.feed.between(place);
        self.head = Head::of(body);
        self.long = body.len() > LONGEST;
        self.place = Place {
            from: place.from,
            to: place.from + body.len().min(LONGEST),
        };
        self.carried = false;
        true
    }

    /// Reads the next line byte by byte, and says whether there was one.
    fn carry_over(&mut self) -> Result<bool, ReadFault>
        ensures line { IfOk result (λ more. Gives self.old.left self.new.left more self.new.line) }
        ensures awaited { IfOk result (λ more. more ≡ false → self.old.waiting ≡ 0) }
        ensures room { IfOk result (λ more. more ≡ true → room self.new < room self.old) }
        ensures lines { self.new.lines ≡ self.old.lines }
        ensures turns { CountsTurns self.old self.new }
        ensures few { self.old.turns ≤ 16777216 → self.new.turns ≤ 16777216 }
        ensures stays { OnOk result (self.new.failed ≡ self.old.failed) }
        ensures fault { IfErr result (λ e. IsReadFault e self.new) }
    {
        self.carried = true;
        self.carry.read(&mut self.feed)
    }

    /// Reads the next line, of which at most 512 bytes are kept, and says whether there was one.
    pub fn advance(&mut self) -> Result<bool, ReadFault>
        ensures line { IfOk result (λ more. Gives self.old.left self.new.left more self.new.line) }
        ensures awaited { IfOk result (λ more. more ≡ false → self.old.waiting ≡ 0) }
        ensures room { IfOk result (λ more. more ≡ true → room self.new < room self.old) }
        ensures lines { IfOk result (λ more. self.new.lines ≡ lines_after more self.old.lines) }
        ensures uncounted { OnErr result (self.new.lines ≡ self.old.lines) }
        ensures turns { CountsTurns self.old self.new }
        ensures few { self.old.turns ≤ 16777216 → self.new.turns ≤ 16777216 }
        ensures stays { OnOk result (self.new.failed ≡ self.old.failed) }
        ensures fault { IfErr result (λ e. IsReadFault e self.new) }
    {
        let more = self.await_bytes()? && (self.take_whole() || self.carry_over()?);
        if more {
            self.count_line();
        }
        Ok(more)
    }

    /// The line that was read last.
    pub fn line(&self) -> Line<'_>
        ensures { result ≡ self.now.line }
    {
        if self.carried {
            self.carry.line()
        } else {
            Line::new(self.feed.between(self.place), self.long, self.head)
        }
    }
}
