//! The bytes of a device, read in blocks.

ghost use Rattle.std.specs.Prelude.{◌≡◌, ◌+◌, ◌<◌, ◌≤◌, ◌-◌, ◌^◌, slice_range, length, take, true, false, Some, IfOk, IfErr, IfSome, OnOk, ◌↔◌};
ghost use Rattle.std.specs.Prelude.{IsTrue, MatchOption, ⊤};
ghost use Rattle.std.specs.Io.KnownBytes.{Keeps, IsAtEnd};
ghost use Rattle.pfl_reader.specs.Readers.{room, CountsTurns, IsReadFault, Releases};
ghost use Rattle.pfl_reader.specs.inner.Feeds.{cut, idle, TakesWhole};
ghost use Rattle.pfl_reader.specs.inner.Scans.{TakesByte};

use crate::carry::CARRIAGE_RETURN;
use crate::fault::ReadFault;
use memchr::memchr;
use pfl_base::Input;
use std::marker::Model;

/// The most calls of `read` that one run makes.
const MOST_TURNS: u32 = 16777216;

pub(crate) const LINE_FEED: u8 = 10;

/// Where the bytes of a line lie in their block.
#[derive(Clone, Copy)]
pub(crate) struct Place {
    pub(crate) from: usize,
    pub(crate) to: usize,
}

/// How many of the bytes before a line feed are the line's: a CR that stands last is none.
fn body_len(bytes: &[u8]) -> usize
    ensures body { take result bytes.now ≡ cut bytes.now }
    ensures within { result ≤ length bytes.now }
{
    let len = bytes.len();
    if len > 0 && bytes[len - 1] == CARRIAGE_RETURN {
        len - 1
    } else {
        len
    }
}

/// The bytes that a device gives, a block at a time.
#[derive(Drop)]
pub(crate) struct Feed<R: Input> {
    device: R,
    block: [u8; 65536],
    start: usize,
    end: usize,
    turns: u32,
}

impl<R: Input> Model for Feed<R> {
    ghost use Rattle.std.specs.Prelude.{slice_range, ◌-◌, ◌≤◌};
    ghost use Rattle.std.specs.Io.KnownBytes.{prepend_known};
    ghost use Rattle.pfl_reader.specs.inner.Feeds.{Fed};

    ghost Value = { Fed };

    ghost view = { λ r. record {
      block = r.block;
      left = prepend_known (slice_range r.block r.start r.end) (R.left r.device);
      waiting = r.end - r.start;
      turns = r.turns;
      reads = R.reads r.device;
      failed = R.has_failed r.device;
    } };

    ghost invariant = { λ r. (r.start ≤ r.end) × (r.end ≤ 65536) × (r.turns ≤ 16777216) };
}

impl<R: Input> Feed<R> {
    /// The bytes of the device.
    pub(crate) fn new(device: R) -> Self
        ensures left { result.left ≡ R.left device }
        ensures turns { result.turns ≡ 0 }
        ensures reads { result.reads ≡ R.reads device }
        ensures failed { result.failed ≡ R.has_failed device }
    {
        Feed {
            device,
            block: [0; 65536],
            start: 0,
            end: 0,
            turns: 0,
        }
    }

    /// The device itself. Bytes that it gave and that were not taken are lost.
    pub(crate) fn into_inner(self) -> R
        ensures left { Releases self.left (R.left result) }
        ensures reads { R.reads result ≡ self.reads }
        ensures failed { R.has_failed result ≡ self.failed }
    {
        let Feed { device, .. } = self;
        device
    }

    /// How many calls of `read` the run has made.
    pub(crate) fn turns(&self) -> u32
        ensures turns { result ≡ self.now.turns }
        ensures few { result ≤ 16777216 }
    {
        self.turns
    }

    /// Begins a run: no call of `read` counts yet.
    pub(crate) fn begin(&mut self)
        ensures left { self.new.left ≡ self.old.left }
        ensures turns { self.new.turns ≡ 0 }
        ensures reads { self.new.reads ≡ self.old.reads }
        ensures failed { self.new.failed ≡ self.old.failed }
        ensures block { self.new.block ≡ self.old.block }
        ensures room { room (idle self.new) ≤ 2 ^ 41 }
    {
        self.turns = 0;
    }

    /// Reads the next block, of which nothing is left.
    fn fill(&mut self) -> Result<(), ReadFault>
        requires { self.old.waiting ≡ 0 }
        ensures left { Keeps self.old.left self.new.left }
        ensures end { IfOk result (λ _. self.new.waiting ≡ 0 → IsAtEnd self.new.left) }
        ensures room { OnOk result (room (idle self.new) ≤ room (idle self.old)) }
        ensures turns { CountsTurns (idle self.old) (idle self.new) }
        ensures few { self.old.turns ≤ 16777216 → self.new.turns ≤ 16777216 }
        ensures stays { OnOk result (self.new.failed ≡ self.old.failed) }
        ensures fault { IfErr result (λ e. IsReadFault e (idle self.new)) }
    {
        if self.turns == MOST_TURNS {
            return Err(ReadFault::TooManyTurns);
        }
        self.turns += 1;
        match self.device.read(&mut self.block) {
            Ok(n) => {
                self.start = 0;
                self.end = n;
                Ok(())
            }
            Err(_) => Err(ReadFault::Read),
        }
    }

    /// Whether a byte that was read waits to be taken.
    pub(crate) fn waits(&self) -> bool
        ensures { IsTrue result ↔ (0 < self.now.waiting) }
    {
        self.start < self.end
    }

    /// Takes a byte that waits.
    fn take_waiting(&mut self) -> u8
        requires { 0 < self.old.waiting }
        ensures taken { TakesByte self.old.left self.new.left (Some result) }
        ensures room { room (idle self.new) < room (idle self.old) }
        ensures turns { self.new.turns ≡ self.old.turns }
        ensures reads { self.new.reads ≡ self.old.reads }
        ensures stays { self.new.failed ≡ self.old.failed }
    {
        let byte = self.block[self.start];
        self.start += 1;
        byte
    }

    /// Reads a block if no byte waits, and says whether one does then: at the end none does.
    pub(crate) fn await_bytes(&mut self) -> Result<bool, ReadFault>
        ensures left { Keeps self.old.left self.new.left }
        ensures some { IfOk result (λ some. some ≡ true → 0 < self.new.waiting) }
        ensures end { IfOk result (λ some. some ≡ false → IsAtEnd self.new.left) }
        ensures awaited { IfOk result (λ some. some ≡ false → self.old.waiting ≡ 0) }
        ensures room { OnOk result (room (idle self.new) ≤ room (idle self.old)) }
        ensures turns { CountsTurns (idle self.old) (idle self.new) }
        ensures few { self.old.turns ≤ 16777216 → self.new.turns ≤ 16777216 }
        ensures stays { OnOk result (self.new.failed ≡ self.old.failed) }
        ensures fault { IfErr result (λ e. IsReadFault e (idle self.new)) }
    {
        if !self.waits() {
            self.fill()?;
        }
        Ok(self.waits())
    }

    /// Takes a byte, or nothing at the end.
    pub(crate) fn take_byte(&mut self) -> Result<Option<u8>, ReadFault>
        ensures byte { IfOk result (λ o. TakesByte self.old.left self.new.left o) }
        ensures awaited { IfOk result (λ o. MatchOption o (self.old.waiting ≡ 0) (λ _. ⊤)) }
        ensures spent { OnOk result (room (idle self.new) ≤ room (idle self.old)) }
        ensures room { IfOk result (λ o. IfSome o (λ _. room (idle self.new) < room (idle self.old))) }
        ensures turns { CountsTurns (idle self.old) (idle self.new) }
        ensures few { self.old.turns ≤ 16777216 → self.new.turns ≤ 16777216 }
        ensures stays { OnOk result (self.new.failed ≡ self.old.failed) }
        ensures fault { IfErr result (λ e. IsReadFault e (idle self.new)) }
    {
        if !self.await_bytes()? {
            return Ok(None);
        }
        Ok(Some(self.take_waiting()))
    }

    /// Takes the next line, if all of it waits and its line feed too: where it lies, without that and without a CR before it.
    pub(crate) fn take_line(&mut self) -> Option<Place>
        ensures line { MatchOption result (self.new ≡ self.old) (λ p. TakesWhole self.old self.new p.from p.to) }
        ensures within { IfSome result (λ p. (p.from ≤ p.to) × (p.to ≤ 65536)) }
        ensures turns { self.new.turns ≡ self.old.turns }
        ensures reads { self.new.reads ≡ self.old.reads }
        ensures stays { self.new.failed ≡ self.old.failed }
    {
        let waiting = &self.block[self.start..self.end];
        let found = memchr(LINE_FEED, waiting)?;
        let len = body_len(&waiting[..found]);
        let from = self.start;
        self.start = from + found + 1;
        Some(Place {
            from,
            to: from + len,
        })
    }

    /// The bytes of the block from one place up to another.
    pub(crate) fn between(&self, place: Place) -> &[u8]
        requires order { place.from ≤ place.to }
        requires within { place.to ≤ 65536 }
        ensures { result.now ≡ slice_range self.now.block place.from place.to }
    {
        &self.block[place.from..place.to]
    }
}
