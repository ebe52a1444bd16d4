//! A reader that gives nothing of what a browser sends.

ghost use Rattle.std.specs.Prelude.{◌≡◌, ◌<◌, ◌≤◌, ◌++◌, true, false, [], length, take, None, Some, OnOk, OnErr};
ghost use Rattle.std.specs.Io.{ReadsAtMost};
ghost use Rattle.std.specs.Io.KnownBytes.{Keeps, ReadConsumes};
ghost use Rattle.std.specs.Option.{is_some};
ghost use Rattle.pfl_doors.specs.Screens.{is_turned, left_in};

use crate::request::{DECIDING, judged_so_far};
use arrayvec::ArrayVec;
use pfl_base::{DeviceFault, Input};
use std::marker::Model;

/// How many bytes are read at a time until it is known who sends them. One block says it of most.
const BLOCK: usize = 34;

/// The room for the bytes that do not say it, and one block more.
const ROOM: usize = DECIDING - 1 + BLOCK;

/// A reader over a device. Where the first bytes are an HTTP request's, it is at its end at once, so that no line of a browser is read.
/// Else it gives what the device does.
#[derive(Drop)]
pub struct Screened<I: Input> {
    device: I,
    front: ArrayVec<u8, ROOM>,
    given: usize,
    verdict: Option<bool>,
}

impl<I: Input> Model for Screened<I> {
    ghost use Rattle.std.specs.Prelude.{◌≡◌, ◌≤◌, drop, length, None};
    ghost use Rattle.pfl_doors.specs.Requests.{judged};
    ghost use Rattle.pfl_doors.specs.Screens.{Screen};

    ghost Value = { Screen };

    ghost view = { λ s. record { rest = I.left s.device; front = drop s.given s.front.items; verdict = s.verdict; failed = I.has_failed s.device } };

    ghost invariant = { λ s. (s.given ≤ length s.front.items) × (s.verdict ≡ None → (s.given ≡ 0) × (judged s.front.items ≡ None)) };
}

/// Copies as many bytes as there is room for, from the first on, and returns how many.
fn copy_some(from: &[u8], to: &mut [u8]) -> usize
    ensures few { (result ≤ length from.now) × (result ≤ length to.new) }
    ensures room { length to.new ≡ length to.old }
    ensures copied { take result to.new ≡ take result from.now }
    ensures some { result ≡ 0 → 0 < length to.new → length from.now ≡ 0 }
{
    let count = from.len().min(to.len());
    to[..count].copy_from_slice(&from[..count]);
    count
}

impl<I: Input> Screened<I> {
    /// A reader over the device, of which nothing was read yet.
    #[tactic(auto, unfolding(crate::specs::Requests::judged))]
    pub fn new(device: I) -> Self
        ensures rest { result.rest ≡ I.left device }
        ensures front { result.front ≡ [] }
        ensures verdict { result.verdict ≡ None }
        ensures failed { result.failed ≡ I.has_failed device }
    {
        Screened {
            device,
            front: ArrayVec::new(),
            given: 0,
            verdict: None,
        }
    }

    /// Whether a browser was turned away.
    pub fn turned(&self) -> bool
        ensures { result ≡ is_turned self.now.verdict }
    {
        self.verdict == Some(true)
    }

    /// The device. Bytes that were read of it and not given are lost.
    pub fn into_inner(self) -> I
        ensures rest { I.left result ≡ self.rest }
        ensures failed { I.has_failed result ≡ self.failed }
    {
        let Screened { device, .. } = self;
        device
    }

    /// Reads a block onto the front. At the end of the device no request has begun.
    fn read_front(&mut self) -> Result<(), DeviceFault>
        requires unknown { self.old.verdict ≡ None }
        ensures keeps { Keeps (left_in self.old) (left_in self.new) }
        ensures grows { OnOk result (self.new.verdict ≡ None → length self.old.front < length self.new.front) }
        ensures few { length self.old.front ≤ 512 }
        ensures stays { OnOk result (self.new.failed ≡ self.old.failed) }
        ensures fails { OnErr result (self.new.failed ≡ true) }
    {
        let mut block = [0; BLOCK];
        let count = self.device.read(&mut block)?;
        if count == 0 {
            self.verdict = Some(false);
            return Ok(());
        }
        let Ok(()) = self.front.try_extend_from_slice(&block[..count]) else {
            unreachable!();
        };
        self.verdict = judged_so_far(self.front.as_slice());
        Ok(())
    }

    /// Reads until it is known whether the first bytes are a request's.
    fn judge(&mut self) -> Result<(), DeviceFault>
        ensures keeps { Keeps (left_in self.old) (left_in self.new) }
        ensures verdict { OnOk result (is_some self.new.verdict ≡ true) }
        ensures stays { OnOk result (self.new.failed ≡ self.old.failed) }
        ensures fails { OnErr result (self.new.failed ≡ true) }
    {
        while self.verdict.is_none() {
            self.read_front()?;
        }
        Ok(())
    }

    /// Gives bytes of the front, as many as there is room for.
    fn give_front(&mut self, buf: &mut [u8]) -> usize
        requires known { self.old.verdict ≡ Some false }
        ensures bound { (length buf.new ≡ length buf.old) × (result ≤ length buf.new) }
        ensures front { self.old.front ≡ take result buf.new ++ self.new.front }
        ensures some { result ≡ 0 → 0 < length buf.new → length self.old.front ≡ 0 }
        ensures rest { (self.new.rest ≡ self.old.rest) × (self.new.verdict ≡ self.old.verdict) × (self.new.failed ≡ self.old.failed) }
    {
        let count = copy_some(&self.front.as_slice()[self.given..], buf);
        self.given += count;
        count
    }

    /// Gives what the device does, and what was read of its front first.
    fn give(&mut self, buf: &mut [u8]) -> Result<usize, DeviceFault>
        requires known { self.old.verdict ≡ Some false }
        ensures bound { ReadsAtMost result buf.new }
        ensures bytes { ReadConsumes (left_in self.old) (left_in self.new) result buf.new }
        ensures stays { OnOk result (self.new.failed ≡ self.old.failed) }
        ensures fails { OnErr result (self.new.failed ≡ true) }
    {
        if self.given < self.front.len() {
            Ok(self.give_front(buf))
        } else {
            self.device.read(buf)
        }
    }
}

impl<I: Input> Input for Screened<I> {
    ghost left = { left_in };

    ghost has_failed = { λ s. s.failed };

    fn read(&mut self, buf: &mut [u8]) -> Result<usize, DeviceFault> {
        self.judge()?;
        if self.turned() {
            return Ok(0);
        }
        self.give(buf)
    }

    fn failed(&self) -> bool {
        self.device.failed()
    }
}
