//! A reader and a writer that go byte by byte, and fail, and a reader without end.

ghost use Rattle.std.specs.Prelude.{◌≡◌, Some, false};
ghost use Rattle.pfl_base.specs.Counts.{own_calls};

use pfl_base::{DeviceFault, Input};
use std::io::{self, ErrorKind};

/// Gives one byte a call, this many times, and then fails.
#[derive(Drop)]
pub struct Bytewise {
    pub bytes: &'static [u8],
    pub good: u32,
}

impl io::Read for Bytewise {
    fn read(&mut self, buf: &mut [u8]) -> io::Result<usize> {
        if self.good == 0 {
            return Err(ErrorKind::BrokenPipe.into());
        }
        self.good -= 1;
        let Some((first, rest)) = self.bytes.split_first() else {
            return Ok(0);
        };
        if buf.is_empty() {
            return Ok(0);
        }
        buf[0] = *first;
        self.bytes = rest;
        Ok(1)
    }
}

/// Gives one byte a call, without end: the first ones, and then only `#`. It counts the calls.
#[derive(Drop)]
pub struct Endless {
    pub first: &'static [u8],
    pub calls: u64,
}

impl Input for Endless {
    ghost reads = { λ d. own_calls (Some d.calls) };

    ghost has_failed = { λ d. false };

    fn read(&mut self, buf: &mut [u8]) -> Result<usize, DeviceFault> {
        self.calls = self.calls.saturating_add(1);
        if buf.is_empty() {
            return Ok(0);
        }
        buf[0] = match self.first.split_first() {
            Some((byte, rest)) => {
                self.first = rest;
                *byte
            }
            None => b'#',
        };
        Ok(1)
    }

    fn failed(&self) -> bool {
        false
    }
}

/// Takes one byte a call, this many times, and then fails.
#[derive(Drop)]
pub struct Narrow {
    pub taken: [u8; 64],
    pub len: usize,
    pub good: usize,
}

impl Narrow {
    /// Nothing taken yet.
    pub fn new(good: usize) -> Narrow
        ensures good { result.good ≡ good }
        ensures nothing_taken { result.len ≡ 0 }
    {
        Narrow {
            taken: [0; 64],
            len: 0,
            good,
        }
    }
}

impl io::Write for Narrow {
    fn write(&mut self, bytes: &[u8]) -> io::Result<usize> {
        let Some(first) = bytes.first() else {
            return Ok(0);
        };
        if self.len >= self.good || self.len >= 64 {
            return Err(ErrorKind::BrokenPipe.into());
        }
        self.taken[self.len] = *first;
        self.len += 1;
        Ok(1)
    }

    fn flush(&mut self) -> io::Result<()> {
        Ok(())
    }
}
