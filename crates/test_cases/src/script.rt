//! A script that is given byte by byte, and its replies.

use std::alloc::Global;
use std::cell::Cell;
use std::io;

const LINE_FEED: u8 = 10;

/// Gives a script byte by byte, so that no line is read before the one above it has its reply, and counts the lines that it
/// has begun to give.
#[derive(Drop)]
pub struct Script<'a> {
    left: &'a [u8],
    is_between: bool,
    begun: &'a Cell<usize>,
}

impl<'a> Script<'a> {
    /// The script from its first line on; `begun` counts.
    pub fn new(script: &'a str, begun: &'a Cell<usize>) -> Script<'a> {
        Script {
            left: script.as_bytes(),
            is_between: true,
            begun,
        }
    }
}

impl io::Read for Script<'_> {
    fn read(&mut self, buf: &mut [u8]) -> io::Result<usize> {
        let (Some((byte, left)), Some(place)) = (self.left.split_first(), buf.first_mut()) else {
            return Ok(0);
        };
        if self.is_between {
            self.begun.set(self.begun.get().saturating_add(1));
        }
        *place = *byte;
        self.is_between = *byte == LINE_FEED;
        self.left = left;
        Ok(1)
    }
}

/// Takes what is written, and for each line how many lines of the script were begun when it ended.
#[derive(Drop)]
pub struct Replies<'a> {
    pub bytes: Vec<u8>,
    pub lines: Vec<usize>,
    begun: &'a Cell<usize>,
}

impl<'a> Replies<'a> {
    /// Nothing is written yet.
    pub fn new(alloc: Global, begun: &'a Cell<usize>) -> Replies<'a> {
        Replies {
            bytes: Vec::new(alloc),
            lines: Vec::new(alloc),
            begun,
        }
    }
}

impl io::Write for Replies<'_> {
    fn write(&mut self, bytes: &[u8]) -> io::Result<usize> {
        for byte in bytes {
            if *byte == LINE_FEED {
                self.lines.push(self.begun.get())?;
            }
        }
        self.bytes.extend_from_slice(bytes)?;
        Ok(bytes.len())
    }

    fn flush(&mut self) -> io::Result<()> {
        Ok(())
    }
}
