//! Devices of the standard library that fail, that are interrupted, and that take nothing.

use pfl_base::{DeviceFault, Input, Output, Std};
use std::io::{self, ErrorKind};

/// Gives a byte, is interrupted, gives a byte, and fails.
#[derive(Drop)]
struct Faulty {
    calls: u8,
}

impl io::Read for Faulty {
    fn read(&mut self, buf: &mut [u8]) -> io::Result<usize> {
        self.calls = self.calls.saturating_add(1);
        if self.calls == 2 {
            return Err(ErrorKind::Interrupted.into());
        }
        if self.calls > 3 || buf.is_empty() {
            return Err(ErrorKind::BrokenPipe.into());
        }
        buf[0] = self.calls;
        Ok(1)
    }
}

/// Is interrupted this many times, and then takes a byte at a time.
#[derive(Drop)]
struct Interrupted {
    times: u16,
}

impl io::Write for Interrupted {
    fn write(&mut self, bytes: &[u8]) -> io::Result<usize> {
        if self.times > 0 {
            self.times -= 1;
            return Err(ErrorKind::Interrupted.into());
        }
        Ok(bytes.len().min(1))
    }

    fn flush(&mut self) -> io::Result<()> {
        Ok(())
    }
}

/// Takes nothing.
#[derive(Drop)]
struct Full;

impl io::Write for Full {
    fn write(&mut self, _bytes: &[u8]) -> io::Result<usize> {
        Ok(0)
    }

    fn flush(&mut self) -> io::Result<()> {
        Ok(())
    }
}

#[test]
fn a_reader_fails_in_mid_stream(rt: HostRuntime) {
    let mut reader = Std::new(Faulty { calls: 0 });
    let mut buf = [0u8; 4];
    assert!(rt; reader.read(&mut buf) == Ok(1));
    assert!(rt; reader.read(&mut buf) == Ok(1));
    assert!(rt; buf[0] == 3);
    assert!(rt; !reader.failed());
    assert!(rt; reader.read(&mut buf) == Err(DeviceFault));
    assert!(rt; reader.failed());
}

#[test]
fn an_interrupted_write_is_made_again(rt: HostRuntime) {
    let mut patient = Std::new(Interrupted { times: 4096 });
    assert!(rt; patient.write(b"at 0") == Ok(1));
    assert!(rt; !patient.failed());
    let mut tired = Std::new(Interrupted { times: 4097 });
    assert!(rt; tired.write(b"at 0") == Err(DeviceFault));
    assert!(rt; tired.failed());
}

#[test]
fn a_writer_takes_a_byte_or_fails(rt: HostRuntime) {
    let mut full = Std::new(Full);
    assert!(rt; full.write(b"") == Ok(0));
    assert!(rt; !full.failed());
    assert!(rt; full.write(b"at 0") == Err(DeviceFault));
    assert!(rt; full.failed());
}
