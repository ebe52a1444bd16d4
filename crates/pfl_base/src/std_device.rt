//! Readers and writers of std as devices.

ghost use Rattle.std.specs.Prelude.{◌≡◌, true, false};
ghost use Rattle.std.specs.Io.{ReadsAtMost, WritesAtMost};
ghost use Rattle.std.specs.Io.KnownBytes.{ReadConsumes, WriteAppends};
ghost use Rattle.pfl_base.specs.Devices.{device_of, has_failed};

use crate::input::Input;
use crate::output::Output;
use std::error::Error;
use std::fmt;
use std::io::{self, ErrorKind, Read, Write};

/// How often a call is made again that a signal interrupted; one more interruption is a failure.
const RETRIES: u32 = 4096;

/// A call of a device failed.
#[derive(Clone, Copy, Debug, PartialEq, Eq)]
pub struct DeviceFault;

impl fmt::Display for DeviceFault {
    fn fmt<W: fmt::Write>(&self, f: &mut fmt::Formatter<W>) -> fmt::Result {
        f.write_str("a call of a device failed")
    }
}

impl Error for DeviceFault {}

/// A reader or a writer of std as a device, with the word whether a call has failed. Over memory, as `&[u8]` and
/// `Vec<u8>` are, it reports its bytes.
#[derive(Drop)]
pub struct Std<D> {
    device: D,
    failed: bool,
}

impl<D> Std<D> {
    /// The device, unfailed.
    pub fn new(device: D) -> Self
        ensures device { device_of result ≡ device }
        ensures unfailed { has_failed result ≡ false }
    {
        Std {
            device,
            failed: false,
        }
    }

    /// The reader or writer itself.
    pub fn into_inner(self) -> D
        ensures { result ≡ device_of self }
    {
        let Std { device, failed: _ } = self;
        device
    }

    /// Whether a call has failed.
    fn is_failed(&self) -> bool
        ensures { result ≡ has_failed self.now }
    {
        self.failed
    }

    /// Marks that a call has failed.
    fn fail(&mut self) -> DeviceFault
        ensures device { device_of self.new ≡ device_of self.old }
        ensures failed { has_failed self.new ≡ true }
    {
        self.failed = true;
        DeviceFault
    }
}

/// Reads, and again where a signal interrupted that.
fn read_again<D: Read>(device: &mut D, buf: &mut [u8]) -> io::Result<usize>
    ensures bound { ReadsAtMost result buf.new }
    ensures bytes { ReadConsumes (D.remaining device.old) (D.remaining device.new) result buf.new }
{
    for _ in 0..RETRIES {
        match device.read(buf) {
            Err(error) if error.kind() == ErrorKind::Interrupted => {}
            answer => return answer,
        }
    }
    device.read(buf)
}

/// Writes, and again where a signal interrupted that.
fn write_again<D: Write>(device: &mut D, bytes: &[u8]) -> io::Result<usize>
    ensures bound { WritesAtMost result bytes.now }
    ensures bytes { WriteAppends (D.contents device.old) (D.contents device.new) result bytes.now }
{
    for _ in 0..RETRIES {
        match device.write(bytes) {
            Err(error) if error.kind() == ErrorKind::Interrupted => {}
            answer => return answer,
        }
    }
    device.write(bytes)
}

impl<D: Read> Input for Std<D> {
    ghost left = { λ s. D.remaining (device_of s) };

    ghost has_failed = { has_failed };

    fn read(&mut self, buf: &mut [u8]) -> Result<usize, DeviceFault> {
        match read_again(&mut self.device, buf) {
            Ok(count) => Ok(count),
            Err(_) => Err(self.fail()),
        }
    }

    fn failed(&self) -> bool {
        self.is_failed()
    }
}

impl<D: Write> Output for Std<D> {
    ghost written = { λ s. D.contents (device_of s) };

    ghost has_failed = { has_failed };

    /// A write that takes nothing of a text that is not empty is a failure.
    fn write(&mut self, bytes: &[u8]) -> Result<usize, DeviceFault> {
        match write_again(&mut self.device, bytes) {
            Ok(count) if count > 0 || bytes.is_empty() => Ok(count),
            _ => Err(self.fail()),
        }
    }

    fn failed(&self) -> bool {
        self.is_failed()
    }
}
