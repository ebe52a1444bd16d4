//! What is read from.

ghost use Rattle.std.specs.Prelude.{◌≡◌, ℕ, List, Bool, true, Option, None, OnOk, OnErr};
ghost use Rattle.std.specs.Io.{ReadsAtMost};
ghost use Rattle.std.specs.Io.KnownBytes.{ReadConsumes};
ghost use Rattle.pfl_base.specs.Counts.{Calls, Counts, lent_calls, own_calls};

use crate::std_device::DeviceFault;

/// A device that is read from.
pub trait Input {
    /// What is left to read, of a device that reports its bytes.
    ghost left: { Self → Option (List ℕ) } = { λ _. None };

    /// How many calls of `read` there were, of a device that reports it, and through which references they go.
    ghost reads: { Self → Calls } = { λ _. own_calls None };

    /// A call has failed.
    ghost has_failed: { Self → Bool };

    /// Reads some bytes into the front of the buffer; none only at the end, or into a buffer with no room.
    fn read(&mut self, buf: &mut [u8]) -> Result<usize, DeviceFault>
        ensures bound { ReadsAtMost result buf.new }
        ensures bytes { ReadConsumes (left self.old) (left self.new) result buf.new }
        ensures counted { Counts (reads self.old) (reads self.new) 1 }
        ensures stays { OnOk result (has_failed self.new ≡ has_failed self.old) }
        ensures fails { OnErr result (has_failed self.new ≡ true) };

    /// Whether a call has failed.
    fn failed(&self) -> bool
        ensures { result ≡ has_failed self.now };
}

impl<D: Input> Input for &mut D {
    ghost left = { λ d. D.left d.now };

    ghost reads = { λ d. lent_calls d.ghost_name (D.reads d.now) };

    ghost has_failed = { λ d. D.has_failed d.now };

    fn read(&mut self, buf: &mut [u8]) -> Result<usize, DeviceFault> {
        Input::read(&mut **self, buf)
    }

    fn failed(&self) -> bool {
        Input::failed(&**self)
    }
}
