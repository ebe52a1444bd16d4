//! The bytes of a frame.
ghost use Rattle.std.specs.Prelude.{◌≡◌, IfOk, length, take};

use pfl_edits::NoMemory;
use std::alloc::Allocator;
use std::marker::Model;

/// The bytes of a frame, in memory of their own.
#[derive(Drop)]
pub struct Bytes<A: Allocator> {
    bytes: Vec<u8, A>,
}

impl<A: Allocator> Model for Bytes<A> {
    ghost use Rattle.std.specs.Prelude.{ℕ, List};

    ghost Value = { List ℕ };

    ghost view = { λ b. b.bytes.items };
}

impl<A: Allocator> From<Vec<u8, A>> for Bytes<A> {
    ghost from_gives = { λ list bytes. bytes ≡ list.items };

    fn from(bytes: Vec<u8, A>) -> Bytes<A> {
        Bytes { bytes }
    }
}

impl<A: Allocator> Bytes<A> {
    /// The bytes.
    pub fn as_slice(&self) -> &[u8]
        ensures bytes { result.now ≡ self.now }
    {
        self.bytes.as_slice()
    }

    /// How many bytes there are.
    pub fn len(&self) -> usize
        ensures length { result ≡ length self.now }
    {
        self.as_slice().len()
    }
}

impl<A: Allocator + Copy> Bytes<A> {
    /// The same bytes, in memory of their own.
    pub fn copy(&self) -> Result<Bytes<A>, NoMemory>
        ensures same { IfOk result (λ copied. copied ≡ self.now) }
    {
        let bytes = Vec::from_slice(*self.bytes.allocator(), self.bytes.as_slice())?;
        Ok(Bytes { bytes })
    }

    /// The first `count` bytes, or all if there are fewer, in memory of their own.
    pub fn first(&self, count: usize) -> Result<Bytes<A>, NoMemory>
        ensures first { IfOk result (λ kept. kept ≡ take count self.now) }
    {
        let kept = count.min(self.bytes.len());
        let bytes = Vec::from_slice(*self.bytes.allocator(), &self.bytes[..kept])?;
        Ok(Bytes { bytes })
    }
}
