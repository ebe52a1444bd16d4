//! The order of sequence numbers (RFC 9293, 3.4).

ghost use Rattle.std.specs.Prelude.{◌≡◌};
ghost use Rattle.pfl_base.specs.Sequence.{seq_gt as comes_after, seq_geq as comes_after_or_is};

/// Half of the circle of sequence numbers.
const HALF: u32 = 0x8000_0000;

/// Whether `a` comes after `b`.
pub fn seq_gt(a: u32, b: u32) -> bool
    ensures { result ≡ comes_after a b }
{
    let ahead = a.wrapping_sub(b);
    0 < ahead && ahead < HALF
}

/// Whether `a` is `b` or comes after it.
pub fn seq_geq(a: u32, b: u32) -> bool
    ensures { result ≡ comes_after_or_is a b }
{
    a.wrapping_sub(b) < HALF
}
