//! Numbers.

ghost use Rattle.std.specs.Prelude.{◌≡◌, ◌≤◌, false, IfOk};
ghost use Rattle.pfl_lines.specs.inner.Readings.{Gives};
ghost use Rattle.pfl_lines.specs.Numbers.{is_digit, number_of, cut_at};
ghost use Rattle.pfl_lines.specs.inner.Numbers.{with_digit, number_before};

use crate::fault::LineFault;
use crate::words::try_read;

/// The number with one digit more, from 0 to the greatest.
#[tactic(auto, unfolding(crate::specs::inner::Numbers::with_digit))]
fn with_digit(n: u64, digit: u8, greatest: u64) -> Result<u64, LineFault>
    ensures exact { result ≡ with_digit greatest n digit }
    ensures within { IfOk result (λ n. n ≤ greatest) }
{
    if !digit.is_ascii_digit() {
        return Err(LineFault::Number);
    }
    let tens = n.checked_mul(10).ok_or(LineFault::Number)?;
    let more = tens
        .checked_add(u64::from(digit - b'0'))
        .ok_or(LineFault::Number)?;
    if more > greatest {
        return Err(LineFault::Number);
    }
    Ok(more)
}

/// A number from 0 to the greatest.
#[tactic(auto, using(crate::proofs::Before::said_step), unfolding(crate::specs::Numbers::number_of))]
pub fn number_of(word: &[u8], greatest: u64) -> Result<u64, LineFault>
    ensures exact { result ≡ number_of greatest word.now }
    ensures within { IfOk result (λ n. n ≤ greatest) }
{
    if word.is_empty() {
        return Err(LineFault::Number);
    }
    let mut rest = word;
    let mut n = 0;
    while let Some((digit, others)) = rest.split_first() {
        n = try_read!(with_digit(n, *digit, greatest));
        rest = others;
    }
    Ok(n)
}

/// The number from 0 to the greatest that the first separator ends, and what stands after it.
#[tactic(auto, using(crate::proofs::Before::before_step, crate::proofs::Before::before_end, crate::proofs::Before::first_step))]
pub fn number_before(word: &[u8], separator: u8, greatest: u64) -> Result<(u64, &[u8]), LineFault>
    requires { is_digit separator ≡ false }
    ensures exact { Gives (λ x. (x.0, x.1.now)) result (number_before separator greatest word.now) }
    ensures within { IfOk result (λ x. x.0 ≤ greatest) }
{
    let Some((first, mut rest)) = word.split_first() else {
        return Err(LineFault::Number);
    };
    let mut n = try_read!(with_digit(0, *first, greatest));
    while let Some((byte, others)) = rest.split_first() {
        if *byte == separator {
            return Ok((n, others));
        }
        n = try_read!(with_digit(n, *byte, greatest));
        rest = others;
    }
    Err(LineFault::Number)
}

/// What stands before the first separator, and what stands after it.
pub fn cut(word: &[u8], separator: u8) -> Result<(&[u8], &[u8]), LineFault>
    ensures { Gives (λ x. (x.0.now, x.1.now)) result (cut_at separator word.now) }
{
    for (i, byte) in word.iter().enumerate() {
        if *byte == separator {
            return Ok((&word[..i], &word[i + 1..]));
        }
    }
    Err(LineFault::Number)
}
