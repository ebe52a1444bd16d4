//! Hashes of keys.
//!
//! A hash is good where keys that differ in any bit mostly differ in its upper half, of which the tag of an index is made. Such a
//! hash is no secret: who chooses the keys can choose many of one hash, and a search among these takes a step for each.
ghost use Rattle.std.specs.Prelude.{◌≡◌};
ghost use Rattle.pfl_containers.specs.Hashes.{mixed};

/// What a hash is multiplied by: an odd number whose bits show no pattern.
pub const MULTIPLIER: u64 = 0x9e37_79b9_7f4a_7c15;

/// A hash with one more word in it: the halves of their product, laid over each other.
pub fn mix(hash: u64, word: u64) -> u64
    ensures mixed { result ≡ mixed hash word }
{
    let product = (hash ^ word) as u128 * MULTIPLIER as u128;
    (product % (1 << 64)) as u64 ^ (product >> 64) as u64
}
