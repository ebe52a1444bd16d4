//! Addresses, ends, nets and ranges of ports.

ghost use Rattle.std.specs.Prelude.{◌≡◌, ◌<◌, IfOk};
ghost use Rattle.pfl_lines.specs.inner.Readings.{Gives};
ghost use Rattle.pfl_lines.specs.inner.Addresses.{v4_front, v4_read, v4_end_read};
ghost use Rattle.pfl_lines.specs.Addresses.{hex_digit, mark_at, hex_at, group_at, pair_at, quad_at, v6_at, v6_of, v6_end, end_of, addr_of};
ghost use Rattle.pfl_lines.specs.Addresses.{net_at_word, single_port_of, port_range_of, ports_at_word, v4_pool, v6_pool, pool_at_word};

use crate::fault::LineFault;
use crate::numbers::{cut, number_before, number_of};
use pfl_base::{Addr, End};
use pfl_rules::{Net, Pool, Ports};

/// Three numbers from 0 to 255, a dot after each, as one number, and what stands after them.
#[tactic(auto, unfolding(crate::specs::inner::Addresses::v4_front))]
fn v4_front(word: &[u8]) -> Result<(u64, &[u8]), LineFault>
    ensures exact { Gives (λ x. (x.0, x.1.now)) result (v4_front word.now) }
    ensures small { IfOk result (λ x. x.0 < 16777216) }
{
    let (a, rest) = number_before(word, b'.', 255)?;
    let (b, rest) = number_before(rest, b'.', 255)?;
    let (c, rest) = number_before(rest, b'.', 255)?;
    Ok(((a * 256 + b) * 256 + c, rest))
}

/// Four numbers from 0 to 255 joined by dots.
#[tactic(auto, unfolding(crate::specs::inner::Addresses::v4_read))]
fn v4_of(word: &[u8]) -> Result<u32, LineFault>
    ensures { result ≡ v4_read word.now }
{
    let (front, last) = v4_front(word)?;
    let last = number_of(last, 255)?;
    Ok((front * 256 + last) as u32)
}

/// The value of one of 0 to 9 and a to f.
fn hex_digit(byte: u8) -> Result<u8, LineFault>
    ensures exact { result ≡ hex_digit byte }
    ensures small { IfOk result (λ n. n < 16) }
{
    match byte {
        b'0'..=b'9' => Ok(byte - b'0'),
        b'a'..=b'f' => Ok(byte - 87),
        _ => Err(LineFault::Number),
    }
}

/// What stands after this byte, which comes first.
fn mark_at(bytes: &[u8], mark: u8) -> Result<&[u8], LineFault>
    ensures { Gives (λ x. x.now) result (mark_at mark bytes.now) }
{
    match bytes.split_first() {
        Some((first, rest)) if *first == mark => Ok(rest),
        _ => Err(LineFault::Number),
    }
}

/// The hexadecimal digit that comes first.
#[tactic(auto, unfolding(crate::specs::Addresses::hex_at))]
fn hex_at(bytes: &[u8]) -> Result<(u8, &[u8]), LineFault>
    ensures exact { Gives (λ x. (x.0, x.1.now)) result (hex_at bytes.now) }
    ensures small { IfOk result (λ x. x.0 < 16) }
{
    let Some((first, rest)) = bytes.split_first() else {
        return Err(LineFault::Number);
    };
    let n = hex_digit(*first)?;
    Ok((n, rest))
}

/// Exactly four hexadecimal digits.
#[tactic(auto, unfolding(crate::specs::Addresses::group_at))]
fn group_at(bytes: &[u8]) -> Result<(u16, &[u8]), LineFault>
    ensures { Gives (λ x. (x.0, x.1.now)) result (group_at bytes.now) }
{
    let (a, rest) = hex_at(bytes)?;
    let (b, rest) = hex_at(rest)?;
    let (c, rest) = hex_at(rest)?;
    let (d, rest) = hex_at(rest)?;
    let high = u16::from(a) * 16 + u16::from(b);
    Ok(((high * 16 + u16::from(c)) * 16 + u16::from(d), rest))
}

/// Two groups joined by a colon.
#[tactic(auto, unfolding(crate::specs::Addresses::pair_at))]
fn pair_at(bytes: &[u8]) -> Result<(u32, &[u8]), LineFault>
    ensures { Gives (λ x. (x.0, x.1.now)) result (pair_at bytes.now) }
{
    let (a, rest) = group_at(bytes)?;
    let rest = mark_at(rest, b':')?;
    let (b, rest) = group_at(rest)?;
    Ok((u32::from(a) * 65536 + u32::from(b), rest))
}

/// Four groups joined by colons.
#[tactic(auto, unfolding(crate::specs::Addresses::quad_at))]
fn quad_at(bytes: &[u8]) -> Result<(u64, &[u8]), LineFault>
    ensures { Gives (λ x. (x.0, x.1.now)) result (quad_at bytes.now) }
{
    let (a, rest) = pair_at(bytes)?;
    let rest = mark_at(rest, b':')?;
    let (b, rest) = pair_at(rest)?;
    Ok((u64::from(a) * 4294967296 + u64::from(b), rest))
}

/// Eight groups joined by colons.
#[tactic(auto, unfolding(crate::specs::Addresses::v6_at))]
fn v6_at(bytes: &[u8]) -> Result<(u128, &[u8]), LineFault>
    ensures { Gives (λ x. (x.0, x.1.now)) result (v6_at bytes.now) }
{
    let (a, rest) = quad_at(bytes)?;
    let rest = mark_at(rest, b':')?;
    let (b, rest) = quad_at(rest)?;
    Ok((u128::from(a) * 18446744073709551616 + u128::from(b), rest))
}

/// A whole word of eight groups.
#[tactic(auto, unfolding(crate::specs::Addresses::v6_of))]
fn v6_of(word: &[u8]) -> Result<u128, LineFault>
    ensures { result ≡ v6_of word.now }
{
    let (addr, rest) = v6_at(word)?;
    if rest.is_empty() {
        Ok(addr)
    } else {
        Err(LineFault::Number)
    }
}

/// `ADDR:PORT`.
#[tactic(auto, unfolding(crate::specs::inner::Addresses::v4_end_read))]
fn v4_end(word: &[u8]) -> Result<End, LineFault>
    ensures { result ≡ v4_end_read word.now }
{
    let (front, rest) = v4_front(word)?;
    let (last, port) = number_before(rest, b':', 255)?;
    let port = number_of(port, 65535)?;
    Ok(End {
        addr: Addr::V4((front * 256 + last) as u32),
        port: port as u16,
    })
}

/// `ADDR]:PORT`, after `[`.
#[tactic(auto, unfolding(crate::specs::Addresses::v6_end))]
fn v6_end(word: &[u8]) -> Result<End, LineFault>
    ensures { result ≡ v6_end word.now }
{
    let (addr, rest) = v6_at(word)?;
    let rest = mark_at(rest, b']')?;
    let port = mark_at(rest, b':')?;
    let port = number_of(port, 65535)?;
    Ok(End {
        addr: Addr::V6(addr),
        port: port as u16,
    })
}

/// `ADDR:PORT`, for IPv6 `[ADDR]:PORT`.
#[tactic(auto, using(crate::proofs::Dotted::v4_end_is), unfolding(crate::specs::Addresses::end_of))]
pub fn end_of(word: &[u8]) -> Result<End, LineFault>
    ensures { result ≡ end_of word.now }
{
    match word.split_first() {
        Some((b'[', rest)) => v6_end(rest),
        Some(_) => v4_end(word),
        None => Err(LineFault::Number),
    }
}

/// An address of either family.
#[tactic(auto, using(crate::proofs::Dotted::v4_is), unfolding(crate::specs::Addresses::addr_of))]
fn addr_of(word: &[u8]) -> Result<Addr, LineFault>
    ensures { result ≡ addr_of word.now }
{
    match v4_of(word) {
        Ok(addr) => Ok(Addr::V4(addr)),
        Err(_) => match v6_of(word) {
            Ok(addr) => Ok(Addr::V6(addr)),
            Err(fault) => Err(fault),
        },
    }
}

/// `ADDR/LEN`.
#[tactic(auto, unfolding(crate::specs::Addresses::net_at_word))]
pub fn net_at_word(word: &[u8]) -> Result<Net, LineFault>
    ensures { result ≡ net_at_word word.now }
{
    let (addr, len) = cut(word, b'/')?;
    let addr = addr_of(addr)?;
    let len = number_of(len, 128)?;
    Net::new(addr, len as u8).ok_or(LineFault::Number)
}

/// One port.
#[tactic(auto, unfolding(crate::specs::Addresses::single_port_of))]
fn single_port_of(word: &[u8]) -> Result<Ports, LineFault>
    ensures { result ≡ single_port_of word.now }
{
    let port = number_of(word, 65535)?;
    Ports::new(port as u16, port as u16).ok_or(LineFault::Number)
}

/// `FIRST:LAST`.
#[tactic(auto, unfolding(crate::specs::Addresses::port_range_of))]
fn port_range_of(word: &[u8]) -> Result<Ports, LineFault>
    ensures { result ≡ port_range_of word.now }
{
    let (first, last) = cut(word, b':')?;
    let first = number_of(first, 65535)?;
    let last = number_of(last, 65535)?;
    Ports::new(first as u16, last as u16).ok_or(LineFault::Number)
}

/// A port, or the first and the last of a range with a colon between them.
pub fn ports_at_word(word: &[u8]) -> Result<Ports, LineFault>
    ensures { result ≡ ports_at_word word.now }
{
    match single_port_of(word) {
        Ok(ports) => Ok(ports),
        Err(_) => port_range_of(word),
    }
}

/// `ADDR:PORTS`.
#[tactic(auto, using(crate::proofs::Dotted::v4_is), unfolding(crate::specs::Addresses::v4_pool))]
fn v4_pool(word: &[u8]) -> Result<Pool, LineFault>
    ensures { result ≡ v4_pool word.now }
{
    let (addr, ports) = cut(word, b':')?;
    let addr = v4_of(addr)?;
    let ports = ports_at_word(ports)?;
    Ok(Pool {
        addr: Addr::V4(addr),
        ports,
    })
}

/// `ADDR]:PORTS`, after `[`.
#[tactic(auto, unfolding(crate::specs::Addresses::v6_pool))]
fn v6_pool(word: &[u8]) -> Result<Pool, LineFault>
    ensures { result ≡ v6_pool word.now }
{
    let (addr, rest) = v6_at(word)?;
    let rest = mark_at(rest, b']')?;
    let ports = mark_at(rest, b':')?;
    let ports = ports_at_word(ports)?;
    Ok(Pool {
        addr: Addr::V6(addr),
        ports,
    })
}

/// `ADDR:PORTS`, for IPv6 `[ADDR]:PORTS`.
#[tactic(auto, unfolding(crate::specs::Addresses::pool_at_word))]
pub fn pool_at_word(word: &[u8]) -> Result<Pool, LineFault>
    ensures { result ≡ pool_at_word word.now }
{
    match word.split_first() {
        Some((b'[', rest)) => v6_pool(rest),
        Some(_) => v4_pool(word),
        None => Err(LineFault::Number),
    }
}
