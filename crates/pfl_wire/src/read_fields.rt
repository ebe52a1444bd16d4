//! The fields of records, read from the front of bytes. A reader returns its value and the bytes after it; its fault
//! is [`BadFrame::Value`], also where bytes are missing.

ghost use Rattle.std.specs.Prelude.{◌≡◌, true, false, ◌==◌, IfOk};
ghost use Rattle.std.specs.List.{list_all};
ghost use Rattle.pfl_base.specs.Ends.{is_v4 as is_ipv4};
ghost use Rattle.pfl_base.specs.Packets.{scale_too_large};
ghost use Rattle.pfl_track.specs.Peers.{is_peer};
ghost use Rattle.pfl_wire.specs.inner.Answers.{Gives};
ghost use Rattle.pfl_wire.specs.Fields.{byte_at, number_at, pads_at, name_at, scale_of, peer_at, address_at, end_at, ends_at, is_v4_of, dir_of};
ghost use Rattle.pfl_wire.specs.Fields.{ack_wanted_of, status_of, class_at, rule_of};

use crate::fault::BadFrame;
use crate::message::BulkStatus;
use byteorder::{BigEndian, ByteOrder};
use pfl_base::{Addr, Class, Dir, End, StateName};
use pfl_track::{Peer, PeerFields};

pub fn read_byte(bytes: &[u8]) -> Result<(u8, &[u8]), BadFrame>
    ensures { Gives (λ x. (x.0, x.1.now)) result (byte_at bytes.now) }
{
    match bytes {
        [] => Err(BadFrame::Value),
        [byte, rest @ ..] => Ok((*byte, rest)),
    }
}

#[tactic(auto, unfolding(crate::specs::Fields::number_at))]
pub fn read_u16(bytes: &[u8]) -> Result<(u16, &[u8]), BadFrame>
    ensures { Gives (λ x. (x.0, x.1.now)) result (number_at 2 bytes.now) }
{
    if bytes.len() < 2 {
        return Err(BadFrame::Value);
    }
    Ok((BigEndian::read_u16(bytes), &bytes[2..]))
}

#[tactic(auto, unfolding(crate::specs::Fields::number_at))]
pub fn read_u32(bytes: &[u8]) -> Result<(u32, &[u8]), BadFrame>
    ensures { Gives (λ x. (x.0, x.1.now)) result (number_at 4 bytes.now) }
{
    if bytes.len() < 4 {
        return Err(BadFrame::Value);
    }
    Ok((BigEndian::read_u32(bytes), &bytes[4..]))
}

#[tactic(auto, unfolding(crate::specs::Fields::number_at))]
pub fn read_u64(bytes: &[u8]) -> Result<(u64, &[u8]), BadFrame>
    ensures { Gives (λ x. (x.0, x.1.now)) result (number_at 8 bytes.now) }
{
    if bytes.len() < 8 {
        return Err(BadFrame::Value);
    }
    Ok((BigEndian::read_u64(bytes), &bytes[8..]))
}

#[tactic(auto, unfolding(crate::specs::Fields::number_at))]
pub fn read_u128(bytes: &[u8]) -> Result<(u128, &[u8]), BadFrame>
    ensures { Gives (λ x. (x.0, x.1.now)) result (number_at 16 bytes.now) }
{
    if bytes.len() < 16 {
        return Err(BadFrame::Value);
    }
    Ok((BigEndian::read_u128(bytes), &bytes[16..]))
}

fn is_zero(bytes: &[u8]) -> bool
    ensures { result ≡ list_all (λ b. b == 0) bytes.now }
{
    bytes.iter().all(|b| *b == 0)
}

/// What stands after `count` bytes of padding.
#[tactic(auto, unfolding(crate::specs::Fields::pads_at))]
pub fn skip_pads(count: usize, bytes: &[u8]) -> Result<&[u8], BadFrame>
    ensures { Gives (λ x. x.now) result (pads_at count bytes.now) }
{
    if bytes.len() < count {
        return Err(BadFrame::Value);
    }
    let (pads, rest) = bytes.split_at(count);
    if is_zero(pads) {
        Ok(rest)
    } else {
        Err(BadFrame::Value)
    }
}

/// A name, 12 bytes: id, creator.
#[tactic(auto, unfolding(crate::specs::Fields::name_at))]
pub fn read_name(bytes: &[u8]) -> Result<(StateName, &[u8]), BadFrame>
    ensures { Gives (λ x. (x.0, x.1.now)) result (name_at bytes.now) }
{
    let (id, rest) = read_u64(bytes)?;
    let (creator, rest) = read_u32(rest)?;
    Ok((StateName { creator, id }, rest))
}

/// The scale, of which 255 is none.
fn scale_with(number: u8) -> Result<Option<u8>, BadFrame>
    ensures read { result ≡ scale_of number }
    ensures small { IfOk result (λ scale. scale_too_large scale ≡ false) }
{
    if number == 255 {
        Ok(None)
    } else if number <= 14 {
        Ok(Some(number))
    } else {
        Err(BadFrame::Value)
    }
}

/// What an end of a connection is made from, 12 bytes: level, scale, window, lo, hi.
#[tactic(auto, unfolding(crate::specs::Fields::peer_at))]
fn read_peer_fields(bytes: &[u8]) -> Result<(PeerFields, &[u8]), BadFrame>
    ensures read { Gives (λ x. (x.0, x.1.now)) result (peer_at bytes.now) }
    ensures is_peer { IfOk result (λ x. is_peer x.0 ≡ true) }
{
    let (level, rest) = read_byte(bytes)?;
    if level > 10 {
        return Err(BadFrame::Value);
    }
    let (number, rest) = read_byte(rest)?;
    let scale = scale_with(number)?;
    let (window, rest) = read_u16(rest)?;
    let (lo, rest) = read_u32(rest)?;
    let (hi, rest) = read_u32(rest)?;
    let fields = PeerFields {
        level,
        scale,
        window,
        lo,
        hi,
    };
    Ok((fields, rest))
}

/// An end of a connection, 12 bytes.
pub fn read_peer(bytes: &[u8]) -> Result<(Peer, &[u8]), BadFrame>
    ensures { Gives (λ x. (x.0, x.1.now)) result (peer_at bytes.now) }
{
    let (fields, rest) = read_peer_fields(bytes)?;
    match Peer::of(fields) {
        Some(peer) => Ok((peer, rest)),
        None => Err(BadFrame::Value),
    }
}

/// An address, 16 bytes in either family.
#[tactic(auto, unfolding(crate::specs::Fields::address_at))]
fn read_address(is_v4: bool, bytes: &[u8]) -> Result<(Addr, &[u8]), BadFrame>
    ensures family { IfOk result (λ x. is_ipv4 x.0 ≡ is_v4) }
    ensures read { Gives (λ x. (x.0, x.1.now)) result (address_at is_v4 bytes.now) }
{
    if is_v4 {
        let (number, rest) = read_u32(bytes)?;
        let rest = skip_pads(12, rest)?;
        Ok((Addr::V4(number), rest))
    } else {
        let (number, rest) = read_u128(bytes)?;
        Ok((Addr::V6(number), rest))
    }
}

/// An address with a port, 18 bytes.
#[tactic(auto, unfolding(crate::specs::Fields::end_at))]
pub fn read_end(is_v4: bool, bytes: &[u8]) -> Result<(End, &[u8]), BadFrame>
    ensures family { IfOk result (λ x. is_ipv4 x.0.addr ≡ is_v4) }
    ensures read { Gives (λ x. (x.0, x.1.now)) result (end_at is_v4 bytes.now) }
{
    let (addr, rest) = read_address(is_v4, bytes)?;
    let (port, rest) = read_u16(rest)?;
    Ok((End { addr, port }, rest))
}

/// A far end and a near end.
#[tactic(auto, unfolding(crate::specs::Fields::ends_at))]
pub fn read_ends(is_v4: bool, bytes: &[u8]) -> Result<((End, End), &[u8]), BadFrame>
    ensures far_family { IfOk result (λ x. is_ipv4 x.0.0.addr ≡ is_v4) }
    ensures near_family { IfOk result (λ x. is_ipv4 x.0.1.addr ≡ is_v4) }
    ensures read { Gives (λ x. (x.0, x.1.now)) result (ends_at is_v4 bytes.now) }
{
    let (far, rest) = read_end(is_v4, bytes)?;
    let (near, rest) = read_end(is_v4, rest)?;
    Ok(((far, near), rest))
}

/// Whether the family is that of IPv4: 4, or 6 for IPv6.
pub fn is_v4_family(number: u8) -> Result<bool, BadFrame>
    ensures { result ≡ is_v4_of number }
{
    match number {
        4 => Ok(true),
        6 => Ok(false),
        _ => Err(BadFrame::Value),
    }
}

/// The direction: 1 in, 2 out.
pub fn direction_with(number: u8) -> Result<Dir, BadFrame>
    ensures { result ≡ dir_of number }
{
    match number {
        1 => Ok(Dir::Inbound),
        2 => Ok(Dir::Outbound),
        _ => Err(BadFrame::Value),
    }
}

/// Whether the flags of a state ask for an acknowledgement, by bit 0.
pub fn ack_wanted_with(flags: u8) -> Result<bool, BadFrame>
    ensures { result ≡ ack_wanted_of flags }
{
    match flags {
        0 => Ok(false),
        1 => Ok(true),
        _ => Err(BadFrame::Value),
    }
}

/// The status of a bulk update: 1 start, 2 end.
pub fn status_with(number: u8) -> Result<BulkStatus, BadFrame>
    ensures { result ≡ status_of number }
{
    match number {
        1 => Ok(BulkStatus::Start),
        2 => Ok(BulkStatus::End),
        _ => Err(BadFrame::Value),
    }
}

/// The rule, of which 4294967295 is none.
pub fn rule_with(number: u32) -> Option<u32>
    ensures { result ≡ rule_of number }
{
    if number == u32::MAX {
        None
    } else {
        Some(number)
    }
}

/// A class, and three pad bytes.
#[tactic(auto, unfolding(crate::specs::Fields::class_at))]
pub fn read_class(bytes: &[u8]) -> Result<(Class, &[u8]), BadFrame>
    ensures { Gives (λ x. (x.0, x.1.now)) result (class_at bytes.now) }
{
    let (number, rest) = read_byte(bytes)?;
    let class = Class::of_number(number).ok_or(BadFrame::Value)?;
    let rest = skip_pads(3, rest)?;
    Ok((class, rest))
}
