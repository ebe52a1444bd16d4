//! The fields of records, written at the end of bytes. A writer that has written also states what the types of its fields
//! keep.

ghost use Rattle.std.specs.Prelude.{◌≡◌, ◌<◌, ◌^◌, [], ◌∷◌, ◌++◌, OnOk};
ghost use Rattle.pfl_wire.specs.Frames.{FitsName, FitsPeer, FitsAddr, FitsEnd, FitsKey, FitsKeys};
ghost use Rattle.pfl_wire.specs.Spelling.{number_bytes, name_bytes, peer_bytes, address_bytes, end_bytes, key_bytes, keys_bytes, family_byte};
ghost use Rattle.pfl_wire.specs.Spelling.{dir_byte, flags_byte, class_bytes, rule_bytes};

use byteorder::{BigEndian, ByteOrder};
use pfl_base::{Addr, Class, Dir, End, Key, StateName};
use pfl_track::{KeyPair, Peer, PeerFields};
use std::alloc::{AllocError, Allocator};

pub fn put_byte<A: Allocator>(out: &mut Vec<u8, A>, byte: u8) -> Result<(), AllocError>
    ensures written { OnOk result (out.new.items ≡ out.old.items ++ byte ∷ []) }
    ensures small { byte < 2 ^ 8 }
{
    out.push(byte)?;
    Ok(())
}

#[tactic(auto, unfolding(crate::specs::Spelling::number_bytes))]
pub fn put_u16<A: Allocator>(out: &mut Vec<u8, A>, number: u16) -> Result<(), AllocError>
    ensures written { OnOk result (out.new.items ≡ out.old.items ++ number_bytes 2 number) }
    ensures small { number < 2 ^ 16 }
{
    let mut bytes = [0u8; 2];
    BigEndian::write_u16(&mut bytes, number);
    out.extend_from_slice(&bytes)?;
    Ok(())
}

#[tactic(auto, unfolding(crate::specs::Spelling::number_bytes))]
pub fn put_u32<A: Allocator>(out: &mut Vec<u8, A>, number: u32) -> Result<(), AllocError>
    ensures written { OnOk result (out.new.items ≡ out.old.items ++ number_bytes 4 number) }
    ensures small { number < 2 ^ 32 }
{
    let mut bytes = [0u8; 4];
    BigEndian::write_u32(&mut bytes, number);
    out.extend_from_slice(&bytes)?;
    Ok(())
}

#[tactic(auto, unfolding(crate::specs::Spelling::number_bytes))]
pub fn put_u64<A: Allocator>(out: &mut Vec<u8, A>, number: u64) -> Result<(), AllocError>
    ensures written { OnOk result (out.new.items ≡ out.old.items ++ number_bytes 8 number) }
    ensures small { number < 2 ^ 64 }
{
    let mut bytes = [0u8; 8];
    BigEndian::write_u64(&mut bytes, number);
    out.extend_from_slice(&bytes)?;
    Ok(())
}

#[tactic(auto, unfolding(crate::specs::Spelling::number_bytes))]
pub fn put_u128<A: Allocator>(out: &mut Vec<u8, A>, number: u128) -> Result<(), AllocError>
    ensures written { OnOk result (out.new.items ≡ out.old.items ++ number_bytes 16 number) }
    ensures small { number < 2 ^ 128 }
{
    let mut bytes = [0u8; 16];
    BigEndian::write_u128(&mut bytes, number);
    out.extend_from_slice(&bytes)?;
    Ok(())
}

/// A name, 12 bytes: id, creator.
#[tactic(auto, unfolding(crate::specs::Spelling::name_bytes))]
pub fn put_name<A: Allocator>(out: &mut Vec<u8, A>, name: StateName) -> Result<(), AllocError>
    ensures written { OnOk result (out.new.items ≡ out.old.items ++ name_bytes name) }
    ensures fits { OnOk result (FitsName name) }
{
    put_u64(out, name.id)?;
    put_u32(out, name.creator)
}

/// An end of a connection, 12 bytes: level, scale, window, lo, hi.
#[tactic(auto, unfolding(crate::specs::Spelling::peer_bytes))]
pub fn put_peer<A: Allocator>(out: &mut Vec<u8, A>, peer: Peer) -> Result<(), AllocError>
    ensures written { OnOk result (out.new.items ≡ out.old.items ++ peer_bytes peer) }
    ensures fits { OnOk result (FitsPeer peer) }
{
    let PeerFields {
        level,
        scale,
        window,
        lo,
        hi,
    } = peer.fields();
    put_byte(out, level)?;
    put_byte(out, scale.unwrap_or(255))?;
    put_u16(out, window)?;
    put_u32(out, lo)?;
    put_u32(out, hi)
}

/// An address, 16 bytes in either family.
fn put_address<A: Allocator>(out: &mut Vec<u8, A>, address: Addr) -> Result<(), AllocError>
    ensures written { OnOk result (out.new.items ≡ out.old.items ++ address_bytes address) }
    ensures fits { OnOk result (FitsAddr address) }
{
    match address {
        Addr::V4(number) => {
            put_u32(out, number)?;
            out.extend_from_slice(&[0; 12])?;
            Ok(())
        }
        Addr::V6(number) => put_u128(out, number),
    }
}

/// An address with a port, 18 bytes.
#[tactic(auto, unfolding(crate::specs::Spelling::end_bytes))]
pub fn put_end<A: Allocator>(out: &mut Vec<u8, A>, end: End) -> Result<(), AllocError>
    ensures written { OnOk result (out.new.items ≡ out.old.items ++ end_bytes end) }
    ensures fits { OnOk result (FitsEnd end) }
{
    put_address(out, end.addr)?;
    put_u16(out, end.port)
}

/// The two ends of a flow, 36 bytes: far, near.
#[tactic(auto, unfolding(crate::specs::Spelling::key_bytes))]
pub fn put_key<A: Allocator>(out: &mut Vec<u8, A>, key: Key) -> Result<(), AllocError>
    ensures written { OnOk result (out.new.items ≡ out.old.items ++ key_bytes key) }
    ensures fits { OnOk result (FitsKey key) }
{
    put_end(out, key.far)?;
    put_end(out, key.near)
}

/// The keys of a state, 72 bytes: wire, stack.
#[tactic(auto, unfolding(crate::specs::Spelling::keys_bytes))]
pub fn put_keys<A: Allocator>(out: &mut Vec<u8, A>, keys: &KeyPair) -> Result<(), AllocError>
    ensures written { OnOk result (out.new.items ≡ out.old.items ++ keys_bytes keys.now) }
    ensures fits { OnOk result (FitsKeys keys.now) }
{
    put_key(out, keys.wire())?;
    put_key(out, keys.stack())
}

/// The family: 4, or 6.
pub fn family_number(address: Addr) -> u8
    ensures { result ≡ family_byte address }
{
    if address.is_v4() { 4 } else { 6 }
}

/// The direction: 1 in, 2 out.
pub fn direction_number(direction: Dir) -> u8
    ensures { result ≡ dir_byte direction }
{
    match direction {
        Dir::Inbound => 1,
        Dir::Outbound => 2,
    }
}

/// The flags of a state: bit 0 asks for an acknowledgement.
pub fn flags_number(ack_wanted: bool) -> u8
    ensures { result ≡ flags_byte ack_wanted }
{
    u8::from(ack_wanted)
}

/// A class, and three pad bytes.
#[tactic(auto, unfolding(crate::specs::Spelling::class_bytes))]
pub fn put_class<A: Allocator>(out: &mut Vec<u8, A>, class: Class) -> Result<(), AllocError>
    ensures { OnOk result (out.new.items ≡ out.old.items ++ class_bytes class) }
{
    put_byte(out, class.number())?;
    out.extend_from_slice(&[0; 3])?;
    Ok(())
}

/// A rule: 4294967295 for none.
pub fn put_rule<A: Allocator>(out: &mut Vec<u8, A>, rule: Option<u32>) -> Result<(), AllocError>
    ensures { OnOk result (out.new.items ≡ out.old.items ++ rule_bytes rule) }
{
    put_u32(out, rule.unwrap_or(u32::MAX))
}
