//! Records, read from the front of bytes.

ghost use Rattle.std.specs.Prelude.{◌≡◌};
ghost use Rattle.pfl_wire.specs.inner.Answers.{Gives};
ghost use Rattle.pfl_wire.specs.Records.{key_with, keys_at, state_at, update_at, clear_at, bulk_at, record_at};

use crate::action::Action;
use crate::fault::BadFrame;
use crate::message::{Message, StateRecord, UpdateRecord};
use crate::read_fields::{
    ack_wanted_with, direction_with, is_v4_family, read_byte, read_class, read_ends, read_name,
    read_peer, read_u32, read_u64, rule_with, skip_pads, status_with,
};
use pfl_base::{End, Key, Proto};
use pfl_track::KeyPair;

/// The key of the protocol with the number, between a far end and a near end.
fn key_between(proto: u8, ends: (End, End)) -> Key
    ensures { result ≡ key_with proto ends }
{
    let (far, near) = ends;
    Key {
        proto: Proto::of(proto),
        far,
        near,
    }
}

/// The keys of a state of the protocol with the number, 72 bytes: wire, stack.
#[tactic(auto, unfolding(crate::specs::Records::keys_at))]
fn read_keys(proto: u8, is_v4: bool, bytes: &[u8]) -> Result<(KeyPair, &[u8]), BadFrame>
    ensures { Gives (λ x. (x.0, x.1.now)) result (keys_at proto is_v4 bytes.now) }
{
    let (wire, rest) = read_ends(is_v4, bytes)?;
    let (stack, rest) = read_ends(is_v4, rest)?;
    match KeyPair::of(key_between(proto, wire), key_between(proto, stack)) {
        Some(keys) => Ok((keys, rest)),
        None => Err(BadFrame::Value),
    }
}

/// A whole state, 124 bytes.
#[tactic(auto, unfolding(crate::specs::Records::state_at))]
pub fn read_state(bytes: &[u8]) -> Result<(StateRecord, &[u8]), BadFrame>
    ensures { Gives (λ x. (x.0, x.1.now)) result (state_at bytes.now) }
{
    let (name, rest) = read_name(bytes)?;
    let (proto, rest) = read_byte(rest)?;
    let (family, rest) = read_byte(rest)?;
    let is_v4 = is_v4_family(family)?;
    let (direction, rest) = read_byte(rest)?;
    let direction = direction_with(direction)?;
    let (flags, rest) = read_byte(rest)?;
    let ack_wanted = ack_wanted_with(flags)?;
    let (keys, rest) = match read_keys(proto, is_v4, rest) {
        Ok(read) => read,
        Err(bad) => return Err(bad),
    };
    let (src, rest) = match read_peer(rest) {
        Ok(read) => read,
        Err(bad) => return Err(bad),
    };
    let (dst, rest) = match read_peer(rest) {
        Ok(read) => read,
        Err(bad) => return Err(bad),
    };
    let (class, rest) = read_class(rest)?;
    let (remaining, rest) = read_u32(rest)?;
    let (rule, rest) = read_u32(rest)?;
    let state = StateRecord {
        name,
        keys,
        direction,
        ack_wanted,
        src,
        dst,
        class,
        remaining,
        rule: rule_with(rule),
    };
    Ok((state, rest))
}

/// What changes of a state, 44 bytes.
#[tactic(auto, unfolding(crate::specs::Records::update_at))]
pub fn read_update(bytes: &[u8]) -> Result<(UpdateRecord, &[u8]), BadFrame>
    ensures { Gives (λ x. (x.0, x.1.now)) result (update_at bytes.now) }
{
    let (name, rest) = read_name(bytes)?;
    let (src, rest) = match read_peer(rest) {
        Ok(read) => read,
        Err(bad) => return Err(bad),
    };
    let (dst, rest) = match read_peer(rest) {
        Ok(read) => read,
        Err(bad) => return Err(bad),
    };
    let (class, rest) = read_class(rest)?;
    let (remaining, rest) = read_u32(rest)?;
    let update = UpdateRecord {
        name,
        src,
        dst,
        class,
        remaining,
    };
    Ok((update, rest))
}

/// A clear, 12 bytes: creator, bound.
#[tactic(auto, unfolding(crate::specs::Records::clear_at))]
fn read_clear(bytes: &[u8]) -> Result<(Message, &[u8]), BadFrame>
    ensures { Gives (λ x. (x.0, x.1.now)) result (clear_at bytes.now) }
{
    let (creator, rest) = read_u32(bytes)?;
    let (bound, rest) = read_u64(rest)?;
    Ok((Message::Clear { creator, bound }, rest))
}

/// A bulk status, 8 bytes: creator, status, pad.
#[tactic(auto, unfolding(crate::specs::Records::bulk_at))]
fn read_bulk(bytes: &[u8]) -> Result<(Message, &[u8]), BadFrame>
    ensures { Gives (λ x. (x.0, x.1.now)) result (bulk_at bytes.now) }
{
    let (creator, rest) = read_u32(bytes)?;
    let (number, rest) = read_byte(rest)?;
    let status = status_with(number)?;
    let rest = skip_pads(3, rest)?;
    Ok((Message::Bulk { creator, status }, rest))
}

/// A record of the action.
#[tactic(auto, unfolding(crate::specs::Records::record_at))]
pub fn read_record(action: Action, bytes: &[u8]) -> Result<(Message, &[u8]), BadFrame>
    ensures { Gives (λ x. (x.0, x.1.now)) result (record_at action bytes.now) }
{
    match action {
        Action::Clear => read_clear(bytes),
        Action::Insert => match read_state(bytes) {
            Ok((state, rest)) => Ok((Message::Insert(state), rest)),
            Err(bad) => Err(bad),
        },
        Action::InsertAck => {
            let (name, rest) = read_name(bytes)?;
            Ok((Message::InsertAck(name), rest))
        }
        Action::Update => match read_state(bytes) {
            Ok((state, rest)) => Ok((Message::Update(state), rest)),
            Err(bad) => Err(bad),
        },
        Action::UpdateShort => match read_update(bytes) {
            Ok((update, rest)) => Ok((Message::UpdateShort(update), rest)),
            Err(bad) => Err(bad),
        },
        Action::UpdateRequest => {
            let (name, rest) = read_name(bytes)?;
            Ok((Message::UpdateRequest(name), rest))
        }
        Action::Delete => match read_state(bytes) {
            Ok((state, rest)) => Ok((Message::Delete(state), rest)),
            Err(bad) => Err(bad),
        },
        Action::DeleteShort => {
            let (name, rest) = read_name(bytes)?;
            Ok((Message::DeleteShort(name), rest))
        }
        Action::Bulk => read_bulk(bytes),
    }
}
