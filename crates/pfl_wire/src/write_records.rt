//! Records, written at the end of bytes.

ghost use Rattle.std.specs.Prelude.{◌≡◌, ◌<◌, ◌-◌, ◌^◌, ◌++◌, IfSome, OnOk};
ghost use Rattle.pfl_wire.specs.Frames.{FitsState, FitsUpdate, FitsMessage, RuleFits};
ghost use Rattle.pfl_wire.specs.Spelling.{state_bytes, update_bytes, record_bytes};

use crate::message::{Message, StateRecord, UpdateRecord};
use crate::write_fields::{
    direction_number, family_number, flags_number, put_byte, put_class, put_keys, put_name,
    put_peer, put_rule, put_u32, put_u64,
};
use std::alloc::{AllocError, Allocator};

/// A whole state, 124 bytes.
#[tactic(auto, unfolding(crate::specs::Spelling::state_bytes))]
pub fn put_state<A: Allocator>(out: &mut Vec<u8, A>, state: &StateRecord) -> Result<(), AllocError>
    requires { IfSome state.now.rule (λ n. n < 2 ^ 32 - 1) }
    ensures written { OnOk result (out.new.items ≡ out.old.items ++ state_bytes state.now) }
    ensures fits { OnOk result (FitsState state.now) }
{
    put_name(out, state.name)?;
    let wire = state.keys.wire();
    put_byte(out, wire.proto.number())?;
    put_byte(out, family_number(wire.far.addr))?;
    put_byte(out, direction_number(state.direction))?;
    put_byte(out, flags_number(state.ack_wanted))?;
    put_keys(out, &state.keys)?;
    put_peer(out, state.src)?;
    put_peer(out, state.dst)?;
    put_class(out, state.class)?;
    put_u32(out, state.remaining)?;
    put_rule(out, state.rule)
}

/// What changes of a state, 44 bytes.
#[tactic(auto, unfolding(crate::specs::Spelling::update_bytes))]
pub fn put_update<A: Allocator>(
    out: &mut Vec<u8, A>,
    update: &UpdateRecord,
) -> Result<(), AllocError>
    ensures written { OnOk result (out.new.items ≡ out.old.items ++ update_bytes update.now) }
    ensures fits { OnOk result (FitsUpdate update.now) }
{
    put_name(out, update.name)?;
    put_peer(out, update.src)?;
    put_peer(out, update.dst)?;
    put_class(out, update.class)?;
    put_u32(out, update.remaining)
}

/// A record, of as many bytes as its action has.
#[tactic(auto, unfolding(crate::specs::Spelling::record_bytes))]
pub fn put_record<A: Allocator>(out: &mut Vec<u8, A>, message: &Message) -> Result<(), AllocError>
    requires { RuleFits message.now }
    ensures written { OnOk result (out.new.items ≡ out.old.items ++ record_bytes message.now) }
    ensures fits { OnOk result (FitsMessage message.now) }
{
    match message {
        Message::Clear { creator, bound } => {
            put_u32(out, *creator)?;
            put_u64(out, *bound)
        }
        Message::Insert(state) => put_state(out, state),
        Message::InsertAck(name) => put_name(out, *name),
        Message::Update(state) => put_state(out, state),
        Message::UpdateShort(update) => put_update(out, update),
        Message::UpdateRequest(name) => put_name(out, *name),
        Message::Delete(state) => put_state(out, state),
        Message::DeleteShort(name) => put_name(out, *name),
        Message::Bulk { creator, status } => {
            put_u32(out, *creator)?;
            put_byte(out, status.number())?;
            out.extend_from_slice(&[0; 3])?;
            Ok(())
        }
    }
}
