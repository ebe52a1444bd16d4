//! Frames, written as bytes.

ghost use Rattle.std.specs.Prelude.{◌≡◌, ℕ, ◌<◌, ◌^◌, List, ◌++◌, length, IfOk, OnOk, Ok};
ghost use Rattle.std.specs.List.{flat_map, All, AllByRecursion};
ghost use Rattle.pfl_wire.specs.Frames.{FitsMessage, RuleFits, IsGroupOf, IsGroup, IsSendable, group_len, frame_len, lists};
ghost use Rattle.pfl_wire.specs.Spelling.{Spells, record_bytes, group_bytes};
ghost use Rattle.pfl_wire.specs.Reading.{reading};

use crate::frame::Frame;
use crate::message::Message;
use crate::write_fields::{put_byte, put_u16};
use crate::write_records::put_record;
use pfl_edits::NoMemory;
use std::alloc::{AllocError, Allocator};

fn put_records<A: Allocator>(out: &mut Vec<u8, A>, messages: &[Message]) -> Result<(), AllocError>
    requires { All RuleFits messages.now }
    ensures written { OnOk result (out.new.items ≡ out.old.items ++ flat_map record_bytes messages.now) }
    ensures fit { OnOk result (All FitsMessage messages.now) }
{
    for message in messages {
        put_record(out, message)?;
    }
    Ok(())
}

#[tactic(auto, unfolding(crate::specs::Spelling::group_bytes))]
fn put_group<A: Allocator>(out: &mut Vec<u8, A>, group: &[Message]) -> Result<(), AllocError>
    requires { IsGroupOf RuleFits group.now }
    ensures written { OnOk result (out.new.items ≡ out.old.items ++ group_bytes group.now) }
    ensures is { OnOk result (IsGroup group.now) }
{
    let Some(first) = group.first() else {
        return Ok(());
    };
    put_byte(out, first.action().number())?;
    put_byte(out, 0)?;
    put_u16(out, group.len() as u16)?;
    put_records(out, group)
}

fn put_groups<A: Allocator>(
    out: &mut Vec<u8, A>,
    groups: &[Vec<Message, A>],
) -> Result<(), AllocError>
    requires { AllByRecursion (IsGroupOf RuleFits) (lists groups.now) }
    ensures written { OnOk result (out.new.items ≡ out.old.items ++ flat_map group_bytes (lists groups.now)) }
    ensures are { OnOk result (All IsGroup (lists groups.now)) }
{
    for group in groups {
        put_group(out, group)?;
    }
    Ok(())
}

/// How many bytes the group takes.
fn group_size(group: &[Message]) -> usize
    requires { IsGroupOf RuleFits group.now }
    ensures size { result ≡ group_len group.now }
    ensures small { result < 2 ^ 24 }
{
    let Some(first) = group.first() else {
        return 4;
    };
    4 + group.len() * first.action().record_len()
}

/// How many bytes a frame of the groups takes.
fn frame_size<A: Allocator>(groups: &[Vec<Message, A>]) -> usize
    requires are { AllByRecursion (IsGroupOf RuleFits) (lists groups.now) }
    requires short { frame_len (lists groups.now) < 2 ^ 16 }
    ensures { result ≡ frame_len (lists groups.now) }
{
    let mut size = 20usize;
    for group in groups {
        size += group_size(group);
    }
    size
}

/// The checksum, 16 bytes.
fn put_print<A: Allocator>(out: &mut Vec<u8, A>, print: &[u8; 16]) -> Result<(), AllocError>
    ensures written { OnOk result (out.new.items ≡ out.old.items ++ print.now) }
    ensures long { length print.now ≡ 16 }
    ensures bytes { All (λ b. b < 256) print.now }
{
    out.extend_from_slice(print)?;
    Ok(())
}

/// Encodes by one clause, from which the laws of `encode` follow.
fn spelled<A: Allocator + Copy>(alloc: A, frame: &Frame<A>) -> Result<Vec<u8, A>, NoMemory>
    requires { IsSendable frame.now }
    ensures { IfOk result (λ v. Spells v.items frame.now) }
{
    let size = frame_size(frame.groups());
    let mut out = Vec::with_capacity(alloc, size)?;
    put_byte(&mut out, 5)?;
    put_byte(&mut out, 0)?;
    put_u16(&mut out, size as u16)?;
    put_print(&mut out, frame.print())?;
    put_groups(&mut out, frame.groups())?;
    Ok(out)
}

/// The spelling of the frame, in one allocation. A caller sees to what types leave open: groups of records of one action,
/// at least one record and at most 65535 in each, no rule with the number that stands for none, and at most 65535 bytes.
pub fn encode<A: Allocator + Copy>(alloc: A, frame: &Frame<A>) -> Result<Vec<u8, A>, NoMemory>
    requires { IsSendable frame.now }
    ensures spelled { IfOk result (λ v. Spells v.items frame.now) }
    // No other bytes spell the frame.
    ensures only { IfOk result (λ v. (bytes : List ℕ) → Spells bytes frame.now → bytes ≡ v.items) }
    // They are read again as the frame.
    ensures read { IfOk result (λ v. reading v.items ≡ Ok frame.now) }
{
    spelled(alloc, frame)
}
