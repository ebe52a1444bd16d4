//! Frames, read from bytes.

ghost use Rattle.std.specs.Prelude.{◌≡◌, List, [], length, IfOk, Ok, Some, None};
ghost use Rattle.pfl_wire.specs.Frames.{Frame as FrameValue, lists};
ghost use Rattle.pfl_wire.specs.Spelling.{Spells};
ghost use Rattle.pfl_wire.specs.Reading.{records_at, group_at, groups_at, print_at, header_at, reading};
ghost use Rattle.pfl_wire.specs.inner.Answers.{Gives, GivesKept, GivesFrame, Joins, kept_items, kept_lists};
ghost use Rattle.pfl_wire.specs.Answers.{Decodes};

use crate::fault::{BadFrame, FrameFault};
use crate::frame::Frame;
use crate::message::Message;
use crate::read_fields::{read_byte, read_u16};
use crate::read_records::read_record;
use crate::subheader::{Subheader, read_subheader};
use std::alloc::Allocator;

/// The list with the item at its end; nothing where either is lost, or memory is wanting.
fn keep<T: Drop, A: Allocator>(kept: Option<Vec<T, A>>, item: Option<T>) -> Option<Vec<T, A>>
    ensures { Joins (kept_items kept) item (kept_items result) }
{
    let mut list = kept?;
    match item {
        None => None,
        Some(item) => match list.push(item) {
            Ok(()) => Some(list),
            Err(_) => None,
        },
    }
}

/// The records of a group. Where memory is wanting they are read all the same, and not kept: the first fault comes
/// before want of memory.
fn read_records<A: Allocator + Copy>(
    alloc: A,
    group: Subheader,
    bytes: &[u8],
) -> Result<(Option<Vec<Message, A>>, &[u8]), BadFrame>
    ensures { GivesKept (λ x. kept_items x.0) (λ x. x.1.now) result (records_at group.action group.count bytes.now) }
{
    let mut kept = Vec::with_capacity(alloc, usize::from(group.count)).ok();
    let mut rest = bytes;
    for _ in 0..group.count {
        let (message, after) = match read_record(group.action, rest) {
            Ok(read) => read,
            Err(bad) => return Err(bad),
        };
        kept = keep(kept, Some(message));
        rest = after;
    }
    Ok((kept, rest))
}

/// A group, kept as its records are.
#[tactic(auto, unfolding(crate::specs::Reading::group_at))]
fn read_group<A: Allocator + Copy>(
    alloc: A,
    bytes: &[u8],
) -> Result<(Option<Vec<Message, A>>, &[u8]), BadFrame>
    ensures { GivesKept (λ x. kept_items x.0) (λ x. x.1.now) result (group_at bytes.now) }
{
    let (group, rest) = read_subheader(bytes)?;
    read_records(alloc, group, rest)
}

/// The groups to the end of the bytes.
fn read_groups<A: Allocator + Copy>(
    alloc: A,
    bytes: &[u8],
) -> Result<Option<Vec<Vec<Message, A>, A>>, BadFrame>
    ensures { GivesKept (λ x. kept_lists x) (λ x. []) result (groups_at (length bytes.now) bytes.now) }
{
    let mut kept = Some(Vec::new(alloc));
    let mut rest = bytes;
    while !rest.is_empty() {
        let (group, after) = read_group(alloc, rest)?;
        kept = keep(kept, group);
        rest = after;
    }
    Ok(kept)
}

/// The checksum of the sender's rules.
#[tactic(auto, unfolding(crate::specs::Reading::print_at))]
fn read_print(bytes: &[u8]) -> Result<([u8; 16], &[u8]), BadFrame>
    ensures { Gives (λ x. (x.0, x.1.now)) result (print_at bytes.now) }
{
    if bytes.len() < 16 {
        return Err(BadFrame::Short);
    }
    let (front, rest) = bytes.split_at(16);
    let mut print = [0; 16];
    print.copy_from_slice(front);
    Ok((print, rest))
}

/// The checksum of a frame, and its groups' bytes.
#[tactic(auto, unfolding(crate::specs::Reading::header_at))]
pub fn read_header(bytes: &[u8]) -> Result<([u8; 16], &[u8]), BadFrame>
    ensures { Gives (λ x. (x.0, x.1.now)) result (header_at bytes.now) }
{
    if bytes.len() < 20 {
        return Err(BadFrame::Short);
    }
    let (version, rest) = read_byte(bytes)?;
    if version != 5 {
        return Err(BadFrame::Version);
    }
    let (padding, rest) = read_byte(rest)?;
    let (len, rest) = read_u16(rest)?;
    if usize::from(len) != bytes.len() {
        return Err(BadFrame::Length);
    }
    if padding != 0 {
        return Err(BadFrame::Value);
    }
    read_print(rest)
}

/// The frame, or none where memory is wanting.
#[tactic(auto, unfolding(crate::specs::Reading::reading))]
fn read_frame<A: Allocator + Copy>(alloc: A, bytes: &[u8]) -> Result<Option<Frame<A>>, BadFrame>
    ensures { GivesFrame (λ x. x) result (reading bytes.now) }
{
    let (print, rest) = read_header(bytes)?;
    match read_groups(alloc, rest)? {
        Some(groups) => Ok(Some(Frame::new(print, groups))),
        None => Ok(None),
    }
}

/// Decodes by one clause, from which the laws of `decode` follow.
fn decoded<A: Allocator + Copy>(alloc: A, bytes: &[u8]) -> Result<Frame<A>, FrameFault>
    ensures { Decodes (λ f. f) result (reading bytes.now) }
{
    match read_frame(alloc, bytes)? {
        Some(frame) => Ok(frame),
        None => Err(FrameFault::NoMemory),
    }
}

/// The frame that the bytes spell, or the first fault in reading order; want of memory is returned only where the bytes
/// are a frame.
pub fn decode<A: Allocator + Copy>(alloc: A, bytes: &[u8]) -> Result<Frame<A>, FrameFault>
    // What is read is spelled so.
    ensures found { IfOk result (λ f. Spells bytes.now f) }
    // What is spelled so is read, unless memory is wanting.
    ensures only { (f : FrameValue) → Spells bytes.now f → Decodes (λ g. g) result (Ok f) }
    // Which fault it is; want of memory only where there is none.
    ensures exact { Decodes (λ f. f) result (reading bytes.now) }
{
    decoded(alloc, bytes)
}
