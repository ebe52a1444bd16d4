//! Frames in the bytes that spell them: each is read once to its end, and then record after record, without memory.

ghost use Rattle.std.specs.Prelude.{◌≡◌, ◌<◌, [], length, IfOk, IsOk, Ok, None, MatchOption};
ghost use Rattle.std.specs.Iterator.{YieldsFirst, item_count};
ghost use Rattle.pfl_wire.specs.Frames.{frame_len, records_of};
ghost use Rattle.pfl_wire.specs.Reading.{records_at, group_at, groups_at, reading};
ghost use Rattle.pfl_wire.specs.inner.Answers.{GivesKept};
ghost use Rattle.pfl_wire.specs.inner.Left.{left_at, led_by};

use crate::action::Action;
use crate::fault::BadFrame;
use crate::message::Message;
use crate::read_frame::read_header;
use crate::read_records::read_record;
use crate::subheader::{Subheader, read_subheader};
use std::marker::Model;

/// What follows the records of a group, each of which can be read.
fn check_records(group: Subheader, bytes: &[u8]) -> Result<&[u8], BadFrame>
    ensures { GivesKept (λ x. None) (λ x. x.now) result (records_at group.action group.count bytes.now) }
{
    let mut rest = bytes;
    for _ in 0..group.count {
        let (_, after) = match read_record(group.action, rest) {
            Ok(read) => read,
            Err(bad) => return Err(bad),
        };
        rest = after;
    }
    Ok(rest)
}

/// What follows a group, which can be read.
#[tactic(auto, unfolding(crate::specs::Reading::group_at))]
fn check_group(bytes: &[u8]) -> Result<&[u8], BadFrame>
    ensures { GivesKept (λ x. None) (λ x. x.now) result (group_at bytes.now) }
{
    let (group, rest) = read_subheader(bytes)?;
    check_records(group, rest)
}

/// The groups to the end of the bytes can be read.
fn check_groups(bytes: &[u8]) -> Result<(), BadFrame>
    ensures { GivesKept (λ x. None) (λ x. []) result (groups_at (length bytes.now) bytes.now) }
{
    let mut rest = bytes;
    while !rest.is_empty() {
        rest = check_group(rest)?;
    }
    Ok(())
}

/// A frame in the bytes that spell it: its records are read out of them one after another, without memory.
#[derive(Drop)]
pub struct FrameBytes<'a> {
    print: [u8; 16],
    groups: &'a [u8],
}

impl<'a> Model for FrameBytes<'a> {
    ghost use Rattle.std.specs.Prelude.{IsOk};
    ghost use Rattle.pfl_wire.specs.Frames.{Frame as FrameValue};

    ghost Value = { FrameValue };

    ghost use Rattle.pfl_wire.specs.inner.Left.{groups_in, listed};

    ghost view = { λ f. record { print = f.print; groups = listed (groups_in f.groups.now) } };

    ghost invariant = { λ f. IsOk (groups_in f.groups.now) };
}

impl<'a> FrameBytes<'a> {
    /// The frame that the bytes spell, or the first fault in reading order. It takes no memory.
    pub fn read(bytes: &'a [u8]) -> Result<FrameBytes<'a>, BadFrame>
        ensures exact { result ≡ reading bytes.now }
        // A frame takes all of the bytes.
        ensures len { IfOk result (λ f. frame_len f.groups ≡ length bytes.now) }
    {
        let (print, groups) = read_header(bytes)?;
        check_groups(groups)?;
        Ok(FrameBytes { print, groups })
    }

    /// The checksum of the sender's rules.
    pub fn print(&self) -> &[u8; 16]
        ensures { result.now ≡ self.now.print }
    {
        &self.print
    }

    /// The records, group by group, in their order.
    pub fn records(&self) -> Records<'a>
        ensures { result ≡ records_of self.now }
    {
        Records {
            group: Subheader {
                action: Action::Clear,
                count: 0,
            },
            bytes: self.groups,
        }
    }
}

/// The records of a frame, read out of its bytes, seen as the list of those that are left.
#[derive(Drop)]
pub struct Records<'a> {
    /// The group that is read, and how many of its records are left; none of any action before the first group.
    group: Subheader,
    bytes: &'a [u8],
}

impl<'a> Model for Records<'a> {
    ghost use Rattle.std.specs.Prelude.{List, IsOk};
    ghost use Rattle.pfl_wire.specs.declared.message.Message.{Message};

    ghost Value = { List Message };

    ghost use Rattle.pfl_wire.specs.inner.Left.{left_at, listed};

    ghost view = { λ r. listed (left_at r.group r.bytes.now) };

    ghost invariant = { λ r. IsOk (left_at r.group r.bytes.now) };
}

impl<'a> Iterator for Records<'a> {
    type Item = Message;

    ghost next_gives = { YieldsFirst (λ rest. rest) };

    ghost remaining = { item_count (λ rest. rest) };

    fn next(&mut self) -> Option<Message> {
        let (group, bytes) = group_with_more(self.group, self.bytes)?;
        let (message, group, bytes) = first_of(group, bytes);
        self.group = group;
        self.bytes = bytes;
        Some(message)
    }
}

/// The group that has the next record, and what is left from there on; none where no record is left.
fn group_with_more(group: Subheader, bytes: &[u8]) -> Option<(Subheader, &[u8])>
    requires readable { IsOk (left_at group bytes.now) }
    ensures { MatchOption result (left_at group bytes.now ≡ Ok []) (λ r. (0 < r.0.count) × (left_at r.0 r.1.now ≡ left_at group bytes.now)) }
{
    if 0 < group.count {
        return Some((group, bytes));
    }
    if bytes.is_empty() {
        return None;
    }
    match read_subheader(bytes) {
        Ok(next) => Some(next),
        Err(_) => unreachable!(),
    }
}

/// The first record of a group that has one left, and what is left after it.
fn first_of(group: Subheader, bytes: &[u8]) -> (Message, Subheader, &[u8])
    requires more { 0 < group.count }
    requires readable { IsOk (left_at group bytes.now) }
    ensures { left_at group bytes.now ≡ led_by result.0 (left_at result.1 result.2.now) }
{
    match read_record(group.action, bytes) {
        Ok((message, rest)) => {
            let behind = Subheader {
                count: group.count - 1,
                ..group
            };
            (message, behind, rest)
        }
        Err(_) => unreachable!(),
    }
}
