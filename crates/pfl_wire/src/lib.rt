//! Frames of pfsync version 5 (if_pfsync.h), in this project's layout, and the records that they carry.
//!
//! Numbers are big endian, and pad bytes are 0. A frame is a header of 20 bytes, and groups.
//!
//! | Header: offset | Bytes | Field |
//! |---|---|---|
//! | 0 | 1 | version, 5 |
//! | 1 | 1 | pad |
//! | 2 | 2 | length of the whole frame in bytes |
//! | 4 | 16 | checksum of the sender's rules |
//!
//! A group is a subheader of 4 bytes, and as many records as it counts: at least one, each of the group's action.
//! Groups stand in any order, and one action may have several.
//!
//! | Group: offset | Bytes | Field |
//! |---|---|---|
//! | 0 | 1 | action |
//! | 1 | 1 | pad |
//! | 2 | 2 | number of records |
//!
//! | [`Action`] | Number | Record bytes | Content |
//! |---|---|---|---|
//! | CLR | 0 | 12 | creator 4, bound id 8 |
//! | INS | 1 | 124 | state |
//! | INS_ACK | 2 | 12 | name |
//! | UPD | 3 | 124 | state |
//! | UPD_C | 4 | 44 | name 12, source end 12, destination end 12, class 1, pad 3, remaining seconds 4 |
//! | UPD_REQ | 5 | 12 | name |
//! | DEL | 6 | 124 | state, of which only the name counts |
//! | DEL_C | 7 | 12 | name |
//! | BUS | 10 | 8 | creator 4, status 1 (1 start, 2 end), pad 3 |
//!
//! A name takes 12 bytes: id 8, creator 4. An end of a connection takes 12: level 1, scale 1 (255 for none), window 2,
//! lo 4, hi 4. An address with its port takes 18: 16 of address (of IPv4 its 4 bytes, and 12 zero bytes), 2 of port.
//!
//! | State: offset | Bytes | Field |
//! |---|---|---|
//! | 0 | 12 | name |
//! | 12 | 1 | protocol |
//! | 13 | 1 | family of its addresses, 4 or 6 |
//! | 14 | 1 | direction: 1 in, 2 out |
//! | 15 | 1 | flags: bit 0 asks for an acknowledgement |
//! | 16 | 36 | wire key: address and port of the far end, and of the near end |
//! | 52 | 36 | stack key: the same |
//! | 88 | 12 | source end |
//! | 100 | 12 | destination end |
//! | 112 | 1 | class |
//! | 113 | 3 | pad |
//! | 116 | 4 | remaining seconds |
//! | 120 | 4 | rule, 4294967295 for none |
//!
//! [`decode`] returns the frame that bytes spell or the first [`FrameFault`] in reading order, and [`encode`] spells a
//! frame. A frame has one spelling, which is read again as that frame. [`FrameBytes`] is a frame in its bytes, whose records
//! are read without memory.
#![tactic(auto)]

mod action;
mod fault;
mod frame;
mod frame_bytes;
mod message;
mod read_fields;
mod read_frame;
mod read_records;
mod subheader;
mod write_fields;
mod write_frame;
mod write_records;

pub use action::Action;
pub use fault::{BadFrame, FrameFault};
pub use frame::Frame;
pub use frame_bytes::{FrameBytes, Records};
pub use message::{BulkStatus, Message, StateRecord, UpdateRecord};
pub use read_frame::decode;
pub use write_frame::encode;
