//! What every layer of the laboratory names: packets and the keys of their flows, sequence numbers, states' names and
//! classes, refusals, and the devices that lines are read from and written to.
#![tactic(auto)]

mod addr;
mod addr_bytes;
mod addr_text;
mod class;
mod direction;
mod fields;
mod flags;
mod flow;
mod input;
mod kernel;
mod keys;
mod node_id;
mod output;
mod packed;
mod packet;
mod proto;
mod refusal;
mod sequence;
mod state_name;
mod std_device;

pub use addr::{Addr, End};
pub use class::Class;
pub use direction::Dir;
pub use fields::{BadPacket, MAX_LEN, MAX_SCALE, PacketFields};
pub use flags::TcpFlags;
pub use flow::Key;
pub use input::Input;
pub use kernel::{Kernel, KernelWord};
pub use keys::key;
pub use node_id::NodeId;
pub use output::Output;
pub use packed::{PackedEnd, PackedKey};
pub use packet::Packet;
pub use proto::{OtherProto, Proto};
pub use refusal::Refusal;
pub use sequence::{seq_geq, seq_gt};
pub use state_name::StateName;
pub use std_device::{DeviceFault, Std};

/// Milliseconds of a node's clock.
pub type Millis = u64;

/// The last millisecond that a clock can reach.
pub const LAST_MILLISECOND: Millis = 1_000_000_000_000;

/// The greatest number of 32 bits, up to which events count, and which lines may say.
pub const GREATEST_NUMBER: u64 = 4294967295;
