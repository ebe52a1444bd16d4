//! What lines say before their packets are judged.

use pfl_base::{Dir, NodeId, PacketFields, TcpFlags};
use pfl_language::{Ask, BranchWord, Command, Event};

/// What a packet has after its ends. Nothing of TCP is there for another protocol.
#[derive(Clone, Copy, Debug)]
pub struct Segment {
    pub flags: TcpFlags,
    pub seq: u32,
    pub ack: u32,
    pub window: u16,
    pub len: u16,
    pub scale: Option<u8>,
}

/// An event, whose packet may be none.
#[derive(Clone, Copy, Debug)]
pub enum EventDraft {
    Packet {
        node: NodeId,
        dir: Dir,
        fields: PacketFields,
    },
    Whole(Event),
}

/// What is asked of a branch, whose packet may be none.
#[derive(Clone, Copy, Debug)]
pub enum AskDraft {
    Step(EventDraft),
    WhyStep(EventDraft),
    Whole(Ask),
}

/// A command, whose packet may be none.
#[derive(Clone, Copy, Debug)]
pub enum CommandDraft {
    On { branch: BranchWord, ask: AskDraft },
    Whole(Command),
}
