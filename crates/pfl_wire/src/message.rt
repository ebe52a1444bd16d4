//! The records of frames.

ghost use Rattle.std.specs.Prelude.{◌≡◌};

use crate::action::Action;
use pfl_base::{Class, Dir, StateName};
use pfl_track::{KeyPair, Peer};

/// How far a bulk update is.
#[derive(Clone, Copy, Debug, PartialEq, Eq)]
pub enum BulkStatus {
    Start = 1,
    End,
}

impl BulkStatus {
    ghost use Rattle.pfl_wire.specs.Spelling.{status_byte};

    /// The status's number in a frame.
    pub fn number(self) -> u8
        ensures { result ≡ status_byte self }
    {
        self as u8
    }
}

/// A whole state as it is sent.
#[derive(Clone, Copy, Debug, PartialEq, Eq)]
pub struct StateRecord {
    pub name: StateName,
    pub keys: KeyPair,
    pub direction: Dir,
    /// Whether the sender waits for an acknowledgement.
    pub ack_wanted: bool,
    pub src: Peer,
    pub dst: Peer,
    pub class: Class,
    /// Seconds until the state expires at the sender.
    pub remaining: u32,
    /// The number of the rule at the sender, below 4294967295.
    pub rule: Option<u32>,
}

/// What changes of a state as it is sent.
#[derive(Clone, Copy, Debug, PartialEq, Eq)]
pub struct UpdateRecord {
    pub name: StateName,
    pub src: Peer,
    pub dst: Peer,
    pub class: Class,
    /// Seconds until the state expires at the sender.
    pub remaining: u32,
}

/// A record of a frame.
#[derive(Clone, Copy, Debug, PartialEq, Eq)]
pub enum Message {
    /// The states of the creator with an id of at most the bound go.
    Clear { creator: u32, bound: u64 },
    Insert(StateRecord),
    InsertAck(StateName),
    Update(StateRecord),
    UpdateShort(UpdateRecord),
    UpdateRequest(StateName),
    /// Only the state's name counts.
    Delete(StateRecord),
    DeleteShort(StateName),
    /// The creator is the sender's; a receiver does not look at it.
    Bulk { creator: u32, status: BulkStatus },
}

impl Message {
    ghost use Rattle.pfl_wire.specs.Frames.{action_of};

    /// What the record is for.
    pub fn action(&self) -> Action
        ensures { result ≡ action_of self.now }
    {
        match self {
            Message::Clear { .. } => Action::Clear,
            Message::Insert(_) => Action::Insert,
            Message::InsertAck(_) => Action::InsertAck,
            Message::Update(_) => Action::Update,
            Message::UpdateShort(_) => Action::UpdateShort,
            Message::UpdateRequest(_) => Action::UpdateRequest,
            Message::Delete(_) => Action::Delete,
            Message::DeleteShort(_) => Action::DeleteShort,
            Message::Bulk { .. } => Action::Bulk,
        }
    }
}
