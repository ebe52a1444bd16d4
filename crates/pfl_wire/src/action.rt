//! What the records of a group are for.

ghost use Rattle.std.specs.Prelude.{◌≡◌, ◌≤◌};

/// The action of a group of records (if_pfsync.h). The numbers between 7 and 10, and those above, are refused.
#[derive(Clone, Copy, Debug, PartialEq, Eq)]
pub enum Action {
    /// CLR: the states of a creator go.
    Clear = 0,
    /// INS: a state was made.
    Insert = 1,
    /// INS_ACK: a state that was made is known.
    InsertAck = 2,
    /// UPD: a state changed.
    Update = 3,
    /// UPD_C: a state changed, announced by what changes of it.
    UpdateShort = 4,
    /// UPD_REQ: a whole state is asked for.
    UpdateRequest = 5,
    /// DEL: a state went.
    Delete = 6,
    /// DEL_C: a state went, announced by its name.
    DeleteShort = 7,
    /// BUS: a bulk update begins or ends.
    Bulk = 10,
}

impl Action {
    ghost use Rattle.pfl_wire.specs.Actions.{action_number, action_with, record_len};

    /// The action's number in a frame.
    pub fn number(self) -> u8
        ensures { result ≡ action_number self }
    {
        self as u8
    }

    /// The action with the number, if there is one.
    pub fn of_number(number: u8) -> Option<Action>
        ensures { result ≡ action_with number }
    {
        match number {
            0 => Some(Action::Clear),
            1 => Some(Action::Insert),
            2 => Some(Action::InsertAck),
            3 => Some(Action::Update),
            4 => Some(Action::UpdateShort),
            5 => Some(Action::UpdateRequest),
            6 => Some(Action::Delete),
            7 => Some(Action::DeleteShort),
            10 => Some(Action::Bulk),
            _ => None,
        }
    }

    /// How many bytes a record of the action has, at most 124.
    pub fn record_len(self) -> usize
        ensures len { result ≡ record_len self }
        ensures small { result ≤ 124 }
    {
        match self {
            Action::Clear | Action::InsertAck | Action::UpdateRequest | Action::DeleteShort => 12,
            Action::Insert | Action::Update | Action::Delete => 124,
            Action::UpdateShort => 44,
            Action::Bulk => 8,
        }
    }
}
