//! What packets move of states.

use crate::peer::Peer;
use crate::state::State;
use pfl_base::{Class, Millis};

/// What a packet moves of a state that stands. Its fields are in the order in which the least is lost between them.
#[derive(Clone, Copy, Debug, PartialEq, Eq)]
pub struct Motion {
    /// When it was last used, in milliseconds.
    pub last: Millis,
    /// The end that sent the first packet.
    pub src: Peer,
    /// The other end.
    pub dst: Peer,
    /// What its timeout goes by.
    pub class: Class,
    /// How often a TCP state changed while it was queued, at most 255.
    pub updates: u8,
}

impl Motion {
    ghost use Rattle.std.specs.Prelude.{◌≡◌, ◌↔◌, IsTrue};

    /// Whether two motions are one.
    pub fn same(&self, other: &Motion) -> bool
        ensures { IsTrue result ↔ (self.now ≡ other.now) }
    {
        self.src == other.src
            && self.dst == other.dst
            && self.class == other.class
            && self.last == other.last
            && self.updates == other.updates
    }
}

impl State {
    ghost use Rattle.std.specs.Prelude.{◌≡◌, ◌↔◌, IsTrue};
    ghost use Rattle.pfl_track.specs.Motions.{motion as motion_of, with_motion as moved_to};

    /// Whether a former state of the same name and keys became this one by moving alone.
    pub fn only_moved(&self, former: &State) -> bool
        requires name { self.now.name ≡ former.now.name }
        requires wire { self.now.wire ≡ former.now.wire }
        requires stack { self.now.stack ≡ former.now.stack }
        ensures { IsTrue result ↔ (self.now ≡ moved_to (motion_of self.now) former.now) }
    {
        self.direction() == former.direction()
            && self.rule() == former.rule()
            && self.no_sync() == former.no_sync()
            && self.ack_wanted() == former.ack_wanted()
            && self.peer_change() == former.peer_change()
    }
}
