//! States of flows.

ghost use Rattle.std.specs.Prelude.{◌≡◌, Some, None, IfSome, if◌then◌else◌};

use crate::key_pair::KeyPair;
use crate::keys::are_keys;
use crate::motion::Motion;
use crate::peer::Peer;
use pfl_base::{Class, Dir, Key, Millis, PackedKey, Proto, StateName};
use std::marker::Model;

/// What a state is made from. Times are in milliseconds.
#[derive(Clone, Copy, Debug, PartialEq, Eq)]
pub struct StateFields {
    /// The name that the node gave it that made it.
    pub name: StateName,
    /// The flow as it is on the wire.
    pub wire: Key,
    /// The flow before translation.
    pub stack: Key,
    /// Which way its first packet went.
    pub direction: Dir,
    /// The end that sent the first packet.
    pub src: Peer,
    /// The other end.
    pub dst: Peer,
    /// What its timeout goes by.
    pub class: Class,
    /// When it was last used.
    pub last: Millis,
    /// The number of the rule that made it, where this node has that rule.
    pub rule: Option<u16>,
    /// Whether it is never announced to the peer.
    pub no_sync: bool,
    /// Whether a packet is held until the peer acknowledges it.
    pub ack_wanted: bool,
    /// How often a TCP state changed while it was queued, at most 255.
    pub updates: u8,
    /// When the peer last changed it.
    pub peer_change: Option<Millis>,
}

/// A state as it is kept: the same fields, the flows in few bytes.
#[derive(Clone, Copy, Debug, PartialEq, Eq)]
struct Kept {
    name: StateName,
    wire: PackedKey,
    stack: PackedKey,
    direction: Dir,
    src: Peer,
    dst: Peer,
    class: Class,
    last: Millis,
    rule: Option<u16>,
    no_sync: bool,
    ack_wanted: bool,
    updates: u8,
    peer_change: Option<Millis>,
}

/// A flow that is tracked: its keys are of one protocol, and all four of their ends of one family.
#[derive(Clone, Copy, Debug, PartialEq, Eq)]
pub struct State {
    kept: Kept,
}

impl Model for State {
    ghost use Rattle.pfl_track.specs.declared.state.StateFields.{StateFields};

    ghost Value = { StateFields };

    ghost use Rattle.pfl_track.specs.Keys.{AreKeys};
    ghost use Rattle.pfl_track.specs.inner.Kept.{fields_of, kept_of};

    ghost view = { λ s. fields_of s.kept };

    ghost invariant = { λ s. AreKeys s.kept.wire s.kept.stack };

    ghost inverse = { λ fields. record { kept = kept_of fields } };
}

impl State {
    ghost use Rattle.std.specs.Prelude.{◌≤◌, ◌^◌};
    ghost use Rattle.pfl_base.specs.Keys.{is_key};
    ghost use Rattle.pfl_track.specs.Keys.{are_keys as may_be_keys, AreKeys};
    ghost use Rattle.pfl_track.specs.Motions.{motion as motion_of, with_motion as moved_to};
    ghost use Rattle.pfl_track.specs.States.{IsState};
    ghost use Rattle.pfl_track.specs.Tracking.{expired as has_expired, expiry as time_of_expiry};

    /// The state with these fields; none where its keys are of two protocols, or their ends not all of one family. A state is large: it
    /// is made where it is to be, and not handed back.
    #[inline(always)]
    pub fn of(fields: StateFields) -> Option<State>
        ensures made { result ≡ (if may_be_keys fields.wire fields.stack then Some fields else None) }
        ensures state { IfSome result IsState }
    {
        if are_keys(&fields.wire, &fields.stack) {
            Some(State::of_keys(fields))
        } else {
            None
        }
    }

    /// The state with fields that are known to be one's.
    #[inline(always)]
    pub(crate) fn with(fields: StateFields) -> State
        requires { IsState fields }
        ensures { result ≡ fields }
    {
        State::of_keys(fields)
    }

    /// The state with fields whose keys are known to be one's.
    #[inline(always)]
    fn of_keys(fields: StateFields) -> State
        requires { AreKeys fields.wire fields.stack }
        ensures { result ≡ fields }
    {
        let kept = Kept {
            name: fields.name,
            wire: PackedKey::of(fields.wire),
            stack: PackedKey::of(fields.stack),
            direction: fields.direction,
            src: fields.src,
            dst: fields.dst,
            class: fields.class,
            last: fields.last,
            rule: fields.rule,
            no_sync: fields.no_sync,
            ack_wanted: fields.ack_wanted,
            updates: fields.updates,
            peer_change: fields.peer_change,
        };
        State { kept }
    }

    /// States for proofs what each state keeps. It does nothing.
    pub fn known(&self)
        ensures { IsState self.now }
    {
        let _keys = self.keys();
        let Kept { src, dst, .. } = self.kept;
        let _ends = (src.fields(), dst.fields());
    }

    /// What the state was made from.
    pub fn fields(&self) -> StateFields
        ensures { result ≡ self.now }
    {
        let Kept {
            name,
            wire,
            stack,
            direction,
            src,
            dst,
            class,
            last,
            rule,
            no_sync,
            ack_wanted,
            updates,
            peer_change,
        } = self.kept;
        StateFields {
            name,
            wire: wire.key(),
            stack: stack.key(),
            direction,
            src,
            dst,
            class,
            last,
            rule,
            no_sync,
            ack_wanted,
            updates,
            peer_change,
        }
    }

    /// The name that the node gave it that made it.
    pub fn name(&self) -> StateName
        ensures { result ≡ self.now.name }
    {
        self.kept.name
    }

    /// The flow as it is on the wire.
    pub fn wire(&self) -> Key
        ensures { result ≡ self.now.wire }
    {
        self.kept.wire.key()
    }

    /// The protocol of the flow.
    pub fn proto(&self) -> Proto
        ensures { result ≡ self.now.wire.proto }
    {
        self.kept.wire.proto()
    }

    /// The flow before translation.
    pub fn stack(&self) -> Key
        ensures { result ≡ self.now.stack }
    {
        self.kept.stack.key()
    }

    /// Whether the flow as it is on the wire is this one.
    pub fn has_wire(&self, key: &PackedKey) -> bool
        ensures { result ≡ is_key self.now.wire key.now }
    {
        self.kept.wire == *key
    }

    /// Whether the flow before translation is this one.
    pub fn has_stack(&self, key: &PackedKey) -> bool
        ensures { result ≡ is_key self.now.stack key.now }
    {
        self.kept.stack == *key
    }

    /// The two keys.
    pub fn keys(&self) -> KeyPair
        ensures wire { result.wire ≡ self.now.wire }
        ensures stack { result.stack ≡ self.now.stack }
    {
        KeyPair::packed(self.kept.wire, self.kept.stack)
    }

    /// Which way its first packet went.
    pub fn direction(&self) -> Dir
        ensures { result ≡ self.now.direction }
    {
        self.kept.direction
    }

    /// The end that sent the first packet.
    pub fn src(&self) -> Peer
        ensures { result ≡ self.now.src }
    {
        self.kept.src
    }

    /// The other end.
    pub fn dst(&self) -> Peer
        ensures { result ≡ self.now.dst }
    {
        self.kept.dst
    }

    /// What its timeout goes by.
    pub fn class(&self) -> Class
        ensures { result ≡ self.now.class }
    {
        self.kept.class
    }

    /// When it was last used, in milliseconds.
    pub fn last(&self) -> Millis
        ensures { result ≡ self.now.last }
    {
        self.kept.last
    }

    /// The number of the rule that made it, where this node has that rule.
    pub fn rule(&self) -> Option<u16>
        ensures { result ≡ self.now.rule }
    {
        self.kept.rule
    }

    /// Whether it is never announced to the peer.
    pub fn no_sync(&self) -> bool
        ensures { result ≡ self.now.no_sync }
    {
        self.kept.no_sync
    }

    /// Whether a packet is held until the peer acknowledges it.
    pub fn ack_wanted(&self) -> bool
        ensures { result ≡ self.now.ack_wanted }
    {
        self.kept.ack_wanted
    }

    /// How often a TCP state changed while it was queued, at most 255.
    pub fn updates(&self) -> u8
        ensures { result ≡ self.now.updates }
    {
        self.kept.updates
    }

    /// When the peer last changed it, in milliseconds.
    pub fn peer_change(&self) -> Option<Millis>
        ensures { result ≡ self.now.peer_change }
    {
        self.kept.peer_change
    }

    /// The state that waits for an acknowledgement, or not.
    pub fn with_ack_wanted(&self, wanted: bool) -> State
        ensures { result ≡ record self.now { ack_wanted = wanted } }
    {
        State {
            kept: Kept {
                ack_wanted: wanted,
                ..self.kept
            },
        }
    }

    /// The state that changed this often while it was queued.
    pub fn with_updates(&self, updates: u8) -> State
        ensures { result ≡ record self.now { updates = updates } }
    {
        State {
            kept: Kept {
                updates,
                ..self.kept
            },
        }
    }

    /// The state that the peer last changed at this time.
    pub fn with_peer_change(&self, peer_change: Option<Millis>) -> State
        ensures changed { result ≡ record self.now { peer_change = peer_change } }
        ensures state { IsState result }
    {
        self.known();
        State {
            kept: Kept {
                peer_change,
                ..self.kept
            },
        }
    }

    /// The state with these ends.
    pub fn with_ends(&self, src: Peer, dst: Peer) -> State
        ensures { result ≡ record self.now { src = src; dst = dst } }
    {
        State {
            kept: Kept {
                src,
                dst,
                ..self.kept
            },
        }
    }

    /// The state with this class, last used at this time.
    pub fn refreshed(&self, class: Class, last: Millis) -> State
        ensures refreshed { result ≡ record self.now { class = class; last = last } }
        ensures state { IsState result }
    {
        self.known();
        State {
            kept: Kept {
                class,
                last,
                ..self.kept
            },
        }
    }

    /// The state with these ends and this class, last used at this time.
    pub(crate) fn renewed(&self, src: Peer, dst: Peer, class: Class, last: Millis) -> State
        ensures { result ≡ record self.now { src = src; dst = dst; class = class; last = last } }
    {
        State {
            kept: Kept {
                src,
                dst,
                class,
                last,
                ..self.kept
            },
        }
    }

    /// What packets move of it.
    pub fn motion(&self) -> Motion
        ensures { result ≡ motion_of self.now }
    {
        let Kept {
            src,
            dst,
            class,
            last,
            updates,
            ..
        } = self.kept;
        Motion {
            src,
            dst,
            class,
            last,
            updates,
        }
    }

    /// The state moved so.
    pub fn with_motion(&self, motion: Motion) -> State
        ensures { result ≡ moved_to motion self.now }
    {
        State {
            kept: Kept {
                src: motion.src,
                dst: motion.dst,
                class: motion.class,
                last: motion.last,
                updates: motion.updates,
                ..self.kept
            },
        }
    }

    /// When the state expires, in milliseconds, under a timeout in seconds (pf.conf(5)). A clock is far below 2^63.
    pub fn expiry(&self, timeout: u32) -> Millis
        requires { self.now.last ≤ 2 ^ 63 }
        ensures { result ≡ time_of_expiry self.now timeout }
    {
        self.kept.last + u64::from(timeout) * 1000
    }

    /// Whether the state has expired at a time, under a timeout in seconds (pf.conf(5)).
    pub fn expired(&self, timeout: u32, now: Millis) -> bool
        ensures { result ≡ has_expired self.now timeout now }
    {
        let age = now.checked_sub(self.kept.last);
        age.is_some_and(|age| age >= u64::from(timeout) * 1000)
    }
}
