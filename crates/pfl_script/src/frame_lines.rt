//! The lines that show the records of a frame whole. Each part prints as its words.

ghost use Rattle.std.specs.Prelude.{◌≡◌, Some};
ghost use Rattle.pfl_script.specs.Shows.{peer_text};
ghost use Rattle.pfl_script.specs.Frames.{sent_flow_text, sent_ends_text, asks_text, sent_state_text, sent_update_text, content_text, sent_record_line};

use crate::optional::OptionalNumber;
use crate::record_lines::RecordWords;
use pfl_base::Dir;
use pfl_track::{KeyPair, Peer, PeerFields};
use pfl_wire::{Message, StateRecord, UpdateRecord};
use std::fmt;

/// An end of a connection: level, scale, window, lo and hi.
#[derive(Clone, Copy)]
struct PeerWords(Peer);

impl fmt::Display for PeerWords {
    ghost output = { λ w. Some (peer_text w.0) };

    #[tactic(auto, unfolding(crate::specs::Shows::peer_text))]
    fn fmt<W: fmt::Write>(&self, f: &mut fmt::Formatter<W>) -> fmt::Result {
        let PeerFields {
            level,
            scale,
            window,
            lo,
            hi,
        } = self.0.fields();
        let scale = OptionalNumber::of_u8(scale);
        write!(f, "{level} {scale} {window} {lo} {hi}")
    }
}

/// The flow of a state that is sent: its protocol, the way of its first packet, and its keys, each with its far and its near end.
#[derive(Clone, Copy)]
struct FlowWords {
    keys: KeyPair,
    direction: Dir,
}

impl fmt::Display for FlowWords {
    ghost output = { λ w. Some (sent_flow_text w.keys w.direction) };

    #[tactic(auto, unfolding(crate::specs::Frames::sent_flow_text))]
    fn fmt<W: fmt::Write>(&self, f: &mut fmt::Formatter<W>) -> fmt::Result {
        let direction = self.direction;
        let (wire, stack) = (self.keys.wire(), self.keys.stack());
        let proto = wire.proto;
        let (far, near) = (wire.far, wire.near);
        let (stack_far, stack_near) = (stack.far, stack.near);
        write!(
            f,
            "{proto} {direction} {far} {near} {stack_far} {stack_near}"
        )
    }
}

/// The source and the destination end.
#[derive(Clone, Copy)]
struct EndsWords {
    src: Peer,
    dst: Peer,
}

impl fmt::Display for EndsWords {
    ghost output = { λ w. Some (sent_ends_text w.src w.dst) };

    #[tactic(auto, unfolding(crate::specs::Frames::sent_ends_text))]
    fn fmt<W: fmt::Write>(&self, f: &mut fmt::Formatter<W>) -> fmt::Result {
        let src = PeerWords(self.src);
        let dst = PeerWords(self.dst);
        write!(f, "{src} {dst}")
    }
}

/// Whether an acknowledgement is asked for.
fn asks_word(ack_wanted: bool) -> &'static str
    ensures { result.now ≡ asks_text ack_wanted }
{
    if ack_wanted { "k" } else { "-" }
}

/// A state that is sent, after its name.
#[derive(Clone, Copy)]
struct StateWords(StateRecord);

impl fmt::Display for StateWords {
    ghost output = { λ w. Some (sent_state_text w.0) };

    #[tactic(auto, unfolding(crate::specs::Frames::sent_state_text))]
    fn fmt<W: fmt::Write>(&self, f: &mut fmt::Formatter<W>) -> fmt::Result {
        let StateRecord {
            keys,
            direction,
            ack_wanted,
            src,
            dst,
            class,
            remaining,
            rule,
            ..
        } = self.0;
        let flow = FlowWords { keys, direction };
        let ends = EndsWords { src, dst };
        let rule = OptionalNumber::of_u32(rule);
        let asks = asks_word(ack_wanted);
        write!(f, "{flow} {ends} {class} {remaining} {rule} {asks}")
    }
}

/// What changes of a state, after its name.
#[derive(Clone, Copy)]
struct UpdateWords(UpdateRecord);

impl fmt::Display for UpdateWords {
    ghost output = { λ w. Some (sent_update_text w.0) };

    #[tactic(auto, unfolding(crate::specs::Frames::sent_update_text))]
    fn fmt<W: fmt::Write>(&self, f: &mut fmt::Formatter<W>) -> fmt::Result {
        let UpdateRecord {
            src,
            dst,
            class,
            remaining,
            ..
        } = self.0;
        let ends = EndsWords { src, dst };
        write!(f, "{ends} {class} {remaining}")
    }
}

/// What a record has after its kind and its name.
#[derive(Clone, Copy)]
struct ContentWords<'a>(&'a Message);

impl fmt::Display for ContentWords<'_> {
    ghost output = { λ w. Some (content_text w.0.now) };

    fn fmt<W: fmt::Write>(&self, f: &mut fmt::Formatter<W>) -> fmt::Result {
        match *self.0 {
            Message::Insert(state) | Message::Update(state) | Message::Delete(state) => {
                let state = StateWords(state);
                write!(f, " {state}")
            }
            Message::UpdateShort(update) => {
                let update = UpdateWords(update);
                write!(f, " {update}")
            }
            _ => Ok(()),
        }
    }
}

/// A record, whole, as a line.
#[derive(Clone, Copy)]
pub struct SentRecordLine<'a>(pub &'a Message);

impl fmt::Display for SentRecordLine<'_> {
    ghost output = { λ l. Some (sent_record_line l.0.now) };

    fn fmt<W: fmt::Write>(&self, f: &mut fmt::Formatter<W>) -> fmt::Result {
        let record = RecordWords(self.0);
        let content = ContentWords(self.0);
        writeln!(f, "record {record}{content}")
    }
}
