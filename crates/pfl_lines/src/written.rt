//! Events as lines say them. Each part prints as its words.

ghost use Rattle.std.specs.Prelude.{◌≡◌, Some, [], ◌∷◌, if◌then◌else◌};
ghost use Rattle.std.specs.List.{join_with_byte};
ghost use Rattle.pfl_lines.specs.Laws.{IsAddr, IsEnd, IsTypedEvent, IsTypedFrameEvent, IsTypedNodeEvent, IsStateName, IsTyped};
ghost use Rattle.pfl_lines.specs.Written.{flags_text, tcp_words, fields_words, node_event_words, frame_event_words, event_text};

use crate::event_words::{frame_event_word, node_event_word};
use pfl_base::{Addr, End, NodeId, Packet, PacketFields, Proto, StateName, TcpFlags};
use pfl_language::{Event, FrameEvent, NodeEvent};
use std::fmt;

/// A letter that prints only if its flag is set.
#[derive(Clone, Copy)]
struct Letter(&'static str, bool);

impl fmt::Display for Letter {
    ghost output = { λ letter. Some (if letter.1 then letter.0.now else []) };

    fn fmt<W: fmt::Write>(&self, f: &mut fmt::Formatter<W>) -> fmt::Result {
        let Letter(letter, is_set) = *self;
        f.write_str(if is_set { letter } else { "" })
    }
}

/// Flags of TCP: letters in the order in which lines have them, or a dash for none.
#[derive(Clone, Copy)]
struct Flags(TcpFlags);

impl fmt::Display for Flags {
    ghost output = { λ flags. Some (flags_text flags.0) };

    #[tactic(auto, unfolding(crate::specs::Written::flags_text))]
    fn fmt<W: fmt::Write>(&self, f: &mut fmt::Formatter<W>) -> fmt::Result {
        let flags = self.0;
        if flags.is_empty() {
            return f.write_str("-");
        }
        let fin = Letter("F", flags.contains(TcpFlags::FIN));
        let syn = Letter("S", flags.contains(TcpFlags::SYN));
        let rst = Letter("R", flags.contains(TcpFlags::RST));
        let psh = Letter("P", flags.contains(TcpFlags::PSH));
        let ack = Letter("A", flags.contains(TcpFlags::ACK));
        let urg = Letter("U", flags.contains(TcpFlags::URG));
        write!(f, "{fin}{syn}{rst}{psh}{ack}{urg}")
    }
}

/// What TCP has after the ends: `FLAGS SEQ ACK WINDOW LEN [SCALE]`.
#[derive(Clone, Copy)]
struct Tcp(PacketFields);

impl fmt::Display for Tcp {
    ghost output = { λ tcp. Some (join_with_byte 32 (tcp_words tcp.0)) };

    fn fmt<W: fmt::Write>(&self, f: &mut fmt::Formatter<W>) -> fmt::Result {
        let PacketFields {
            seq,
            ack,
            window,
            len,
            flags,
            scale,
            ..
        } = self.0;
        let flags = Flags(flags);
        match scale {
            Some(scale) => write!(f, "{flags} {seq} {ack} {window} {len} {scale}"),
            None => write!(f, "{flags} {seq} {ack} {window} {len}"),
        }
    }
}

/// A packet, as it stands after the node and the direction of its event: `PROTO SRC DST`, and what the
/// protocol has after them.
#[derive(Clone, Copy)]
struct PacketWords(Packet);

impl fmt::Display for PacketWords {
    ghost output = { λ words. Some (join_with_byte 32 (fields_words words.0)) };

    fn fmt<W: fmt::Write>(&self, f: &mut fmt::Formatter<W>) -> fmt::Result {
        let fields = self.0.fields();
        let PacketFields {
            len,
            proto,
            src,
            dst,
            ..
        } = fields;
        if matches!(proto, Proto::Tcp) {
            let tcp = Tcp(fields);
            write!(f, "{proto} {src} {dst} {tcp}")
        } else {
            write!(f, "{proto} {src} {dst} {len}")
        }
    }
}

/// An event, as it stands after the branch of a step.
#[derive(Clone, Copy)]
pub struct EventWords(pub Event);

/// The bits of an address.
fn known_addr(addr: Addr)
    ensures { IsAddr addr }
{
    match addr {
        Addr::V4(number) => {
            let _number = number;
        }
        Addr::V6(number) => {
            let _number = number;
        }
    }
}

/// What an end is.
fn known_end(end: End)
    ensures { IsEnd end }
{
    known_addr(end.addr);
    let _port = end.port;
}

/// What a state's name is.
fn known_name(name: StateName)
    ensures { IsStateName name }
{
    let _creator = name.creator;
    let _id = name.id;
}

/// What a packet is.
fn known_packet(packet: Packet)
    ensures { IsTyped packet }
{
    let PacketFields {
        seq: _seq,
        ack: _ack,
        window: _window,
        len: _,
        proto,
        src,
        dst,
        flags,
        scale: _,
    } = packet.fields();
    let _number = proto.number();
    let _bits = flags.bits();
    known_end(src);
    known_end(dst);
}

/// What an event of a node is.
fn known_node_event(event: NodeEvent)
    ensures { IsTypedNodeEvent event }
{
    match event {
        NodeEvent::Packet { packet, .. } => known_packet(packet),
        NodeEvent::Tick { ms } => {
            let _ms = ms;
        }
        NodeEvent::Kill { name } => known_name(name),
        _ => {}
    }
}

/// What an event of a frame is.
fn known_frame_event(event: FrameEvent)
    ensures { IsTypedFrameEvent event }
{
    if let FrameEvent::Cut { len } = event {
        let _len = len;
    }
}

impl EventWords {
    /// States for proofs what is true of each event. It does nothing.
    pub fn known(&self)
        ensures event { IsTypedEvent self.now.0 }
    {
        match self.0 {
            Event::At { event, .. } => known_node_event(event),
            Event::Of { ticket, event } => {
                let _ticket = ticket;
                known_frame_event(event);
            }
            Event::Flush { .. } | Event::Restart { .. } => {}
        }
    }
}

/// An event of a node.
#[derive(Clone, Copy)]
struct NodeEventWords {
    node: NodeId,
    event: NodeEvent,
}

impl fmt::Display for NodeEventWords {
    ghost output = { λ words. Some (join_with_byte 32 (node_event_words words.node words.event)) };

    fn fmt<W: fmt::Write>(&self, f: &mut fmt::Formatter<W>) -> fmt::Result {
        let node = self.node;
        match self.event {
            NodeEvent::Packet { dir, packet } => {
                let packet = PacketWords(packet);
                write!(f, "packet {node} {dir} {packet}")
            }
            NodeEvent::Tick { ms } => write!(f, "tick {node} {ms}"),
            NodeEvent::Kill { name } => write!(f, "kill {node} {name}"),
            bare => {
                let word = node_event_word(bare);
                write!(f, "{word} {node}")
            }
        }
    }
}

/// An event of a frame in flight.
#[derive(Clone, Copy)]
struct FrameEventWords {
    ticket: u32,
    event: FrameEvent,
}

impl fmt::Display for FrameEventWords {
    ghost output = { λ words. Some (join_with_byte 32 (frame_event_words words.ticket words.event)) };

    fn fmt<W: fmt::Write>(&self, f: &mut fmt::Formatter<W>) -> fmt::Result {
        let ticket = self.ticket;
        match self.event {
            FrameEvent::Cut { len } => write!(f, "cut {ticket} {len}"),
            bare => {
                let word = frame_event_word(bare);
                write!(f, "{word} {ticket}")
            }
        }
    }
}

impl fmt::Display for EventWords {
    ghost output = { λ words. Some (event_text words.0) };

    #[tactic(auto, unfolding(crate::specs::Written::event_text))]
    fn fmt<W: fmt::Write>(&self, f: &mut fmt::Formatter<W>) -> fmt::Result {
        match self.0 {
            Event::At { node, event } => {
                let words = NodeEventWords { node, event };
                write!(f, "{words}")
            }
            Event::Flush { node } => write!(f, "flush {node}"),
            Event::Of { ticket, event } => {
                let words = FrameEventWords { ticket, event };
                write!(f, "{words}")
            }
            Event::Restart { node } => write!(f, "restart {node}"),
        }
    }
}
