//! The words of events.

ghost use Rattle.std.specs.Prelude.{◌≡◌};
ghost use Rattle.pfl_lines.specs.EventWords as meant;

use crate::words::is_word;
use pfl_language::{FrameEvent, NodeEvent};

/// The words of all events.
const EVENT_WORDS: [&str; 14] = [
    "packet", "tick", "purge", "release", "kill", "clear", "turn", "retry", "flush", "restart",
    "deliver", "lose", "repeat", "cut",
];

/// The events of a node whose line says nothing but their word and the node.
const BARE_NODE_EVENTS: [NodeEvent; 5] = [
    NodeEvent::Purge,
    NodeEvent::Release,
    NodeEvent::Clear,
    NodeEvent::BulkTurn,
    NodeEvent::BulkRetry,
];

/// The events of a frame whose line says nothing but their word and the ticket.
const BARE_FRAME_EVENTS: [FrameEvent; 3] = [
    FrameEvent::Deliver,
    FrameEvent::Lose,
    FrameEvent::Repeat,
];

/// The word of an event of a node.
pub(crate) fn node_event_word(event: NodeEvent) -> &'static str
    ensures { result.now ≡ meant.node_event_word event }
{
    match event {
        NodeEvent::Packet { .. } => "packet",
        NodeEvent::Tick { .. } => "tick",
        NodeEvent::Purge => "purge",
        NodeEvent::Release => "release",
        NodeEvent::Kill { .. } => "kill",
        NodeEvent::Clear => "clear",
        NodeEvent::BulkTurn => "turn",
        NodeEvent::BulkRetry => "retry",
    }
}

/// The event of a node with the word, if its line says nothing but that and the node.
pub(crate) fn bare_node_event(word: &[u8]) -> Option<NodeEvent>
    ensures { result ≡ meant.bare_node_event word.now }
{
    BARE_NODE_EVENTS
        .iter()
        .copied()
        .find(|event| node_event_word(*event).as_bytes() == word)
}

/// The word of an event of a frame in flight.
pub(crate) fn frame_event_word(event: FrameEvent) -> &'static str
    ensures { result.now ≡ meant.frame_event_word event }
{
    match event {
        FrameEvent::Deliver => "deliver",
        FrameEvent::Lose => "lose",
        FrameEvent::Repeat => "repeat",
        FrameEvent::Cut { .. } => "cut",
    }
}

/// The event of a frame with the word, if its line says nothing but that and the ticket.
pub(crate) fn bare_frame_event(word: &[u8]) -> Option<FrameEvent>
    ensures { result ≡ meant.bare_frame_event word.now }
{
    BARE_FRAME_EVENTS
        .iter()
        .copied()
        .find(|event| frame_event_word(*event).as_bytes() == word)
}

/// Whether the word is an event's.
pub(crate) fn is_event_word(word: &[u8]) -> bool
    ensures { result ≡ meant.is_event_word word.now }
{
    EVENT_WORDS.iter().any(|event| is_word(word, event))
}
