//! Events in their order.

ghost use Rattle.std.specs.Prelude.{◌≡◌, ◌-◌, ◌<◌, ◌≤◌, ◌++◌, [], ◌∷◌, length, take, slice_get, Some, IfOk, OnErr, OnOk};
ghost use Rattle.pfl_events.specs.inner.KeptEvents.{is_packet, packets_among};

use crate::kept_event::{KeptEvent, parted};
use pfl_base::Packet;
use pfl_edits::NoMemory;
use pfl_language::{Event, NodeEvent};
use std::alloc::Allocator;
use std::marker::Model;

/// Events in their order: 24 bytes each, and a packet beside them for each that has one.
#[derive(Drop)]
pub struct Events<A: Allocator> {
    kept: Vec<KeptEvent, A>,
    /// The packets of those that have one, in their order.
    packets: Vec<Packet, A>,
}

impl<A: Allocator> Model for Events<A> {
    ghost use Rattle.std.specs.Prelude.{List};
    ghost use Rattle.pfl_language.specs.declared.event.Event.{Event};
    ghost use Rattle.pfl_events.specs.inner.KeptEvents.{AreKept, events_of};

    ghost Value = { List Event };

    ghost view = { λ e. events_of e.kept.items e.packets.items };

    ghost invariant = { λ e. AreKept e.kept.items e.packets.items };
}

/// Whether the event has a packet.
fn is_packet(kept: &KeptEvent) -> bool
    ensures packet { result ≡ is_packet kept.now }
{
    match kept {
        KeptEvent::Packet { .. } => true,
        KeptEvent::Plain(_) => false,
    }
}

/// How many of the events have a packet.
fn packets_among(kept: &[KeptEvent]) -> usize
    ensures packets { result ≡ packets_among kept.now }
{
    kept.iter().filter(|event| is_packet(event)).count()
}

impl<A: Allocator> Events<A> {
    /// How many events there are.
    pub fn len(&self) -> usize
        ensures length { result ≡ length self.now }
    {
        self.kept.len()
    }

    /// The event at the index, which is counted from 0.
    pub fn get(&self, index: usize) -> Event
        requires within { index < length self.now }
        ensures event { slice_get self.now index ≡ Some result }
    {
        match self.kept[index] {
            KeptEvent::Packet { node, dir, index } => {
                let packet = self.packets[index];
                Event::At {
                    node,
                    event: NodeEvent::Packet { dir, packet },
                }
            }
            KeptEvent::Plain(plain) => plain.event(),
        }
    }

    /// The events in a list, in memory of their own.
    pub fn to_vec(&self, alloc: A) -> Result<Vec<Event, A>, NoMemory>
        ensures items { IfOk result (λ list. list.items ≡ self.now) }
    {
        let mut list = Vec::with_capacity(alloc, self.len())?;
        for index in 0..self.len() {
            list.reserve(1)?;
            list.push(self.get(index)).unwrap();
        }
        Ok(list)
    }

    /// Puts an event after the first `count` events, in place of those that came after them, and returns how many those were.
    /// Where there is no memory, nothing changes.
    pub fn put_after(&mut self, count: usize, event: &Event) -> Result<usize, NoMemory>
        requires within { count ≤ length self.old }
        ensures events { OnOk result (self.new ≡ take count self.old ++ event.now ∷ []) }
        ensures dropped { IfOk result (λ dropped. dropped ≡ length self.old - count) }
        ensures unchanged { OnErr result (self.new ≡ self.old) }
    {
        self.kept.reserve(1)?;
        self.packets.reserve(1)?;
        let dropped = self.kept.len() - count;
        let index = self.packets.len() - packets_among(&self.kept[count..]);
        let (kept, packet) = parted(event, index);
        self.kept.truncate(count);
        self.packets.truncate(index);
        self.kept.push(kept).unwrap();
        if let Some(packet) = packet {
            self.packets.push(packet).unwrap();
        }
        Ok(dropped)
    }
}

impl<A: Allocator + Copy> Events<A> {
    /// No events, which take no memory yet.
    pub fn new(alloc: A) -> Self
        ensures events { result ≡ [] }
    {
        Events {
            kept: Vec::new(alloc),
            packets: Vec::new(alloc),
        }
    }

    /// The first `count` events, in memory of their own.
    pub fn first(&self, alloc: A, count: usize) -> Result<Self, NoMemory>
        requires within { count ≤ length self.now }
        ensures events { IfOk result (λ first. first ≡ take count self.now) }
    {
        let packets = self.packets.len() - packets_among(&self.kept[count..]);
        Ok(Events {
            kept: Vec::from_slice(alloc, &self.kept[..count])?,
            packets: Vec::from_slice(alloc, &self.packets[..packets])?,
        })
    }
}
