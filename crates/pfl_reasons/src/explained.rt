//! Explanations, as data.

ghost use Rattle.std.specs.Prelude.{◌≡◌, IfOk};
ghost use Rattle.pfl_reasons.specs.Explaining.{explained_of};

use crate::against::Against;
use crate::expiry::Expiry;
use crate::packet_reason::PacketReason;
use crate::record_fate::TakenRecord;
use pfl_base::Millis;
use pfl_edits::NoMemory;
use pfl_rules::Adaptive;
use std::alloc::Allocator;

/// Why an event has its outcome. Clauses say by `explained_of` what it shows.
#[derive(Drop)]
pub enum Explained<A: Allocator> {
    /// Of a packet.
    Packet(PacketReason),
    /// Of a frame that came to its receiver and could be read: its records in their order.
    Records(Vec<TakenRecord, A>),
    /// Of a purge: the node's clock, how many states it finds, between which numbers timeouts shrink, and its states by name.
    Expiries {
        clock: Millis,
        states: usize,
        adaptive: Adaptive,
        list: Vec<Expiry, A>,
    },
    /// Of any other event that is accepted: its outcome says it.
    Plain,
    /// Of an event that is refused.
    Stopped(Against),
}

impl<A: Allocator + Copy> Explained<A> {
    /// An equal one, in memory of its own.
    pub fn copy(&self, alloc: A) -> Result<Explained<A>, NoMemory>
        ensures { IfOk result (λ copied. explained_of copied ≡ explained_of self.now) }
    {
        Ok(match self {
            Explained::Packet(why) => Explained::Packet(*why),
            Explained::Records(records) => {
                Explained::Records(Vec::from_slice(alloc, records.as_slice())?)
            }
            Explained::Expiries {
                clock,
                states,
                adaptive,
                list,
            } => Explained::Expiries {
                clock: *clock,
                states: *states,
                adaptive: *adaptive,
                list: Vec::from_slice(alloc, list.as_slice())?,
            },
            Explained::Plain => Explained::Plain,
            Explained::Stopped(against) => Explained::Stopped(*against),
        })
    }
}
