//! What the indexes of a table go by.

ghost use Rattle.std.specs.Prelude.{◌≡◌, ◌+◌, ◌*◌, ◌^◌};
ghost use Rattle.pfl_table.specs.inner.Ordering.{flow_of, number_of as address_number, flow_tag, addresses_hash, mixed_halves, name_tag, expiry_cmp};
ghost use Rattle.pfl_table.specs.inner.Ordering.{expiry_total, expiry_exact, expiry_at, expiry_of, name_in, due_at, due_before};

use crate::row::Row;
use pfl_base::{Addr, Key, Millis, StateName};
use pfl_containers::{ByName, Ordered, mix, tag_of};
use pfl_rules::{Adaptive, scaled};
use std::cmp::Ordering;

/// How many addresses of IPv4 there are.
const ADDRESSES: u64 = 1 << 32;

/// How many ports there are.
const PORTS: u64 = 1 << 16;

/// How many protocols there are.
const PROTOS: u64 = 1 << 8;

/// The tag under which an index has the slot of a row with this flow.
pub(crate) fn tag_of_flow(key: &Key) -> u32
    ensures tag { result ≡ flow_tag (flow_of key.now) }
{
    let ports = (key.far.port as u64 * PORTS + key.near.port as u64) * PROTOS
        + key.proto.number() as u64;
    tag_of(mix(hash_of_addresses(key), ports))
}

/// A hash of the addresses of a flow: two of IPv4 are one word, and others are two words each.
#[inline]
fn hash_of_addresses(key: &Key) -> u64
    ensures { result ≡ addresses_hash (flow_of key.now) }
{
    match (key.far.addr, key.near.addr) {
        (Addr::V4(far), Addr::V4(near)) => mix(0, word_of(far, near)),
        (far, near) => mix_halves(mix_halves(0, number_of(far)), number_of(near)),
    }
}

/// Two addresses of IPv4 as one word.
#[inline]
fn word_of(far: u32, near: u32) -> u64
    ensures { result ≡ far * 2 ^ 32 + near }
{
    far as u64 * ADDRESSES + near as u64
}

/// A hash with both halves of a number in it.
#[inline]
fn mix_halves(hash: u64, number: u128) -> u64
    ensures { result ≡ mixed_halves hash number }
{
    mix(
        mix(hash, (number >> 64) as u64),
        (number % (1 << 64)) as u64,
    )
}

/// An address as a number.
#[inline]
fn number_of(addr: Addr) -> u128
    ensures { result ≡ address_number addr }
{
    match addr {
        Addr::V4(number) => number as u128,
        Addr::V6(number) => number,
    }
}

/// The tag under which an index has the slot of a name's row.
pub(crate) fn tag_of_name(name: StateName) -> u32
    ensures tag { result ≡ name_tag (record { 0 = name }) }
{
    tag_of(ByName(name).hash())
}

/// What says when a row expires: its timeout, the time of a use and its name. Rows of one timeout expire in this order, however
/// timeouts are scaled. The two numbers of the name stand apart, so that a key is three words long.
#[derive(Clone, Copy)]
pub(crate) struct Expiry {
    timeout: u32,
    creator: u32,
    time: Millis,
    id: u64,
}

impl Expiry {
    /// What says when this row expires.
    pub(crate) fn of(row: &Row) -> Expiry
        ensures { result ≡ expiry_of row.now }
    {
        Expiry::at(row, row.state.last())
    }

    /// What says when this row would expire if it had last been used at this time.
    pub(crate) fn at(row: &Row, time: Millis) -> Expiry
        ensures { result ≡ expiry_at row.now time }
    {
        let name = row.state.name();
        Expiry {
            timeout: row.timeout,
            creator: name.creator,
            time,
            id: name.id,
        }
    }

    /// The timeout of the row, in seconds.
    pub(crate) fn timeout(self) -> u32
        ensures { result ≡ self.timeout }
    {
        self.timeout
    }

    /// The name of the row.
    pub(crate) fn name(self) -> StateName
        ensures { result ≡ name_in self }
    {
        StateName {
            creator: self.creator,
            id: self.id,
        }
    }

    /// When the row expires where timeouts are scaled for this number of states, in milliseconds.
    fn due(self, adaptive: Adaptive, states: usize) -> u128
        ensures { result ≡ due_at adaptive states self }
    {
        self.due_after(scaled(self.timeout, adaptive, states))
    }

    /// When the row expires where its timeout is scaled to these seconds, in milliseconds.
    #[inline]
    pub(crate) fn due_after(self, seconds: u32) -> u128
        ensures { result ≡ self.time + seconds * 1000 }
    {
        self.time as u128 + seconds as u128 * 1000
    }

    /// Whether the row expires before another one: by expiry, then by name.
    pub(crate) fn is_before(self, other: Expiry, adaptive: Adaptive, states: usize) -> bool
        ensures { result ≡ due_before adaptive states self other }
    {
        let due = self.due(adaptive, states);
        let other_due = other.due(adaptive, states);
        due < other_due || (due == other_due && self.name().compare(other.name()).is_lt())
    }
}

impl Ordered for Expiry {
    ghost order = { expiry_cmp };

    fn compare(self, other: Expiry) -> Ordering {
        match self.timeout.cmp(&other.timeout) {
            Ordering::Equal => match self.time.cmp(&other.time) {
                Ordering::Equal => self.name().compare(other.name()),
                apart => apart,
            },
            apart => apart,
        }
    }

    ghost total = { expiry_total };

    ghost exact = { expiry_exact };
}
