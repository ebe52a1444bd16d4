//! A table takes no memory once it is made, nor a copy of it, whatever comes, moves and goes. It has each of the containers.

use pfl_base::{Addr, Class, Dir, End, Key, Proto, StateName};
use pfl_rules::Adaptive;
use pfl_table::{Slot, StateTable};
use pfl_track::{Motion, Peer, State, StateFields};
use std::alloc::Allocator;
use std::test::*;
use test_devices::RefusesOne;

/// How many states there are: an index of this many has grown five times.
const STATES: u16 = 300;

/// Timeouts that are not scaled.
const AS_THEY_ARE: Adaptive = Adaptive { start: 0, end: 0 };

/// The state of a query from a port of 10.0.0.1 to 192.0.2.9:53, which was last used at as many milliseconds.
fn state_of(port: u16) -> Option<State> {
    let wire = Key {
        proto: Proto::Udp,
        far: End {
            addr: Addr::V4(0xc000_0209),
            port: 53,
        },
        near: End {
            addr: Addr::V4(0x0a00_0001),
            port,
        },
    };
    let stack = wire;
    State::of(StateFields {
        name: name_of(port),
        wire,
        stack,
        direction: Dir::Outbound,
        src: Peer::silent(),
        dst: Peer::silent(),
        class: Class::UdpFirst,
        last: u64::from(port),
        rule: Some(port),
        no_sync: false,
        ack_wanted: false,
        updates: 0,
        peer_change: None,
    })
}

/// The name of that state.
fn name_of(port: u16) -> StateName {
    StateName {
        creator: 1,
        id: u64::from(port),
    }
}

/// Puts the state of a port, with a timeout of a minute: whether it was put.
fn put<A: Allocator>(table: &mut StateTable<A>, port: u16) -> bool {
    match state_of(port) {
        Some(state) => table.put(state, 60).is_ok(),
        None => false,
    }
}

/// Uses the state of a port a second after it began: whether it was there.
fn use_again<A: Allocator>(table: &mut StateTable<A>, port: u16) -> bool {
    let Some(state) = state_of(port) else {
        return false;
    };
    let motion = Motion {
        last: u64::from(port) + 1000,
        ..state.motion()
    };
    table
        .move_at(Slot::UNKNOWN, name_of(port), &motion, 60)
        .is_some()
}

/// All states come and are used again: whether each was where it had to be.
fn come<A: Allocator>(table: &mut StateTable<A>) -> bool {
    let mut there = true;
    for port in 0..STATES {
        there &= put(table, port) && use_again(table, port);
    }
    there
}

/// Each third one goes and comes again: whether each was where it had to be.
fn go_and_come<A: Allocator>(table: &mut StateTable<A>) -> bool {
    let mut there = true;
    for port in 0..STATES {
        if port % 3 == 1 {
            there &= table.take_at(Slot::UNKNOWN, name_of(port)).is_some() && put(table, port);
        }
    }
    table.settle_first(AS_THEY_ARE, STATES as usize);
    there
}

/// The state of port 1 is the first that came again, and was not used since.
fn is_settled<A: Allocator>(table: &StateTable<A>) -> bool {
    let first = table.first_expiring(AS_THEY_ARE, STATES as usize);
    table.len() == STATES as usize && first.is_some_and(|row| row.state.name() == name_of(1))
}

#[test]
fn a_table_takes_no_memory_once_it_is_made(rt: HostRuntime) -> Result<(), Fail> {
    let memory = RefusesOne::new(rt.alloc());
    let mut table = StateTable::new(&memory, STATES as usize)?;
    memory.refuse(1);
    assert!(rt; come(&mut table) && go_and_come(&mut table));
    assert!(rt; is_settled(&table));
    assert!(rt; !memory.relent());
    let mut copied = table.copy()?;
    memory.refuse(1);
    assert!(rt; go_and_come(&mut copied));
    assert!(rt; is_settled(&copied));
    assert!(rt; !memory.relent());
    Ok(())
}
