//! What the memory of these tests refuses, and what it does not.

use std::test::*;
use test_devices::{RefusesOne, Requests, Try, requests_of};

/// Whether each of three boxes is refused.
fn three(memory: &RefusesOne) -> [bool; 3] {
    [1u64, 2, 3].map(|number| Box::new(memory, number).is_err())
}

#[test]
fn one_request_is_refused(rt: HostRuntime) {
    let memory = RefusesOne::new(rt.alloc());
    assert!(rt; three(&memory) == [false; 3]);
    let wanted = [
        (1, [true, false, false], true),
        (2, [false, true, false], true),
        (3, [false, false, true], true),
        (4, [false; 3], false),
    ];
    for (n, refused, came) in wanted {
        memory.refuse(n);
        assert!(rt; three(&memory) == refused, "{n}");
        assert!(rt; memory.relent() == came, "{n}");
        assert!(rt; three(&memory) == [false; 3], "{n}");
    }
}

#[test]
fn growth_is_a_request(rt: HostRuntime) -> Result<(), Fail> {
    let memory = RefusesOne::new(rt.alloc());
    let mut numbers = Vec::from_slice(&memory, &[1u8, 2, 3])?;
    memory.refuse(1);
    assert!(rt; numbers.reserve(1000).is_err());
    assert!(rt; memory.relent());
    assert!(rt; &*numbers == [1, 2, 3].as_slice());
    numbers.reserve(1000)?;
    assert!(rt; &*numbers == [1, 2, 3].as_slice());
    Ok(())
}

/// Makes three boxes while the `n`-th request is refused. What is made does without the third.
fn boxes_without(memory: &RefusesOne, n: u64) -> Option<Try> {
    memory.refuse(n);
    let refused = three(memory);
    match (refused, memory.relent()) {
        ([false, false, true], true) => Some(Try::Spared),
        ([true, false, false] | [false, true, false], true) => Some(Try::Wanting),
        ([false, false, false], false) => Some(Try::Whole),
        _ => None,
    }
}

#[test]
fn requests_are_counted(rt: HostRuntime) {
    let memory = RefusesOne::new(rt.alloc());
    let requests = requests_of(|n| boxes_without(&memory, n));
    let wanted = 2;
    assert!(rt; requests == Some(Requests { wanted, spared: 1 }));
    assert!(rt; requests_of(|n| if n < 3 { Some(Try::Wanting) } else { None }).is_none());
    assert!(rt; requests_of(|_n| Some(Try::Wanting)).is_none());
}
