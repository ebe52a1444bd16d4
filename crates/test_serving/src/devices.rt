//! Devices that fail at each place of a dialogue.
ghost use Rattle.std.specs.Prelude.{◌≡◌};
ghost use Rattle.pfl_serve.specs.session.Passes.{IsPassOf};

use super::lab::{entries, opened, speak, take, tells};
use pfl_base::Std;
use pfl_run::{EngineFault, LineReader};
use pfl_serve::{Closed, Lab, Open, Opened, Pass, Seat, Served, Service, Which};
use std::alloc::Global;
use std::marker::Brand;
use std::sync::Wait;
use std::test::*;
use test_devices::{Bytewise, Narrow};

/// Four lines, of 57, 5, 4 and 12 bytes.
const LINES: &[u8] =
    b"step main packet a out udp 10.0.0.1:1000 192.0.2.9:53 40\nview\nfly\nback main 1\n";

/// Their answers, of 24, 21, 14 and 5 bytes.
const ANSWERS: &[u8] = b"step pass 1.1 dropped 0\nview 1 1 1 1 1 0 0 1\nbad 3 Unknown\nat 0\n";

/// The replies of a journal in which none, one or both of the commands stand, before the one that is asked with new devices.
const NONE: &[u8] = b"names main\n";

const STEP: &[u8] = b"step pass 1.1 dropped 0\nnames main\n";

const BOTH: &[u8] = b"step pass 1.1 dropped 0\nat 0\nnames main\n";

/// How a session ends whose reader gives this many bytes, and whose writer takes this many.
#[derive(Drop)]
struct Cut {
    fault: Option<EngineFault>,
    writer: Narrow,
    /// It is served on with new devices.
    on: bool,
}

/// Serves such a session, and then on with new devices.
fn cut_session<J: Which, R: Wait>(
    rt: &R,
    alloc: Global,
    lab: &Lab<J, Global>,
    pass: Pass<Global>,
    places: (u32, usize),
) -> Cut
    requires { IsPassOf J.publisher J.tallies pass }
{
    let (given, taken) = places;
    let bytes = Bytewise {
        bytes: LINES,
        good: given,
    };
    let seat = Seat {
        pass,
        reader: LineReader::new(Std::new(bytes)),
        writer: Std::new(Narrow::new(taken)),
    };
    let service = Service {
        rt,
        alloc,
        gate: &Open,
    };
    let Served { seat, result } = service.serve_session(lab, seat);
    let (on, _) = speak(rt, alloc, lab, seat.pass, b"names\n", &Open);
    Cut {
        fault: result.err(),
        writer: seat.writer.into_inner(),
        on: on.is(b"names main\n", 1, 0),
    }
}

/// The session of a lab, and what is left of it.
fn cut_all<J: Which, R: Wait>(
    rt: &R,
    alloc: Global,
    opened: Opened<Global>,
    places: (u32, usize),
) -> (Option<Cut>, Closed<Global>)
    requires tables { (opened.publisher ≡ J.publisher) × (opened.tallies ≡ J.tallies) }
    requires opening { (opened.opening ≡ J.opening) × (opened.setup ≡ J.setup) × (opened.limit ≡ J.limit) }
{
    let (lab, mut passes) = opened.named::<J>();
    let cut = match take::<J, _>(&mut passes) {
        Some(pass) => Some(cut_session(rt, alloc, &lab, pass, places)),
        None => None,
    };
    (cut, lab.close(passes))
}

impl Cut {
    /// It ends so, with this many bytes of the answers.
    fn is(&self, fault: Option<EngineFault>, written: usize) -> bool {
        let taken = self.writer.taken.iter().take(self.writer.len);
        self.on && self.fault == fault && taken.eq(ANSWERS.iter().take(written))
    }
}

/// Whether a session ends so at these places, and the journal has the calls of these replies.
fn ends<R: Wait>(
    rt: &R,
    alloc: Global,
    places: (u32, usize),
    wanted: (Option<EngineFault>, usize, &[u8]),
) -> bool {
    let Ok(opened) = opened(alloc, 1, 1_000_000) else {
        return false;
    };
    let (cut, closed) = cut_all::<Brand, _>(rt, alloc, opened, places);
    let (fault, written, replies) = wanted;
    let cut_so = cut.is_some_and(|cut| cut.is(fault, written));
    let Some(journal) = entries(alloc, closed) else {
        return false;
    };
    cut_so && tells(alloc, &journal, replies)
}

/// The writer fails in each byte of the answers: all before it was written, and the call whose reply it is was made.
#[test]
fn writers_fail_at_each_place(rt: HostRuntime) {
    for taken in 0..64 {
        let replies = if taken < 59 { STEP } else { BOTH };
        let wanted = (Some(EngineFault::Write), taken, replies);
        assert!(rt; ends(&rt, rt.alloc(), (1000, taken), wanted), "{taken}");
    }
    assert!(rt; ends(&rt, rt.alloc(), (1000, 64), (None, 64, BOTH)));
}

/// The reader fails after each byte of the lines: the lines that are whole had their replies.
#[test]
fn readers_fail_at_each_place(rt: HostRuntime) {
    for given in 0..79 {
        let (written, replies) = match given {
            0..=56 => (0, NONE),
            57..=61 => (24, STEP),
            62..=65 => (45, STEP),
            66..=77 => (59, STEP),
            _ => (64, BOTH),
        };
        let wanted = (Some(EngineFault::Read), written, replies);
        assert!(rt; ends(&rt, rt.alloc(), (given, 64), wanted), "{given}");
    }
}
