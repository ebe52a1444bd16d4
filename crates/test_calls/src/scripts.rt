//! Runs and checks whose devices fail at each place: after each byte that is read, and in each byte that is written; whose reader
//! has no end; and those that want no memory, where there is none.

use pfl_base::{Input, Std};
use pfl_run::{check_lab, run_lab};
use std::alloc::{Allocator, Global};
use test_devices::{Bytewise, Endless, Narrow, Refusing};

/// A setup of 16 and 5 bytes; and lines of 12, 4 and 10 bytes, of which two are faulty.
const SCRIPT: &[u8] = b"rule a pass out\nopen\nback main 0\nfly\nback main\n";

/// What a run writes in reply: 5, 14 and 14 bytes.
const REPLIES: &[u8] = b"at 0\nbad 3 Unknown\nbad 4 Missing\n";

/// What a check writes: 21, 21 and 7 bytes.
const TOLD: &[u8] = b"line 4 bad 3 Unknown\nline 5 bad 4 Missing\ngood 1\n";

/// More bytes than the script has, and than each of the texts.
const ALL: usize = 64;

/// Where devices fail: the reader after this many bytes, the writer and that of faults in the byte after this many.
#[derive(Clone, Copy)]
struct Places {
    read: u32,
    written: usize,
    told: usize,
}

/// No device fails.
const NOWHERE: Places = Places {
    read: 1000,
    written: ALL,
    told: ALL,
};

/// What is done with a script.
#[derive(Clone, Copy)]
enum Action {
    Run,
    Check,
}

/// What came of a script.
#[derive(Drop)]
struct Outcome {
    status: u8,
    written: Narrow,
    told: Narrow,
}

/// The writer has taken this many of the first bytes of the text.
fn has_taken(writer: &Narrow, text: &[u8], count: usize) -> bool {
    writer.len == count && writer.taken.iter().take(count).eq(text.iter().take(count))
}

impl Outcome {
    /// The program ended with this status, when it had written this many bytes of the text, and of the line that reports a fault.
    fn is(&self, status: u8, text: (&[u8], usize), fault: (&[u8], usize)) -> bool {
        self.status == status
            && has_taken(&self.written, text.0, text.1)
            && has_taken(&self.told, fault.0, fault.1)
    }
}

/// What comes of a script where the writers take this many bytes.
fn outcome_of<A: Allocator + Copy, I: Input>(
    alloc: A,
    action: Action,
    reader: &mut I,
    written: usize,
    told: usize,
) -> Outcome {
    let mut writer = Std::new(Narrow::new(written));
    let mut faults = Std::new(Narrow::new(told));
    let status = match action {
        Action::Run => run_lab(alloc, reader, &mut writer, &mut faults),
        Action::Check => check_lab(alloc, reader, &mut writer, &mut faults),
    };
    Outcome {
        status,
        written: writer.into_inner(),
        told: faults.into_inner(),
    }
}

/// Over devices that fail at these places the program ends with status 1, when it has written this many bytes of its text and of the
/// line that reports the fault.
fn ends(
    alloc: Global,
    action: Action,
    places: Places,
    written: usize,
    fault: (&[u8], usize),
) -> bool {
    let mut reader = Std::new(Bytewise {
        bytes: SCRIPT,
        good: places.read,
    });
    let outcome = outcome_of(alloc, action, &mut reader, places.written, places.told);
    let text = match action {
        Action::Run => REPLIES,
        Action::Check => TOLD,
    };
    outcome.is(1, (text, written), fault)
}

/// The lines that were read whole have their replies, or are reported.
#[test]
fn readers_fail_behind_each_byte(rt: HostRuntime) {
    let fault = (b"pfl_lab: read\n".as_slice(), 14);
    for read in 0..48 {
        let (answered, told) = match read {
            0..=32 => (0, 0),
            33..=36 => (5, 0),
            37..=46 => (19, 21),
            _ => (33, 42),
        };
        let places = Places { read, ..NOWHERE };
        assert!(rt;
            ends(rt.alloc(), Action::Run, places, answered, fault),
            "{read}"
        );
        assert!(rt;
            ends(rt.alloc(), Action::Check, places, told, fault),
            "{read}"
        );
    }
    assert!(rt; ends(rt.alloc(), Action::Run, NOWHERE, 33, (b"", 0)));
    assert!(rt; ends(rt.alloc(), Action::Check, NOWHERE, 49, (b"", 0)));
}

#[test]
fn writers_fail_in_each_byte(rt: HostRuntime) {
    let fault = (b"pfl_lab: write\n".as_slice(), 15);
    for written in 0..33 {
        let places = Places { written, ..NOWHERE };
        assert!(rt;
            ends(rt.alloc(), Action::Run, places, written, fault),
            "{written}"
        );
    }
    for written in 0..49 {
        let places = Places { written, ..NOWHERE };
        assert!(rt;
            ends(rt.alloc(), Action::Check, places, written, fault),
            "{written}"
        );
    }
}

/// The fault is reported as far as that goes, and the status is the same.
#[test]
fn faults_are_told_as_far_as_that_goes(rt: HostRuntime) {
    for told in 0..14 {
        let places = Places {
            read: 40,
            told,
            ..NOWHERE
        };
        let fault = (b"pfl_lab: read\n".as_slice(), told);
        assert!(rt; ends(rt.alloc(), Action::Run, places, 19, fault), "{told}");
        assert!(rt;
            ends(rt.alloc(), Action::Check, places, 21, fault),
            "{told}"
        );
    }
}

/// The reader gives a byte a call, and no end of the line after the first ones: what is read before has its reply, and only this many
/// calls are made.
fn ends_by_itself(
    alloc: Global,
    action: Action,
    first: &'static [u8],
    text: &[u8],
    calls: u64,
) -> bool {
    let mut reader = Endless { first, calls: 0 };
    let outcome = outcome_of(alloc, action, &mut reader, ALL, ALL);
    let fault = b"pfl_lab: too many turns\n".as_slice();
    outcome.is(1, (text, text.len()), (fault, fault.len())) && reader.calls == calls
}

/// The calls of a setup are counted by themselves.
#[test]
fn a_line_without_end(rt: HostRuntime) {
    let first = b"open\nnames\nfly\n".as_slice();
    for (action, first, text, calls) in [
        (Action::Run, b"".as_slice(), b"".as_slice(), 16777216),
        (
            Action::Run,
            first,
            b"names main\nbad 3 Unknown\n",
            5 + 16777216,
        ),
        (
            Action::Check,
            first,
            b"line 3 bad 3 Unknown\n",
            5 + 16777216,
        ),
    ] {
        assert!(rt; ends_by_itself(rt.alloc(), action, first, text, calls));
    }
}

/// What comes of a script where no request for memory is granted.
fn without_memory(action: Action, script: &[u8]) -> Outcome {
    let mut reader = Std::new(script);
    outcome_of(Refusing, action, &mut reader, ALL, ALL)
}

/// A check makes no pair, so it wants memory for rules alone. Nor does a fault want memory to be reported.
#[test]
fn what_wants_no_memory(rt: HostRuntime) {
    for (action, script, status, text, fault) in [
        (
            Action::Check,
            b"rule a pass out\nopen\n".as_slice(),
            3,
            b"".as_slice(),
            b"pfl_lab: no memory\n".as_slice(),
        ),
        (
            Action::Check,
            b"set states 65536\nopen\nback\nback main 0\n",
            1,
            b"line 3 bad 4 Missing\ngood 1\n",
            b"",
        ),
        (
            Action::Run,
            b"set states x\n",
            1,
            b"",
            b"pfl_lab: setup line 1: line 5\n",
        ),
    ] {
        let outcome = without_memory(action, script);
        assert!(rt; outcome.is(status, (text, text.len()), (fault, fault.len())));
    }
}
