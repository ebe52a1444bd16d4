//! Calls that go through a gate.
ghost use Rattle.std.specs.Prelude.{◌≡◌};
ghost use Rattle.pfl_serve.specs.session.Passes.{IsPassOf};

use super::lab::{Spoken, opened, speak, take};
use pfl_base::Std;
use pfl_run::{EngineFault, LineReader};
use pfl_serve::{Gate, Lab, Opened, Pass, Seat, Service, Which};
use std::alloc::Global;
use std::marker::Brand;
use std::sync::{Mutex, Wait};
use std::test::*;
use test_devices::Narrow;

/// What a gate notes: the session, and the number of its call.
#[derive(Clone, Copy, Debug, PartialEq, Eq)]
enum Note {
    Enter(u32, u64),
    Leave(u32, u64),
}

/// A gate that notes what goes through.
#[derive(Drop)]
struct Noting {
    notes: Mutex<Vec<Note, Global>>,
}

impl Noting {
    /// Without memory there is no note.
    fn note<R: Wait>(&self, rt: &R, note: Note) {
        let _ = self.notes.lock(rt).push(note);
    }
}

impl Gate for Noting {
    fn enter<R: Wait>(&self, rt: &R, session: u32, nth: u64) {
        self.note(rt, Note::Enter(session, nth));
    }

    fn leave<R: Wait>(&self, rt: &R, session: u32, nth: u64) {
        self.note(rt, Note::Leave(session, nth));
    }

    fn hears<R: Wait>(&self, _rt: &R, _session: u32) -> bool {
        true
    }

    fn end<R: Wait>(&self, _rt: &R, _session: u32) {}
}

/// How a session ends whose writer takes nothing.
fn unheard<J: Which, G: Gate, R: Wait>(
    rt: &R,
    alloc: Global,
    lab: &Lab<J, Global>,
    pass: Pass<Global>,
    gate: &G,
) -> Option<EngineFault>
    requires { IsPassOf J.publisher J.tallies pass }
{
    let seat = Seat {
        pass,
        reader: LineReader::new(Std::new(b"view now\nnames\n".as_slice())),
        writer: Std::new(Narrow::new(12)),
    };
    let service = Service { rt, alloc, gate };
    service.serve_session(lab, seat).result.err()
}

/// Two sessions of a lab.
fn two_pass<J: Which, G: Gate, R: Wait>(
    rt: &R,
    alloc: Global,
    opened: Opened<Global>,
    gate: &G,
) -> Option<(Spoken, Option<EngineFault>)>
    requires tables { (opened.publisher ≡ J.publisher) × (opened.tallies ≡ J.tallies) }
    requires opening { (opened.opening ≡ J.opening) × (opened.setup ≡ J.setup) × (opened.limit ≡ J.limit) }
{
    let (lab, mut passes) = opened.named::<J>();
    let second = take::<J, _>(&mut passes)?;
    let first = take::<J, _>(&mut passes)?;
    let lines = b"names\nview\nfly\n\nnames\n# names\nnames\n".as_slice();
    let (spoken, _) = speak(rt, alloc, &lab, first, lines, gate);
    let fault = unheard(rt, alloc, &lab, second, gate);
    Some((spoken, fault))
}

/// Whether a session enters and leaves with each call and no other line, also where the journal is full; and one whose writer
/// fails does not leave.
#[test]
fn calls_go_through_the_gate(rt: HostRuntime) -> Result<(), Fail> {
    let gate = Noting {
        notes: Mutex::new(Vec::new(rt.alloc())),
    };
    let opened = opened(rt.alloc(), 2, 2)?;
    let (spoken, fault) = two_pass::<Brand, _, _>(&rt, rt.alloc(), opened, &gate).ok_or("no pass")?;
    let answers = b"names main\nview 1 1 0 0 0 0 0 0\nbad 3 Unknown\nnames main\nfull\n";
    assert!(rt; spoken.is(answers, 7, 1));
    assert!(rt; fault == Some(EngineFault::Write));
    let notes = gate.notes.into_inner();
    let wanted = [
        Note::Enter(1, 1),
        Note::Leave(1, 1),
        Note::Enter(1, 2),
        Note::Leave(1, 2),
        Note::Enter(1, 3),
        Note::Leave(1, 3),
        Note::Enter(2, 1),
    ];
    assert!(rt; notes.as_slice() == wanted.as_slice());
    Ok(())
}
