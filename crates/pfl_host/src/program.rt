//! What the program does.

ghost use Rattle.std.specs.Prelude.{map};
ghost use Rattle.pfl_host.specs.Obeys.{seen, seen_reader, Obeys};
ghost use Rattle.pfl_doors.specs.Visits.{entrance};

use crate::report::report_words;
use crate::server::Server;
use pfl_base::{Input, Output};
use pfl_doors::Doors;
use pfl_run::{Mode, check_lab, mode_of, run_lab};
use pfl_serve::Gate;
use std::alloc::Global;
use std::convert::AsStr;
use std::sync::Wait;
use std::thread::Threads;

/// What the program runs with: the runtime, the allocator, and the gate that the calls of sessions go through.
#[derive(Drop)]
pub struct Program<'a, G: Gate, R> {
    pub rt: &'a R,
    pub alloc: Global,
    pub gate: &'a G,
}

impl<G: Gate + Sync, R: Threads + Wait + Sync> Program<'_, G, R> {
    /// Does what the words ask for, of which the first is the program's name, and returns the exit status: it runs or checks the lines
    /// of the reader, or serves sessions that come through the doors over the pair that they set up; or it reports why the words ask
    /// for none of these.
    pub fn obey<S: AsStr, D: Doors + Sync, I: Input, O: Output, F: Output>(
        &self,
        words: &[S],
        doors: &mut D,
        reader: &mut I,
        writer: &mut O,
        faults: &mut F,
    ) -> u8
        ensures { Obeys D.Reader.Input D.Writer.Output D.heard
            (record { old = doors.old; new = doors.new; after = entrance D.listens D.given D.turned D.returned doors.new })
            (map S.text words.now) (seen_reader I.left I.reads I.has_failed reader.old reader.new)
            (seen O.written O.has_failed writer.old writer.new)
            (seen F.written F.has_failed faults.old faults.new) result }
    {
        let Program { rt, alloc, gate } = self;
        match mode_of(*alloc, words) {
            Ok(Mode::Run) => run_lab(*alloc, reader, writer, faults),
            Ok(Mode::Check) => check_lab(*alloc, reader, writer, faults),
            Ok(Mode::Serve { port, sessions }) => {
                let server = Server {
                    rt: *rt,
                    alloc: *alloc,
                    gate: *gate,
                    port,
                    sessions,
                };
                server.serve_lab(doors, reader, writer, faults)
            }
            Err(fault) => report_words(*alloc, &fault, writer, faults),
        }
    }
}
