//! Labs that are served to those who come through doors.

ghost use Rattle.std.specs.Prelude.{◌≡◌, ◌≤◌, ◌++◌, ◌⊎◌, ℕ, true, false, [], Some, length, take, codes, IfOk, IfErr, OnOk, OnErr};
ghost use Rattle.std.specs.Fmt.{decimal};
ghost use Rattle.std.specs.Io.KnownBytes.{Appends};
ghost use Rattle.pfl_base.specs.Counts.{Counts, CountsWithin};
ghost use Rattle.pfl_doors.specs.Visits.{entrance};
ghost use Rattle.pfl_serve.specs.session.Totals.{HasFewEvents};
ghost use Rattle.pfl_run.specs.Runs.{HasFailed, IsDeviceFault};
ghost use Rattle.pfl_run.specs.declared.fault.RunFault.TheVariants as fault;
ghost use Rattle.pfl_host.specs.Reports.{browser_lines, HostServes, HostStops, NotesBrowsers, NotesIfOpen, PrintsOn};
ghost use Rattle.pfl_host.specs.Servers.{closed_text, listening_text, AreUnfailed, IsAwaitStop, IsCloseStop, IsLabStop, IsServeStop};
ghost use Rattle.pfl_host.specs.Servers.{HostServesWhole, PrintsClosed, ServesFromDevice, ServesToEnd};

use crate::admission::{admit_all, door_fault};
use crate::closing::ServedSessions;
use crate::pairs::{Pair, read_pair};
use crate::reports::{conclude, report_stop};
use pfl_base::{Input, Output};
use pfl_doors::{Doors, Sides};
use pfl_run::{LineReader, RunFault, ShortLine, plain_line, push_number, write_text};
use pfl_serve::{Gate, MOST_ENTRIES, Opened};
use std::alloc::Global;
use std::marker::Brand;
use std::sync::Wait;
use std::thread::Threads;

/// A text with a number after it, as a line.
fn number_line(text: &str, number: u64) -> ShortLine
    requires short { length text.now ≤ 59 }
    ensures { result.bytes ≡ text.now ++ decimal number ++ codes "\n" }
{
    let mut line = plain_line(text);
    push_number(&mut line, number);
    line.push_str("\n");
    line
}

/// Writes a text with a number after it as a line.
fn write_number<W: Output>(writer: &mut W, text: &str, number: u64) -> Result<(), RunFault>
    requires short { length text.now ≤ 59 }
    ensures whole { OnOk result (Appends (W.written writer.old) (W.written writer.new) (text.now ++ decimal number ++ codes "\n")) }
    ensures part { OnErr result ((n : ℕ) × Appends (W.written writer.old) (W.written writer.new) (take n (text.now ++ decimal number ++ codes "\n"))) }
    ensures fails { OnErr result (W.has_failed writer.new ≡ true) }
    ensures fault { IfErr result (λ e. e ≡ fault.Write) }
{
    let line = number_line(text, number);
    match write_text(writer, line.as_str().as_bytes()) {
        Ok(()) => Ok(()),
        Err(_) => Err(RunFault::Write),
    }
}

/// What labs are served with: the runtime, the allocator, the gate that the calls of sessions go through, the port,
/// and how many sessions a lab has.
#[derive(Drop)]
pub struct Server<'a, G: Gate, R> {
    pub rt: &'a R,
    pub alloc: Global,
    pub gate: &'a G,
    pub port: u16,
    pub sessions: u32,
}

/// Reports that the port is listened on.
fn print_listening<O: Output>(writer: &mut O, port: u16) -> Result<(), RunFault>
    ensures whole { OnOk result (Appends (O.written writer.old) (O.written writer.new) (listening_text port)) }
    ensures part { OnErr result ((part : ℕ) × Appends (O.written writer.old) (O.written writer.new) (take part (listening_text port))) }
    ensures fails { OnErr result (O.has_failed writer.new ≡ true) }
    ensures fault { IfErr result (λ f. f ≡ fault.Write) }
{
    write_number(writer, "listening 127.0.0.1:", port as u64)
}

/// Reports that all sessions have ended, and how many entries the journal has.
fn print_closed<O: Output>(writer: &mut O, entries: usize) -> Result<(), RunFault>
    ensures whole { OnOk result (Appends (O.written writer.old) (O.written writer.new) (closed_text entries)) }
    ensures part { OnErr result ((part : ℕ) × Appends (O.written writer.old) (O.written writer.new) (take part (closed_text entries))) }
    ensures fails { OnErr result (O.has_failed writer.new ≡ true) }
    ensures fault { IfErr result (λ f. f ≡ fault.Write) }
{
    write_number(writer, "closed ", entries as u64)
}

impl<G: Gate + Sync, R: Threads + Wait + Sync> Server<'_, G, R> {
    /// Opens a lab over the pair, with a session for each.
    fn open_lab(&self, pair: Pair) -> Result<Opened<Global>, RunFault>
        requires few { HasFewEvents 4294967295 pair.timeline }
        requires sessions { (1 ≤ self.now.sessions) × (self.now.sessions ≤ 8) }
        ensures opened { IfOk result (λ o. (o.opening ≡ pair.timeline) × (o.setup ≡ pair.setup.items) × (o.limit ≡ 1000000)
            × (length o.tallies ≡ self.now.sessions)) }
        ensures fault { IfErr result (λ f. f ≡ fault.NoMemory) }
    {
        let Pair { timeline, setup } = pair;
        match Opened::new(self.alloc, timeline, self.sessions, MOST_ENTRIES) {
            Ok(opened) => Ok(opened.with_setup(setup)),
            Err(_) => Err(RunFault::NoMemory),
        }
    }

    /// Lets a connection in for each session. Then nobody listens any more.
    fn let_in<D: Doors, F: Output>(
        &self,
        doors: &mut D,
        faults: &mut F,
    ) -> Result<Vec<Sides<D::Reader, D::Writer>>, RunFault>
        requires none { D.given doors.old ≡ [] }
        ensures given { IfOk result (λ given. D.given doors.new ≡ given.items) }
        ensures unfailed { IfOk result (λ given. AreUnfailed D.Reader.has_failed D.Writer.has_failed given.items) }
        ensures all { IfOk result (λ given. length given.items ≡ self.now.sessions) }
        ensures port { D.listens doors.new ≡ D.listens doors.old }
        ensures noted { NotesBrowsers (D.turned doors.old) (D.turned doors.new)
            (F.written faults.old) (F.written faults.new) (F.has_failed faults.old) (F.has_failed faults.new) }
        ensures fault { IfErr result (λ f. (f ≡ fault.Network) ⊎ (f ≡ fault.NoMemory)) }
    {
        let given = admit_all(self.rt, self.alloc, doors, self.sessions, faults);
        doors.close();
        given
    }

    /// Writes that the port is listened on, and lets a connection in for each session. Then nobody listens any more.
    fn await_sessions<D: Doors, O: Output, F: Output>(
        &self,
        doors: &mut D,
        writer: &mut O,
        faults: &mut F,
    ) -> Result<Vec<Sides<D::Reader, D::Writer>>, RunFault>
        requires none { D.given doors.old ≡ [] }
        ensures given { IfOk result (λ given. D.given doors.new ≡ given.items) }
        ensures unfailed { IfOk result (λ given. AreUnfailed D.Reader.has_failed D.Writer.has_failed given.items) }
        ensures all { IfOk result (λ given. length given.items ≡ self.now.sessions) }
        ensures port { D.listens doors.new ≡ D.listens doors.old }
        ensures written { OnOk result (Appends (O.written writer.old) (O.written writer.new) (listening_text self.now.port)) }
        ensures noted { NotesBrowsers (D.turned doors.old) (D.turned doors.new)
            (F.written faults.old) (F.written faults.new) (F.has_failed faults.old) (F.has_failed faults.new) }
        ensures stop { IfErr result (λ f. IsAwaitStop self.now.port f (O.written writer.old) (O.written writer.new)) }
        ensures device { IfErr result (λ f. f ≡ fault.Write → O.has_failed writer.new ≡ true) }
    {
        match print_listening(writer, self.port) {
            Ok(()) => self.let_in(doors, faults),
            Err(fault) => Err(fault),
        }
    }

    /// Serves the sessions of a lab over the connections that the doors gave, and writes how many entries its journal has at the end.
    fn serve_connections<D: Doors + Sync, O: Output>(
        &self,
        opened: Opened<Global>,
        doors: &mut D,
        given: Vec<Sides<D::Reader, D::Writer>>,
        writer: &mut O,
    ) -> Result<ServedSessions, RunFault>
        requires given { D.given doors.old ≡ given.items }
        requires unfailed { AreUnfailed D.Reader.has_failed D.Writer.has_failed given.items }
        requires all { (length given.items ≡ self.now.sessions) × (length opened.tallies ≡ self.now.sessions) × (self.now.sessions ≤ 8) }
        requires port { D.listens doors.old ≡ Some self.now.port }
        requires limit { opened.limit ≡ 1000000 }
        ensures closes { IfOk result (λ o. PrintsClosed D.Reader.Input D.Writer.Output D.heard (entrance D.listens D.given D.turned D.returned doors.new) self.now.port self.now.sessions
            (record { opening = opened.opening; setup = opened.setup }) o.fault (O.written writer.old) (O.written writer.new)) }
        ensures browsers { IfOk result (λ o. o.browsers ≤ self.now.sessions) }
        ensures stop { IfErr result (λ f. IsCloseStop D.Reader.Input D.Writer.Output D.heard (entrance D.listens D.given D.turned D.returned doors.new) self.now.port self.now.sessions f
            (record { opening = opened.opening; setup = opened.setup }) (O.written writer.old) (O.written writer.new)) }
        ensures device { IfErr result (λ f. f ≡ fault.Write → O.has_failed writer.new ≡ true) }
        ensures turned { D.turned doors.new ≡ D.turned doors.old }
    {
        match self.serve_given::<Brand, D>(opened, doors, given) {
            Ok(outcome) => match print_closed(writer, outcome.entries) {
                Ok(()) => Ok(outcome),
                Err(fault) => Err(fault),
            },
            Err(fault) => Err(fault),
        }
    }

    /// Serves a lab through doors that were opened.
    fn serve_listening<D: Doors + Sync, O: Output, F: Output>(
        &self,
        opened: Opened<Global>,
        doors: &mut D,
        writer: &mut O,
        faults: &mut F,
    ) -> Result<ServedSessions, RunFault>
        requires open { (D.listens doors.old ≡ Some self.now.port) × (D.given doors.old ≡ []) × (D.turned doors.old ≡ 0) }
        requires sessions { (length opened.tallies ≡ self.now.sessions) × (self.now.sessions ≤ 8) }
        requires limit { opened.limit ≡ 1000000 }
        ensures serves { IfOk result (λ o. HostServesWhole D.Reader.Input D.Writer.Output D.heard (entrance D.listens D.given D.turned D.returned doors.new) self.now.port self.now.sessions
            (record { opening = opened.opening; setup = opened.setup }) o.fault (O.written writer.old) (O.written writer.new)) }
        ensures browsers { IfOk result (λ o. o.browsers ≤ self.now.sessions) }
        ensures noted { PrintsOn (browser_lines (D.turned doors.new))
            (F.written faults.old) (F.written faults.new) (F.has_failed faults.old) (F.has_failed faults.new) }
        ensures stop { IfErr result (λ f. IsLabStop D.Reader.Input D.Writer.Output D.heard (entrance D.listens D.given D.turned D.returned doors.new) self.now.port self.now.sessions f
            (record { opening = opened.opening; setup = opened.setup }) (O.written writer.old) (O.written writer.new)) }
        ensures device { IfErr result (λ f. f ≡ fault.Write → O.has_failed writer.new ≡ true) }
    {
        match self.await_sessions(doors, writer, faults) {
            Ok(given) => self.serve_connections(opened, doors, given, writer),
            Err(fault) => Err(fault),
        }
    }

    /// Serves a lab through the doors, which it opens.
    #[tactic(auto, using(crate::proofs::Printing::notes_closed, crate::proofs::Printing::notes_open))]
    fn serve_opened<D: Doors + Sync, O: Output, F: Output>(
        &self,
        opened: Opened<Global>,
        doors: &mut D,
        writer: &mut O,
        faults: &mut F,
    ) -> Result<ServedSessions, RunFault>
        requires sessions { (length opened.tallies ≡ self.now.sessions) × (self.now.sessions ≤ 8) }
        requires limit { opened.limit ≡ 1000000 }
        ensures serves { IfOk result (λ o. HostServesWhole D.Reader.Input D.Writer.Output D.heard (entrance D.listens D.given D.turned D.returned doors.new) self.now.port self.now.sessions
            (record { opening = opened.opening; setup = opened.setup }) o.fault (O.written writer.old) (O.written writer.new)) }
        ensures browsers { IfOk result (λ o. o.browsers ≤ self.now.sessions) }
        ensures noted { OnOk result (PrintsOn (browser_lines (D.turned doors.new))
            (F.written faults.old) (F.written faults.new) (F.has_failed faults.old) (F.has_failed faults.new)) }
        ensures noted_some { OnErr result (NotesIfOpen (D.turned doors.new)
            (F.written faults.old) (F.written faults.new) (F.has_failed faults.old) (F.has_failed faults.new)) }
        ensures stop { IfErr result (λ f. IsLabStop D.Reader.Input D.Writer.Output D.heard (entrance D.listens D.given D.turned D.returned doors.new) self.now.port self.now.sessions f
            (record { opening = opened.opening; setup = opened.setup }) (O.written writer.old) (O.written writer.new)) }
        ensures device { IfErr result (λ f. f ≡ fault.Write → O.has_failed writer.new ≡ true) }
    {
        match doors.listen(self.port) {
            Ok(()) => self.serve_listening(opened, doors, writer, faults),
            Err(why) => Err(door_fault(why)),
        }
    }

    /// Opens a lab over the pair, serves its sessions through the doors, and writes how many entries its journal has at the end.
    #[tactic(auto, using(crate::proofs::Printing::notes_closed, crate::proofs::Printing::notes_open))]
    fn serve_pair<D: Doors + Sync, O: Output, F: Output>(
        &self,
        pair: Pair,
        doors: &mut D,
        writer: &mut O,
        faults: &mut F,
    ) -> Result<ServedSessions, RunFault>
        requires few { HasFewEvents 4294967295 pair.timeline }
        requires sessions { (1 ≤ self.now.sessions) × (self.now.sessions ≤ 8) }
        ensures serves { IfOk result (λ o. HostServesWhole D.Reader.Input D.Writer.Output D.heard (entrance D.listens D.given D.turned D.returned doors.new) self.now.port self.now.sessions
            (record { opening = pair.timeline; setup = pair.setup.items }) o.fault (O.written writer.old) (O.written writer.new)) }
        ensures browsers { IfOk result (λ o. o.browsers ≤ self.now.sessions) }
        ensures noted { OnOk result (PrintsOn (browser_lines (D.turned doors.new))
            (F.written faults.old) (F.written faults.new) (F.has_failed faults.old) (F.has_failed faults.new)) }
        ensures noted_some { OnErr result (NotesIfOpen (D.turned doors.new)
            (F.written faults.old) (F.written faults.new) (F.has_failed faults.old) (F.has_failed faults.new)) }
        ensures stop { IfErr result (λ f. IsLabStop D.Reader.Input D.Writer.Output D.heard (entrance D.listens D.given D.turned D.returned doors.new) self.now.port self.now.sessions f
            (record { opening = pair.timeline; setup = pair.setup.items }) (O.written writer.old) (O.written writer.new)) }
        ensures device { IfErr result (λ f. f ≡ fault.Write → O.has_failed writer.new ≡ true) }
    {
        match self.open_lab(pair) {
            Ok(opened) => self.serve_opened(opened, doors, writer, faults),
            Err(fault) => Err(fault),
        }
    }

    /// Sets a pair up by the first lines that the reader has, up to `open`, and serves its lab.
    #[tactic(auto, using(crate::proofs::Printing::notes_closed, crate::proofs::Printing::notes_open))]
    fn serve_whole<D: Doors + Sync, I: Input, O: Output, F: Output>(
        &self,
        doors: &mut D,
        reader: &mut LineReader<I>,
        writer: &mut O,
        faults: &mut F,
    ) -> Result<ServedSessions, RunFault>
        requires fresh { reader.old.lines ≡ 0 }
        requires sessions { (1 ≤ self.now.sessions) × (self.now.sessions ≤ 8) }
        ensures serves { IfOk result (λ o. ServesToEnd D.Reader.Input D.Writer.Output D.heard (entrance D.listens D.given D.turned D.returned doors.new) self.now.port self.now.sessions
            reader.old.left reader.new.left (O.written writer.old) (O.written writer.new) o.fault) }
        ensures browsers { IfOk result (λ o. o.browsers ≤ self.now.sessions) }
        ensures noted { OnOk result (PrintsOn (browser_lines (D.turned doors.new))
            (F.written faults.old) (F.written faults.new) (F.has_failed faults.old) (F.has_failed faults.new)) }
        ensures noted_some { OnErr result (NotesIfOpen (D.turned doors.new)
            (F.written faults.old) (F.written faults.new) (F.has_failed faults.old) (F.has_failed faults.new)) }
        ensures stop { IfErr result (λ f. IsServeStop D.Reader.Input D.Writer.Output D.heard (entrance D.listens D.given D.turned D.returned doors.new) self.now.port self.now.sessions f
            reader.old.left (O.written writer.old) (O.written writer.new)) }
        ensures device { IfErr result (λ f. IsDeviceFault f reader.new.failed (reader.new.turns ≡ 16777216) (O.has_failed writer.new)) }
        ensures reads { Counts reader.old.reads reader.new.reads reader.new.turns }
        ensures few { reader.new.turns ≤ 16777216 }
    {
        match read_pair(self.alloc, reader) {
            Ok(pair) => self.serve_pair(pair, doors, writer, faults),
            Err(fault) => Err(fault),
        }
    }

    /// Sets a pair up by the first lines of the device, up to `open`, and serves a lab over it: its sessions, from 1 to 8, each over
    /// a connection that comes through the doors, at the same time. Sessions count in the order in which their connections are given.
    /// It writes that the port is listened on, and at the end how many entries there are. A fault of a session ends no other. Each
    /// browser that is turned away is reported to `faults` by a line; then why serving stops, or else the fault of the first session
    /// that had one. The result is the program's exit status: 0, or 1 after a fault, or 3 for want of memory.
    #[tactic(auto, using(pfl_run::proofs::ForCallers::setup_calls, pfl_run::proofs::ForCallers::setup_has_failed))]
    pub fn serve_lab<D: Doors + Sync, I: Input, O: Output, F: Output>(
        &self,
        doors: &mut D,
        reader: &mut I,
        writer: &mut O,
        faults: &mut F,
    ) -> u8
        requires sessions { (1 ≤ self.now.sessions) × (self.now.sessions ≤ 8) }
        ensures reads { CountsWithin 0 16777216 (I.reads reader.old) (I.reads reader.new) }
        ensures serves { HostServes (D.turned doors.new) self.now.sessions
            (ServesFromDevice D.Reader.Input D.Writer.Output D.heard (entrance D.listens D.given D.turned D.returned doors.new) self.now.port self.now.sessions
            (I.left reader.old) (I.left reader.new) (O.written writer.old) (O.written writer.new))
            (F.written faults.old) (F.written faults.new) (F.has_failed faults.new) result
            ⊎ HostStops (D.turned doors.new)
            (λ f. IsServeStop D.Reader.Input D.Writer.Output D.heard (entrance D.listens D.given D.turned D.returned doors.new) self.now.port self.now.sessions f (I.left reader.old) (O.written writer.old) (O.written writer.new))
            (λ f. HasFailed f (I.has_failed reader.new) (I.reads reader.old) (I.reads reader.new) (O.has_failed writer.new))
            (F.written faults.old) (F.written faults.new) (F.has_failed faults.new) result }
    {
        let mut lines = LineReader::new(reader);
        let whole = self.serve_whole(doors, &mut lines, writer, faults);
        // What became of the device is known once it is given back.
        lines.into_inner();
        match whole {
            Ok(outcome) => conclude(outcome.browsers, outcome.fault, faults),
            Err(fault) => report_stop(fault, faults),
        }
    }
}
