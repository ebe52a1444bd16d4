//! One session, line by line.

ghost use Rattle.std.specs.Prelude.{◌≡◌, ◌+◌, ◌-◌, ◌^◌, ◌≤◌, min, true, length, if◌then◌else◌, IfOk, IfErr, OnOk};
ghost use Rattle.pfl_base.specs.Counts.{Counts};
ghost use Rattle.pfl_script.specs.Readers.{IsRunFault, IsWriteFault, counted_on};
ghost use Rattle.pfl_session.specs.Passes.{GoesOn, IsPassOf};
ghost use Rattle.pfl_serve.specs.Seats.{site_of};
ghost use Rattle.pfl_serve.specs.Sessions.{asks_follow, is_fault, IsAnswer, IsBegun, IsReplied, IsViewed, Lacks, ServesUntil, ServesWhole};
ghost use Rattle.pfl_serve.specs.inner.Answers.{kept_said, is_command, Breaks, HasCome, Nothing, Unanswered, Writes};

use crate::asked::write_asked;
use crate::gate::Gate;
use crate::seat::Seat;
use crate::service::Service;
use crate::texts::{overtaken_line, view_line};
use pfl_base::{Input, Output};
use pfl_language::Command;
use pfl_script::{
    Ended, EngineFault, Line, LineFault, SessionLine, ShortLine, fault_line, write_text,
};
use pfl_session::{Lab, Pass, Which};
use std::alloc::Allocator;
use std::sync::Wait;

/// How many tries a view makes.
const TRIES: u64 = 3;

/// What a line says to a session, or its fault; nothing, where it has no word or is a comment.
type Said = Option<Result<SessionLine, LineFault>>;

/// What serves one session: what it is served with, and its lab.
#[derive(Drop)]
pub(crate) struct Serving<'a, J: Which, A: Allocator, B: Allocator, G: Gate, R> {
    pub(crate) service: &'a Service<'a, B, G, R>,
    pub(crate) lab: &'a Lab<J, A>,
}

/// What the line says to a session.
#[tactic(auto, unfolding(crate::specs::inner::Answers::kept_said))]
fn said_by(line: &Line) -> Said
    ensures { result ≡ kept_said line.now }
{
    if line.has_word() {
        Some(line.parse_session())
    } else {
        None
    }
}

/// It is a fault.
fn is_fault(said: &Said) -> bool
    ensures { result ≡ is_fault said.now }
{
    matches!(said, Some(Err(_)))
}

/// The number of the next call, where a line has said this.
fn next_call(nth: u64, said: &Said) -> u64
    ensures { result ≡ (if is_command said.now then min (nth + 1) (2 ^ 64 - 1) else nth) }
{
    if matches!(said, Some(Ok(SessionLine::Ask(_)))) {
        nth.saturating_add(1)
    } else {
        nth
    }
}

impl<J: Which, A: Allocator + Copy, B: Allocator + Copy, G: Gate, R: Wait> Serving<
    '_,
    J,
    A,
    B,
    G,
    R,
> {
    /// Reads a revision, if it can: the line that shows it, or that no try went through.
    fn look(&self, pass: &mut Pass<A>) -> ShortLine
        requires lab { IsPassOf J.publisher J.tallies pass.old }
        ensures lab { IsPassOf J.publisher J.tallies pass.new }
        ensures goes_on { GoesOn pass.old pass.new }
        ensures viewed { IsViewed pass.old pass.new result.bytes }
    {
        match self.lab.view(pass, TRIES) {
            Ok(revision) => view_line(&revision),
            Err(overtaken) => overtaken_line(overtaken),
        }
    }

    /// Reads a revision, and writes its line.
    fn answer_view<W: Output>(&self, pass: &mut Pass<A>, writer: &mut W) -> Result<(), EngineFault>
        requires lab { IsPassOf J.publisher J.tallies pass.old }
        ensures lab { IsPassOf J.publisher J.tallies pass.new }
        ensures goes_on { GoesOn pass.old pass.new }
        ensures whole { IfOk result (λ _. Writes (IsViewed pass.old pass.new) (W.written writer.old) (W.written writer.new)) }
        ensures breaks { IfErr result (λ e. Breaks (IsViewed pass.old pass.new) Nothing e (W.written writer.old) (W.written writer.new)) }
        ensures stays { OnOk result (W.has_failed writer.new ≡ W.has_failed writer.old) }
        ensures fault { IfErr result (λ e. IsWriteFault e (W.has_failed writer.new)) }
    {
        let line = self.look(pass);
        write_text(writer, line.as_str().as_bytes())
    }

    /// Asks a command, and writes its reply, or that the journal is full.
    fn answer_command<W: Output>(
        &self,
        pass: &mut Pass<A>,
        writer: &mut W,
        command: Command,
    ) -> Result<(), EngineFault>
        requires lab { IsPassOf J.publisher J.tallies pass.old }
        ensures lab { IsPassOf J.publisher J.tallies pass.new }
        ensures goes_on { GoesOn pass.old pass.new }
        ensures whole { IfOk result (λ _. Writes (IsReplied (site_of J.Which) pass.old pass.new command) (W.written writer.old) (W.written writer.new)) }
        ensures breaks { IfErr result (λ e. Breaks (IsReplied (site_of J.Which) pass.old pass.new command)
            (Unanswered (site_of J.Which) command pass.old pass.new) e (W.written writer.old) (W.written writer.new)) }
        ensures stays { OnOk result (W.has_failed writer.new ≡ W.has_failed writer.old) }
        ensures fault { IfErr result (λ e. IsWriteFault e (W.has_failed writer.new)) }
    {
        let asked = self.lab.ask(self.service.rt, pass, command);
        write_asked(self.service.alloc, asked, writer)
    }

    /// Takes the session's nth command through the gate.
    fn pass_gate<I: Input, O: Output>(
        &self,
        seat: &mut Seat<A, I, O>,
        command: Command,
        nth: u64,
    ) -> Result<(), EngineFault>
        requires lab { IsPassOf J.publisher J.tallies seat.old.pass }
        ensures lab { IsPassOf J.publisher J.tallies seat.new.pass }
        ensures goes_on { GoesOn seat.old.pass seat.new.pass }
        ensures reader { seat.new.reader ≡ seat.old.reader }
        ensures whole { IfOk result (λ _. Writes (IsReplied (site_of J.Which) seat.old.pass seat.new.pass command)
            (O.written seat.old.writer) (O.written seat.new.writer)) }
        ensures breaks { IfErr result (λ e. Breaks (IsReplied (site_of J.Which) seat.old.pass seat.new.pass command)
            (Unanswered (site_of J.Which) command seat.old.pass seat.new.pass) e (O.written seat.old.writer) (O.written seat.new.writer)) }
        ensures stays { OnOk result (O.has_failed seat.new.writer ≡ O.has_failed seat.old.writer) }
        ensures fault { IfErr result (λ e. IsWriteFault e (O.has_failed seat.new.writer)) }
    {
        let Service { rt, gate, .. } = self.service;
        let session = seat.pass.session();
        gate.enter(*rt, session, nth);
        self.answer_command(&mut seat.pass, &mut seat.writer, command)?;
        gate.leave(*rt, session, nth);
        Ok(())
    }

    /// Replies to what a line says. A command is the session's nth call.
    fn answer<I: Input, O: Output>(
        &self,
        seat: &mut Seat<A, I, O>,
        said: &Said,
        nth: u64,
    ) -> Result<(), EngineFault>
        requires lab { IsPassOf J.publisher J.tallies seat.old.pass }
        ensures lab { IsPassOf J.publisher J.tallies seat.new.pass }
        ensures goes_on { GoesOn seat.old.pass seat.new.pass }
        ensures reader { seat.new.reader ≡ seat.old.reader }
        ensures heard { OnOk result (asks_follow said.now ≡ true → HasCome G.heard seat.new.reader.waiting seat.new.pass.session) }
        ensures whole { IfOk result (λ _. Writes (IsAnswer (site_of J.Which) said.now seat.old.pass seat.new.pass)
            (O.written seat.old.writer) (O.written seat.new.writer)) }
        ensures breaks { IfErr result (λ e. Breaks (IsBegun (site_of J.Which) said.now seat.old.pass seat.new.pass)
            (Lacks (site_of J.Which) said.now seat.old.pass seat.new.pass) e (O.written seat.old.writer) (O.written seat.new.writer)) }
        ensures stays { OnOk result (O.has_failed seat.new.writer ≡ O.has_failed seat.old.writer) }
        ensures fault { IfErr result (λ e. IsWriteFault e (O.has_failed seat.new.writer)) }
    {
        match said {
            None => Ok(()),
            Some(Err(fault)) => write_text(&mut seat.writer, fault_line(*fault).as_bytes()),
            Some(Ok(SessionLine::View)) => self.answer_view(&mut seat.pass, &mut seat.writer),
            Some(Ok(SessionLine::Setup)) => write_text(&mut seat.writer, self.lab.setup()),
            Some(Ok(SessionLine::Follow(from))) => self.answer_follow(seat, *from),
            Some(Ok(SessionLine::Ask(command))) => self.pass_gate(seat, *command, nth),
        }
    }

    /// Serves the session by the lines that the reader has left.
    pub(crate) fn serve<I: Input, O: Output>(
        &self,
        seat: &mut Seat<A, I, O>,
    ) -> Result<Ended, EngineFault>
        requires lab { IsPassOf J.publisher J.tallies seat.old.pass }
        ensures lab { IsPassOf J.publisher J.tallies seat.new.pass }
        ensures goes_on { GoesOn seat.old.pass seat.new.pass }
        ensures whole { IfOk result (λ e. ServesWhole (site_of J.Which) (G.heard seat.old.pass.session) seat.old.reader.left seat.new.reader.left
            seat.old.pass seat.new.pass (O.written seat.old.writer) (O.written seat.new.writer) e.lines e.bad) }
        ensures until { IfErr result (λ e. ServesUntil (site_of J.Which) e seat.old.reader.left seat.new.reader.left seat.old.pass seat.new.pass
            (O.written seat.old.writer) (O.written seat.new.writer)) }
        ensures lines { IfOk result (λ e. seat.new.reader.lines ≡ counted_on seat.old.reader.lines e.lines) }
        ensures reads { Counts seat.old.reader.reads seat.new.reader.reads seat.new.reader.turns }
        ensures few { seat.new.reader.turns ≤ 16777216 }
        ensures stays { OnOk result (seat.new.reader.failed ≡ seat.old.reader.failed) }
        ensures writer_stays { OnOk result (O.has_failed seat.new.writer ≡ O.has_failed seat.old.writer) }
        ensures fault { IfErr result (λ e. IsRunFault e seat.new.reader (O.has_failed seat.new.writer)) }
    {
        seat.reader.begin();
        let mut ended = Ended { lines: 0, bad: 0 };
        let mut nth: u64 = 1;
        while seat.reader.advance()? {
            let said = said_by(&seat.reader.line());
            self.answer(seat, &said, nth)?;
            ended = ended.more(is_fault(&said));
            nth = next_call(nth, &said);
        }
        Ok(ended)
    }
}
