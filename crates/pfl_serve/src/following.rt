//! Sessions that follow the journal.

ghost use Rattle.std.specs.Prelude.{◌≡◌, ◌+◌, ◌<◌, ◌≤◌, length, true, IfOk, IfErr, OnOk};
ghost use Rattle.pfl_script.specs.Readers.{IsWriteFault};
ghost use Rattle.pfl_session.specs.Passes.{GoesOn, IsPassOf, seen_in};
ghost use Rattle.pfl_serve.specs.Seats.{site_of};
ghost use Rattle.pfl_serve.specs.Sessions.{IsFollowed, IsFollowing, IsSent};
ghost use Rattle.pfl_serve.specs.inner.Answers.{Breaks, HasCome, IsFollowingOn, IsSentOn, Writes};

use crate::gate::Gate;
use crate::seat::Seat;
use crate::serving::Serving;
use crate::texts::{first_sent, followed_line, following_line, sent_text};
use pfl_base::{Input, Output};
use pfl_script::{EngineFault, write_text};
use pfl_session::{Next, Pass, Which};
use std::alloc::Allocator;
use std::sync::Wait;

impl<J: Which, A: Allocator + Copy, B: Allocator + Copy, G: Gate, R: Wait> Serving<
    '_,
    J,
    A,
    B,
    G,
    R,
> {
    /// Writes the line of the entry after the first `sent`, of which the pass has seen that there is one, and returns its number.
    fn send_entry<W: Output>(
        &self,
        pass: &mut Pass<A>,
        writer: &mut W,
        sent: u64,
    ) -> Result<u64, EngineFault>
        requires lab { IsPassOf J.publisher J.tallies pass.old }
        requires there { sent < length (seen_in pass.old) }
        ensures lab { IsPassOf J.publisher J.tallies pass.new }
        ensures goes_on { GoesOn pass.old pass.new }
        ensures number { IfOk result (λ n. n ≡ sent + 1) }
        ensures whole { IfOk result (λ n. Writes (IsSent (site_of J.Which) (length (seen_in pass.old)) sent n pass.old pass.new)
            (W.written writer.old) (W.written writer.new)) }
        ensures breaks { IfErr result (λ e. Breaks (IsSentOn (site_of J.Which) sent pass.old pass.new)
            (IsSentOn (site_of J.Which) sent pass.old pass.new) e (W.written writer.old) (W.written writer.new)) }
        ensures stays { OnOk result (W.has_failed writer.new ≡ W.has_failed writer.old) }
        ensures fault { IfErr result (λ e. IsWriteFault e (W.has_failed writer.new)) }
    {
        let Next { made, entries } = self.lab.entry_after(self.service.rt, pass, sent);
        let Some(made) = made else {
            unreachable!();
        };
        let Ok(text) = sent_text(self.service.alloc, &made, entries) else {
            return Err(EngineFault::NoMemory);
        };
        write_text(writer, text.as_slice())?;
        Ok(made.number)
    }

    /// Writes the lines of all entries after the first `sent` that there are when it begins, and returns the number of the last.
    fn send_standing<W: Output>(
        &self,
        pass: &mut Pass<A>,
        writer: &mut W,
        sent: u64,
    ) -> Result<u64, EngineFault>
        requires lab { IsPassOf J.publisher J.tallies pass.old }
        ensures lab { IsPassOf J.publisher J.tallies pass.new }
        ensures goes_on { GoesOn pass.old pass.new }
        ensures all { IfOk result (λ n. length (seen_in pass.old) ≤ n) }
        ensures whole { IfOk result (λ n. Writes (IsSent (site_of J.Which) (length (seen_in pass.old)) sent n pass.old pass.new)
            (W.written writer.old) (W.written writer.new)) }
        ensures breaks { IfErr result (λ e. Breaks (IsSentOn (site_of J.Which) sent pass.old pass.new)
            (IsSentOn (site_of J.Which) sent pass.old pass.new) e (W.written writer.old) (W.written writer.new)) }
        ensures stays { OnOk result (W.has_failed writer.new ≡ W.has_failed writer.old) }
        ensures fault { IfErr result (λ e. IsWriteFault e (W.has_failed writer.new)) }
    {
        let entries = self.lab.meet(self.service.rt, pass);
        let mut sent = sent;
        while sent < entries {
            sent = self.send_entry(pass, writer, sent)?;
        }
        Ok(sent)
    }

    /// Whether the session's next line has come, or its end. It may wait for that a short while.
    fn hears<I: Input, O: Output>(&self, seat: &Seat<A, I, O>) -> bool
        ensures heard { result ≡ true → HasCome G.heard seat.now.reader.waiting seat.now.pass.session }
        ensures waits { 0 < seat.now.reader.waiting → result ≡ true }
    {
        seat.reader.waits()
            || self
                .service
                .gate
                .hears(self.service.rt, seat.pass.session())
    }

    /// Writes the lines of the entries after the first `sent`, and of those that are made until the session's next line comes, and
    /// returns the number of the last.
    fn follow<I: Input, O: Output>(
        &self,
        seat: &mut Seat<A, I, O>,
        sent: u64,
    ) -> Result<u64, EngineFault>
        requires lab { IsPassOf J.publisher J.tallies seat.old.pass }
        ensures lab { IsPassOf J.publisher J.tallies seat.new.pass }
        ensures goes_on { GoesOn seat.old.pass seat.new.pass }
        ensures reader { seat.new.reader ≡ seat.old.reader }
        ensures heard { OnOk result (HasCome G.heard seat.new.reader.waiting seat.new.pass.session) }
        ensures all { IfOk result (λ n. length (seen_in seat.old.pass) ≤ n) }
        ensures whole { IfOk result (λ n. Writes (IsSent (site_of J.Which) (length (seen_in seat.old.pass)) sent n seat.old.pass seat.new.pass)
            (O.written seat.old.writer) (O.written seat.new.writer)) }
        ensures breaks { IfErr result (λ e. Breaks (IsSentOn (site_of J.Which) sent seat.old.pass seat.new.pass)
            (IsSentOn (site_of J.Which) sent seat.old.pass seat.new.pass) e (O.written seat.old.writer) (O.written seat.new.writer)) }
        ensures stays { OnOk result (O.has_failed seat.new.writer ≡ O.has_failed seat.old.writer) }
        ensures fault { IfErr result (λ e. IsWriteFault e (O.has_failed seat.new.writer)) }
    {
        let mut sent = self.send_standing(&mut seat.pass, &mut seat.writer, sent)?;
        for _ in self.service.rt.forever() {
            if self.hears(seat) {
                return Ok(sent);
            }
            sent = self.send_standing(&mut seat.pass, &mut seat.writer, sent)?;
        }
        unreachable!()
    }

    /// Replies to `follow`: shows the session the journal's entries after the first `from`, or after all that there are, one by one as
    /// they are made, until its next line comes.
    pub(crate) fn answer_follow<I: Input, O: Output>(
        &self,
        seat: &mut Seat<A, I, O>,
        from: Option<u32>,
    ) -> Result<(), EngineFault>
        requires lab { IsPassOf J.publisher J.tallies seat.old.pass }
        ensures lab { IsPassOf J.publisher J.tallies seat.new.pass }
        ensures goes_on { GoesOn seat.old.pass seat.new.pass }
        ensures reader { seat.new.reader ≡ seat.old.reader }
        ensures heard { OnOk result (HasCome G.heard seat.new.reader.waiting seat.new.pass.session) }
        ensures whole { IfOk result (λ _. Writes (IsFollowed (site_of J.Which) from seat.old.pass seat.new.pass)
            (O.written seat.old.writer) (O.written seat.new.writer)) }
        ensures breaks { IfErr result (λ e. Breaks (IsFollowingOn (site_of J.Which) from seat.old.pass seat.new.pass)
            (IsFollowing (site_of J.Which) from seat.old.pass seat.new.pass) e (O.written seat.old.writer) (O.written seat.new.writer)) }
        ensures stays { OnOk result (O.has_failed seat.new.writer ≡ O.has_failed seat.old.writer) }
        ensures fault { IfErr result (λ e. IsWriteFault e (O.has_failed seat.new.writer)) }
    {
        let entries = self.lab.meet(self.service.rt, &mut seat.pass);
        let first = first_sent(from, entries);
        write_text(&mut seat.writer, following_line(first).as_str().as_bytes())?;
        let sent = self.follow(seat, first)?;
        write_text(&mut seat.writer, followed_line(sent).as_str().as_bytes())
    }
}
