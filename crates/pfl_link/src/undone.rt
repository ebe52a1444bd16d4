//! Operations of a link that are taken back for a while, and redone.
ghost use Rattle.std.specs.Prelude.{◌≡◌};
ghost use Rattle.pfl_link.specs.LinkEdits as edits;
ghost use Rattle.pfl_link.specs.LinkEdits.{Finds, FindsFormer, put_back, redone};
ghost use Rattle.pfl_link.specs.Links.{IsLink};
ghost use Rattle.pfl_link.specs.Undone.{undone};

use crate::change::LinkChange;
use crate::edit::LinkEdit;
use crate::in_flight::InFlight;
use crate::link::Link;
use std::alloc::Allocator;
use std::marker::Model;

/// What is kept of an operation of a link that is taken back for a while.
///
/// It owns what stood under the ticket after the operation. What stood there before is on the link again.
#[derive(Drop)]
pub struct LinkUndone<A: Allocator> {
    ticket: u32,
    change: UndoneChange<A>,
}

/// What was done under a ticket, with the frames that the link does not hold meanwhile.
#[derive(Drop)]
pub(crate) enum UndoneChange<A: Allocator> {
    /// A frame came: that one, and the edit's copy of it.
    Sent(InFlight<A>, InFlight<A>),
    /// The frame left.
    Taken,
    /// The frame was cut: what it became, and how many of its first bytes it was to keep.
    Cut(InFlight<A>, usize),
}

impl<A: Allocator> Model for LinkUndone<A> {
    ghost use Rattle.pfl_link.specs.Undone.{LinkUndone, HasSameCopy, coded_link_undone, kept_change, kept_frame};

    ghost Value = { LinkUndone };

    ghost coded = { coded_link_undone };

    ghost view = { λ u. record { ticket = u.ticket; frame = kept_frame u.change; change = kept_change u.change } };

    ghost invariant = { λ u. HasSameCopy u.change };
}

impl<A: Allocator> Link<A> {
    /// Takes an operation back as `undo` does, and keeps what redoes it. It takes no memory.
    pub fn take_back(&mut self, edit: LinkEdit<A>) -> LinkUndone<A>
        requires found { Finds edit self.old }
        requires allowed { IsLink (put_back edit self.old) }
        ensures value { self.new ≡ put_back edit self.old }
        ensures kept { result ≡ undone edit }
    {
        let next = edit.next_before(self.next());
        let (ticket, frame, change) = edit.into_parts();
        match change {
            LinkChange::Sent => match self.set(ticket, None, next) {
                Some(sent) => LinkUndone {
                    ticket,
                    change: UndoneChange::Sent(sent, frame),
                },
                None => unreachable!(),
            },
            LinkChange::Taken => {
                self.set(ticket, Some(frame), next);
                LinkUndone {
                    ticket,
                    change: UndoneChange::Taken,
                }
            }
            LinkChange::Cut(count) => match self.set(ticket, Some(frame), next) {
                Some(short) => LinkUndone {
                    ticket,
                    change: UndoneChange::Cut(short, count),
                },
                None => unreachable!(),
            },
        }
    }

    /// Redoes an operation that was taken back, and returns its edit again. It takes no memory.
    pub fn redo(&mut self, kept: LinkUndone<A>) -> LinkEdit<A>
        requires edit { (e : edits.LinkEdit) × (undone e ≡ kept) × FindsFormer e self.old × IsLink (redone e self.old) }
        ensures redone { (e : edits.LinkEdit) → undone e ≡ kept → FindsFormer e self.old → (self.new ≡ redone e self.old) × (result ≡ e) }
    {
        let next = self.next();
        let LinkUndone { ticket, change } = kept;
        match change {
            UndoneChange::Sent(sent, copy) => {
                self.set(ticket, Some(sent), ticket + 1);
                LinkEdit::new(ticket, copy, LinkChange::Sent)
            }
            UndoneChange::Taken => match self.set(ticket, None, next) {
                Some(frame) => LinkEdit::new(ticket, frame, LinkChange::Taken),
                None => unreachable!(),
            },
            UndoneChange::Cut(short, count) => match self.set(ticket, Some(short), next) {
                Some(whole) => LinkEdit::new(ticket, whole, LinkChange::Cut(count)),
                None => unreachable!(),
            },
        }
    }
}
