//! What takes an operation of a link back.
ghost use Rattle.std.specs.Prelude.{◌≡◌, IfOk, Option};
ghost use Rattle.pfl_link.specs.LinkEdits.{frame_before, next_before};

use crate::change::LinkChange;
use crate::in_flight::InFlight;
use pfl_edits::NoMemory;
use std::alloc::Allocator;
use std::marker::Model;

/// One operation of a link. Its place is a ticket; that of a frame that was sent is its ticket together with the next one.
///
/// It owns the frame as it was before a take or a cut, or as it was sent: both values of the place follow from it.
#[derive(Drop)]
pub struct LinkEdit<A: Allocator> {
    ticket: u32,
    frame: InFlight<A>,
    change: LinkChange,
}

impl<A: Allocator> Model for LinkEdit<A> {
    ghost use Rattle.pfl_link.specs.LinkEdits.{LinkEdit, coded_link_edit};

    ghost Value = { LinkEdit };

    ghost coded = { coded_link_edit };

    ghost view = { λ e. record { ticket = e.ticket; frame = e.frame; change = e.change } };
}

impl<A: Allocator> LinkEdit<A> {
    /// The edit of a change under this ticket.
    pub(crate) fn new(ticket: u32, frame: InFlight<A>, change: LinkChange) -> LinkEdit<A>
        ensures edit { result ≡ record { ticket = ticket; frame = frame; change = change } }
    {
        LinkEdit {
            ticket,
            frame,
            change,
        }
    }

    /// The ticket.
    pub fn ticket(&self) -> u32
        ensures ticket { result ≡ self.now.ticket }
    {
        self.ticket
    }

    /// The next ticket from before, where it is `next` now: only a frame that is sent takes one.
    pub(crate) fn next_before(&self, next: u32) -> u32
        ensures next { result ≡ next_before self.now.change self.now.ticket next }
    {
        match self.change {
            LinkChange::Sent => self.ticket,
            LinkChange::Taken | LinkChange::Cut(_) => next,
        }
    }

    /// The frame that was sent, taken or cut, whole.
    pub fn frame(&self) -> &InFlight<A>
        ensures frame { result.now ≡ self.now.frame }
    {
        &self.frame
    }

    /// The ticket, the frame and what was done with it.
    pub(crate) fn into_parts(self) -> (u32, InFlight<A>, LinkChange)
        ensures ticket { result.0 ≡ self.ticket }
        ensures frame { result.1 ≡ self.frame }
        ensures change { result.2 ≡ self.change }
    {
        let LinkEdit {
            ticket,
            frame,
            change,
        } = self;
        (ticket, frame, change)
    }

    /// What stood under the ticket before.
    pub(crate) fn into_former(self) -> Option<InFlight<A>>
        ensures former { result ≡ frame_before self.change self.frame }
    {
        let LinkEdit {
            ticket: _,
            frame,
            change,
        } = self;
        match change {
            LinkChange::Sent => None,
            LinkChange::Taken | LinkChange::Cut(_) => Some(frame),
        }
    }
}

impl<A: Allocator + Copy> LinkEdit<A> {
    /// The same edit, in memory of its own.
    pub fn copy(&self) -> Result<LinkEdit<A>, NoMemory>
        ensures same { IfOk result (λ copied. copied ≡ self.now) }
    {
        let frame = self.frame.copy()?;
        Ok(LinkEdit {
            ticket: self.ticket,
            frame,
            change: self.change,
        })
    }
}
