//! The seats of the writer and of the viewers, and what the calls return.
use crate::words::{REVISION_WORDS, WordsSeat};
use std::error::Error;
use std::fmt;
use std::marker::Model;

/// A revision: eight words that are published together.
#[derive(Clone, Copy, Debug, PartialEq, Eq, Hash)]
pub struct Revision {
    /// The first is the revision's number.
    pub words: [u64; REVISION_WORDS],
}

/// The last try began at the number `at`, and at its end the number was `now`: three or more further on, so that the words
/// need not be whole.
#[derive(Clone, Copy, Debug, PartialEq, Eq, Hash)]
pub struct Overtaken {
    /// The number that the try loaded first.
    pub at: u64,
    /// The number that it loaded last.
    pub now: u64,
}

impl fmt::Display for Overtaken {
    ghost use Rattle.std.specs.Prelude.{Some};
    ghost use Rattle.pfl_publish.specs.Texts.{overtaken_text};

    ghost output = { λ overtaken. Some (overtaken_text overtaken.at overtaken.now) };

    fn fmt<W: fmt::Write>(&self, f: &mut fmt::Formatter<W>) -> fmt::Result {
        write!(
            f,
            "overtaken at revision {} by revision {}",
            self.at, self.now
        )
    }
}

impl Error for Overtaken {}

/// The number of a revision that was published or seen, for a viewer to learn.
#[derive(Clone, Copy, Debug, PartialEq, Eq, Hash)]
pub struct Told {
    /// The revision's number.
    pub number: u64,
}

/// The right to publish. Each publisher has one. Contracts see of which publisher it is, and the list of all revisions.
#[derive(Drop)]
pub struct WriterSeat<H> {
    pub(crate) seat: WordsSeat<H>,
    pub(crate) number: u64,
}

impl<H> Model for WriterSeat<H> {
    ghost use Rattle.pfl_publish.specs.Seats.{Writer};
    ghost use Rattle.pfl_publish.specs.SeatInvariants.{IsWriterSeat};

    ghost Value = { Writer H };

    ghost view = { λ w. record { table = w.seat.table_id; list = w.seat.me.0.list } };

    ghost invariant = { λ w. IsWriterSeat w.seat.me w.number };
}

/// What one viewer has seen. Its floor is the number that it loaded last. Contracts see of which publisher it is, the
/// revisions up to the floor, whether a try is open, the words that were loaded in it, and the numbers that were loaded.
#[derive(Drop)]
pub struct ViewerSeat<H> {
    pub(crate) seat: WordsSeat<H>,
    pub(crate) loaded: u64,
    pub(crate) words: [u64; REVISION_WORDS],
}

impl<H> Model for ViewerSeat<H> {
    ghost use Rattle.pfl_publish.specs.Seats.{Viewer};
    ghost use Rattle.pfl_publish.specs.SeatInvariants.{IsViewerSeat};

    ghost Value = { Viewer H };

    ghost view = { λ v.
        record { table = v.seat.table_id; seen = v.seat.me.0.seen; trying = v.seat.me.0.trying; held = v.seat.me.0.held; loads = v.seat.me.0.loads } };

    ghost invariant = { λ v. IsViewerSeat v.seat.me v.loaded v.words };
}

impl<H> WriterSeat<H> {
    ghost use Rattle.std.specs.Prelude.{◌≡◌, ◌+◌, length};

    /// The number of the last revision.
    pub fn number(&self) -> u64
        ensures { result + 1 ≡ length self.now.list }
    {
        self.number
    }
}

impl<H> ViewerSeat<H> {
    ghost use Rattle.std.specs.Prelude.{◌≡◌, ◌+◌, length};

    /// The number of the last revision that this viewer has seen.
    pub fn floor(&self) -> u64
        ensures { result + 1 ≡ length self.now.seen }
    {
        self.loaded
    }

    /// The floor, for another viewer to learn.
    pub fn told(&self) -> Told
        ensures { result.number + 1 ≡ length self.now.seen }
    {
        Told {
            number: self.floor(),
        }
    }
}
