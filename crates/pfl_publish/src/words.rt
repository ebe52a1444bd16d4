//! The words that all seats share.
ghost use Rattle.std.specs.Prelude.{◌≡◌, ◌<◌};
ghost use Rattle.pfl_publish.specs.Revisions as revisions;

use crate::rule::PublisherRule;
use crate::view::View;
use atomic_table::{Seat, Shared, Table};

/// How many words a revision has.
pub const REVISION_WORDS: usize = 8;

/// How many revisions have room.
const BANKS: u64 = 4;

/// How many words there are: the number, and those of the banks.
pub(crate) const WORDS: usize = 1 + BANKS as usize * REVISION_WORDS;

/// The word that is the number of the last revision.
pub(crate) const NUMBER: usize = 0;

/// The words with their memory.
pub(crate) type Words<H, A> = Table<(), View<H>, (), PublisherRule, A>;

/// The words, for a step through a `&`.
pub(crate) type SharedWords<H> = Shared<(), View<H>, (), PublisherRule>;

/// The right of one thread to step on the words, with what it knows.
pub(crate) type WordsSeat<H> = Seat<(), View<H>>;

/// Which of the words has word `i` of a revision.
pub(crate) fn word_index(number: u64, i: usize) -> usize
    requires { i < 8 }
    ensures is { result ≡ revisions.word_index number i }
    ensures within { result < 33 }
{
    REVISION_WORDS * (number % BANKS) as usize + i + 1
}
