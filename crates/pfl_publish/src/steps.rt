//! The kinds of atomic step that are made on the words. Every call of the publisher is made of these.
ghost use Rattle.std.specs.Prelude.{◌≡◌, ◌+◌, ◌-◌, ◌<◌, ℕ, true, false, [], ◌∷◌, length};
ghost use Rattle.pfl_publish.specs.Revisions.{IsRevision, published};
ghost use Rattle.pfl_publish.specs.Views.{with_next, with_entry, with_held, without_writer, without_try, united};
ghost use Rattle.pfl_publish.specs.Steps.{Looks};

use crate::names::{Naming, Picked};
use crate::rule::{BeginTry, JoinSeats, LoadNumber, LoadWord, SplitSeat, StoreNumber, StoreWord};
use crate::seats::Revision;
use crate::words::{NUMBER, REVISION_WORDS, SharedWords, WordsSeat, word_index};

/// The writer stores the words of the next revision in its bank, over the revision four before it.
fn store_words<H>(words: &SharedWords<H>, seat: &mut WordsSeat<H>, number: u64, revision: Revision)
    requires table { (seat.old.table_id ≡ words.now.table_id) × (words.now.table_id.words ≡ 33) }
    requires part { (seat.old.me.0.writes ≡ true) × (seat.old.me.0.next ≡ []) × (length seat.old.me.0.list ≡ number) }
    requires revision { IsRevision number revision.words }
    ensures table { seat.new.table_id ≡ seat.old.table_id }
    ensures seat { seat.new.me ≡ (with_next seat.old.me.0 revision.words, seat.old.me.1) }
{
    for i in 0..REVISION_WORDS {
        words.store::<StoreWord>(seat, word_index(number, i), revision.words[i]);
    }
}

/// The writer stores the number of the next revision. From this step on viewers see it.
fn store_number<H, J: Picked<H>, E: Naming<H>>(
    words: &SharedWords<H>,
    seat: &mut WordsSeat<H>,
    number: u64,
    named: &E,
)
    requires table { (seat.old.table_id ≡ words.now.table_id) × (words.now.table_id.words ≡ 33) }
    requires part { (seat.old.me.0.writes ≡ true) × (length seat.old.me.0.list ≡ number) }
    requires stored { IsRevision number seat.old.me.0.next }
    requires named { J.picked ≡ E.named named.now ∷ [] }
    ensures table { seat.new.table_id ≡ seat.old.table_id }
    ensures seat { seat.new.me ≡ (with_entry seat.old.me.0 (published seat.old.me.0.next (E.named named.now)), seat.old.me.1) }
{
    let _ = named;
    words.store::<StoreNumber<J>>(seat, NUMBER, number);
}

/// The writer publishes the next revision: its words first, and then its number.
pub(crate) fn append<H, J: Picked<H>, E: Naming<H>>(
    words: &SharedWords<H>,
    seat: &mut WordsSeat<H>,
    number: u64,
    revision: Revision,
    named: &E,
)
    requires table { (seat.old.table_id ≡ words.now.table_id) × (words.now.table_id.words ≡ 33) }
    requires part { (seat.old.me.0.writes ≡ true) × (seat.old.me.0.next ≡ []) × (length seat.old.me.0.list ≡ number) }
    requires revision { IsRevision number revision.words }
    requires named { J.picked ≡ E.named named.now ∷ [] }
    ensures table { seat.new.table_id ≡ seat.old.table_id }
    ensures seat { seat.new.me ≡ (with_entry seat.old.me.0 (published revision.words (E.named named.now)), seat.old.me.1) }
{
    store_words(words, seat, number, revision);
    store_number::<H, J, E>(words, seat, number, named);
}

/// A viewer loads the number, and begins a try at it.
pub(crate) fn begin_try<H>(words: &SharedWords<H>, seat: &mut WordsSeat<H>) -> u64
    requires table { (seat.old.table_id ≡ words.now.table_id) × (words.now.table_id.words ≡ 33) }
    requires part { 0 < length seat.old.me.0.seen }
    ensures table { seat.new.table_id ≡ seat.old.table_id }
    ensures looks { Looks true seat.old.me result seat.new.me }
{
    words.load::<BeginTry>(seat, NUMBER)
}

/// A viewer loads the number, with no try open from then on.
pub(crate) fn look<H>(words: &SharedWords<H>, seat: &mut WordsSeat<H>) -> u64
    requires table { (seat.old.table_id ≡ words.now.table_id) × (words.now.table_id.words ≡ 33) }
    requires part { 0 < length seat.old.me.0.seen }
    ensures table { seat.new.table_id ≡ seat.old.table_id }
    ensures looks { Looks false seat.old.me result seat.new.me }
{
    words.load::<LoadNumber>(seat, NUMBER)
}

/// The writer, who has published a revision and seen none, loads the number.
pub(crate) fn first_look<H>(words: &SharedWords<H>, seat: &mut WordsSeat<H>) -> u64
    requires table { (seat.old.table_id ≡ words.now.table_id) × (words.now.table_id.words ≡ 33) }
    requires part { (seat.old.me.0.writes ≡ true) × (0 < length seat.old.me.0.list) }
    ensures table { seat.new.table_id ≡ seat.old.table_id }
    ensures looks { Looks false seat.old.me result seat.new.me }
{
    words.load::<LoadNumber>(seat, NUMBER)
}

/// A viewer loads word `i` of revision `number`, which its try is at.
pub(crate) fn load_word<H>(
    words: &SharedWords<H>,
    seat: &mut WordsSeat<H>,
    number: u64,
    i: usize,
) -> u64
    requires table { (seat.old.table_id ≡ words.now.table_id) × (words.now.table_id.words ≡ 33) }
    requires part { (number + 1 ≡ length seat.old.me.0.seen) × (i ≡ length seat.old.me.0.held) × (i < 8) }
    ensures table { seat.new.table_id ≡ seat.old.table_id }
    ensures seat { seat.new.me ≡ (with_held seat.old.me.0 result, seat.old.me.1) }
{
    words.load::<LoadWord>(seat, word_index(number, i))
}

/// Makes a second seat, which has seen as much. A writer's part goes to it.
pub(crate) fn split_seat<H>(words: &SharedWords<H>, seat: &mut WordsSeat<H>) -> WordsSeat<H>
    requires table { (seat.old.table_id ≡ words.now.table_id) × (words.now.table_id.words ≡ 33) }
    ensures table { (seat.new.table_id ≡ seat.old.table_id) × (result.table_id ≡ seat.old.table_id) }
    ensures left { seat.new.me ≡ (without_writer seat.old.me.0, seat.old.me.1) }
    ensures right { result.me ≡ (without_try seat.old.me.0, []) }
{
    words.split_seat::<SplitSeat>(seat)
}

/// Joins the other seat into this one, with what it has seen and its writer's part.
pub(crate) fn join_seats<H>(words: &SharedWords<H>, seat: &mut WordsSeat<H>, other: WordsSeat<H>)
    requires table { (seat.old.table_id ≡ words.now.table_id) × (words.now.table_id.words ≡ 33) }
    requires other { (other.table_id ≡ words.now.table_id) × (other.me.1 ≡ []) }
    ensures table { seat.new.table_id ≡ seat.old.table_id }
    ensures seat { seat.new.me ≡ (united seat.old.me.0 other.me.0, seat.old.me.1) }
{
    words.join_seat::<JoinSeats>(seat, other);
}
