//! The publisher, and what its writer and its viewers do.
ghost use Rattle.std.specs.Prelude.{◌≡◌, ◌+◌, ◌-◌, ◌<◌, ◌≤◌, ℕ, true, false, [], ◌∷◌, ◌++◌, ◌↔◌, length, slice_index, IfOk, IfErr, IsTrue};
ghost use Rattle.pfl_publish.specs.Revisions.{published, longer, StartsWith};
ghost use Rattle.pfl_publish.specs.Views.{blank};
ghost use Rattle.pfl_publish.specs.Seats.{SeesOn, LoadsOnce, MakesTry, MakesTries, IsRead, IsOvertaken, OvertakenBefore};

use crate::names::Naming;
use crate::no_memory::NoMemory;
use crate::seats::{Overtaken, Revision, Told, ViewerSeat, WriterSeat};
use crate::steps::{append, begin_try, first_look, join_seats, load_word, look, split_seat};
use crate::words::{REVISION_WORDS, WORDS, Words, WordsSeat};
use atomic_table::Table;
use std::alloc::Allocator;
use std::marker::{Brand, Model};

/// By how much the number may move during a try whose words are whole.
const WINDOW: u64 = 2;

/// The words that one writer publishes in. Threads share it by reference. Contracts see which one it is.
#[derive(Drop)]
pub struct Publisher<H, A: Allocator> {
    words: Words<H, A>,
}

impl<H, A: Allocator> Model for Publisher<H, A> {
    ghost use Rattle.std.specs.Prelude.{◌≡◌};
    ghost use Rattle.atomic_table.specs.Seated.{TableId, table_id_coded};

    ghost Value = { TableId };

    ghost coded = { table_id_coded };

    ghost view = { λ p. p.words.shared.table_id };

    ghost invariant = { λ p. p.words.shared.table_id.words ≡ 33 };
}

impl<H, A: Allocator> Publisher<H, A> {
    /// Makes a publisher with its revision 0, and a seat each for the writer and a viewer. This alone takes memory.
    pub fn new<E: Naming<H>>(
        alloc: A,
        revision: Revision,
        named: &E,
    ) -> Result<(Publisher<H, A>, WriterSeat<H>, ViewerSeat<H>), NoMemory>
        requires { slice_index revision.words 0 ≡ 0 }
        ensures tables { IfOk result (λ r. (r.1.table ≡ r.0) × (r.2.table ≡ r.0)) }
        ensures list { IfOk result (λ r. r.1.list ≡ published revision.words (E.named named.now) ∷ []) }
        ensures seen { IfOk result (λ r. (r.2.seen ≡ r.1.list) × (r.2.trying ≡ false)) }
    {
        let (words, seat) = Table::of_words(alloc, &[0; WORDS], &())?;
        Ok(Publisher::opened(words, seat, revision, named))
    }

    // Publishes revision 0, like any other, among words that hold none yet, and splits the one seat.
    fn opened<E: Naming<H>>(
        words: Words<H, A>,
        mut seat: WordsSeat<H>,
        revision: Revision,
        named: &E,
    ) -> (Publisher<H, A>, WriterSeat<H>, ViewerSeat<H>)
        requires table { (words.shared.table_id.words ≡ 33) × (seat.table_id ≡ words.shared.table_id) }
        requires blank { seat.me ≡ (blank, []) }
        requires number { slice_index revision.words 0 ≡ 0 }
        ensures tables { (result.1.table ≡ result.0) × (result.2.table ≡ result.0) }
        ensures list { result.1.list ≡ published revision.words (E.named named.now) ∷ [] }
        ensures seen { (result.2.seen ≡ result.1.list) × (result.2.trying ≡ false) }
    {
        append::<H, Brand, E>(&words.shared, &mut seat, 0, revision, named);
        let number = first_look(&words.shared, &mut seat);
        let writer = split_seat(&words.shared, &mut seat);
        (
            Publisher { words },
            WriterSeat {
                seat: writer,
                number,
            },
            ViewerSeat {
                seat,
                loaded: number,
                words: [0; REVISION_WORDS],
            },
        )
    }

    /// Publishes the next revision, whose first word is its number, and returns that number.
    pub fn publish<E: Naming<H>>(
        &self,
        writer: &mut WriterSeat<H>,
        revision: Revision,
        named: &E,
    ) -> Told
        requires table { writer.old.table ≡ self.now }
        requires number { slice_index revision.words 0 ≡ length writer.old.list }
        ensures table { writer.new.table ≡ writer.old.table }
        ensures list { writer.new.list ≡ writer.old.list ++ published revision.words (E.named named.now) ∷ [] }
        ensures told { result.number ≡ length writer.old.list }
    {
        let number = revision.words[0];
        append::<H, Brand, E>(
            &self.words.shared,
            &mut writer.seat,
            number,
            revision,
            named,
        );
        writer.number = number;
        Told { number }
    }

    /// Loads the number, and begins a try at that revision. A try that was open is given up.
    pub fn begin(&self, viewer: &mut ViewerSeat<H>)
        requires { viewer.old.table ≡ self.now }
        ensures seen { SeesOn viewer.old viewer.new }
        ensures loaded { LoadsOnce viewer.old viewer.new }
        ensures trying { (viewer.new.trying ≡ true) × (viewer.new.held ≡ []) }
    {
        viewer.loaded = begin_try(&self.words.shared, &mut viewer.seat);
    }

    /// Loads word `i` of the revision that the try is at. The words are loaded in order.
    pub fn load(&self, viewer: &mut ViewerSeat<H>, i: usize)
        requires table { viewer.old.table ≡ self.now }
        requires trying { (viewer.old.trying ≡ true) × (length viewer.old.held ≡ i) × (i < 8) }
        ensures same { (viewer.new.table ≡ viewer.old.table) × (viewer.new.seen ≡ viewer.old.seen) × (viewer.new.trying ≡ true)
            × (viewer.new.loads ≡ viewer.old.loads) }
        ensures held { (n : ℕ) × (viewer.new.held ≡ viewer.old.held ++ n ∷ []) }
    {
        viewer.words[i] = load_word(&self.words.shared, &mut viewer.seat, viewer.loaded, i);
    }

    /// Loads the number again, which ends the try. If it moved by two at most, the words are whole.
    pub fn finish(&self, viewer: &mut ViewerSeat<H>) -> Result<Revision, Overtaken>
        requires table { viewer.old.table ≡ self.now }
        requires held { (viewer.old.trying ≡ true) × (length viewer.old.held ≡ 8) }
        ensures seen { SeesOn viewer.old viewer.new }
        ensures loaded { LoadsOnce viewer.old viewer.new }
        ensures closed { viewer.new.trying ≡ false }
        ensures ok { IfOk result (λ r. IsRead viewer.old viewer.new r.words (length viewer.old.seen - 1)) }
        ensures err { IfErr result (λ o. (o.at + 1 ≡ length viewer.old.seen) × IsOvertaken viewer.old viewer.new o.at o.now) }
    {
        let at = viewer.loaded;
        let now = look(&self.words.shared, &mut viewer.seat);
        viewer.loaded = now;
        if now - at <= WINDOW {
            Ok(Revision {
                words: viewer.words,
            })
        } else {
            Err(Overtaken { at, now })
        }
    }

    // One try.
    fn attempt(&self, viewer: &mut ViewerSeat<H>) -> Result<Revision, Overtaken>
        requires own { viewer.old.table ≡ self.now }
        ensures seen { SeesOn viewer.old viewer.new }
        ensures closed { viewer.new.trying ≡ false }
        ensures ok { IfOk result (λ r. (n : ℕ) × (now : ℕ) × IsRead viewer.old viewer.new r.words n × MakesTry viewer.old viewer.new n now) }
        ensures err { IfErr result (λ o. IsOvertaken viewer.old viewer.new o.at o.now × MakesTry viewer.old viewer.new o.at o.now) }
    {
        self.begin(viewer);
        for i in 0..REVISION_WORDS {
            self.load(viewer, i);
        }
        self.finish(viewer)
    }

    /// Reads a revision that is not older than the floor, in at most `tries` tries, or in one where `tries` is 0. A try is
    /// overtaken only by three or more revisions, so a bound on what is published meanwhile gives a number of tries that
    /// suffices.
    pub fn read(&self, viewer: &mut ViewerSeat<H>, tries: u64) -> Result<Revision, Overtaken>
        requires { viewer.old.table ≡ self.now }
        ensures seen { SeesOn viewer.old viewer.new }
        ensures closed { viewer.new.trying ≡ false }
        ensures ok { IfOk result (λ r. (n : ℕ) × (now : ℕ) × (count : ℕ) × IsRead viewer.old viewer.new r.words n
            × MakesTries viewer.old viewer.new count n now × (count ≤ tries - 1)) }
        ensures err { IfErr result (λ o. IsOvertaken viewer.old viewer.new o.at o.now × MakesTries viewer.old viewer.new (tries - 1) o.at o.now) }
        ensures tries { IfErr result (λ o. OvertakenBefore tries viewer.old o.at) }
    {
        for _tried in 1..tries {
            if let Ok(revision) = self.attempt(viewer) {
                return Ok(revision);
            }
        }
        self.attempt(viewer)
    }

    /// Loads the number, and returns whether it has come to the one that was announced.
    pub fn learn(&self, viewer: &mut ViewerSeat<H>, told: &Told) -> bool
        requires table { viewer.old.table ≡ self.now }
        requires closed { viewer.old.trying ≡ false }
        ensures seen { SeesOn viewer.old viewer.new }
        ensures loaded { LoadsOnce viewer.old viewer.new }
        ensures closed { viewer.new.trying ≡ false }
        ensures learnt { IsTrue result ↔ (told.now.number < length viewer.new.seen) }
    {
        viewer.loaded = look(&self.words.shared, &mut viewer.seat);
        told.number <= viewer.loaded
    }

    /// Makes two viewers of one, each of which has seen as much. The first one keeps its loads, and the other has made none.
    pub fn split(&self, mut viewer: ViewerSeat<H>) -> (ViewerSeat<H>, ViewerSeat<H>)
        requires table { viewer.table ≡ self.now }
        requires closed { viewer.trying ≡ false }
        ensures tables { (result.0.table ≡ viewer.table) × (result.1.table ≡ viewer.table) }
        ensures seen { (result.0.seen ≡ viewer.seen) × (result.1.seen ≡ viewer.seen) }
        ensures loads { (result.0.loads ≡ viewer.loads) × (result.1.loads ≡ []) }
        ensures closed { (result.0.trying ≡ false) × (result.1.trying ≡ false) }
    {
        let other = ViewerSeat {
            seat: split_seat(&self.words.shared, &mut viewer.seat),
            loaded: viewer.loaded,
            words: [0; REVISION_WORDS],
        };
        (viewer, other)
    }

    /// Makes one viewer of two, which has seen the longer list, and has the loads of the first.
    pub fn join(&self, viewer: ViewerSeat<H>, other: ViewerSeat<H>) -> ViewerSeat<H>
        requires tables { (viewer.table ≡ self.now) × (other.table ≡ self.now) }
        requires closed { (viewer.trying ≡ false) × (other.trying ≡ false) }
        ensures table { result.table ≡ viewer.table }
        ensures seen { result.seen ≡ longer viewer.seen other.seen }
        ensures loads { result.loads ≡ viewer.loads }
        ensures closed { result.trying ≡ false }
    {
        let loaded = viewer.floor().max(other.floor());
        let ViewerSeat {
            mut seat,
            loaded: _,
            words,
        } = viewer;
        let ViewerSeat {
            seat: given,
            loaded: _,
            words: _,
        } = other;
        join_seats(&self.words.shared, &mut seat, given);
        ViewerSeat {
            seat,
            loaded,
            words,
        }
    }

    /// Shows the viewer all that was published, by one load of the number, and returns that number: the last one.
    ///
    /// Who publishes an entry for a viewer, and then wants to know what stands between that entry and what the viewer had seen,
    /// meets before `publish` as well as after it. The meet after it shows only that the viewer's former list begins the new
    /// one, which the new entry is already part of; the meet before it shows that the former list begins the list without it.
    pub fn meet(
        &self,
        writer: WriterSeat<H>,
        viewer: ViewerSeat<H>,
    ) -> (WriterSeat<H>, ViewerSeat<H>, u64)
        requires tables { (writer.table ≡ self.now) × (viewer.table ≡ self.now) }
        requires closed { viewer.trying ≡ false }
        ensures tables { (result.0.table ≡ writer.table) × (result.1.table ≡ viewer.table) }
        ensures list { result.0.list ≡ writer.list }
        ensures seen { (result.1.seen ≡ writer.list) × StartsWith writer.list viewer.seen }
        ensures loaded { LoadsOnce viewer result.1 }
        ensures closed { result.1.trying ≡ false }
        ensures number { result.2 + 1 ≡ length writer.list }
    {
        let WriterSeat {
            seat: given,
            number: _,
        } = writer;
        let ViewerSeat {
            mut seat,
            loaded: _,
            words,
        } = viewer;
        join_seats(&self.words.shared, &mut seat, given);
        let number = look(&self.words.shared, &mut seat);
        let given = split_seat(&self.words.shared, &mut seat);
        (
            WriterSeat {
                seat: given,
                number,
            },
            ViewerSeat {
                seat,
                loaded: number,
                words,
            },
            number,
        )
    }
}
