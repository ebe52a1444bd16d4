//! The halves and what they do together.
ghost use Rattle.std.specs.Prelude.{◌≡◌, ◌+◌, [], IfOk};
ghost use Rattle.pfl_publish.specs.Counted.{whole};

use crate::count::rule::{Compares, CountRule, CountsOneMore, Cuts, Unites};
use crate::count::view::View;
use atomic_table::{Seat, Table};
use std::alloc::{AllocError, Allocator};
use std::marker::Model;

/// The word of one count. Contracts see which table it is.
#[derive(Drop)]
pub struct Tally<A: Allocator> {
    word: Table<(), View, (), CountRule, A>,
}

impl<A: Allocator> Model for Tally<A> {
    ghost use Rattle.std.specs.Prelude.{◌≡◌};
    ghost use Rattle.atomic_table.specs.Seated.{TableId, table_id_coded};

    ghost Value = { TableId };

    ghost coded = { table_id_coded };

    ghost view = { λ t. t.word.shared.table_id };

    ghost invariant = { λ t. t.word.shared.table_id.words ≡ 1 };
}

/// Half of a count. Contracts see of which one it is, and the count.
#[derive(Drop)]
pub struct Half {
    seat: Seat<(), View>,
}

impl Model for Half {
    ghost use Rattle.std.specs.Prelude.{◌≡◌, []};
    ghost use Rattle.pfl_publish.specs.Count.{Count};

    ghost Value = { Count };

    ghost view = { λ h. record { table = h.seat.table_id; count = h.seat.me.0.left } };

    ghost invariant = { λ h. (h.seat.me.1 ≡ []) × (h.seat.me.0.parts ≡ 1) };
}

impl<A: Allocator> Tally<A> {
    /// A count of 0, and its halves. This alone takes memory.
    pub fn new(alloc: A) -> Result<(Tally<A>, Half, Half), AllocError>
        ensures tables { IfOk result (λ r. (r.1.table ≡ r.0) × (r.2.table ≡ r.0)) }
        ensures counts { IfOk result (λ r. (r.1.count ≡ 0) × (r.2.count ≡ 0)) }
    {
        let (word, seat) = Table::of_words(alloc, &[0], &())?;
        let tally = Tally { word };
        let (one, other) = tally.cut(seat);
        Ok((tally, one, other))
    }

    // Cuts the whole into halves.
    fn cut(&self, mut seat: Seat<(), View>) -> (Half, Half)
        requires table { seat.table_id ≡ self.now }
        requires whole { (seat.me.1 ≡ []) × (seat.me.0 ≡ whole seat.me.0.left) }
        ensures tables { (result.0.table ≡ self.now) × (result.1.table ≡ self.now) }
        ensures counts { (result.0.count ≡ seat.me.0.left) × (result.1.count ≡ seat.me.0.left) }
    {
        let other = self.word.shared.split_seat::<Cuts>(&mut seat);
        (Half { seat }, Half { seat: other })
    }

    /// States that the halves have one count. The first one stays in its place.
    pub fn compare_in(&self, kept: &mut Half, mine: Half) -> Half
        requires { (kept.old.table ≡ self.now) × (mine.table ≡ self.now) }
        ensures same { mine.count ≡ kept.old.count }
        ensures tables { (kept.new.table ≡ kept.old.table) × (result.table ≡ mine.table) }
        ensures counts { (kept.new.count ≡ kept.old.count) × (result.count ≡ kept.old.count) }
    {
        let Half { seat: second } = mine;
        self.word.shared.join_seat::<Unites>(&mut kept.seat, second);
        self.word.shared.load::<Compares>(&mut kept.seat, 0);
        let seat = self.word.shared.split_seat::<Cuts>(&mut kept.seat);
        Half { seat }
    }

    /// Counts one more. The halves had one count. The first one stays in its place.
    pub fn count_in(&self, kept: &mut Half, mine: Half) -> Half
        requires { (kept.old.table ≡ self.now) × (mine.table ≡ self.now) }
        ensures same { mine.count ≡ kept.old.count }
        ensures tables { (kept.new.table ≡ kept.old.table) × (result.table ≡ mine.table) }
        ensures counts { (kept.new.count ≡ kept.old.count + 1) × (result.count ≡ kept.old.count + 1) }
    {
        let Half { seat: second } = mine;
        self.word.shared.join_seat::<Unites>(&mut kept.seat, second);
        self.word.shared.load::<Compares>(&mut kept.seat, 0);
        self.word.shared.load::<CountsOneMore>(&mut kept.seat, 0);
        let seat = self.word.shared.split_seat::<Cuts>(&mut kept.seat);
        Half { seat }
    }
}
