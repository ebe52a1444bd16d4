//! The rule of the words, and what each kind of atomic step shows the thread that makes it.
use crate::names::Picked;
use crate::view::View;
use atomic_table::{Join, Play, Split, TableRule};
use std::marker::PhantomData;

/// What holds of the words and of all seats, between any two steps of any threads.
pub(crate) struct PublisherRule;

impl<H> TableRule<(), View<H>, ()> for PublisherRule {
    ghost use Rattle.pfl_publish.specs.Views.{blank};
    ghost use Rattle.pfl_publish.specs.Rule.{IsKept};

    ghost holds = { λ _. IsKept };

    ghost first = { λ _. blank };
}

/// The writer stores a word of the next revision.
pub(crate) struct StoreWord;

impl<H> Play<(), View<H>> for StoreWord {
    ghost use Rattle.pfl_publish.specs.Steps.{StoresWord};

    ghost then = { StoresWord };
}

/// The writer stores the number of the next revision, which stands for what J picks.
pub(crate) struct StoreNumber<J> {
    of: PhantomData<J>,
}

impl<H, J: Picked<H>> Play<(), View<H>> for StoreNumber<J> {
    ghost use Rattle.pfl_publish.specs.Steps.{StoresNumber};

    ghost then = { StoresNumber J.picked };
}

/// A viewer loads the number, and a try begins.
pub(crate) struct BeginTry;

impl<H> Play<(), View<H>> for BeginTry {
    ghost use Rattle.std.specs.Prelude.{true};
    ghost use Rattle.pfl_publish.specs.Steps.{LoadsNumber};

    ghost then = { LoadsNumber true };
}

/// A viewer loads the number, and no try is open.
pub(crate) struct LoadNumber;

impl<H> Play<(), View<H>> for LoadNumber {
    ghost use Rattle.std.specs.Prelude.{false};
    ghost use Rattle.pfl_publish.specs.Steps.{LoadsNumber};

    ghost then = { LoadsNumber false };
}

/// A viewer loads a word of the revision that its try is at.
pub(crate) struct LoadWord;

impl<H> Play<(), View<H>> for LoadWord {
    ghost use Rattle.pfl_publish.specs.Steps.{LoadsWord};

    ghost then = { LoadsWord };
}

/// A seat is split in two. A writer's part goes to the new one.
pub(crate) struct SplitSeat;

impl<H> Split<View<H>> for SplitSeat {
    ghost use Rattle.pfl_publish.specs.Views.{without_writer, without_try};

    ghost left = { without_writer };

    ghost right = { without_try };
}

/// Two seats become one, and the other is spent.
pub(crate) struct JoinSeats;

impl<H> Join<View<H>> for JoinSeats {
    ghost use Rattle.pfl_publish.specs.Views.{united, idle};

    ghost both = { united };

    ghost spent = { idle };
}
