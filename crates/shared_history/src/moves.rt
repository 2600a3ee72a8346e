//! The rule of the lock, and what each atomic step tells the pass that makes it.

use crate::law::Law;
use crate::view::{Locked, View};
use atomic_table::{Join, Play, Split, TableRule};
use std::marker::PhantomData;

/// The rule of the table of a history.
pub struct Turns<L> {
    law: PhantomData<L>,
}

impl<L: Law> TableRule<Option<Locked<L::State, L::Entry>>, View<L, L::Entry>, L> for Turns<L> {
    ghost use Rattle.shared_history.specs.Rule.{Kept, first_view};

    ghost holds = { Kept L.by L.stands };

    ghost first = { first_view };
}

/// Draws a ticket.
pub struct Draw;

impl<K, T, E> Play<Option<Locked<T, E>>, View<K, E>> for Draw {
    ghost use Rattle.shared_history.specs.Moves.{drew};

    ghost then = { drew };
}

/// Looks whether the turn is the ticket. If it is, what lies in the slot comes to the pass.
pub struct Poll<L> {
    law: PhantomData<L>,
}

impl<L: Law> Play<Option<Locked<L::State, L::Entry>>, View<L, L::Entry>> for Poll<L> {
    ghost use Rattle.shared_history.specs.Moves.{polled};

    ghost then = { polled L.by L.stands };
}

/// Passes the turn on. The pass has then seen the history.
pub struct PassOn<L> {
    law: PhantomData<L>,
}

impl<L: Law> Play<Option<Locked<L::State, L::Entry>>, View<L, L::Entry>> for PassOn<L> {
    ghost use Rattle.shared_history.specs.Moves.{passed_on};

    ghost then = { passed_on L.by };
}

/// Passes the turn on where nothing came of it. The pass is as it was before its turn.
pub struct Leave;

impl<K, T, E> Play<Option<Locked<T, E>>, View<K, E>> for Leave {
    ghost use Rattle.shared_history.specs.Moves.{left};

    ghost then = { left };
}

/// Changes nothing, and tells that all that the pass keeps is of one history.
pub struct Look<L> {
    law: PhantomData<L>,
}

impl<L: Law> Play<Option<Locked<L::State, L::Entry>>, View<L, L::Entry>> for Look<L> {
    ghost use Rattle.shared_history.specs.Moves.{looked};

    ghost then = { looked L.by };
}

/// How a view is cut in two, and how one takes in another.
pub struct Gift;

impl<K, E> Split<View<K, E>> for Gift {
    ghost use Rattle.shared_history.specs.Moves.{giver, given};

    ghost left = { giver };

    ghost right = { given };
}

impl<K, E> Join<View<K, E>> for Gift {
    ghost use Rattle.shared_history.specs.Moves.{both, nobody};

    ghost both = { both };

    ghost spent = { nobody };
}
