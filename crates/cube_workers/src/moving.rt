//! A board that is lent to a search, and knows where it stood when it was lent.

ghost use Rattle.std.specs.Prelude.{◌≡◌};
ghost use Rattle.hub_board.specs.Boards.{Footing, footing_of, IsMoved, nowhere};

use cnf_base::{Clause, ClauseId, Pos};
use hub_board::HubBoard;
use proof_log::board::{Board, Sync};
use proof_log::entry::Entry;
use smt_terms::bits::Bits;
use std::alloc::AllocError;
use std::marker::{Brand, Model, PhantomData};
use std::sync::Wait;

/// Where a board stood when it was lent. Each call that lends one picks it.
pub trait Origin {
    ghost from: { Footing };
}

impl Origin for Brand {
    ghost from = { nowhere };
}

/// A board of the hub that has moved on from where it stood: no call that it has changes more.
#[derive(Drop)]
pub(crate) struct Moving<'h, 'a, K: Origin, R: Wait> {
    board: HubBoard<'h, 'a, R>,
    of: PhantomData<K>,
}

impl<'h, 'a, K: Origin, R: Wait> Model for Moving<'h, 'a, K, R> {
    ghost use Rattle.hub_board.specs.Boards.{BoardValue, IsMoved};

    ghost Value = { BoardValue };

    ghost view = { λ m. m.board };

    ghost invariant = { λ m. IsMoved K.from m.board };
}

impl<'h, 'a, K: Origin, R: Wait> Moving<'h, 'a, K, R> {
    pub(crate) fn new(board: HubBoard<'h, 'a, R>) -> Moving<'h, 'a, K, R>
        requires { footing_of board ≡ K.from }
        ensures { result ≡ board.entry }
    {
        Moving {
            board,
            of: PhantomData,
        }
    }

    pub(crate) fn into_board(self) -> HubBoard<'h, 'a, R>
        ensures same { result ≡ self.entry }
        ensures moved { IsMoved K.from result }
    {
        self.board
    }
}

impl<'h, 'a, K: Origin, R: Wait> Board for Moving<'h, 'a, K, R> {
    ghost use Rattle.hub_board.specs.Boards.{Knows, view_in};

    ghost nodes = { λ b. b.hist.law.nodes };

    ghost log = { λ b. (view_in b).log };

    ghost knows = { Knows };

    ghost found = { λ b. (view_in b).found };

    ghost told = { λ b. b.news };

    fn put(&mut self, entry: Entry) -> Result<Pos, AllocError> {
        match entry {
            Entry::Chain(clause, hints) => self.board.put_chain(clause, hints),
            // Excluded by the condition on the kind.
            _ => unreachable!(),
        }
    }

    fn sync(&mut self) -> Result<Sync, AllocError> {
        self.board.read_news()
    }

    fn clause(&self, id: ClauseId) -> Option<&Clause> {
        self.board.clause(id)
    }

    fn entry(&self, at: Pos) -> Option<&Entry> {
        self.board.entry(at)
    }

    fn bits(&self) -> &Bits {
        self.board.bits()
    }
}
