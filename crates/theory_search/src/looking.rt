//! A look at the model of a search.

ghost use Rattle.std.specs.Prelude.{◌≡◌, IfOk};
ghost use Rattle.proof_log.specs.Logs.{state_of};
ghost use Rattle.cube_search.specs.Running.{given_in, subject_of, valuation_of};
ghost use Rattle.cube_search.specs.Ends.{IsModel};
ghost use Rattle.theory_search.specs.Theories.{IsTheory};
ghost use Rattle.theory_search.specs.Looks.{IsLooked};

use crate::assigning::assignment_of;
use crate::theory::Theory;
use access_walk::walking::{Conflicts, Walked, walk};
use cube_search::Search;
use model_build::build;
use proof_log::board::Board;
use smt_terms::terms::Terms;
use smt_values::interp::Interp;
use std::alloc::AllocError;

/// What a look at a model comes to.
#[derive(Debug, Drop)]
pub(crate) enum Looked {
    /// An interpretation with its values.
    Model(Interp),
    /// Lemmas that it makes false.
    Lemmas(Conflicts),
}

impl Theory {
    /// Walks over the accesses under the assignment of a search that has found a model, and builds an interpretation from a closed
    /// table.
    pub(crate) fn look<B: Board>(
        &mut self,
        board: &B,
        terms: &Terms,
        search: &Search,
    ) -> Result<Looked, AllocError>
        requires nodes { B.nodes board.now ≡ terms.now.nodes }
        requires theory { IsTheory (B.nodes board.now) (B.log board.now) search.now.opening.items
            self.old }
        requires model { IsModel (state_of (B.nodes board.now) (B.log board.now)).clauses
            search.now.opening.items (given_in search.now) (valuation_of search.now) }
        ensures same { self.new ≡ record self.old { workspace = self.new.workspace } }
        ensures looked { IfOk result
            (IsLooked (subject_of search.now (B.nodes board.now) (B.log board.now))
            self.old.live.items search.now.opening.items (valuation_of search.now)) }
    {
        let _count = terms.len();
        let assignment = assignment_of(self.alloc, &self.variables, search)?;
        let bits = board.bits();
        let walked = walk(
            self.alloc,
            terms,
            bits,
            &assignment,
            self.live.as_slice(),
            &self.reached,
            &self.prepared,
            &mut self.workspace,
        )?;
        match walked {
            Walked::Table(table) => {
                let model = build(self.alloc, terms, bits, &assignment, &table)?;
                Ok(Looked::Model(model))
            }
            Walked::Conflicts(found) => Ok(Looked::Lemmas(found)),
        }
    }
}
