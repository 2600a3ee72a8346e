//! A search: how it begins, and the values that it has.

ghost use Rattle.std.specs.Prelude.{◌≡◌, List, IfOk};
ghost use Rattle.cnf_base.specs.Literals.{Literal};
ghost use Rattle.cnf_base.specs.Clauses.{lit_true};
ghost use Rattle.proof_log.specs.declared.entry.Entry.{Entry};
ghost use Rattle.cube_search.specs.Running.{IsResting, valuation_of, variables_in};

use crate::keeper::Keeper;
use cdcl_core::{Trail, Watches};
use cdcl_loop::Engine;
use cnf_base::{Lit, Pos};
use std::alloc::{AllocError, Global};
use variable_list::VariableList;

/// A search over the clauses of some positions of a board. It keeps what it learnt from run to run, and from check to check.
#[derive(Drop)]
pub struct Search {
    pub(crate) alloc: Global,
    // the clauses that are kept, the trail and the choices, with the variables of the check and the given literals of the run
    pub(crate) engine: Engine,
    // the positions that it was told, all of whose clauses it holds
    pub(crate) opening: Vec<Pos>,
    // by opening position: how many variables were listed before it
    pub(crate) ends: Vec<usize>,
    // the opening positions, each by one more than its number
    pub(crate) needed: VariableList,
    // the positions of the chains that it put or took
    pub(crate) taken: Vec<Pos>,
    // by check: where its own chains began
    pub(crate) turns: Vec<Pos>,
    // steps from this position on are a search's
    pub(crate) from: Pos,
    // it has seen what stands below this position
    pub(crate) seen: Pos,
    pub(crate) diary: Keeper,
}

impl Search {
    /// A search that holds nothing.
    pub fn new(alloc: Global) -> Result<Search, AllocError>
        ensures { IfOk result (λ s. (rows : List (List (List Literal))) (log : List Entry)
            → IsResting s rows log) }
    {
        let watches = Watches::new(alloc)?;
        let trail = Trail::new(alloc);
        let engine = Engine::new(alloc, watches, trail);
        Ok(Search {
            alloc,
            engine,
            opening: Vec::new(alloc),
            ends: Vec::new(alloc),
            needed: VariableList::new(alloc),
            taken: Vec::new(alloc),
            turns: Vec::new(alloc),
            from: 0,
            seen: 0,
            diary: Keeper::new(alloc, 0),
        })
    }

    /// The variables that it has: those of the clauses at its opening positions.
    pub fn variables(&self) -> &VariableList
        ensures { result.now ≡ variables_in self.now }
    {
        self.engine.variables()
    }

    /// Whether the literal is true, where each variable that has no value is false.
    pub fn is_true(&self, l: Lit) -> bool
        ensures { result ≡ lit_true (valuation_of self.now) l }
    {
        self.engine.is_true(l)
    }
}
