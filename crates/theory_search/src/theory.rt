//! What is kept for the walks of a search.

ghost use Rattle.std.specs.Prelude.{◌≡◌, IfOk};
ghost use Rattle.smt_terms.specs.Bits.{image_in};
ghost use Rattle.term_reach.specs.Reach.{IsReach};
ghost use Rattle.access_tables.specs.Leading.{leads};
ghost use Rattle.access_walk.specs.Walked.{IsWalkable};
ghost use Rattle.cube_search.specs.Running.{IsSearch};
ghost use Rattle.theory_search.specs.Theories.{IsWalkableLog, AreEnough, AreListed, IsTheory};

use crate::clauses::LemmaClauses;
use crate::listing::list_terms;
use access_tables::Links;
use access_walk::walking::{Prepared, Workspace, prepare};
use cube_search::Search;
use proof_log::board::Board;
use smt_terms::bits::Bits;
use smt_terms::node::TermId;
use smt_terms::terms::Terms;
use std::alloc::{AllocError, Global};
use term_reach::{Reached, reach};
use variable_list::VariableList;

/// What is kept for the walks of a search: all that the live terms reach, made ready for walks, and the variables on which its values
/// stand. It is made once a search, in time and memory of what is reached and of the search's variables.
#[derive(Drop)]
pub struct Theory {
    pub(crate) alloc: Global,
    // the terms whose values are asked for
    pub(crate) live: Vec<TermId>,
    // all that they reach
    pub(crate) reached: Reached,
    pub(crate) prepared: Prepared,
    pub(crate) workspace: Workspace,
    // the variables of the bits of these terms, and of the clauses at the opening positions
    pub(crate) variables: VariableList,
    // variables from this number on are those of equalities that came since
    pub(crate) next: u64,
    // the clauses of lemmas that were put
    pub(crate) clauses: LemmaClauses,
}

// What the live terms reach.
fn reached_from(
    alloc: Global,
    terms: &Terms,
    bits: &Bits,
    live: &[TermId],
) -> Result<Reached, AllocError>
    requires { IsWalkable terms.now.nodes bits.now live.now }
    ensures { IfOk result
        (λ r. IsReach (leads terms.now.nodes (image_in bits.now)) live.now r) }
{
    let _count = terms.len();
    let links = Links::new(alloc, bits);
    let mut reached = Reached::new(alloc);
    reach(alloc, terms, &links, live, &mut reached)?;
    Ok(reached)
}

// The variables of a search, variable 1, and those of the bits of these terms.
fn variables_of<B: Board>(
    alloc: Global,
    board: &B,
    search: &Search,
    reached: &Reached,
) -> Result<VariableList, AllocError>
    requires search { IsSearch search.now (B.nodes board.now) (B.log board.now) }
    ensures { IfOk result
        (λ v. AreListed (B.nodes board.now) (B.log board.now) v reached.now
        search.now.opening.items) }
{
    let mut variables = search.variables().copy(alloc)?;
    variables.add(1)?;
    let bits = board.bits();
    let live = reached.terms();
    list_terms(bits, live, &mut variables)?;
    Ok(variables)
}

impl Theory {
    /// What this search of the board needs, whose next variable is this. The live terms are those whose values are asked for in a
    /// model: the terms of the live assertions, and of the assumptions.
    pub fn new<B: Board>(
        alloc: Global,
        board: &B,
        terms: &Terms,
        search: &Search,
        live: &[TermId],
        next: u64,
    ) -> Result<Theory, AllocError>
        requires nodes { B.nodes board.now ≡ terms.now.nodes }
        requires search { IsSearch search.now (B.nodes board.now) (B.log board.now) }
        requires walkable { IsWalkableLog (B.nodes board.now) (B.log board.now) live.now }
        requires enough { AreEnough (B.nodes board.now) (B.log board.now) live.now
            search.now.opening.items }
        ensures theory { IfOk result
            (IsTheory (B.nodes board.now) (B.log board.now) search.now.opening.items) }
        ensures live { IfOk result (λ t. t.live.items ≡ live.now) }
        ensures variables { IfOk result
            (λ t. AreListed (B.nodes board.now) (B.log board.now) t.variables t.reached
            search.now.opening.items) }
        ensures next { IfOk result (λ t. t.next ≡ next) }
    {
        let _count = terms.len();
        let bits = board.bits();
        let reached = reached_from(alloc, terms, bits, live)?;
        let prepared = prepare(alloc, terms, bits, live, &reached)?;
        let variables = variables_of(alloc, board, search, &reached)?;
        let kept = Vec::from_slice(alloc, live)?;
        Ok(Theory {
            alloc,
            live: kept,
            reached,
            prepared,
            workspace: Workspace::new(alloc),
            variables,
            next,
            clauses: LemmaClauses::new(alloc),
        })
    }
}
