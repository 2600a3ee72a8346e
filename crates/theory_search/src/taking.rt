//! How a search takes the equalities and lemmas that were put.

ghost use Rattle.std.specs.Prelude.{ℕ, ◌≡◌, ◌≤◌, ◌<◌, ◌⊎◌, List, Some, Contains, suc, length, true, false, OnOk, MatchBool};
ghost use Rattle.cnf_base.specs.Literals.{Literal};
ghost use Rattle.cnf_base.specs.declared.clause.ClauseId.{ClauseId};
ghost use Rattle.proof_log.specs.declared.entry.Entry.{Entry};
ghost use Rattle.proof_log.specs.Logs.{clause_at, entry_at, state_of};
ghost use Rattle.proof_log.specs.Boards.{IsLater};
ghost use Rattle.proof_log.specs.LemmaBoards.{Adds};
ghost use Rattle.proof_log.specs.Diaries.{is_chain};
ghost use Rattle.cube_search.specs.Holding.{IsLonger};
ghost use Rattle.cube_search.specs.Running.{given_in, IsSearch, IsWriting};
ghost use Rattle.theory_search.specs.Theories.{AreKnown, IsApart, IsTheoryApart};

use crate::theory::Theory;
use cnf_base::{ClauseId, Lit, Pos};
use cube_search::Search;
use proof_log::board::Board;
use proof_log::entry::Entry;
use std::alloc::AllocError;
use variable_list::VariableList;

// Whether a variable is listed, or one of the equalities that came since.
#[tactic(auto, using(crate::proofs::Valued::has_known))]
fn is_known(variables: &VariableList, next: u64, variable: u64) -> bool
    ensures { MatchBool result (Contains variables.now variable ⊎ (next ≤ variable)) (Unit {0}) }
{
    if variable >= next {
        return true;
    }
    variables.has(variable)
}

// Whether each variable of these literals is.
fn are_known(variables: &VariableList, next: u64, literals: &[Lit]) -> bool
    ensures { MatchBool result (AreKnown variables.now next literals.now) (Unit {0}) }
{
    'literals: for literal in literals {
        if !is_known(variables, next, literal.variable()) {
            return false;
        }
    }
    true
}

// Whether it is so with the clauses of a position.
fn is_known_at<B: Board>(board: &B, variables: &VariableList, next: u64, pos: Pos) -> bool
    requires { B.knows board.now pos }
    ensures { MatchBool result ((id : ClauseId) (c : List Literal) → id.pos ≡ pos
        → clause_at (state_of (B.nodes board.now) (B.log board.now)).clauses id ≡ Some c
        → AreKnown variables.now next c) (Unit {0}) }
{
    'parts: for part in 0..u32::MAX {
        let Some(clause) = board.clause(ClauseId { pos, part }) else {
            return true;
        };
        if !are_known(variables, next, clause.literals()) {
            return false;
        }
    }
    false
}

// Whether a chain is known to stand at a position, or it is so with its clauses.
fn is_chain_or_known<B: Board>(board: &B, variables: &VariableList, next: u64, pos: Pos) -> bool
    requires { B.knows board.now pos }
    ensures { MatchBool result (is_chain (entry_at (B.log board.now) pos) ≡ false
        → (id : ClauseId) (c : List Literal) → id.pos ≡ pos
        → clause_at (state_of (B.nodes board.now) (B.log board.now)).clauses id ≡ Some c
        → AreKnown variables.now next c) (Unit {0}) }
{
    if let Some(Entry::Chain(_, _)) = board.entry(pos) {
        return true;
    }
    is_known_at(board, variables, next, pos)
}

// Whether it is so with each step from one position up to another; if not, the search cannot go on.
fn ask_known_from<B: Board>(
    board: &B,
    variables: &VariableList,
    next: u64,
    from: Pos,
    upto: Pos,
) -> Result<(), AllocError>
    requires { (p : ℕ) → p < upto → B.knows board.now p }
    ensures { OnOk result ((id : ClauseId) (c : List Literal) → from ≤ id.pos → id.pos < upto
        → is_chain (entry_at (B.log board.now) id.pos) ≡ false
        → clause_at (state_of (B.nodes board.now) (B.log board.now)).clauses id ≡ Some c
        → AreKnown variables.now next c) }
{
    'steps: for pos in from..upto {
        if !is_chain_or_known(board, variables, next, pos) {
            return Err(AllocError);
        }
    }
    Ok(())
}

impl Theory {
    /// The search takes what was put from this position on. The variables of these steps are listed or new: those of a lemma of a walk
    /// are, and if others put a step with another variable, the search cannot go on.
    pub(crate) fn take<B: Board>(
        &self,
        board: &mut B,
        search: &mut Search,
        from: Pos,
    ) -> Result<(), AllocError>
        requires search { IsSearch search.old (B.nodes board.old) (B.log board.old) }
        ensures later { IsLater (B.nodes board.old) (B.nodes board.new) (B.log board.old)
            (B.log board.new) (B.knows board.old) (B.knows board.new) }
        ensures from { OnOk result (search.new.from ≡ search.old.from) }
        ensures given { OnOk result (given_in search.new ≡ given_in search.old) }
        ensures search { OnOk result (IsSearch search.new (B.nodes board.new) (B.log board.new)) }
        ensures longer { OnOk result
            (IsLonger search.old.opening.items search.new.opening.items) }
        ensures apart { OnOk result ((log : List Entry) → Adds log (B.log board.old)
            → from ≡ suc (length log) → IsSearch search.old (B.nodes board.old) log
            → IsApart (B.nodes board.old) log self.now.variables self.now.next
            search.old.opening.items search.old.from
            → IsTheoryApart (B.nodes board.new) (B.log board.new) self.now search.new) }
        ensures writing { OnOk result ((log : List Entry) → Adds log (B.log board.old)
            → from ≡ suc (length log) → IsSearch search.old (B.nodes board.old) log
            → IsApart (B.nodes board.old) log self.now.variables self.now.next
            search.old.opening.items search.old.from
            → IsWriting search.old (B.nodes board.old) (B.log board.old)
            → IsWriting search.new (B.nodes board.new) (B.log board.new)) }
    {
        let told = board.sync()?;
        ask_known_from(&*board, &self.variables, self.next, from, told.upto)?;
        search.take_steps(&*board, told.upto)?;
        Ok(())
    }
}
