//! How lemmas are put on a board, with the equalities that they name.

ghost use Rattle.std.specs.Prelude.{◌≡◌, Contains, IfOk};
ghost use Rattle.theory_terms.specs.declared.lemma.Lemma.{Lemma};
ghost use Rattle.proof_log.specs.Logs.{state_of, IsLemma};
ghost use Rattle.proof_log.specs.LemmaBoards.{IsLaterByMore};
ghost use Rattle.theory_search.specs.Theories.{IsReady};
ghost use Rattle.theory_search.specs.Puts.{IsWanted};

use crate::clauses::LemmaClauses;
use cnf_base::Clause;
use proof_log::lemma_board::LemmaBoard;
use smt_terms::node::TermId;
use smt_terms::terms::Terms;
use std::alloc::{AllocError, Global};
use theory_lemmas::clauses::clause_of;
use theory_lemmas::fault::{LemmaError, LemmaFault};
use theory_terms::lemma::Lemma;

/// What a lemma wants before its clause may be put.
#[derive(Debug, Drop)]
enum Wanted {
    /// A variable for the equality of these terms, the lower first.
    Equality(TermId, TermId),
    /// Nothing: this is its clause.
    Nothing(Clause),
}

// What a lemma wants: the first equality of its clause that has no variable on the board.
fn next_want<B: LemmaBoard>(
    alloc: Global,
    board: &B,
    terms: &Terms,
    lemma: &Lemma,
) -> Result<Wanted, AllocError>
    requires nodes { B.nodes board.now ≡ terms.now.nodes }
    requires ready { IsReady (B.nodes board.now) (B.log board.now) lemma.now }
    ensures { IfOk result (IsWanted (B.nodes board.now) (B.log board.now) lemma.now) }
{
    let _count = terms.len();
    let bits = board.bits();
    match clause_of(alloc, terms, bits, board.equals(), lemma) {
        Ok(clause) => Ok(Wanted::Nothing(clause)),
        Err(LemmaError::Fault(LemmaFault::NoEqual(lower, upper))) => {
            Ok(Wanted::Equality(lower, upper))
        }
        Err(LemmaError::Fault(LemmaFault::Shape)) => unreachable!(),
        Err(LemmaError::NoMemory) => Err(AllocError),
    }
}

// Puts a lemma that has this clause, where the clause is new.
#[tactic(auto, using(crate::proofs::Grown::more_same))]
fn put_clause<B: LemmaBoard>(
    board: &mut B,
    clauses: &mut LemmaClauses,
    lemma: &Lemma,
    clause: &Clause,
) -> Result<(), AllocError>
    requires { IsLemma (B.nodes board.old) (state_of (B.nodes board.old) (B.log board.old))
        lemma.now }
    ensures { IsLaterByMore (B.nodes board.old) (B.nodes board.new) (B.log board.old)
        (B.log board.new) (B.knows board.old) (B.knows board.new) }
{
    let _stands = board.bits();
    if !clauses.add(clause)? {
        return Ok(());
    }
    let own = lemma.copy()?;
    board.put_lemma(own)?;
    Ok(())
}

// Puts the clause of a lemma, where it is new; gives the equalities that it names variables before.
fn put<B: LemmaBoard>(
    alloc: Global,
    board: &mut B,
    terms: &Terms,
    clauses: &mut LemmaClauses,
    lemma: &Lemma,
) -> Result<(), AllocError>
    requires nodes { B.nodes board.old ≡ terms.now.nodes }
    requires ready { IsReady (B.nodes board.old) (B.log board.old) lemma.now }
    ensures { IsLaterByMore (B.nodes board.old) (B.nodes board.new) (B.log board.old)
        (B.log board.new) (B.knows board.old) (B.knows board.new) }
{
    let _stands = board.bits();
    'equalities: for _ in 0..u64::MAX {
        match next_want(alloc, &*board, terms, lemma)? {
            Wanted::Equality(lower, upper) => {
                board.define(lower, upper)?;
            }
            Wanted::Nothing(clause) => {
                put_clause(board, clauses, lemma, &clause)?;
                return Ok(());
            }
        }
    }
    Err(AllocError)
}

/// Puts the clauses of these lemmas, each that is new, with the equalities that they name.
pub(crate) fn put_all<B: LemmaBoard>(
    alloc: Global,
    board: &mut B,
    terms: &Terms,
    clauses: &mut LemmaClauses,
    lemmas: &[Lemma],
) -> Result<(), AllocError>
    requires nodes { B.nodes board.old ≡ terms.now.nodes }
    requires ready { (l : Lemma) → Contains lemmas.now l
        → IsReady (B.nodes board.old) (B.log board.old) l }
    ensures { IsLaterByMore (B.nodes board.old) (B.nodes board.new) (B.log board.old)
        (B.log board.new) (B.knows board.old) (B.knows board.new) }
{
    let _stands = board.bits();
    'lemmas: for lemma in lemmas {
        put(alloc, board, terms, clauses, lemma)?;
    }
    Ok(())
}
