//! Worked calls of a board that takes equalities and lemmas, with ample memory. A call is made where it is seen to be
//! permitted, as a search would see it.

ghost use Rattle.std.specs.Prelude.{◌≡◌, true, IfOk, IsSome};
ghost use Rattle.proof_log.specs.Logs.{state_of, IsPair, IsLemma};
ghost use Rattle.proof_log.specs.Stored.{Stands};

use crate::tests::{Given, Proof, answer, begun, entry_of, is_literal};
use cnf_base::{Clause, ClauseId, Pos};
use proof_log::board::LogBoard;
use proof_log::lemma_board::LemmaBoard;
use smt_terms::node::{Op, TermId};
use smt_terms::operator::Operator;
use smt_terms::sort::Sort;
use smt_terms::terms::Terms;
use std::alloc::{AllocError, Global};
use std::test::Fail;
use theory_lemmas::clauses::{Equalities, clause_of};
use theory_terms::lemma::{Access, Lemma, Path, Start};

// Whether a term has bits on the board.
fn has_bits<B: LemmaBoard>(board: &B, term: TermId) -> bool
    ensures { result ≡ true → IsSome ((state_of (B.nodes board.now) (B.log board.now)).bits term) }
{
    match board.bits().of(term) {
        Some(_) => true,
        None => false,
    }
}

// Whether the equality of two terms may be given a variable.
fn are_pair<B: LemmaBoard>(board: &B, terms: &Terms, lower: TermId, upper: TermId) -> bool
    requires { B.nodes board.now ≡ terms.now.nodes }
    ensures { result ≡ true
        → IsPair (B.nodes board.now) (state_of (B.nodes board.now) (B.log board.now)) lower upper }
{
    lower < upper
        && upper < terms.len()
        && terms.sort(lower) == terms.sort(upper)
        && has_bits(board, lower)
        && has_bits(board, upper)
}

// The position of the equality of two terms, if it may have one.
fn defined<B: LemmaBoard>(
    board: &mut B,
    terms: &Terms,
    lower: TermId,
    upper: TermId,
) -> Result<Option<Pos>, AllocError>
    requires { B.nodes board.old ≡ terms.now.nodes }
    ensures { B.nodes board.new ≡ terms.now.nodes }
{
    if !are_pair(board, terms, lower, upper) {
        return Ok(None);
    }
    let at = board.define(lower, upper)?;
    Ok(Some(at))
}

// The clause of a lemma, if it has one.
fn lemma_clause<B: LemmaBoard>(
    board: &B,
    alloc: Global,
    terms: &Terms,
    lemma: &Lemma,
) -> Option<Clause>
    requires { B.nodes board.now ≡ terms.now.nodes }
    ensures { IsSome result
        → IsLemma (B.nodes board.now) (state_of (B.nodes board.now) (B.log board.now)) lemma.now }
{
    match clause_of(alloc, terms, board.bits(), board.equals(), lemma) {
        Ok(clause) => Some(clause),
        Err(_) => None,
    }
}

// The position of the clause of a lemma, if it has one.
fn put<B: LemmaBoard>(
    board: &mut B,
    alloc: Global,
    terms: &Terms,
    lemma: Lemma,
) -> Result<Option<Pos>, AllocError>
    requires { B.nodes board.old ≡ terms.now.nodes }
    ensures { B.nodes board.new ≡ terms.now.nodes }
{
    let Some(_) = lemma_clause(board, alloc, terms, &lemma) else {
        return Ok(None);
    };
    let at = board.put_lemma(lemma)?;
    Ok(Some(at))
}

// The steps are tried one after another. Gives the position of the last.
fn tried(proof: &mut Proof, alloc: Global, steps: &[Given]) -> Result<Pos, AllocError>
    requires { Stands proof.old.terms.nodes proof.old.log }
    ensures { Stands proof.new.terms.nodes proof.new.log }
{
    let mut last = 0;
    for at in 0..steps.len() {
        let entry = entry_of(alloc, steps[at])?;
        if let Ok(place) = answer(proof, alloc, entry)? {
            last = place;
        }
    }
    Ok(last)
}

// A word of one bit, 0, the array that is this word everywhere, 1, and its element at this word, 2. Both words have bits, and
// the last step has position 4.
fn element(alloc: Global) -> Result<Proof, AllocError>
    ensures { IfOk result (λ p. Stands p.terms.nodes p.log) }
{
    let word = Op::Constant {
        declaration: 0,
        sort: Sort::Word(1),
    };
    let mut proof = begun(alloc, word)?;
    let steps = [
        Given::Filled(0),
        Given::Over(Operator::Select, &[1, 0]),
        Given::Leaf(0),
        Given::Leaf(2),
    ];
    if tried(&mut proof, alloc, &steps)? != 4 {
        return Err(AllocError);
    }
    Ok(proof)
}

// That the element of the array at the word is the word.
fn filling(alloc: Global) -> Lemma {
    Lemma::Arrays(
        Access {
            start: Start::Const(1, 0),
            path: Path::none(alloc),
        },
        Access {
            start: Start::Term(2),
            path: Path::none(alloc),
        },
    )
}

// What the board answers to the pair of the words, to the pair of the word and the array, and again to the first.
fn three_pairs<B: LemmaBoard>(board: &mut B, terms: &Terms) -> Result<[Option<Pos>; 3], AllocError>
    requires { B.nodes board.old ≡ terms.now.nodes }
{
    let first = defined(board, terms, 0, 2)?;
    let other = defined(board, terms, 0, 1)?;
    let again = defined(board, terms, 0, 2)?;
    Ok([first, other, again])
}

#[test]
fn a_pair_of_words_is_defined_once(rt: HostRuntime) -> Result<(), Fail> {
    let Proof { log, terms } = element(rt.alloc())?;
    let mut board = LogBoard::new(rt.alloc(), log, &terms);
    let places = three_pairs(&mut board, &terms)?;
    let log = board.into_log();
    let shown = log.equals().of(0, 2);
    let places = (places, log.len(), log.equals().place_of(0, 2));
    drop(log);
    assert!(rt; places == ([Some(5), None, Some(5)], 6, Some(5)));
    assert!(rt; shown.is_some_and(|literal| is_literal(literal, (5, true))));
    Ok(())
}

// What the board answers to the lemma before its equality has a variable, and then.
fn two_lemmas<B: LemmaBoard>(
    board: &mut B,
    alloc: Global,
    terms: &Terms,
) -> Result<[Option<Pos>; 3], AllocError>
    requires { B.nodes board.old ≡ terms.now.nodes }
{
    let before = put(board, alloc, terms, filling(alloc))?;
    let pair = defined(board, terms, 0, 2)?;
    let after = put(board, alloc, terms, filling(alloc))?;
    Ok([before, pair, after])
}

#[test]
fn a_lemma_is_put_where_its_equality_has_a_variable(rt: HostRuntime) -> Result<(), Fail> {
    let Proof { log, terms } = element(rt.alloc())?;
    let mut board = LogBoard::new(rt.alloc(), log, &terms);
    let places = two_lemmas(&mut board, rt.alloc(), &terms)?;
    let log = board.into_log();
    let clause = match log.clause(ClauseId { pos: 6, part: 0 }) {
        Some(clause) => match clause.literals() {
            [first, second] => is_literal(*first, (1, false)) && is_literal(*second, (5, true)),
            _ => false,
        },
        None => false,
    };
    drop(log);
    assert!(rt; places == [None, Some(5), Some(6)]);
    assert!(rt; clause);
    Ok(())
}
