//! Searches that take an equality and a lemma behind a model in which the lemma is false, and go on.

ghost use Rattle.std.specs.Prelude.{ℕ, ◌≡◌, ◌<◌, ◌≤◌, true, suc, length, IfOk, IfSome, OnOk, IsSome};
ghost use Rattle.cnf_base.specs.Assignments.{AreBelow};
ghost use Rattle.smt_terms.specs.Terms.{declaration_of, IsTermList};
ghost use Rattle.proof_log.specs.Boards.{IsLater};
ghost use Rattle.proof_log.specs.LemmaBoards.{IsLaterByMore};
ghost use Rattle.proof_log.specs.Logs.{state_of, IsPair, IsLemma};
ghost use Rattle.proof_log.specs.Stored.{Stands};
ghost use Rattle.cube_search.specs.Running.{given_in, IsSearch};

use crate::assertions::{Proof, add, are_below, opened, over};
use crate::runs::{CUBE, Ended, begun, is_end, is_run};
use cnf_base::{Clause, Lit};
use cube_search::Search;
use proof_log::Log;
use proof_log::board::{Board, LogBoard};
use proof_log::entry::Entry;
use proof_log::lemma_board::LemmaBoard;
use smt_terms::list::Arguments;
use smt_terms::node::{Node, Op, TermId};
use smt_terms::operator::Operator;
use smt_terms::sort::Sort;
use smt_terms::terms::Terms;
use std::alloc::{AllocError, Global};
use std::test::Fail;
use theory_lemmas::clauses::clause_of;
use theory_terms::lemma::{Access, Lemma, Path, Start};

// Term 0 is a declared word of one bit.
fn one_word(alloc: Global) -> Result<Terms, AllocError> {
    let mut terms = Terms::new(alloc);
    let op = Op::Constant {
        declaration: 0,
        sort: Sort::Word(1),
    };
    match terms.make(Node::leaf(alloc, op)) {
        Ok(_) => Ok(terms),
        Err(_) => {
            drop(terms);
            Err(AllocError)
        }
    }
}

// The array with indexes of one bit that is term 0 everywhere.
fn filled(alloc: Global) -> Result<Node, AllocError>
    ensures { IfOk result (λ n. declaration_of n.op ≡ None) }
{
    Ok(Node {
        op: Op::ConstantArray(1),
        args: Arguments::of(alloc, &[0])?,
    })
}

// Term 1 is the array that is term 0 everywhere, 2 its element at term 0, and 3 the exclusive or of term 0 and this element. Terms 0, 2
// and 3 have bits, by positions 4 to 6.
fn log_element(proof: &mut Proof, alloc: Global) -> Result<(), AllocError>
    requires { Stands proof.old.terms.nodes proof.old.log }
    ensures { Stands proof.new.terms.nodes proof.new.log }
{
    add(proof, alloc, Entry::Node(filled(alloc)?))?;
    add(
        proof,
        alloc,
        Entry::Node(over(alloc, Operator::Select, &[1, 0])?),
    )?;
    add(
        proof,
        alloc,
        Entry::Node(over(alloc, Operator::Bvxor, &[0, 2])?),
    )?;
    add(proof, alloc, Entry::Leaf(0))?;
    add(proof, alloc, Entry::Leaf(2))?;
    add(proof, alloc, Entry::Encode(3))?;
    Ok(())
}

fn element(alloc: Global) -> Result<Proof, AllocError>
    ensures { IfOk result (λ p. Stands p.terms.nodes p.log) }
{
    let mut proof = opened(alloc, one_word(alloc)?)?;
    match log_element(&mut proof, alloc) {
        Ok(()) => Ok(proof),
        Err(error) => {
            drop(proof);
            Err(error)
        }
    }
}

// The bits of words of one bit that are to be 1, or 0.
fn bits(alloc: Global, log: &Log, wanted: &[(TermId, bool)]) -> Result<Vec<Lit>, AllocError>
    ensures { IfOk result (λ v. AreBelow log.now.next v.items) }
{
    let mut literals = Vec::new(alloc);
    for (term, is_one) in wanted {
        if let Some([bit]) = log.bits().of(*term) {
            let literal = if *is_one { *bit } else { bit.negated() };
            literals.push(literal)?;
        }
    }
    if !are_below(log.next(), literals.as_slice()) {
        return Err(AllocError);
    }
    Ok(literals)
}

// That the element of the array at term 0 is term 0.
fn filling(alloc: Global) -> Lemma {
    Lemma::Arrays(
        Access {
            start: Start::Const(1, 0),
            path: Path::none(alloc),
        },
        Access {
            start: Start::Term(2),
            path: Path::none(alloc),
        },
    )
}

// Whether a term has bits on the board.
fn has_bits<B: Board>(board: &B, term: TermId) -> bool
    ensures { result ≡ true → IsSome ((state_of (B.nodes board.now) (B.log board.now)).bits term) }
{
    match board.bits().of(term) {
        Some(_) => true,
        None => false,
    }
}

// Whether the equality of two terms may be given a variable.
fn are_pair<B: Board>(board: &B, terms: &Terms, lower: TermId, upper: TermId) -> bool
    requires { B.nodes board.now ≡ terms.now.nodes }
    ensures { result ≡ true
        → IsPair (B.nodes board.now) (state_of (B.nodes board.now) (B.log board.now)) lower upper }
{
    lower < upper
        && upper < terms.len()
        && terms.sort(lower) == terms.sort(upper)
        && has_bits(board, lower)
        && has_bits(board, upper)
}

// The clause of a lemma on the board, if it has one.
fn lemma_clause<B: LemmaBoard>(
    board: &B,
    alloc: Global,
    terms: &Terms,
    lemma: &Lemma,
) -> Option<Clause>
    requires { B.nodes board.now ≡ terms.now.nodes }
    ensures { IsSome result
        → IsLemma (B.nodes board.now) (state_of (B.nodes board.now) (B.log board.now)) lemma.now }
{
    match clause_of(alloc, terms, board.bits(), board.equals(), lemma) {
        Ok(clause) => Some(clause),
        Err(_) => None,
    }
}

// Puts the equality of terms 0 and 2.
fn put_equality<B: LemmaBoard>(board: &mut B, terms: &Terms) -> Result<(), AllocError>
    requires { B.nodes board.old ≡ terms.now.nodes }
    ensures { OnOk result
        (IsLaterByMore (B.nodes board.old) (B.nodes board.new) (B.log board.old) (B.log board.new)
        (B.knows board.old) (B.knows board.new)) }
{
    if !are_pair(board, terms, 0, 2) {
        return Err(AllocError);
    }
    board.define(0, 2)?;
    Ok(())
}

// Puts the lemma.
fn put_filling<B: LemmaBoard>(board: &mut B, alloc: Global, terms: &Terms) -> Result<(), AllocError>
    requires { B.nodes board.old ≡ terms.now.nodes }
    ensures { OnOk result
        (IsLaterByMore (B.nodes board.old) (B.nodes board.new) (B.log board.old) (B.log board.new)
        (B.knows board.old) (B.knows board.new)) }
{
    let lemma = filling(alloc);
    let Some(_) = lemma_clause(&*board, alloc, terms, &lemma) else {
        return Err(AllocError);
    };
    board.put_lemma(lemma)?;
    Ok(())
}

// The search takes what was put.
fn take_all<B: Board>(board: &mut B, search: &mut Search) -> Result<(), AllocError>
    requires { IsSearch search.old (B.nodes board.old) (B.log board.old) }
    ensures later { OnOk result
        (IsLater (B.nodes board.old) (B.nodes board.new) (B.log board.old) (B.log board.new)
        (B.knows board.old) (B.knows board.new)) }
    ensures search { OnOk result (IsSearch search.new (B.nodes board.new) (B.log board.new)) }
    ensures given { OnOk result (given_in search.new ≡ given_in search.old) }
{
    let told = board.sync()?;
    search.take_steps(&*board, told.upto)?;
    Ok(())
}

// The search takes the equality and the lemma.
fn take_lemma<B: LemmaBoard>(
    board: &mut B,
    search: &mut Search,
    alloc: Global,
    terms: &Terms,
    given: &[Lit],
) -> Result<(), AllocError>
    requires nodes { B.nodes board.old ≡ terms.now.nodes }
    requires search { IsSearch search.old (B.nodes board.old) (B.log board.old) }
    requires below { AreBelow (state_of (B.nodes board.old) (B.log board.old)).next given.now }
    ensures search { OnOk result (IsSearch search.new (B.nodes board.new) (B.log board.new)) }
    ensures below { OnOk result
        (AreBelow (state_of (B.nodes board.new) (B.log board.new)).next given.now) }
    ensures given { OnOk result (given_in search.new ≡ given_in search.old) }
{
    let _given = given;
    put_equality(board, terms)?;
    put_filling(board, alloc, terms)?;
    take_all(board, search)?;
    Ok(())
}

// Whether the run goes on so.
fn goes_on<B: Board>(
    board: &mut B,
    search: &mut Search,
    given: &[Lit],
    budget: u64,
    wanted: Ended,
) -> Result<bool, AllocError>
    requires search { IsSearch search.old (B.nodes board.old) (B.log board.old) }
    requires below { AreBelow (state_of (B.nodes board.old) (B.log board.old)).next given.now }
    requires given { given_in search.old ≡ given.now }
    ensures later { OnOk result
        (IsLater (B.nodes board.old) (B.nodes board.new) (B.log board.old) (B.log board.new)
        (B.knows board.old) (B.knows board.new)) }
    ensures search { OnOk result (IsSearch search.new (B.nodes board.new) (B.log board.new)) }
{
    let end = search.resume(board, CUBE, given, budget)?;
    let is_so = is_end(&*search, &end, wanted);
    drop(end);
    Ok(is_so)
}

// Whether a run ends with a model, goes on so with the lemma, and another run ends so.
fn are_ends<B: LemmaBoard>(
    board: &mut B,
    search: &mut Search,
    alloc: Global,
    terms: &Terms,
    given: &[Lit],
    budget: u64,
    wanted: Ended,
    again: Ended,
) -> Result<bool, AllocError>
    requires nodes { B.nodes board.old ≡ terms.now.nodes }
    requires search { IsSearch search.old (B.nodes board.old) (B.log board.old) }
    requires below { AreBelow (state_of (B.nodes board.old) (B.log board.old)).next given.now }
{
    let is_model = is_run(board, search, given, budget, Ended::Model)?;
    take_lemma(board, search, alloc, terms, given)?;
    let is_end = goes_on(board, search, given, budget, wanted)?;
    let is_again = is_run(board, search, given, budget, again)?;
    Ok(is_model && is_end && is_again)
}

// The same of a search over the whole log.
fn ends_on<B: LemmaBoard>(
    board: &mut B,
    alloc: Global,
    terms: &Terms,
    from: u64,
    given: &[Lit],
    budget: u64,
    wanted: Ended,
    again: Ended,
) -> Result<bool, AllocError>
    requires nodes { B.nodes board.old ≡ terms.now.nodes }
    requires listed { IsTermList (B.nodes board.old) }
    requires known { (p : ℕ) → p < from → B.knows board.old p }
    requires from { from ≤ suc (length (B.log board.old)) }
    requires below { AreBelow (state_of (B.nodes board.old) (B.log board.old)).next given.now }
{
    let mut search = begun(alloc, &*board, from, from)?;
    let are_so = are_ends(
        board,
        &mut search,
        alloc,
        terms,
        given,
        budget,
        wanted,
        again,
    );
    drop(search);
    are_so
}

fn log_ends(
    alloc: Global,
    proof: Proof,
    given: &[Lit],
    budget: u64,
    wanted: Ended,
    again: Ended,
) -> Result<bool, AllocError>
    requires stands { Stands proof.terms.nodes proof.log }
    requires given { AreBelow proof.log.next given.now }
{
    let _terms = proof.terms.len();
    let from = proof.log.len();
    let mut board = LogBoard::new(alloc, proof.log, &proof.terms);
    let is_so = ends_on(
        &mut board,
        alloc,
        &proof.terms,
        from,
        given,
        budget,
        wanted,
        again,
    );
    drop(board);
    drop(proof.terms);
    is_so
}

// Whether a search of the element ends so, and another run of it so, where these words of one bit are 1, or 0.
fn ends(
    alloc: Global,
    words: &[(TermId, bool)],
    budget: u64,
    wanted: Ended,
    again: Ended,
) -> Result<bool, AllocError> {
    let proof = element(alloc)?;
    match bits(alloc, &proof.log, words) {
        Ok(given) => log_ends(alloc, proof, given.as_slice(), budget, wanted, again),
        Err(error) => {
            drop(proof);
            Err(error)
        }
    }
}

#[test]
fn a_false_lemma_closes_given_literals(rt: HostRuntime) -> Result<(), Fail> {
    let words = [(0, true), (2, false)];
    assert!(rt; ends(rt.alloc(), &words, 0, Ended::Closed, Ended::Closed)?);
    Ok(())
}

#[test]
fn a_false_lemma_changes_the_model(rt: HostRuntime) -> Result<(), Fail> {
    // The bits of terms 0 and 2 are of variables 2 and 3.
    for (word, other) in [(0, 3), (2, 2)] {
        let model = Ended::ModelWith(other);
        assert!(rt; ends(rt.alloc(), &[(word, true)], 0, model, model)?);
    }
    Ok(())
}

#[test]
fn an_equality_and_a_lemma_have_lines_and_count_as_no_put(rt: HostRuntime) -> Result<(), Fail> {
    let alloc = rt.alloc();
    // The put that spends a budget of none is a clause that the other run takes.
    let spent = Ended::Spent(CUBE, 3);
    assert!(rt; ends(alloc, &[(3, true)], 0, spent, Ended::Closed)?);
    assert!(rt; ends(alloc, &[(3, true)], 1, Ended::Closed, Ended::Closed)?);
    Ok(())
}
