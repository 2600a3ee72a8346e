//! Searches of small scripts by their cubes.

ghost use Rattle.std.specs.Prelude.{◌↔◌, ◌<◌, All, IsTrue};
ghost use Rattle.proof_log.specs.Stored.{Stands};
ghost use Rattle.cube_tree.specs.Cubes.{AreVariables};
ghost use Rattle.theory_client.specs.Posed.{IsPosed};

use crate::posing::{Posed, logged, pose};
use crate::scripts::{Made, terms_of};
use crate::searching::{Outcome, are_true};
use cnf_base::Pos;
use cube_search::Search;
use cube_tree::Tree;
use proof_log::Log;
use proof_log::diary::{Diary, DiaryLine};
use smt_terms::node::TermId;
use smt_terms::terms::Terms;
use std::alloc::{AllocError, Global};
use theory_cubes::{Outcome as Found, TheoryCheck, solve};

// Whether these are variables of literals.
fn are_variables(variables: &[u64]) -> bool
    ensures { IsTrue result ↔ AreVariables variables.now }
{
    variables.iter().all(|x| 0 < *x && *x < 1 << 63)
}

// Whether each is below a number.
fn are_lower(variables: &[u64], next: u64) -> bool
    ensures { IsTrue result ↔ All (λ x. x < next) variables.now }
{
    variables.iter().all(|x| *x < next)
}

// The variables of the bits of these terms, as far as each is another.
fn variables_of(alloc: Global, log: &Log, split: &[TermId]) -> Result<Vec<u64>, AllocError> {
    let mut variables = Vec::new(alloc);
    for term in split {
        if let Some(row) = log.bits().of(*term) {
            for bit in row {
                if !variables.contains(&bit.variable()) {
                    variables.push(bit.variable())?;
                }
            }
        }
    }
    Ok(variables)
}

// Whether a diary starts at this position, and has one put more than the budget allows.
fn is_spent(diary: &Diary, from: Pos, budget: u64) -> bool {
    let mut puts: u64 = 0;
    for line in diary.lines.as_slice() {
        if let DiaryLine::Put(_) = line {
            puts = puts.saturating_add(1);
        }
    }
    diary.start == from && puts == budget.saturating_add(1)
}

// What was found, in the words of a search; a diary is to start at this position.
fn outcome_of(
    alloc: Global,
    terms: &Terms,
    roots: &[TermId],
    from: Pos,
    budget: u64,
    found: Found,
) -> Result<Outcome, AllocError> {
    match found {
        Found::Unsat(_) => Ok(Outcome::Closed),
        Found::Unknown(diary) => {
            if is_spent(&diary, from, budget) {
                Ok(Outcome::Spent)
            } else {
                Ok(Outcome::Wrong)
            }
        }
        Found::Sat(interp) => {
            if are_true(alloc, terms, &interp, roots)? {
                Ok(Outcome::Model)
            } else {
                Ok(Outcome::Wrong)
            }
        }
    }
}

// How the search of the cubes over these variables ends.
fn solved(
    alloc: Global,
    terms: &Terms,
    log: Log,
    roots: &[TermId],
    posed: &Posed,
    variables: &[u64],
    budget: u64,
) -> Result<Found, AllocError>
    requires stands { Stands terms.now.nodes log }
    requires posed { IsPosed terms.now.nodes log.entries roots.now posed.now.positions.items
        posed.now.given.items }
    requires variables { AreVariables variables.now }
    requires lower { All (λ x. x < log.next) variables.now }
{
    let _terms = terms.len();
    let tree = Tree::split(alloc, variables, 2)?;
    let mut search = Search::new(alloc)?;
    let check = TheoryCheck {
        live: roots,
        positions: posed.positions.as_slice(),
        tree: &tree,
        assumed: posed.given.as_slice(),
        budget,
    };
    match solve(alloc, terms, log, &mut search, &check) {
        Ok((_, found)) => Ok(found),
        Err(_) => Err(AllocError),
    }
}

/// How the search of the cubes of these terms ends under these assertions, over the first two
/// variables of the bits of some of the terms. For want of memory there is no answer, nor where a
/// walk from the assertions may not be called for.
pub(crate) fn solve_script(
    alloc: Global,
    table: &[Made],
    roots: &[TermId],
    split: &[TermId],
    budget: u64,
) -> Result<Outcome, AllocError> {
    let Some(terms) = terms_of(alloc, table) else {
        return Ok(Outcome::Wrong);
    };
    let log = logged(alloc, &terms)?;
    let posed = pose(alloc, &terms, &log, roots)?;
    let from = log.len();
    let variables = variables_of(alloc, &log, split)?;
    if !are_variables(variables.as_slice()) || !are_lower(variables.as_slice(), log.next()) {
        return Err(AllocError);
    }
    let found = solved(
        alloc,
        &terms,
        log,
        roots,
        &posed,
        variables.as_slice(),
        budget,
    )?;
    outcome_of(alloc, &terms, roots, from, budget, found)
}
