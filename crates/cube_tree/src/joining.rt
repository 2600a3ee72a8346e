//! Joining of the clauses that close the cubes of a check.

ghost use Rattle.std.specs.Prelude.{◌≡◌, ◌<◌, ◌^◌, ◌/◌, ℕ, List, [], ◌∷◌, Some, IfOk, length};
ghost use Rattle.cnf_base.specs.Literals.{Literal, positive_of, negative_of};
ghost use Rattle.smt_terms.specs.Terms.{IsTermList};
ghost use Rattle.proof_log.specs.Logs.{clause_at};
ghost use Rattle.proof_log.specs.Boards.{Grows};
ghost use Rattle.proof_log.specs.Stored.{Stands};
ghost use Rattle.cube_tree.specs.Closing.{first_of, Closes, AreClosing, HaveClauses};

use crate::resolvent::{has, hints_of, resolvent};
use crate::tree::Tree;
use cnf_base::{ClauseId, Lit, Pos};
use proof_log::Log;
use proof_log::entry::{Entry, Hints};
use smt_terms::terms::Terms;
use std::alloc::{AllocError, Global};

// The position of a clause that closes what two cubes have in common: the left one has the variable, the right one its
// opposite, and their other literals are the same. A clause without its cube's literal closes it as it stands.
fn resolve(
    alloc: Global,
    terms: &Terms,
    log: &mut Log,
    variable: u64,
    left: Pos,
    right: Pos,
) -> Result<Pos, AllocError>
    requires variable { (0 < variable) × (variable < 2 ^ 63) }
    requires listed { IsTermList terms.now.nodes }
    requires stands { Stands terms.now.nodes log.old }
    requires left { (c : List Literal) × (clause_at log.old.clauses (first_of left) ≡ Some c) }
    requires right { (c : List Literal) × (clause_at log.old.clauses (first_of right) ≡ Some c) }
    ensures stands { Stands terms.now.nodes log.new }
    ensures grows { Grows log.old.entries log.new.entries }
    ensures found { IfOk result (λ p. (c : List Literal)
        × (clause_at log.new.clauses (first_of p) ≡ Some c)) }
    ensures closes { IfOk result (λ p. (assumed cube : List Literal) →
        Closes (clause_at log.old.clauses) assumed (positive_of variable ∷ cube) left →
        Closes (clause_at log.old.clauses) assumed (negative_of variable ∷ cube) right →
        Closes (clause_at log.new.clauses) assumed cube p) }
{
    let literal = Lit::new(variable, false);
    let at_left = ClauseId { pos: left, part: 0 };
    let at_right = ClauseId {
        pos: right,
        part: 0,
    };
    let (Some(first), Some(second)) = (log.clause(at_left), log.clause(at_right)) else {
        unreachable!()
    };
    if !has(first.literals(), literal) {
        return Ok(left);
    }
    if !has(second.literals(), literal.negated()) {
        return Ok(right);
    }
    let clause = resolvent(alloc, first.literals(), second.literals(), literal)?;
    let names = hints_of(alloc, clause.literals(), literal, at_left, at_right)?;
    let hints = Hints::of(alloc, names.as_slice())?;
    let place = log.push(alloc, terms, Entry::Chain(clause, hints))?;
    Ok(place)
}

// Joins the cubes that differ in one variable alone, the first: cubes 2m and 2m + 1, whose other literals are those of
// cube m over the other variables.
fn join_pairs(
    alloc: Global,
    terms: &Terms,
    log: &mut Log,
    variable: u64,
    places: &[Pos],
) -> Result<Vec<Pos>, AllocError>
    requires variable { (0 < variable) × (variable < 2 ^ 63) }
    requires listed { IsTermList terms.now.nodes }
    requires stands { Stands terms.now.nodes log.old }
    requires clauses { HaveClauses (clause_at log.old.clauses) places.now }
    ensures stands { Stands terms.now.nodes log.new }
    ensures grows { Grows log.old.entries log.new.entries }
    ensures len { IfOk result (λ joined. length joined.items ≡ length places.now / 2) }
    ensures clauses { IfOk result (λ joined. HaveClauses (clause_at log.new.clauses) joined.items) }
    ensures closing { IfOk result (λ joined. (assumed : List Literal) (rest : List ℕ) →
        AreClosing (clause_at log.old.clauses) assumed (variable ∷ rest) places.now →
        AreClosing (clause_at log.new.clauses) assumed rest joined.items) }
{
    let mut joined = Vec::new(alloc);
    for m in 0..places.len() / 2 {
        let place = resolve(
            alloc,
            terms,
            log,
            variable,
            places[2 * m],
            places[2 * m + 1],
        )?;
        joined.push(place)?;
    }
    Ok(joined)
}

/// The position of a clause that closes the cube without a literal, from the position of one clause for each cube in the
/// order of the cubes' numbers: where each closes its cube, whatever literals are assumed, the answer has only opposites
/// of assumed ones. The log gains a chain for each resolvent, also where memory ends.
pub fn join(
    alloc: Global,
    tree: &Tree,
    terms: &Terms,
    log: &mut Log,
    closed: &[Pos],
) -> Result<Pos, AllocError>
    requires listed { IsTermList terms.now.nodes }
    requires stands { Stands terms.now.nodes log.old }
    requires each { length closed.now ≡ 2 ^ length tree.now }
    requires clauses { HaveClauses (clause_at log.old.clauses) closed.now }
    ensures stands { Stands terms.now.nodes log.new }
    ensures grows { Grows log.old.entries log.new.entries }
    ensures closes { IfOk result (λ p. (assumed : List Literal) →
        AreClosing (clause_at log.old.clauses) assumed tree.now closed.now →
        Closes (clause_at log.new.clauses) assumed [] p) }
{
    let mut places = Vec::from_slice(alloc, closed)?;
    for variable in tree.variables() {
        places = join_pairs(alloc, terms, log, *variable, places.as_slice())?;
    }
    Ok(places[0])
}
