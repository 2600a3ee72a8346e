// The literals of atoms.

ghost use Rattle.std.specs.Prelude.{◌≡◌, ℕ, Option, IfOk};
ghost use Rattle.cnf_base.specs.Literals.{Literal};
ghost use Rattle.smt_terms.specs.Bits.{bits_in};
ghost use Rattle.theory_lemmas.specs.Clauses.{found_equal, equal_lit, bit_lit, atom_lit, lits_of, are_shown, clause_of, IsClauseOf};

use crate::atoms::atoms_of;
use crate::fault::{LemmaError, LemmaFault};
use cnf_base::{Clause, Lit};
use smt_terms::bits::Bits;
use smt_terms::node::TermId;
use smt_terms::terms::Terms;
use std::alloc::{AllocError, Global};
use theory_terms::atom::Atom;
use theory_terms::lemma::Lemma;

/// The variables of equalities, by the lower and the higher term.
pub trait Equalities {
    ghost equal: { Self → ℕ → ℕ → Option Literal };

    /// The literal that is true where these terms are equal, if there is one; takes no memory. It is asked with the lower
    /// term first.
    fn of(&self, t: TermId, u: TermId) -> Option<Lit>
        ensures { result ≡ equal self.now t u };
}

/// The literal of the equality of a lower and a higher term.
fn found_equal<E: Equalities>(equals: &E, t: TermId, u: TermId) -> Result<Lit, LemmaFault>
    ensures { result ≡ found_equal t u (E.equal equals.now t u) }
{
    match equals.of(t, u) {
        Some(literal) => Ok(literal),
        None => Err(LemmaFault::NoEqual(t, u)),
    }
}

/// The literal that is true where two terms are equal.
fn equal_lit<E: Equalities>(equals: &E, t: TermId, u: TermId) -> Result<Lit, LemmaFault>
    ensures { result ≡ equal_lit (E.equal equals.now) t u }
{
    if t == u {
        return Ok(Lit::new(1, true));
    }
    if t < u {
        found_equal(equals, t, u)
    } else {
        found_equal(equals, u, t)
    }
}

fn bit_lit(bits: &Bits, t: TermId) -> Result<Lit, LemmaFault>
    ensures { result ≡ bit_lit (bits_in bits.now) t }
{
    match bits.of(t) {
        Some([literal]) => Ok(*literal),
        _ => Err(LemmaFault::Shape),
    }
}

/// The literal of an atom.
pub fn atom_lit<E: Equalities>(bits: &Bits, equals: &E, atom: Atom) -> Result<Lit, LemmaFault>
    ensures { result ≡ atom_lit (bits_in bits.now) (E.equal equals.now) atom }
{
    match atom {
        Atom::Same(t, u) => equal_lit(equals, t, u),
        Atom::Differ(t, u) => match equal_lit(equals, t, u) {
            Ok(literal) => Ok(literal.negated()),
            Err(fault) => Err(fault),
        },
        Atom::Holds(t) => bit_lit(bits, t),
        Atom::Fails(t) => match bit_lit(bits, t) {
            Ok(literal) => Ok(literal.negated()),
            Err(fault) => Err(fault),
        },
    }
}

/// Whether the terms of which these atoms name the bit have one.
fn are_shown(bits: &Bits, atoms: &[Atom]) -> bool
    ensures { result ≡ are_shown (bits_in bits.now) atoms.now }
{
    for atom in atoms {
        if let Atom::Holds(t) | Atom::Fails(t) = *atom {
            if bit_lit(bits, t).is_err() {
                return false;
            }
        }
    }
    true
}

/// The literals of these atoms, or the first fault.
fn lits_of<E: Equalities>(
    alloc: Global,
    bits: &Bits,
    equals: &E,
    atoms: &[Atom],
) -> Result<Clause, LemmaError>
    ensures { IsClauseOf (lits_of (bits_in bits.now) (E.equal equals.now) atoms.now) result }
{
    let mut literals = Vec::new(alloc);
    for atom in atoms {
        let literal = atom_lit(bits, equals, *atom)?;
        literals.push(literal)?;
    }
    Ok(Clause::from_vec(literals))
}

/// The clause of a lemma. The fault is `Shape` where its terms, paths or bits are not those of one, and else the first
/// equality in the clause that has no variable.
pub fn clause_of<E: Equalities>(
    alloc: Global,
    terms: &Terms,
    bits: &Bits,
    equals: &E,
    lemma: &Lemma,
) -> Result<Clause, LemmaError>
    ensures { IsClauseOf
        (clause_of terms.now.nodes (bits_in bits.now) (E.equal equals.now) lemma.now) result }
{
    let Some(atoms) = atoms_of(alloc, terms, lemma)? else {
        return Err(LemmaError::Fault(LemmaFault::Shape));
    };
    if !are_shown(bits, atoms.as_slice()) {
        return Err(LemmaError::Fault(LemmaFault::Shape));
    }
    lits_of(alloc, bits, equals, atoms.as_slice())
}
