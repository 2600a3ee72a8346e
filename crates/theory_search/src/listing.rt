//! The variables of bits.

ghost use Rattle.std.specs.Prelude.{◌∷◌, [], OnOk};
ghost use Rattle.smt_terms.specs.Bits.{bits_in};
ghost use Rattle.cube_search.specs.Holding.{IsListing};
ghost use Rattle.theory_search.specs.Theories.{IsNaming};

use cnf_base::Lit;
use smt_terms::bits::Bits;
use smt_terms::node::TermId;
use std::alloc::AllocError;
use variable_list::VariableList;

// Lists the variables of these literals.
fn list_literals(literals: &[Lit], variables: &mut VariableList) -> Result<(), AllocError>
    ensures { OnOk result (IsListing variables.old literals.now variables.new) }
{
    'literals: for literal in literals {
        variables.add(literal.variable())?;
    }
    Ok(())
}

// Lists the variables of the bits of a term.
fn list_term(bits: &Bits, term: TermId, variables: &mut VariableList) -> Result<(), AllocError>
    ensures { OnOk result
        (IsNaming (bits_in bits.now) variables.old variables.new (term ∷ [])) }
{
    match bits.of(term) {
        Some(row) => list_literals(row, variables),
        None => Ok(()),
    }
}

/// Lists the variables of the bits of these terms.
pub(crate) fn list_terms(
    bits: &Bits,
    terms: &[TermId],
    variables: &mut VariableList,
) -> Result<(), AllocError>
    ensures { OnOk result (IsNaming (bits_in bits.now) variables.old variables.new terms.now) }
{
    'terms: for term in terms {
        list_term(bits, *term, variables)?;
    }
    Ok(())
}
