// What a check is given: the selectors of the live assertions, and the bits of the assumptions.

ghost use Rattle.std.specs.Prelude.{◌≡◌, ◌∷◌, [], All, IfOk, Some};
ghost use Rattle.smt_terms.specs.Bits.{bits_in};
ghost use Rattle.script_state.specs.declared.answer.Asked.{Asked as AskedValue};
ghost use Rattle.proof_log.specs.Stored.{Stands};
ghost use Rattle.smt_session.specs.Growing.{Grows, HasBit, HasBits, AreBits, AreGiven};
ghost use Rattle.script_state.specs.States.{roots};

use crate::selecting::select_all;
use cnf_base::Lit;
use proof_log::Log;
use script_state::answer::Asked;
use script_state::state::State;
use smt_terms::node::TermId;
use std::alloc::{AllocError, Global};

/// The bit of a term that has one.
fn bit_of(log: &Log, term: TermId) -> Lit
    requires { HasBit log.now term }
    ensures { bits_in log.now.bits term ≡ Some (result ∷ []) }
{
    match log.bits().of(term) {
        Some(bits) => bits[0],
        None => unreachable!(),
    }
}

/// The bits of assumptions.
fn bits_of(alloc: Global, log: &Log, assumptions: &[Asked]) -> Result<Vec<Lit>, AllocError>
    requires { All (λ (a : AskedValue). HasBit log.now a.term) assumptions.now }
    ensures { IfOk result (λ bits. AreBits log.now assumptions.now bits.items) }
{
    let mut bits = Vec::new(alloc);
    'assumed: for assumption in assumptions {
        let bit = bit_of(log, assumption.term);
        bits.push(bit)?;
    }
    Ok(bits)
}

/// Gives each live assertion a selector; gives the selectors, and then the bits of the assumptions.
pub(crate) fn give(alloc: Global, state: &State, log: &mut Log) -> Result<Vec<Lit>, AllocError>
    requires bits { All (HasBits log.old) (roots state.now) }
    requires stands { Stands state.now.terms.nodes log.old }
    ensures grows { IfOk result (λ _. Grows state.now log.old log.new) }
    ensures given { IfOk result (λ given. AreGiven state.now log.new given.items) }
{
    let mut given = select_all(alloc, state, log, state.live())?;
    let bits = bits_of(alloc, log, state.assumptions())?;
    given.extend_from_slice(bits.as_slice())?;
    Ok(given)
}
