//! Rows of bits that take no gate.

ghost use Rattle.std.specs.Prelude.{◌≡◌, IfOk, map, replicate};
ghost use Rattle.cnf_base.specs.Literals.{negated, false_literal};

use cnf_base::Lit;
use std::alloc::{AllocError, Global};

/// The opposite of each bit.
pub fn negated(alloc: Global, bits: &[Lit]) -> Result<Vec<Lit>, AllocError>
    ensures { IfOk result (λ r. r.items ≡ map negated bits.now) }
{
    bits.iter().map(|bit| bit.negated()).collect(alloc)
}

/// The word 0.
pub fn zeros(alloc: Global, width: usize) -> Result<Vec<Lit>, AllocError>
    ensures { IfOk result (λ r. r.items ≡ replicate width false_literal) }
{
    vec![in alloc; Lit::FALSE; width]
}
