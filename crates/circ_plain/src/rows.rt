//! Rows of bits that take no gate.

ghost use Rattle.std.specs.Prelude.{◌≡◌, ◌<◌, IfOk, length, map, replicate};
ghost use Rattle.cnf_base.specs.Literals.{negated};
ghost use Rattle.circ_plain.specs.Signs.{sign_of};
ghost use Rattle.circ_plain.specs.Orders.{with_sign};

use cnf_base::Lit;
use std::alloc::{AllocError, Global};

/// The sign of a row of bits, its last one.
pub fn sign(bits: &[Lit]) -> Lit
    requires { 0 < length bits.now }
    ensures { result ≡ sign_of bits.now }
{
    bits[bits.len() - 1]
}

/// The opposite of each bit.
pub(crate) fn complement(alloc: Global, bits: &[Lit]) -> Result<Vec<Lit>, AllocError>
    ensures { IfOk result (λ r. r.items ≡ map negated bits.now) }
{
    let mut opposite = Vec::with_capacity(alloc, bits.len())?;
    for &bit in bits {
        opposite.push(bit.negated())?;
    }
    Ok(opposite)
}

/// A bit so many times.
pub(crate) fn repeated(alloc: Global, bit: Lit, count: usize) -> Result<Vec<Lit>, AllocError>
    ensures { IfOk result (λ r. r.items ≡ replicate count bit) }
{
    let mut row = Vec::new(alloc);
    row.resize(count, bit)?;
    Ok(row)
}

/// The row with another sign.
pub(crate) fn with_sign(alloc: Global, bits: &[Lit], sign: Lit) -> Result<Vec<Lit>, AllocError>
    requires { 0 < length bits.now }
    ensures { IfOk result (λ r. r.items ≡ with_sign bits.now sign) }
{
    let mut row = Vec::from_slice(alloc, &bits[..bits.len() - 1])?;
    row.push(sign)?;
    Ok(row)
}
