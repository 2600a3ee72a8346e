//! The circuit of a term.

ghost use Rattle.std.specs.Prelude.{◌≡◌, ◌≢◌, None, [], ◌∷◌, ◌+◌, ◌^◌, ◌≤◌, ◌<◌, IfOk, IfSome, OnErr, MatchOption, length};
ghost use Rattle.smt_terms.specs.Nodes.{node_at};
ghost use Rattle.smt_terms.specs.Bits.{bits_in};
ghost use Rattle.bit_blast.specs.Meanings.{Fix};
ghost use Rattle.bit_blast.specs.Circuits.{built};
ghost use Rattle.bit_blast.specs.Blocks.{block_of, circuit_of, operator_circuit, connective_of, IsSigned, IsProduct, IsBuilt, HasNone, EachShort};

use crate::rows;
use circ_muldiv::{divide, mul, sdiv, smod, srem};
use circ_plain::{ashr, lshr, neg, shl};
use cnf_base::{Circuit, Lit};
use smt_terms::bits::Bits;
use smt_terms::node::{Op, TermId};
use smt_terms::operator::Operator;
use smt_terms::terms::Terms;
use std::alloc::AllocError;

/// Appends the circuit of a term to `circuit` and gives the literals of its bits, the lowest first. `None` exactly
/// where an argument has no bits or the operator has no circuit over them; the circuit is then as before. The clauses
/// fix the bits: they are those of the operator's value of the arguments' values.
pub fn encode(
    terms: &Terms,
    bits: &Bits,
    t: TermId,
    circuit: &mut Circuit,
) -> Result<Option<Vec<Lit>>, AllocError>
    requires held { t < length terms.now.nodes }
    requires short { EachShort bits.now }
    requires room { circuit.old.next + 2 ^ 17 ≤ 2 ^ 63 }
    ensures ok { IfOk result (λ o. MatchOption o
        (HasNone (block_of circuit.old.next (bits_in bits.now) (node_at terms.now.nodes t))
        circuit.old circuit.new)
        (λ row. IsBuilt (block_of circuit.old.next (bits_in bits.now) (node_at terms.now.nodes t))
        row.items circuit.old circuit.new)) }
    ensures means { IfOk result
        (λ o. IfSome o
        (λ row. Fix circuit.new.clauses (bits_in bits.now) (node_at terms.now.nodes t) row.items)) }
    ensures size { circuit.new.next ≤ circuit.old.next + 2 ^ 17 }
    ensures err { OnErr result (circuit.new ≡ circuit.old) }
{
    block(terms, bits, t, circuit)
}

// The circuit of a term, by how many arguments it has.
fn block(
    terms: &Terms,
    bits: &Bits,
    t: TermId,
    circuit: &mut Circuit,
) -> Result<Option<Vec<Lit>>, AllocError>
    requires held { t < length terms.now.nodes }
    requires short { EachShort bits.now }
    requires room { circuit.old.next + 2 ^ 17 ≤ 2 ^ 63 }
    ensures ok { IfOk result (λ o. MatchOption o
        (HasNone (block_of circuit.old.next (bits_in bits.now) (node_at terms.now.nodes t))
        circuit.old circuit.new)
        (λ row. IsBuilt (block_of circuit.old.next (bits_in bits.now) (node_at terms.now.nodes t))
        row.items circuit.old circuit.new)) }
    ensures err { OnErr result (circuit.new ≡ circuit.old) }
{
    let node = terms.node(t);
    match node.args.as_slice() {
        [] => leaf(&node.op, circuit),
        [a] => {
            let Some(a) = bits.of(*a) else {
                return Ok(None)
            };
            unary(&node.op, a, circuit)
        }
        [a, b] => {
            let Some(a) = bits.of(*a) else {
                return Ok(None)
            };
            let Some(b) = bits.of(*b) else {
                return Ok(None)
            };
            binary(&node.op, a, b, circuit)
        }
        [c, a, b] => {
            let Some(c) = bits.of(*c) else {
                return Ok(None)
            };
            let Some(a) = bits.of(*a) else {
                return Ok(None)
            };
            let Some(b) = bits.of(*b) else {
                return Ok(None)
            };
            ternary(&node.op, c, a, b, circuit)
        }
        _ => Ok(None),
    }
}

// The bits of an operator without arguments.
fn leaf(op: &Op, circuit: &mut Circuit) -> Result<Option<Vec<Lit>>, AllocError>
    ensures ok { IfOk result (λ o. MatchOption o
        (HasNone (built (circuit_of op.now) circuit.old.next []) circuit.old circuit.new)
        (λ row. IsBuilt (built (circuit_of op.now) circuit.old.next []) row.items circuit.old
        circuit.new)) }
    ensures err { OnErr result (circuit.new ≡ circuit.old) }
{
    match op {
        Op::Plain(Operator::True) => Ok(Some(rows::literal_row(circuit.alloc(), 1, 1)?)),
        Op::Plain(Operator::False) => Ok(Some(rows::literal_row(circuit.alloc(), 1, 0)?)),
        Op::Word { width, value } => {
            Ok(Some(rows::literal_row(circuit.alloc(), *width, *value)?))
        }
        _ => Ok(None),
    }
}

// The circuit of an operator over one row.
fn unary(op: &Op, a: &[Lit], circuit: &mut Circuit) -> Result<Option<Vec<Lit>>, AllocError>
    requires short { length a.now ≤ 128 }
    requires room { circuit.old.next + 2 ^ 17 ≤ 2 ^ 63 }
    ensures ok { IfOk result (λ o. MatchOption o
        (HasNone (built (circuit_of op.now) circuit.old.next (a.now ∷ [])) circuit.old circuit.new)
        (λ row. IsBuilt (built (circuit_of op.now) circuit.old.next (a.now ∷ [])) row.items
        circuit.old circuit.new)) }
    ensures err { OnErr result (circuit.new ≡ circuit.old) }
{
    let alloc = circuit.alloc();
    match op {
        Op::Plain(Operator::Not | Operator::Bvnot) => Ok(Some(rows::negated_row(alloc, a)?)),
        Op::Plain(Operator::Bvneg) => Ok(Some(neg(circuit, a)?)),
        Op::ZeroExtend(more) => Ok(Some(rows::extended(alloc, a, *more, Lit::FALSE)?)),
        Op::SignExtend(more) => Ok(Some(rows::extended(alloc, a, *more, rows::top(a))?)),
        Op::Repeat(copies) => Ok(Some(rows::repeated(alloc, *copies, a)?)),
        Op::Extract { high, low } => Ok(Some(rows::extracted(alloc, *high, *low, a)?)),
        Op::RotateLeft(places) => Ok(Some(rows::rotated_left(alloc, *places, a)?)),
        Op::RotateRight(places) => Ok(Some(rows::rotated_right(alloc, *places, a)?)),
        _ => Ok(None),
    }
}

// The circuit of an operator over two rows.
fn binary(
    op: &Op,
    a: &[Lit],
    b: &[Lit],
    circuit: &mut Circuit,
) -> Result<Option<Vec<Lit>>, AllocError>
    requires short { length a.now ≤ 128 }
    requires room { circuit.old.next + 2 ^ 17 ≤ 2 ^ 63 }
    ensures ok { IfOk result (λ o. MatchOption o
        (HasNone (built (circuit_of op.now) circuit.old.next (a.now ∷ b.now ∷ [])) circuit.old
        circuit.new)
        (λ row. IsBuilt (built (circuit_of op.now) circuit.old.next (a.now ∷ b.now ∷ [])) row.items
        circuit.old circuit.new)) }
    ensures err { OnErr result (circuit.new ≡ circuit.old) }
{
    let Op::Plain(operator) = op else {
        return Ok(None)
    };
    if let Operator::Concat = operator {
        return Ok(Some(rows::joined(circuit.alloc(), b, a)?));
    }
    if a.len() != b.len() {
        return Ok(None);
    }
    match rows::bitwise_kind(*operator) {
        Some((kind, positive)) => Ok(Some(rows::bitwise(kind, positive, a, b, circuit)?)),
        None => paired(*operator, a, b, circuit),
    }
}

// The circuit of an operator over two rows of one length, which is not bit by bit.
fn paired(
    operator: Operator,
    a: &[Lit],
    b: &[Lit],
    circuit: &mut Circuit,
) -> Result<Option<Vec<Lit>>, AllocError>
    requires same { length a.now ≡ length b.now }
    requires short { length a.now ≤ 128 }
    requires room { circuit.old.next + 2 ^ 17 ≤ 2 ^ 63 }
    requires other { connective_of operator ≡ None }
    requires split { operator ≢ Operator.Concat }
    ensures ok { IfOk result (λ o. MatchOption o
        (HasNone (built (operator_circuit operator) circuit.old.next (a.now ∷ b.now ∷ []))
        circuit.old circuit.new)
        (λ row. IsBuilt (built (operator_circuit operator) circuit.old.next (a.now ∷ b.now ∷ []))
        row.items circuit.old circuit.new)) }
    ensures err { OnErr result (circuit.new ≡ circuit.old) }
{
    match operator {
        Operator::Equal | Operator::Bvcomp => Ok(Some(rows::equality(a, b, circuit)?)),
        Operator::Bvadd => Ok(Some(rows::sum(Lit::FALSE, a, b, circuit)?)),
        Operator::Bvsub => Ok(Some(rows::difference(a, b, circuit)?)),
        Operator::Bvult => Ok(Some(rows::below(a, b, circuit)?)),
        Operator::Bvugt => Ok(Some(rows::below(b, a, circuit)?)),
        Operator::Bvule => Ok(Some(rows::not_above(a, b, circuit)?)),
        Operator::Bvuge => Ok(Some(rows::not_above(b, a, circuit)?)),
        Operator::Bvshl => Ok(Some(shl(circuit, a, b)?)),
        Operator::Bvlshr => Ok(Some(lshr(circuit, a, b)?)),
        Operator::Bvslt | Operator::Bvsgt | Operator::Bvsle | Operator::Bvsge | Operator::Bvashr =>
            signed(operator, a, b, circuit),
        Operator::Bvmul
        | Operator::Bvudiv
        | Operator::Bvurem
        | Operator::Bvsdiv
        | Operator::Bvsrem
        | Operator::Bvsmod => multiplied(operator, a, b, circuit),
        _ => Ok(None),
    }
}

// The circuit of an operator over two rows of one length, the highest bit of which is a sign.
fn signed(
    operator: Operator,
    a: &[Lit],
    b: &[Lit],
    circuit: &mut Circuit,
) -> Result<Option<Vec<Lit>>, AllocError>
    requires same { length a.now ≡ length b.now }
    requires short { length a.now ≤ 128 }
    requires room { circuit.old.next + 2 ^ 17 ≤ 2 ^ 63 }
    requires sign { IsSigned operator }
    ensures ok { IfOk result (λ o. MatchOption o
        (HasNone (built (operator_circuit operator) circuit.old.next (a.now ∷ b.now ∷ []))
        circuit.old circuit.new)
        (λ row. IsBuilt (built (operator_circuit operator) circuit.old.next (a.now ∷ b.now ∷ []))
        row.items circuit.old circuit.new)) }
    ensures err { OnErr result (circuit.new ≡ circuit.old) }
{
    if a.len() == 0 {
        return Ok(None);
    }
    match operator {
        Operator::Bvslt => Ok(Some(rows::signed_below(a, b, circuit)?)),
        Operator::Bvsgt => Ok(Some(rows::signed_below(b, a, circuit)?)),
        Operator::Bvsle => Ok(Some(rows::signed_not_above(a, b, circuit)?)),
        Operator::Bvsge => Ok(Some(rows::signed_not_above(b, a, circuit)?)),
        Operator::Bvashr => Ok(Some(ashr(circuit, a, b)?)),
        _ => Ok(None),
    }
}

// The circuit of a product, a quotient or a remainder of two rows of one length.
fn multiplied(
    operator: Operator,
    a: &[Lit],
    b: &[Lit],
    circuit: &mut Circuit,
) -> Result<Option<Vec<Lit>>, AllocError>
    requires same { length a.now ≡ length b.now }
    requires short { length a.now ≤ 128 }
    requires room { circuit.old.next + 2 ^ 17 ≤ 2 ^ 63 }
    requires product { IsProduct operator }
    ensures ok { IfOk result (λ o. MatchOption o
        (HasNone (built (operator_circuit operator) circuit.old.next (a.now ∷ b.now ∷ []))
        circuit.old circuit.new)
        (λ row. IsBuilt (built (operator_circuit operator) circuit.old.next (a.now ∷ b.now ∷ []))
        row.items circuit.old circuit.new)) }
    ensures err { OnErr result (circuit.new ≡ circuit.old) }
{
    if a.len() == 0 {
        return Ok(None);
    }
    match operator {
        Operator::Bvmul => Ok(Some(mul(circuit, a, b)?)),
        Operator::Bvudiv => {
            let (quotient, _) = divide(circuit, a, b)?;
            Ok(Some(quotient))
        }
        Operator::Bvurem => {
            let (_, remainder) = divide(circuit, a, b)?;
            Ok(Some(remainder))
        }
        Operator::Bvsdiv => Ok(Some(sdiv(circuit, a, b)?)),
        Operator::Bvsrem => Ok(Some(srem(circuit, a, b)?)),
        Operator::Bvsmod => Ok(Some(smod(circuit, a, b)?)),
        _ => Ok(None),
    }
}

// The circuit of an operator over a condition and two rows.
fn ternary(
    op: &Op,
    c: &[Lit],
    a: &[Lit],
    b: &[Lit],
    circuit: &mut Circuit,
) -> Result<Option<Vec<Lit>>, AllocError>
    requires short { length a.now ≤ 128 }
    requires room { circuit.old.next + 2 ^ 17 ≤ 2 ^ 63 }
    ensures ok { IfOk result (λ o. MatchOption o
        (HasNone (built (circuit_of op.now) circuit.old.next (c.now ∷ a.now ∷ b.now ∷ []))
        circuit.old circuit.new)
        (λ row. IsBuilt (built (circuit_of op.now) circuit.old.next (c.now ∷ a.now ∷ b.now ∷ []))
        row.items circuit.old circuit.new)) }
    ensures err { OnErr result (circuit.new ≡ circuit.old) }
{
    let Op::Plain(Operator::Ite) = op else {
        return Ok(None)
    };
    let [condition] = c else { return Ok(None) };
    if a.len() != b.len() {
        return Ok(None);
    }
    Ok(Some(circuit.mux(*condition, a, b)?))
}
