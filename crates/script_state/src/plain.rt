//! Which terms are plain, kept for the first terms.

ghost use Rattle.std.specs.Prelude.{◌≡◌, ◌≤◌, ◌&&◌, false, OnOk, length, slice_index_or};
ghost use Rattle.std.specs.List.{list_all, AllByRecursion};
ghost use Rattle.smt_terms.specs.Terms.{AreTerms, cut_at};
ghost use Rattle.script_state.specs.Plain.{is_plain_operator, is_plain_op, is_plain, HavePlain};

use smt_terms::node::{Node, Op, TermId};
use smt_terms::operator::Operator;
use smt_terms::terms::Terms;
use std::alloc::AllocError;

/// Whether an operator is one over Bools and words.
fn is_plain_operator(operator: Operator) -> bool
    ensures { result ≡ is_plain_operator operator }
{
    !matches!(
        operator,
        Operator::Select | Operator::Store | Operator::Witness
    )
}

/// Whether what a term is made by is plain.
fn is_plain_op(op: &Op) -> bool
    ensures { result ≡ is_plain_op op.now }
{
    match op {
        Op::Plain(operator) => is_plain_operator(*operator),
        Op::Constant {
            declaration: _,
            sort,
        } => sort.is_plain(),
        Op::Apply {
            declaration: _,
            signature: _,
        } => false,
        Op::Param { place: _, sort: _ } => false,
        Op::ConstantArray(_) => false,
        _ => true,
    }
}

/// Whether a term is kept as plain.
fn is_marked(marks: &[bool], term: TermId) -> bool
    ensures { result ≡ slice_index_or marks.now term false }
{
    match marks.get(term as usize) {
        Some(mark) => *mark,
        None => false,
    }
}

/// Whether each term is kept as plain.
pub(crate) fn are_marked(marks: &[bool], args: &[TermId]) -> bool
    ensures { result ≡ list_all (λ a. slice_index_or marks.now a false) args.now }
{
    for arg in args {
        if !is_marked(marks, *arg) {
            return false;
        }
    }
    true
}

/// Whether the operator is plain, and each argument is kept as plain.
fn is_marked_node(marks: &[bool], node: &Node) -> bool
    ensures { result
        ≡ (is_plain_op node.now.op && list_all (λ a. slice_index_or marks.now a false)
        node.now.args) }
{
    is_plain_op(&node.op) && are_marked(marks, node.args.as_slice())
}

/// Keeps of each term whether it is plain.
pub(crate) fn extend(marks: &mut Vec<bool>, terms: &Terms) -> Result<(), AllocError>
    requires { HavePlain terms.now.nodes marks.old.items }
    ensures marks { HavePlain terms.now.nodes marks.new.items }
    ensures all { OnOk result (length marks.new.items ≡ length terms.now.nodes) }
{
    let count = terms.len();
    let first = marks.len() as u32;
    for term in first..count {
        let plain = is_marked_node(marks, terms.node(term));
        marks.push(plain)?;
    }
    Ok(())
}

/// Forgets the terms from this number on.
pub(crate) fn cut(terms: &mut Terms, marks: &mut Vec<bool>, len: u32)
    requires len { len ≤ length terms.old.nodes }
    requires marks { HavePlain terms.old.nodes marks.old.items }
    ensures terms { terms.new ≡ cut_at terms.old len }
    ensures marks { HavePlain terms.new.nodes marks.new.items }
{
    terms.cut(len);
    marks.truncate(len as usize);
}
