// The variables by which a check may be split: those of the declared names that it reaches.

ghost use Rattle.std.specs.Prelude.{◌≡◌, ◌<◌, ◌++◌, is_some, All, IfOk, OnOk, length, map};
ghost use Rattle.std.specs.List.{flat_map};
ghost use Rattle.cnf_base.specs.Literals.{Literal};
ghost use Rattle.cube_tree.specs.Cubes.{AreVariables};
ghost use Rattle.proof_log.specs.Logs.{constant_width};
ghost use Rattle.check_cubes.specs.Searches.{declared_variables};

use cnf_base::Lit;
use proof_log::Log;
use smt_terms::node::{Op, TermId};
use smt_terms::sort::Sort;
use smt_terms::terms::Terms;
use std::alloc::{AllocError, Global};

/// Whether an operator is a declared Bool or word.
fn is_split_by(op: &Op) -> bool
    ensures { result ≡ is_some (constant_width op.now) }
{
    match op {
        Op::Constant {
            declaration: _,
            sort,
        } => match sort {
            Sort::Bool => true,
            Sort::Word(_) => true,
            Sort::Array(_, _) => false,
        },
        _ => false,
    }
}

/// Appends the variables of literals.
fn push_variables(literals: &[Lit], to: &mut Vec<u64>) -> Result<(), AllocError>
    requires each { AreVariables to.old.items }
    ensures variables { OnOk result
        (to.new.items ≡ to.old.items ++ map (λ (l : Literal). l.variable) literals.now) }
    ensures each { OnOk result (AreVariables to.new.items) }
{
    'literals: for literal in literals {
        to.push(literal.variable())?;
    }
    Ok(())
}

/// Appends the variables of the bits of a term, where a check may be split by them.
fn push_declared(
    terms: &Terms,
    log: &Log,
    term: TermId,
    to: &mut Vec<u64>,
) -> Result<(), AllocError>
    requires held { term < length terms.now.nodes }
    requires each { AreVariables to.old.items }
    ensures variables { OnOk result
        (to.new.items ≡ to.old.items ++ declared_variables terms.now.nodes log.now.bits term) }
    ensures each { OnOk result (AreVariables to.new.items) }
{
    if !is_split_by(&terms.node(term).op) {
        return Ok(());
    }
    match log.bits().of(term) {
        Some(bits) => push_variables(bits, to),
        None => Ok(()),
    }
}

/// The variables of the bits of these terms, where a check may be split by them.
pub(crate) fn declared_variables(
    alloc: Global,
    terms: &Terms,
    log: &Log,
    reached: &[TermId],
) -> Result<Vec<u64>, AllocError>
    requires held { All (λ t. t < length terms.now.nodes) reached.now }
    ensures variables { IfOk result
        (λ v. v.items ≡ flat_map (declared_variables terms.now.nodes log.now.bits) reached.now) }
    ensures each { IfOk result (λ v. AreVariables v.items) }
{
    let mut variables = Vec::new(alloc);
    'terms: for term in reached {
        push_declared(terms, log, *term, &mut variables)?;
    }
    Ok(variables)
}
