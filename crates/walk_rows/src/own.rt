// Bits of their own for terms, and declarations that are new.

ghost use Rattle.std.specs.Prelude.{◌≡◌, ◌<◌, [], None, Some, length, MatchBool, OnErr, OnOk};
ghost use Rattle.smt_terms.specs.declared.node.Op.TheVariants.{Constant};
ghost use Rattle.smt_terms.specs.Bits.{bits_in};
ghost use Rattle.smt_terms.specs.Nodes.{leaf, node_at, node_of};
ghost use Rattle.smt_terms.specs.Terms.{declaration_of};
ghost use Rattle.walk_rows.specs.Fitting.{AreUnlinked, IsUnused, Puts, given};

use cnf_base::Lit;
use smt_terms::bits::Bits;
use smt_terms::list::Arguments;
use smt_terms::node::{Node, Op, TermId};
use smt_terms::sort::{DeclId, Sort};
use smt_terms::terms::Terms;
use std::alloc::{AllocError, Global};
use std::marker::Model;

/// Bits of terms, none of which has those of another.
#[derive(Debug, Drop)]
pub struct OwnBits {
    bits: Bits,
}

impl Model for OwnBits {
    ghost use Rattle.std.specs.Prelude.{List};
    ghost use Rattle.smt_terms.specs.Bits.{TermBits};
    ghost use Rattle.walk_rows.specs.Fitting.{AreUnlinked};

    ghost Value = { List TermBits };

    ghost view = { λ o. o.bits };

    ghost invariant = { λ o. AreUnlinked o.bits };
}

impl OwnBits {
    /// No term has bits yet.
    pub fn new(alloc: Global) -> OwnBits
        ensures { result ≡ [] }
    {
        OwnBits {
            bits: Bits::new(alloc),
        }
    }

    /// Gives a term these bits, if it has none.
    pub fn give(&mut self, term: TermId, row: &[Lit]) -> Result<(), AllocError>
        ensures ok { OnOk result (self.new ≡ given self.old term row.now (bits_in self.old term)) }
        ensures err { OnErr result (self.new ≡ self.old) }
    {
        if self.bits.of(term).is_some() {
            return Ok(());
        }
        self.bits.set(term, row)
    }

    /// The bits; takes no memory.
    pub fn bits(&self) -> &Bits
        ensures same { result.now ≡ self.now }
        ensures unlinked { AreUnlinked self.now }
    {
        &self.bits
    }
}

/// Whether a term is of another declaration, or of none.
fn is_other(terms: &Terms, term: TermId, declaration: DeclId) -> bool
    requires held { term < length terms.now.nodes }
    ensures { MatchBool result
        (declaration_of (node_at terms.now.nodes term).op ≡ Some declaration → ⊥)
        (declaration_of (node_at terms.now.nodes term).op ≡ Some declaration) }
{
    match &terms.node(term).op {
        Op::Constant { declaration: d, .. } => *d != declaration,
        Op::Apply { declaration: d, .. } => *d != declaration,
        _ => true,
    }
}

/// Whether no term is of a declaration.
pub fn is_unused(terms: &Terms, declaration: DeclId) -> bool
    ensures { MatchBool result (IsUnused terms.now.nodes declaration)
        (IsUnused terms.now.nodes declaration → ⊥) }
{
    for term in 0..terms.len() {
        if !is_other(terms, term, declaration) {
            return false;
        }
    }
    true
}

/// The constant of a declaration and a sort: the one that there is, or one more. None, and the terms
/// as before, where the declaration has another sort, no term can be made of the sort, or memory
/// ends.
pub fn declare(alloc: Global, terms: &mut Terms, declaration: DeclId, sort: Sort) -> Option<TermId>
    ensures { Puts (leaf (Constant declaration sort)) result terms.old terms.new }
{
    let _count = terms.len();
    let node = Node::leaf(alloc, Op::Constant { declaration, sort });
    if let Some(term) = terms.find(&node) {
        return Some(term);
    }
    if !is_unused(terms, declaration) {
        return None;
    }
    match terms.make(node) {
        Ok(term) => Some(term),
        Err(_) => None,
    }
}

/// The term of an operator that names no declaration. None, and the terms as before, where its sorts
/// do not fit, or memory ends.
pub fn apply(alloc: Global, terms: &mut Terms, op: Op, args: &[TermId]) -> Option<TermId>
    requires { declaration_of op ≡ None }
    ensures { Puts (node_of op args.now) result terms.old terms.new }
{
    let args = Arguments::of(alloc, args).ok()?;
    match terms.make(Node { op, args }) {
        Ok(term) => Some(term),
        Err(_) => None,
    }
}

/// An application of a function that is new. None, and the terms as before, where some term is of
/// its declaration, the sorts of the arguments do not fit, or memory ends.
pub fn apply_first(alloc: Global, terms: &mut Terms, op: Op, args: &[TermId]) -> Option<TermId>
    ensures { Puts (node_of op args.now) result terms.old terms.new }
{
    let Op::Apply { declaration, .. } = &op else {
        return None;
    };
    if !is_unused(terms, *declaration) {
        return None;
    }
    let args = Arguments::of(alloc, args).ok()?;
    match terms.make(Node { op, args }) {
        Ok(term) => Some(term),
        Err(_) => None,
    }
}

/// Whether a term is of an operator.
fn has_op(terms: &Terms, term: TermId, op: &Op) -> bool
    requires held { term < length terms.now.nodes }
    ensures { MatchBool result ((node_at terms.now.nodes term).op ≡ op.now) (Unit {0}) }
{
    terms.node(term).op == *op
}

/// A term of an operator that another term has. None, and the terms as before, where that has
/// another operator, the sorts of the arguments do not fit, or memory ends.
pub fn apply_again(
    alloc: Global,
    terms: &mut Terms,
    like: TermId,
    op: Op,
    args: &[TermId],
) -> Option<TermId>
    ensures { Puts (node_of op args.now) result terms.old terms.new }
{
    if like >= terms.len() {
        return None;
    }
    if !has_op(terms, like, &op) {
        return None;
    }
    let args = Arguments::of(alloc, args).ok()?;
    match terms.make(Node { op, args }) {
        Ok(term) => Some(term),
        Err(_) => None,
    }
}
