// Making terms one after the other.

ghost use Rattle.std.specs.Prelude.{◌≡◌, ◌<◌, ◌≤◌, ◌^◌, [], ◌∷◌, None, All, length, true};
ghost use Rattle.smt_terms.specs.declared.node.Op.TheVariants.{Plain, Word as WordOp};
ghost use Rattle.smt_terms.specs.Nodes.{node_of, leaf};
ghost use Rattle.smt_terms.specs.Terms.{declaration_of};
ghost use Rattle.theory_terms.specs.Shapes.{shape_at};
ghost use Rattle.array_watches.specs.Needed.{is_array_equality, with_node, with_watch_by, with_watches, with_words, with_word};
ghost use Rattle.array_watches.specs.Making.{IsPut, IsMaking, IsWellSorted};

use smt_terms::fault::MakeError;
use smt_terms::list::Arguments;
use smt_terms::node::{Node, Op, TermId};
use smt_terms::operator::Operator;
use smt_terms::terms::Terms;
use smt_words::Word;
use std::alloc::Global;
use theory_terms::shape::{Shape, shape_at};

/// Puts a node that has a sort and names no declaration.
fn put_node(terms: &mut Terms, node: Node) -> Result<TermId, MakeError>
    requires sort { IsWellSorted terms.old.nodes node }
    requires unnamed { declaration_of node.op ≡ None }
    ensures { IsPut terms.old node result terms.new }
{
    terms.make(node)
}

/// Puts the node of an operator without an index and two arguments.
fn put_pair(
    alloc: Global,
    terms: &mut Terms,
    operator: Operator,
    left: TermId,
    right: TermId,
) -> Result<TermId, MakeError>
    requires { IsWellSorted terms.old.nodes (node_of (Plain operator) (left ∷ right ∷ [])) }
    ensures { IsPut terms.old (node_of (Plain operator) (left ∷ right ∷ [])) result terms.new }
{
    let args = vec![in alloc; left, right]?;
    put_node(
        terms,
        Node {
            op: Op::Plain(operator),
            args: Arguments::from_vec(args),
        },
    )
}

/// Makes the witness of the sides of an equality of arrays, and their selects there.
fn make_watch(alloc: Global, terms: &mut Terms, equality: TermId) -> Result<(), MakeError>
    requires held { equality < length terms.old.nodes }
    requires arrays { is_array_equality terms.old.nodes equality ≡ true }
    ensures { IsMaking
        (with_watch_by terms.old.nodes (shape_at terms.old.nodes equality)) result terms.old
        terms.new }
{
    let _count = terms.len();
    let Shape::Equating { left, right } = shape_at(terms, equality) else {
        return Ok(());
    };
    let witness = put_pair(alloc, terms, Operator::Witness, left, right)?;
    put_pair(alloc, terms, Operator::Select, left, witness)?;
    put_pair(alloc, terms, Operator::Select, right, witness)?;
    Ok(())
}

/// The same for each of these equalities.
pub(crate) fn make_each(
    alloc: Global,
    terms: &mut Terms,
    equalities: &[TermId],
) -> Result<(), MakeError>
    requires held { All (λ t. t < length terms.old.nodes) equalities.now }
    requires arrays { All (λ t. is_array_equality terms.old.nodes t ≡ true) equalities.now }
    ensures { IsMaking (with_watches terms.old.nodes equalities.now) result terms.old terms.new }
{
    let _count = terms.len();
    for equality in equalities {
        make_watch(alloc, terms, *equality)?;
    }
    Ok(())
}

/// Makes a word.
fn put_word(alloc: Global, terms: &mut Terms, width: u32, number: u128) -> Result<(), MakeError>
    requires wide { (1 ≤ width) × (width ≤ 128) }
    requires fits { number < 2 ^ width }
    ensures { IsMaking (with_node terms.old.nodes (leaf (WordOp width number))) result terms.old
        terms.new }
{
    let op = Op::Word {
        width: u64::from(width),
        value: number,
    };
    put_node(terms, Node::leaf(alloc, op))?;
    Ok(())
}

/// Makes a number as word of a width, if the width has it.
fn make_word(alloc: Global, terms: &mut Terms, width: u32, number: u128) -> Result<(), MakeError>
    requires wide { (1 ≤ width) × (width ≤ 128) }
    ensures { IsMaking (with_word terms.old.nodes width number) result terms.old terms.new }
{
    match Word::new(width, number) {
        Some(_) => put_word(alloc, terms, width, number),
        None => Ok(()),
    }
}

/// Makes so many words of a width, from 0 on, as far as the width has them.
pub(crate) fn make_words(
    alloc: Global,
    terms: &mut Terms,
    width: u32,
    count: usize,
) -> Result<(), MakeError>
    requires wide { (1 ≤ width) × (width ≤ 128) }
    ensures { IsMaking (with_words terms.old.nodes width count) result terms.old terms.new }
{
    for number in 0..count {
        make_word(alloc, terms, width, number as u128)?;
    }
    Ok(())
}
