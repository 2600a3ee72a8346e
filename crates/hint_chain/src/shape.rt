//! How a clause stands under some true literals.

ghost use Rattle.std.specs.Prelude.{◌≡◌, List};
ghost use Rattle.cnf_base.specs.Literals.{Literal};
ghost use Rattle.hint_chain.specs.Faults.{HasShape, Joins};
ghost use Rattle.hint_chain.specs.Marks.{Agrees, HasPlace, HasRoom};

use crate::marks::Rounds;
use cnf_base::Lit;

/// How many different literals of a clause are not false.
#[derive(Clone, Copy, Debug)]
pub(crate) enum Shape {
    AllFalse,
    OneOpen(Lit),
    Many,
}

/// The shape of a clause, of which a mark says that a literal is true.
pub(crate) fn shape_of(trues: &Rounds, clause: &[Lit]) -> Shape
    requires { HasRoom trues.now clause.now }
    ensures shape { (known : List Literal) → Agrees trues.now known
        → HasShape known clause.now result }
    ensures room { (l : Literal) → result ≡ Shape.OneOpen l → HasPlace trues.now l }
{
    let mut shape = Shape::AllFalse;
    for l in clause {
        if !trues.is_marked(l.negated()) {
            shape = joined(shape, *l);
        }
    }
    shape
}

// The shape, with one more literal that is not false.
fn joined(shape: Shape, l: Lit) -> Shape
    ensures { Joins shape l result }
{
    match shape {
        Shape::AllFalse => Shape::OneOpen(l),
        Shape::OneOpen(m) => {
            if m == l {
                Shape::OneOpen(m)
            } else {
                Shape::Many
            }
        }
        Shape::Many => Shape::Many,
    }
}
