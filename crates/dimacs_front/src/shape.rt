//! How a clause stands under some true literals.

ghost use Rattle.std.specs.Prelude.{◌≡◌, List};
ghost use Rattle.cnf_base.specs.Literals.{Literal};
ghost use Rattle.dimacs_front.specs.Lrat.{joined, shape_from};
ghost use Rattle.dimacs_front.specs.Marks.{AreMarked};

use crate::marks::Marks;
use cnf_base::Lit;

/// How many different literals of a clause are not false.
#[derive(Clone, Copy, Debug)]
pub enum Shape {
    AllFalse,
    OneOpen(Lit),
    Many,
}

/// A shape, with one more literal that is not false.
fn join(shape: Shape, l: Lit) -> Shape
    ensures { result ≡ joined shape l }
{
    match shape {
        Shape::AllFalse => Shape::OneOpen(l),
        Shape::OneOpen(m) => {
            if m.code() == l.code() {
                Shape::OneOpen(m)
            } else {
                Shape::Many
            }
        }
        Shape::Many => Shape::Many,
    }
}

/// The shape of a clause, where the marked literals are true.
pub(crate) fn shape_of(trues: &Marks, clause: &[Lit]) -> Shape
    ensures { (known : List Literal) → AreMarked trues.now known
        → result ≡ shape_from known Shape.AllFalse clause.now }
{
    let mut shape = Shape::AllFalse;
    for l in clause {
        if !trues.is_marked(l.negated()) {
            shape = join(shape, *l);
        }
    }
    shape
}
