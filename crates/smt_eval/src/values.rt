// The values of all terms.

ghost use Rattle.std.specs.Prelude.{◌≡◌, ◌<◌, length, IfOk};
ghost use Rattle.smt_values.specs.Held.{interpretation_of};
ghost use Rattle.smt_eval.specs.Evaluated.{AreSuited, AreValues, held_value};

use crate::evaluate::evaluate;
use smt_terms::node::TermId;
use smt_terms::terms::Terms;
use smt_values::interp::Interp;
use smt_values::value::Value;
use std::alloc::{AllocError, Global};
use std::marker::Model;

/// A value for each term of a list.
#[derive(Debug, Drop)]
pub struct Values {
    values: Vec<Value>,
}

impl Model for Values {
    ghost use Rattle.std.specs.Prelude.{List};
    ghost use Rattle.smt_values.specs.declared.value.Value as held;

    ghost Value = { List held.Value };

    ghost view = { λ v. v.values.items };
}

impl Values {
    /// The value of each term under an interpretation.
    pub fn of(alloc: Global, terms: &Terms, interp: &Interp) -> Result<Values, AllocError>
        requires suited { AreSuited terms.now.nodes interp.now }
        ensures { IfOk result (λ v. AreValues (interpretation_of interp.now) terms.now.nodes v) }
    {
        let mut values = Vec::new(alloc);
        let mut scalars = Vec::new(alloc);
        for term in 0..terms.len() {
            let node = terms.node(term);
            let args = node.args.as_slice();
            let value = evaluate(
                alloc,
                &node.op,
                args,
                values.as_slice(),
                interp,
                &mut scalars,
            )?;
            values.push(value)?;
        }
        Ok(Values { values })
    }

    /// A term's value; takes no memory.
    pub fn get(&self, term: TermId) -> &Value
        requires held { term < length self.now }
        ensures { result.now ≡ held_value self.now term }
    {
        &self.values[term as usize]
    }
}
