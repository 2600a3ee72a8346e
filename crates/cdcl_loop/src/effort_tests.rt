//! What small searches count.

ghost use Rattle.cdcl_loop.specs.Engines.{IsEngine, IsOnCourse};

use crate::tests::{begun, learn_and_close};
use crate::{Effort, Engine};
use std::alloc::AllocError;
use std::test::Fail;

// What is counted until the conflict of the next decision is learnt from, and the search is closed by another one.
fn effort_to_close(engine: &mut Engine) -> Result<Effort, AllocError>
    requires engine { IsEngine engine.old }
    requires course { IsOnCourse engine.old }
{
    let _ = learn_and_close(engine)?;
    Ok(engine.effort())
}

// Literals that are given, what they force by clauses, and what is counted then over four clauses of two other variables:
// the decision of one of them forces the other, and so does its opposite, which is learnt.
const COUNTED: [(&[i64], Effort); 3] = [
    (
        &[],
        Effort {
            conflicts: 1,
            decisions: 1,
            propagations: 2,
        },
    ),
    (
        &[7],
        Effort {
            conflicts: 1,
            decisions: 2,
            propagations: 2,
        },
    ),
    (
        &[3, 6],
        Effort {
            conflicts: 1,
            decisions: 3,
            propagations: 4,
        },
    ),
];

#[test]
fn a_search_counts_what_it_does(rt: HostRuntime) -> Result<(), Fail> {
    let clauses: [&[i64]; 6] = [&[1, 2], &[1, -2], &[-1, 2], &[-1, -2], &[-3, 4], &[-4, 5]];
    for (given, wanted) in &COUNTED {
        let mut engine = begun(rt.alloc(), &clauses, given)?;
        let counted = effort_to_close(&mut engine);
        drop(engine);
        assert_eq!(rt; counted?, *wanted);
    }
    Ok(())
}
