//! Choices on small tables.

use crate::{GlueCounter, Learnt, Phases, Restarts, VariableOrder, drops_are_due, worse_half};
use std::test::Fail;

#[test]
fn variables_come_by_activity(rt: HostRuntime) -> Result<(), Fail> {
    let mut order = VariableOrder::new(rt.alloc());
    order.reserve(5)?;
    for variable in [3, 1, 3, 4, 1, 3] {
        order.bump(variable);
    }
    order.decay();
    for variable in [0, 1, 2, 3, 4] {
        order.insert(variable);
    }
    assert_eq!(rt; order.pop(), Some(3));
    assert_eq!(rt; order.pop(), Some(1));
    order.insert(3);
    order.bump(4);
    order.bump(4);
    order.bump(4);
    assert_eq!(rt; order.pop(), Some(4));
    assert_eq!(rt; order.pop(), Some(3));
    assert!(rt; order.pop().is_none());
    Ok(())
}

#[test]
fn forgotten_variables_do_not_come(rt: HostRuntime) -> Result<(), Fail> {
    let mut order = VariableOrder::new(rt.alloc());
    order.reserve(3)?;
    order.bump(1);
    order.bump(2);
    order.insert(2);
    order.forget();
    order.insert(1);
    assert!(rt; order.pop().is_none());
    order.bump(1);
    order.insert(1);
    assert_eq!(rt; order.pop(), Some(1));
    Ok(())
}

#[test]
fn a_phase_is_kept(rt: HostRuntime) -> Result<(), Fail> {
    let mut phases = Phases::new(rt.alloc());
    phases.reserve(3)?;
    phases.save(2, true);
    assert!(rt; phases.is_positive(2));
    assert!(rt; !phases.is_positive(1));
    Ok(())
}

#[test]
fn glue_counts_levels_once(rt: HostRuntime) -> Result<(), Fail> {
    let mut counter = GlueCounter::new(rt.alloc());
    counter.reserve(9)?;
    counter.begin();
    for level in [8, 3, 3, 8, 1] {
        counter.meet(level);
    }
    assert_eq!(rt; counter.glue(), 3);
    counter.begin();
    counter.meet(3);
    counter.meet(3);
    assert_eq!(rt; counter.glue(), 1);
    Ok(())
}

#[test]
fn growing_glue_makes_a_restart_due(rt: HostRuntime) -> Result<(), Fail> {
    let mut restarts = Restarts::new();
    for _ in 0..600u64 {
        restarts.meet(4);
    }
    assert!(rt; !restarts.is_due());
    for _ in 0..30u64 {
        restarts.meet(9);
    }
    assert!(rt; restarts.is_due());
    restarts.restart();
    assert!(rt; !restarts.is_due());
    Ok(())
}

#[test]
fn the_worse_half_goes(rt: HostRuntime) -> Result<(), Fail> {
    let row = [
        Learnt { glue: 9, size: 20 },
        Learnt { glue: 2, size: 20 },
        Learnt { glue: 3, size: 20 },
        Learnt { glue: 9, size: 2 },
    ];
    let places = worse_half(rt.alloc(), &row)?;
    assert_eq!(rt; places.as_slice(), [0].as_slice());
    let ties = [
        Learnt { glue: 4, size: 9 },
        Learnt { glue: 4, size: 8 },
        Learnt { glue: 4, size: 9 },
        Learnt { glue: 3, size: 70 },
    ];
    assert_eq!(rt;
        worse_half(rt.alloc(), &ties)?.as_slice(),
        [2, 0].as_slice()
    );
    assert!(rt; drops_are_due(4_000, 1_121));
    assert!(rt; !drops_are_due(4_000, 1_120));
    Ok(())
}
