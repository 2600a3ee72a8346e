//! Worked calls, with ample memory.

use crate::noting::{denied, forget, hold, mark, name, picked, places_under};
use crate::places::Places;
use cnf_base::Lit;
use scope_selectors::live::Live;
use std::test::Fail;
use variable_list::VariableList;

fn live(assertion: u32) -> Live {
    Live {
        assertion,
        term: 0,
        name: None,
        level: 0,
    }
}

#[test]
fn a_negated_selector_names_its_assertion(rt: HostRuntime) -> Result<(), Fail> {
    let mut selected = Vec::new(rt.alloc());
    name(&mut selected, 7, 0)?;
    name(&mut selected, 90, 1)?;
    assert_eq!(rt; denied(&selected, Lit::new(7, false)), Some(0));
    assert_eq!(rt; denied(&selected, Lit::new(90, false)), Some(1));
    assert_eq!(rt; denied(&selected, Lit::new(90, true)), None);
    assert_eq!(rt; denied(&selected, Lit::new(8, false)), None);
    Ok(())
}

#[test]
fn what_is_not_live_is_picked(rt: HostRuntime) -> Result<(), Fail> {
    let mut marks = VariableList::new(rt.alloc());
    mark(&mut marks, &[live(0), live(3)])?;
    assert_eq!(rt;
        picked(rt.alloc(), &marks, &[0, 1, 3, 4], false)?.as_slice(),
        [1, 4].as_slice()
    );
    assert_eq!(rt;
        picked(rt.alloc(), &marks, &[0, 1, 3, 4], true)?.as_slice(),
        [0, 3].as_slice()
    );
    Ok(())
}

#[test]
fn places_are_found_under_assertions(rt: HostRuntime) -> Result<(), Fail> {
    let mut noted = Vec::new(rt.alloc());
    hold(rt.alloc(), &mut noted, 2, 3)?;
    hold(rt.alloc(), &mut noted, 0, 1)?;
    hold(rt.alloc(), &mut noted, 2, 1)?;
    let mut places = Places::new(rt.alloc());
    places.put(4)?;
    places.put(1)?;
    let place = places.place_of(1);
    assert_eq!(rt; place.number(), 2);
    assert_eq!(rt;
        places_under(rt.alloc(), &noted, &[2, 5], places.table())?.as_slice(),
        [place].as_slice()
    );
    forget(rt.alloc(), &mut noted, &[2, 5]);
    assert_eq!(rt;
        places_under(rt.alloc(), &noted, &[0, 2], places.table())?.as_slice(),
        [place].as_slice()
    );
    Ok(())
}
