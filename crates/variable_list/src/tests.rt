//! Worked lists, with ample memory.

use crate::VariableList;
use std::test::Fail;

#[test]
fn variables_stand_once_in_order(rt: HostRuntime) -> Result<(), Fail> {
    let mut list = VariableList::new(rt.alloc());
    list.add(90)?;
    list.add(7)?;
    list.add(90)?;
    list.add(1)?;
    assert_eq!(rt; list.as_slice(), [90, 7, 1].as_slice());
    assert!(rt; list.has(7));
    assert!(rt; !list.has(8));
    assert!(rt; !list.has(91));
    Ok(())
}

#[test]
fn a_cleared_list_has_no_variable(rt: HostRuntime) -> Result<(), Fail> {
    let mut list = VariableList::new(rt.alloc());
    list.add(3)?;
    list.add(5)?;
    list.clear();
    assert!(rt; !list.has(3));
    list.add(5)?;
    assert!(rt; !list.has(3));
    assert_eq!(rt; list.as_slice(), [5].as_slice());
    Ok(())
}

#[test]
fn a_cut_list_has_its_first_variables(rt: HostRuntime) -> Result<(), Fail> {
    let mut list = VariableList::new(rt.alloc());
    list.add(3)?;
    list.add(5)?;
    list.add(4)?;
    list.cut(2);
    assert!(rt; list.has(5));
    assert!(rt; !list.has(4));
    list.cut(7);
    list.add(4)?;
    assert_eq!(rt; list.as_slice(), [3, 5, 4].as_slice());
    Ok(())
}
