//! Calls with ample memory.

use crate::List;
use std::alloc::{AllocError, Global};
use std::test::Fail;

/// Numbers, under a name of their own.
type Numbers = List<u32>;

/// What holds a list under its name.
#[derive(Clone, Debug, Drop, PartialEq, Eq, Hash)]
enum Held {
    Nothing,
    Some(Numbers),
}

fn filled(alloc: Global, items: &[u32]) -> Result<Held, AllocError> {
    Ok(Held::Some(Numbers::of(alloc, items)?))
}

#[test]
fn a_list_gives_its_items_back(rt: HostRuntime) -> Result<(), Fail> {
    let mut list = Numbers::from_vec(Vec::from_slice(rt.alloc(), &[3, 1])?);
    list.push(2)?;
    assert!(rt; list.as_slice() == [3, 1, 2].as_slice());
    assert!(rt; list.copy(rt.alloc())? == list);
    assert!(rt; list.into_vec().as_slice() == [3, 1, 2].as_slice());
    assert!(rt; Numbers::none(rt.alloc()).as_slice().is_empty());
    Ok(())
}

#[test]
fn lists_are_equal_where_their_items_are(rt: HostRuntime) -> Result<(), Fail> {
    let one = filled(rt.alloc(), &[3, 1])?;
    assert!(rt; one.clone()? == one);
    assert!(rt; filled(rt.alloc(), &[1, 3])? != one);
    assert!(rt; Held::Nothing != one);
    Ok(())
}
