use crate::fault::OutOfRange;
use crate::scopes::{MOST_LEVELS, Scopes};
use cnf_base::{Clause, Lit};
use smt_text::text::Text;
use std::alloc::Global;
use std::process::Abort;
use std::test::Fail;

fn name(rt: &impl AllocGlobal, text: &str) -> Result<Option<Text>, Fail> {
    Ok(Some(Text::from_slice(rt.alloc(), text.as_bytes())?))
}

fn assert_one(
    rt: &impl Abort,
    scopes: &mut Scopes,
    term: u32,
    name: Option<Text>,
) -> Result<u32, Fail> {
    assert!(rt; scopes.made() < 1000);
    Ok(scopes.assert(term, name)?)
}

fn expect_live(rt: &impl Abort, scopes: &Scopes, expected: &[(u32, u32)]) {
    assert_eq!(rt; scopes.live().len(), expected.len());
    for (live, (assertion, term)) in scopes.live().iter().zip(expected) {
        assert_eq!(rt; live.assertion, *assertion);
        assert_eq!(rt; live.term, *term);
    }
}

fn is_named(scopes: &Scopes, assertion: u32, name: &[u8]) -> bool {
    match scopes.name(assertion) {
        Some(text) => text.as_slice() == name,
        None => false,
    }
}

#[test]
fn levels_take_their_assertions_with_them(rt: HostRuntime) -> Result<(), Fail> {
    let mut scopes = Scopes::new(rt.alloc());
    assert_eq!(rt; assert_one(&rt, &mut scopes, 5, None)?, 0);
    assert_eq!(rt; scopes.push(2), Ok(()));
    assert_eq!(rt; assert_one(&rt, &mut scopes, 7, None)?, 1);
    assert_eq!(rt; assert_one(&rt, &mut scopes, 5, None)?, 2);
    expect_live(&rt, &scopes, &[(0, 5), (1, 7), (2, 5)]);
    assert_eq!(rt; scopes.pop(1), Ok(()));
    expect_live(&rt, &scopes, &[(0, 5)]);
    assert_eq!(rt; assert_one(&rt, &mut scopes, 9, None)?, 3);
    assert_eq!(rt; scopes.levels(), 1);
    assert_eq!(rt; scopes.pop(2), Err(OutOfRange { held: 1 }));
    expect_live(&rt, &scopes, &[(0, 5), (3, 9)]);
    scopes.reset();
    expect_live(&rt, &scopes, &[]);
    assert_eq!(rt; assert_one(&rt, &mut scopes, 1, None)?, 4);
    assert_eq!(rt; scopes.made(), 5);
    Ok(())
}

#[test]
fn a_million_levels_may_stand(rt: HostRuntime) -> Result<(), Fail> {
    let mut scopes = Scopes::new(rt.alloc());
    assert_eq!(rt; scopes.push(MOST_LEVELS + 1), Err(OutOfRange { held: 0 }));
    assert_eq!(rt; scopes.push(u64::MAX), Err(OutOfRange { held: 0 }));
    assert_eq!(rt; scopes.push(999_999), Ok(()));
    assert_eq!(rt; scopes.push(1), Ok(()));
    assert_eq!(rt; scopes.push(0), Ok(()));
    assert_eq!(rt; scopes.push(1), Err(OutOfRange { held: 1_000_000 }));
    assert_eq!(rt; scopes.pop(1_000_000), Ok(()));
    assert_eq!(rt; scopes.levels(), 0);
    Ok(())
}

#[test]
fn names_are_those_of_live_assertions(rt: HostRuntime) -> Result<(), Fail> {
    let mut scopes = Scopes::new(rt.alloc());
    let a = assert_one(&rt, &mut scopes, 1, name(&rt, "a")?)?;
    let unnamed = assert_one(&rt, &mut scopes, 2, None)?;
    scopes.push(1).ok().ok_or("a level")?;
    let b = assert_one(&rt, &mut scopes, 3, name(&rt, "b")?)?;
    assert!(rt; is_named(&scopes, a, b"a"));
    assert!(rt; scopes.name(unnamed).is_none());
    assert!(rt; is_named(&scopes, b, b"b"));
    scopes.pop(1).ok().ok_or("a level")?;
    assert!(rt; scopes.name(b).is_none());
    assert!(rt; scopes.name(7).is_none());
    Ok(())
}

/// Assertions a, one without a name, b and c; the clause has the negated selectors of c, of the one without a name and of
/// a, the selector of b as it is, and another literal.
#[test]
fn a_core_is_named_and_in_order(rt: HostRuntime) -> Result<(), Fail> {
    let alloc = rt.alloc();
    let mut scopes = Scopes::new(alloc);
    let a = assert_one(&rt, &mut scopes, 1, name(&rt, "a")?)?;
    let unnamed = assert_one(&rt, &mut scopes, 2, None)?;
    let b = assert_one(&rt, &mut scopes, 3, name(&rt, "b")?)?;
    let c = assert_one(&rt, &mut scopes, 4, name(&rt, "c")?)?;
    let selectors = [
        (a, Lit::new(10, true)),
        (unnamed, Lit::new(11, true)),
        (b, Lit::new(12, true)),
        (c, Lit::new(13, true)),
    ];
    let literals = [
        Lit::new(13, false),
        Lit::new(11, false),
        Lit::new(3, false),
        Lit::new(12, true),
        Lit::new(10, false),
    ];
    let clause = Clause::from_literals(alloc, &literals)?;
    let core = scopes.core_of(alloc, &clause, &selectors)?;
    assert_eq!(rt; core.as_slice(), [a, c].as_slice());
    let none = scopes.core_of(alloc, &Clause::empty(alloc), &selectors)?;
    assert_eq!(rt; none.len(), 0);
    Ok(())
}
