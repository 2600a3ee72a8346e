use crate::script::drill_script;
use crate::summary::summary;
use std::test::Fail;

#[test]
fn a_script_of_one_word(rt: HostRuntime) -> Result<(), Fail> {
    let Ok(script) = drill_script(rt.alloc(), 0, 1) else {
        panic!(rt; "memory")
    };
    let wanted = b"(set-logic QF_AUFBV)
(declare-const a (Array (_ BitVec 16) (_ BitVec 32)))
(declare-const x0 (_ BitVec 32))
(assert (= (bvxor x0 #x14057b7e) #x00000000))
(assert (= (select a #x0000) x0))
(check-sat)
(push 1)
(assert (= (bvadd x0 #x00000001) #x14057b7e))
(check-sat)
(pop 1)
";
    assert!(rt; script.as_slice() == wanted.as_slice());
    Ok(())
}

#[test]
fn a_summary_of_two_words(rt: HostRuntime) -> Result<(), Fail> {
    let Ok(text) = summary(rt.alloc(), 0, 2, b"sat\nunsat\nsat\nunsat\n") else {
        panic!(rt; "memory")
    };
    let wanted = b"checks 4\nsat 2\nunsat 2\nunknown 0\nlast #x1a08ee11\n";
    assert!(rt; text.as_slice() == wanted.as_slice());
    let Ok(text) = summary(rt.alloc(), 0, 1, b"unknown\nunsat\n") else {
        panic!(rt; "memory")
    };
    let wanted = b"checks 2\nsat 0\nunsat 1\nunknown 1\nlast none\n";
    assert!(rt; text.as_slice() == wanted.as_slice());
    Ok(())
}
