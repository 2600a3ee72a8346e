//! Worked values of applications, with ample memory.

ghost use Rattle.smt_eval.specs.Evaluated.{AreSuited};

use crate::values::Values;
use smt_terms::list::{Arguments, Sorts};
use smt_terms::node::{Node, Op, TermId};
use smt_terms::scalar::Scalar;
use smt_terms::sort::{Signature, Sort};
use smt_terms::terms::Terms;
use smt_values::interp::Interp;
use smt_values::table::{FunTable, Scalars};
use smt_values::value::Value;
use smt_words::Word;
use std::alloc::{AllocError, Global};
use std::test::Fail;

const BYTE: Sort = Sort::Word(8);

/// The literal 7, which is term 0, and as term 1 a declared function of two bytes at it twice; none where one gets another
/// number.
fn one_application(alloc: Global) -> Result<Option<Terms>, AllocError> {
    let mut terms = Terms::new(alloc);
    let literal = Op::Word { width: 8, value: 7 };
    if terms.make(Node::leaf(alloc, literal)) != Ok(0) {
        return Ok(None);
    }
    let signature = Signature {
        args: Sorts::from_vec(Vec::from_array(alloc, [BYTE, BYTE])?),
        value: BYTE,
    };
    let op = Op::Apply {
        declaration: 0,
        signature,
    };
    let args = Arguments::of(alloc, &[0, 0])?;
    if terms.make(Node { op, args }) == Ok(1) {
        Ok(Some(terms))
    } else {
        Ok(None)
    }
}

/// Whether the function of term 1 at these arguments gets the next number.
fn is_applied_next(alloc: Global, terms: &mut Terms, args: &[TermId]) -> Result<bool, AllocError> {
    let number = terms.len();
    if number < 2 {
        return Ok(false);
    }
    let op = terms.node(1).op.copy()?;
    let args = Arguments::of(alloc, args)?;
    Ok(terms.make(Node { op, args }) == Ok(number))
}

/// The function that is 9 where both arguments are 7, 5 where they are 7 and 9, and elsewhere 200.
fn table(alloc: Global) -> Result<Option<FunTable>, AllocError> {
    let numbers = (
        Word::new(8, 5),
        Word::new(8, 7),
        Word::new(8, 9),
        Word::new(8, 200),
    );
    let (Some(five), Some(seven), Some(nine), Some(most)) = numbers else {
        return Ok(None);
    };
    let mut table = FunTable::constant(alloc, Scalar::Word(most));
    let both = Scalars::of(alloc, &[Scalar::Word(seven), Scalar::Word(seven)])?;
    table.set(both, Scalar::Word(nine))?;
    let rising = Scalars::of(alloc, &[Scalar::Word(seven), Scalar::Word(nine)])?;
    table.set(rising, Scalar::Word(five))?;
    Ok(Some(table))
}

fn is_byte(value: &Value, number: u128) -> bool {
    match value {
        Value::Word(word) => word.width() == 8 && word.value() == number,
        _ => false,
    }
}

/// Whether the terms are bytes of these numbers.
fn are_bytes(
    alloc: Global,
    terms: &Terms,
    interp: &Interp,
    told: &[(TermId, u128)],
) -> Result<bool, AllocError>
    requires { AreSuited terms.now.nodes interp.now }
{
    let values = Values::of(alloc, terms, interp)?;
    let mut all = true;
    for (term, number) in told {
        if *term >= terms.len() || !is_byte(values.get(*term), *number) {
            all = false;
        }
    }
    drop(values);
    Ok(all)
}

/// The same, where the declaration is this function, or none was set.
fn are_bytes_by(
    alloc: Global,
    terms: &Terms,
    table: Option<FunTable>,
    told: &[(TermId, u128)],
) -> Result<bool, AllocError> {
    let mut interp = Interp::new(alloc);
    let Some(table) = table else {
        return are_bytes(alloc, terms, &interp, told)
    };
    let set = interp.set(0, Value::Fun(table));
    let all = are_bytes(alloc, terms, &interp, told);
    drop(interp);
    set?;
    all
}

#[test]
fn an_application_is_what_the_function_gives_its_arguments(rt: HostRuntime) -> Result<(), Fail> {
    let alloc = rt.alloc();
    let Some(mut terms) = one_application(alloc)? else {
        return Err("a term has another number".into());
    };
    for args in [[0, 1], [1, 0], [2, 0]] {
        let is_next = is_applied_next(alloc, &mut terms, &args)?;
        assert!(rt; is_next);
    }
    let table = table(alloc)?;
    assert!(rt; table.is_some());
    let told = [(0, 7), (1, 9), (2, 5), (3, 200), (4, 200)];
    let holds = are_bytes_by(alloc, &terms, table, &told)?;
    assert!(rt; holds);
    let zeros = [(0, 7), (1, 0), (2, 0), (3, 0), (4, 0)];
    let unset = are_bytes_by(alloc, &terms, None, &zeros)?;
    assert!(rt; unset);
    Ok(())
}
