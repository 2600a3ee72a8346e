//! Worked proof files: what is printed.

ghost use Rattle.std.specs.Prelude.{◌≡◌, ◌<◌, IfOk, IsSome};
ghost use Rattle.smt_words.specs.Words.{word};
ghost use Rattle.smt_values.specs.Arrays.{IsOfWidth};
ghost use Rattle.proof_text.specs.Entries.{entry_line};

use cnf_base::{Clause, ClauseId, Lit};
use proof_log::diary::{Diary, DiaryLine, DiaryLines};
use proof_log::entry::{Entry, Hints, RuleUse};
use proof_text::entry::write_entry;
use proof_text::header::write_header;
use proof_text::line::Format;
use proof_text::record::{DeclaredValues, Record, write_record};
use smt_terms::list::Arguments;
use smt_terms::node::{Node, Op};
use smt_terms::scalar::Scalar;
use smt_text::text::Text;
use smt_values::{ArrayValue, FunTable, Scalars, Value};
use smt_words::Word;
use std::alloc::{AllocError, Global};
use std::test::Fail;
use theory_terms::lemma::{Access, Lemma, Move, Path, Start};

/// Appends the line of a step.
fn print_entry(entry: Entry, out: &mut Text) -> Result<(), AllocError>
    requires { IsSome (entry_line entry) }
{
    let written = write_entry(&entry, out);
    drop(entry);
    written
}

/// Appends the lines of a record.
fn print_record(shown: Record, out: &mut Text) -> Result<(), AllocError> {
    let written = write_record(&shown, out);
    drop(shown);
    written
}

/// The chain of the opposite of variable 2, by the clauses at 0 and at 2.
fn chain(alloc: Global) -> Result<Entry, AllocError>
    ensures { IfOk result (λ e. IsSome (entry_line e)) }
{
    let names = [ClauseId { pos: 0, part: 0 }, ClauseId { pos: 2, part: 0 }];
    let hints = Hints::of(alloc, &names)?;
    let clause = Clause::of_one(alloc, Lit::new(2, false))?;
    Ok(Entry::Chain(clause, hints))
}

/// Prints a refutation of the assertion of false, and tells how long its first line is.
fn print_refutation(alloc: Global, out: &mut Text) -> Result<usize, AllocError> {
    write_header(Format::One, 0, 100000, out)?;
    let first = out.len();
    print_entry(Entry::Encode(0), out)?;
    print_entry(Entry::Selector(0, 0), out)?;
    print_entry(chain(alloc)?, out)?;
    print_record(Record::Unsat(3), out)?;
    Ok(first)
}

#[test]
fn a_refutation_of_false_is_printed_in_five_lines(rt: HostRuntime) -> Result<(), Fail> {
    let mut out = Text::new(rt.alloc());
    let first = print_refutation(rt.alloc(), &mut out);
    assert!(rt; first == Ok(34));
    assert!(rt;
        out.as_slice()
            == b"smt_proof 1 cubes 0 budget 100000\ne 0\ns 0\nc -2 0 0.0 2.0\nunsat 3\n".as_slice()
    );
    Ok(())
}

/// Whether a record is printed so.
fn is_printed(alloc: Global, shown: Record, text: &[u8]) -> Result<bool, AllocError> {
    let mut out = Text::new(alloc);
    print_record(shown, &mut out)?;
    Ok(out.as_slice() == text)
}

/// A model of a truth value and a word.
fn two_values(alloc: Global) -> Result<Record, Fail> {
    let word = Word::new(4, 3).ok_or("a word")?;
    let values = Vec::from_array(alloc, [(0, Value::Bool(true)), (2, Value::Word(word))])?;
    Ok(Record::Sat(DeclaredValues::from_vec(values)))
}

#[test]
fn values_are_printed_high_digit_first(rt: HostRuntime) -> Result<(), Fail> {
    let record = two_values(rt.alloc())?;
    let printed = is_printed(rt.alloc(), record, b"sat 2\nv 0 true\nv 2 #b0011\n");
    assert!(rt; printed == Ok(true));
    Ok(())
}

/// A word of two bits.
fn pair(value: u128) -> Word
    requires { value < 4 }
    ensures word { result ≡ word 2 value }
    ensures width { IsOfWidth 2 result }
{
    Word::new(2, value).unwrap()
}

/// An array that holds two indexes, which were set the greater first.
fn array(alloc: Global) -> Result<Value, Fail> {
    let mut array = ArrayValue::constant(alloc, 2, pair(0));
    array.set(pair(3), pair(1))?;
    array.set(pair(1), pair(2))?;
    Ok(Value::Array(array))
}

/// A function of a truth value and a word, with two rows.
fn function(alloc: Global) -> Result<Value, Fail> {
    let mut table = FunTable::constant(alloc, Scalar::Bool(true));
    let first = [Scalar::Bool(true), Scalar::Word(pair(2))];
    table.set(Scalars::of(alloc, &first)?, Scalar::Bool(false))?;
    let second = [Scalar::Bool(false), Scalar::Word(pair(3))];
    table.set(Scalars::of(alloc, &second)?, Scalar::Bool(true))?;
    Ok(Value::Fun(table))
}

#[test]
fn arrays_and_functions_are_printed_by_what_they_hold(rt: HostRuntime) -> Result<(), Fail> {
    let alloc = rt.alloc();
    let values = Vec::from_array(alloc, [(1, array(alloc)?), (4, function(alloc)?)])?;
    let record = Record::Sat(DeclaredValues::from_vec(values));
    let printed = is_printed(
        alloc,
        record,
        b"sat 2\nv 1 a #b00 #b01 #b10 #b11 #b01\nv 4 f true false #b11 true true #b10 false\n",
    );
    assert!(rt; printed == Ok(true));
    Ok(())
}

/// The access of a store, over each kind of move.
fn long_access(alloc: Global) -> Result<Access, AllocError> {
    let moves = [
        Move::Store(3),
        Move::Then(8),
        Move::Else(9),
        Move::Sides(10),
    ];
    Ok(Access {
        start: Start::Term(3),
        path: Path::from_vec(Vec::from_slice(alloc, &moves)?),
    })
}

/// The access of a constant array at an index, where it stands.
fn short_access(alloc: Global) -> Access {
    Access {
        start: Start::Const(2, 4),
        path: Path::none(alloc),
    }
}

/// Prints a use of a rule, an equality, a lemma of each kind, and a constant array.
fn print_lemmas(alloc: Global, out: &mut Text) -> Result<(), AllocError> {
    let used = RuleUse {
        rule: 34,
        from: 5,
        to: 6,
    };
    print_entry(Entry::Rewrite(used), out)?;
    print_entry(Entry::Equal(2, 4), out)?;
    print_entry(Entry::Lemma(Lemma::Congruence(5, 3)), out)?;
    print_entry(Entry::Lemma(Lemma::Witness(7)), out)?;
    let long = long_access(alloc)?;
    print_entry(Entry::Lemma(Lemma::Arrays(long, short_access(alloc))), out)?;
    let args = Arguments::of(alloc, &[0])?;
    print_entry(
        Entry::Node(Node {
            op: Op::ConstantArray(4),
            args,
        }),
        out,
    )
}

#[test]
fn lemmas_are_printed_move_by_move(rt: HostRuntime) -> Result<(), Fail> {
    let mut out = Text::new(rt.alloc());
    let printed = print_lemmas(rt.alloc(), &mut out);
    assert!(rt; printed == Ok(()));
    assert!(rt;
        out.as_slice()
            == b"r 34 5 6\nq 2 4\nl c 5 3\nl w 7\n\
l a 3 w 3 t 8 e 9 q 10 / 2@4\nt const 4 0\n"
                .as_slice()
    );
    Ok(())
}

/// The diary of a cube, of three lines.
fn diary(alloc: Global) -> Result<Diary, AllocError> {
    let lines = [DiaryLine::Take(9), DiaryLine::Put(12), DiaryLine::Drop(9)];
    let lines = DiaryLines::from_vec(Vec::from_slice(alloc, &lines)?);
    Ok(Diary {
        cube: 3,
        start: 7,
        lines,
    })
}

#[test]
fn a_diary_is_printed_behind_its_cube_and_its_start(rt: HostRuntime) -> Result<(), Fail> {
    let record = Record::Unknown(diary(rt.alloc())?);
    let printed = is_printed(rt.alloc(), record, b"unknown 3 7 3\n= 9\n+ 12\n- 9\n");
    assert!(rt; printed == Ok(true));
    Ok(())
}
