//! Worked proof files: what is read of a text, which is a table of steps that is walked over one reader.

use proof_text::file::lines;
use proof_text::line::{Format, Head, Line, WrittenValue};
use proof_text::list::{
    WrittenAccess, WrittenEntry, WrittenHint, WrittenLiteral, WrittenMove, WrittenScalar,
    WrittenStart,
};
use proof_text::reader::{LineFault, ProofReader};
use smt_terms::operator::Operator;
use smt_text::text::Text;
use std::alloc::{AllocError, Global};
use std::process::Abort;
use std::test::Fail;

/// Where an access starts, and its moves.
pub(crate) type Route = (WrittenStart, &'static [WrittenMove]);

/// The digits of an index, and of its element.
pub(crate) type Pair = (&'static [bool], &'static [bool]);

/// A truth value, or the digits of a word.
#[derive(Clone, Copy)]
pub(crate) enum Shown {
    Bool(bool),
    Word(&'static [bool]),
}

/// What a reader gives next.
#[derive(Clone, Copy)]
pub(crate) enum Next {
    /// No whole line is held.
    Nothing,
    /// The line of this number is none of a proof file.
    Fault(u64),
    /// A format, so many variables that split a check, and a budget.
    Header(Format, u64, u64),
    /// A sum of terms.
    Sum(&'static [u64]),
    /// A literal of this width and this value.
    Literal(u64, u128),
    Encode(u64),
    Selector(u64),
    Chain(&'static [WrittenLiteral], &'static [WrittenHint]),
    /// A constant array of this index width, over these terms.
    Filled(u64, &'static [u64]),
    /// A rule, and the terms from which and to which it leads.
    Rewrite(u64, u64, u64),
    Equal(u64, u64),
    Congruence(u64, u64),
    Witness(u64),
    /// Two accesses.
    Accesses(Route, Route),
    /// The digits of a declaration's value.
    Digits(u64, &'static [bool]),
    /// The default of an array, and its indexes with their elements.
    Array(&'static [bool], &'static [Pair]),
    /// The default of a function, and the values of its rows.
    Table(Shown, &'static [Shown]),
    Unsat(u64),
    /// A cube, where its diary starts, and how many lines follow.
    Unknown(u64, u64, u64),
    Put(u64),
    /// Places.
    Delete(&'static [u64]),
}

/// A step of reading.
#[derive(Clone, Copy)]
pub(crate) enum Step {
    /// A piece of the file is fed.
    Feed(&'static [u8]),
    /// This comes next.
    Next(Next),
    /// A text is fed, and this comes next.
    Line(&'static [u8], Next),
    /// So many bytes are held.
    Held(usize),
    /// The file ends in a line of this number that has no line feed.
    Unfinished(u64),
}

/// Whether a term's line is this one.
fn is_term(head: &Head, args: &[u64], next: Next) -> bool {
    match (head, next) {
        (Head::Plain(Operator::Bvadd), Next::Sum(terms)) => args == terms,
        (Head::Word { width, value }, Next::Literal(wide, number)) => {
            *width == wide && *value == number && args.is_empty()
        }
        (Head::ConstantArray(index), Next::Filled(width, terms)) => {
            *index == width && args == terms
        }
        _ => false,
    }
}

/// Whether the access is this one.
fn is_access(access: &WrittenAccess, wanted: Route) -> bool {
    access.start == wanted.0 && access.moves.as_slice() == wanted.1
}

/// Whether the indexes and elements are these.
fn are_entries(entries: &[WrittenEntry], wanted: &[Pair]) -> bool {
    if entries.len() != wanted.len() {
        return false;
    }
    for i in 0..entries.len() {
        let entry = &entries[i];
        if entry.index.as_slice() != wanted[i].0 || entry.element.as_slice() != wanted[i].1 {
            return false;
        }
    }
    true
}

/// Whether the truth value or word is this one.
fn is_scalar(scalar: &WrittenScalar, wanted: Shown) -> bool {
    match (scalar, wanted) {
        (WrittenScalar::Bool(holds), Shown::Bool(other)) => *holds == other,
        (WrittenScalar::Word(digits), Shown::Word(other)) => digits.as_slice() == other,
        _ => false,
    }
}

/// Whether the truth values and words are these.
fn are_scalars(scalars: &[WrittenScalar], wanted: &[Shown]) -> bool {
    if scalars.len() != wanted.len() {
        return false;
    }
    for i in 0..scalars.len() {
        if !is_scalar(&scalars[i], wanted[i]) {
            return false;
        }
    }
    true
}

/// Whether a value's line is this one.
fn is_value(declaration: u64, value: &WrittenValue, next: Next) -> bool {
    match (value, next) {
        (WrittenValue::Word(digits), Next::Digits(number, wanted)) => {
            declaration == number && digits.as_slice() == wanted
        }
        (WrittenValue::Array { default, entries }, Next::Array(digits, wanted)) => {
            default.as_slice() == digits && are_entries(entries.as_slice(), wanted)
        }
        (WrittenValue::Fun { default, values }, Next::Table(shown, wanted)) => {
            is_scalar(default, shown) && are_scalars(values.as_slice(), wanted)
        }
        _ => false,
    }
}

/// Whether a line of an equality or a lemma is this one.
fn is_lemma(line: &Line, next: Next) -> bool {
    match (line, next) {
        (Line::Equal(lower, upper), Next::Equal(t, u)) => *lower == t && *upper == u,
        (Line::Congruence(one, other), Next::Congruence(t, u)) => *one == t && *other == u,
        (Line::Witness(equality), Next::Witness(t)) => *equality == t,
        (Line::Accesses(one, other), Next::Accesses(a, b)) => {
            is_access(one, a) && is_access(other, b)
        }
        _ => false,
    }
}

/// Whether a line of two numbers or three is this one.
fn has_numbers(line: &Line, next: Next) -> bool {
    match (line, next) {
        (
            Line::Header {
                format,
                cubes,
                budget,
            },
            Next::Header(f, c, b),
        ) => *format == f && *cubes == c && *budget == b,
        (Line::Unknown { cube, start, count }, Next::Unknown(c, s, n)) => {
            *cube == c && *start == s && *count == n
        }
        (Line::Rewrite { rule, from, to }, Next::Rewrite(r, t, u)) => {
            *rule == r && *from == t && *to == u
        }
        _ => false,
    }
}

/// Whether the line is this one.
fn is_line(line: &Line, next: Next) -> bool {
    match (line, next) {
        (Line::Encode(term), Next::Encode(other)) => *term == other,
        (Line::Selector(assertion), Next::Selector(other)) => *assertion == other,
        (Line::Unsat(at), Next::Unsat(other)) => *at == other,
        (Line::Put(at), Next::Put(other)) => *at == other,
        (Line::Delete(places), Next::Delete(others)) => places.as_slice() == others,
        (Line::Term { head, args }, _) => is_term(head, args.as_slice(), next),
        (Line::Value { declaration, value }, _) => is_value(*declaration, value, next),
        (Line::Chain { clause, hints }, Next::Chain(literals, by)) => {
            clause.as_slice() == literals && hints.as_slice() == by
        }
        _ => has_numbers(line, next) || is_lemma(line, next),
    }
}

/// Whether the reader's answer is this one.
fn is_answer(answer: &Option<Result<Line, LineFault>>, next: Next) -> bool {
    match (answer, next) {
        (None, Next::Nothing) => true,
        (Some(Err(fault)), Next::Fault(line)) => fault.line == line,
        (Some(Ok(line)), _) => is_line(line, next),
        _ => false,
    }
}

/// Whether the reader gives this next.
fn is_next(reader: &mut ProofReader, next: Next) -> Result<bool, AllocError> {
    let answer = reader.next()?;
    let is_so = is_answer(&answer, next);
    drop(answer);
    Ok(is_so)
}

/// Whether the reader does the step.
fn is_done(reader: &mut ProofReader, step: Step) -> Result<bool, AllocError> {
    match step {
        Step::Feed(piece) => {
            reader.feed(piece)?;
            Ok(true)
        }
        Step::Next(next) => is_next(reader, next),
        Step::Line(text, next) => {
            reader.feed(text)?;
            is_next(reader, next)
        }
        Step::Held(size) => Ok(reader.held() == size),
        Step::Unfinished(line) => Ok(reader.finish() == Some(LineFault { line })),
    }
}

/// The number of the first step that the reader does not do, counted from 0.
fn first_not_done(reader: &mut ProofReader, steps: &[Step]) -> Result<Option<usize>, AllocError> {
    for at in 0..steps.len() {
        if !is_done(reader, steps[at])? {
            return Ok(Some(at));
        }
    }
    Ok(None)
}

/// A reader that was fed nothing does each of the steps.
pub(crate) fn walk(rt: &(impl Abort + AllocGlobal), steps: &[Step]) -> Result<(), Fail> {
    let mut reader = ProofReader::new(rt.alloc());
    let failed = first_not_done(&mut reader, steps);
    drop(reader);
    if let Some(at) = failed? {
        panic!(rt; "step {at}");
    }
    Ok(())
}

#[test]
fn lines_come_out_however_the_file_is_cut(rt: HostRuntime) -> Result<(), Fail> {
    walk(
        &rt,
        &[
            Step::Feed(b"smt_proof 1 cubes 0 bud"),
            Step::Next(Next::Nothing),
            Step::Feed(b"get 100000\ne 0"),
            Step::Next(Next::Header(Format::One, 0, 100000)),
            Step::Next(Next::Nothing),
            Step::Feed(b"\ns 03\nunsat 3\nsat"),
            Step::Next(Next::Encode(0)),
            // A needless zero.
            Step::Next(Next::Fault(3)),
            Step::Next(Next::Unsat(3)),
            Step::Next(Next::Nothing),
            Step::Unfinished(5),
        ],
    )
}

#[test]
fn a_reader_holds_one_line(rt: HostRuntime) -> Result<(), Fail> {
    walk(
        &rt,
        &[
            Step::Feed(b"e 0"),
            Step::Held(3),
            Step::Next(Next::Nothing),
            Step::Held(3),
            Step::Feed(b"\n"),
            Step::Held(4),
            Step::Next(Next::Encode(0)),
            Step::Held(0),
        ],
    )
}

#[test]
fn both_formats_are_read(rt: HostRuntime) -> Result<(), Fail> {
    walk(
        &rt,
        &[
            Step::Line(
                b"smt_proof 2 cubes 3 budget 7\n",
                Next::Header(Format::Two, 3, 7),
            ),
            Step::Line(b"d 3 12\n", Next::Delete(&[3, 12])),
            // No place.
            Step::Line(b"d\n", Next::Fault(3)),
            // A space at the end.
            Step::Line(b"d 3 \n", Next::Fault(4)),
            // A needless zero.
            Step::Line(b"d 03\n", Next::Fault(5)),
            // No such format.
            Step::Line(b"smt_proof 3 cubes 0 budget 7\n", Next::Fault(6)),
        ],
    )
}

#[test]
fn chains_and_terms_are_read(rt: HostRuntime) -> Result<(), Fail> {
    walk(
        &rt,
        &[
            Step::Line(
                b"c -2 7 0 0.0 12.3\n",
                Next::Chain(
                    &[
                        WrittenLiteral {
                            variable: 2,
                            positive: false,
                        },
                        WrittenLiteral {
                            variable: 7,
                            positive: true,
                        },
                    ],
                    &[
                        WrittenHint { pos: 0, part: 0 },
                        WrittenHint { pos: 12, part: 3 },
                    ],
                ),
            ),
            Step::Line(b"t bvadd 4 5\n", Next::Sum(&[4, 5])),
            Step::Line(
                b"t word 128 340282366920938463463374607431768211455\n",
                Next::Literal(128, u128::MAX),
            ),
            Step::Line(
                b"v 2 #b0011\n",
                Next::Digits(2, &[false, false, true, true]),
            ),
        ],
    )
}

#[test]
fn diaries_are_read(rt: HostRuntime) -> Result<(), Fail> {
    walk(
        &rt,
        &[
            Step::Line(b"unknown 3 7 2\n", Next::Unknown(3, 7, 2)),
            Step::Line(b"+ 12\n", Next::Put(12)),
            // No count.
            Step::Line(b"unknown 3 7\n", Next::Fault(3)),
            // No space.
            Step::Line(b"-12\n", Next::Fault(4)),
        ],
    )
}

#[test]
fn what_no_line_prints_is_a_fault(rt: HostRuntime) -> Result<(), Fail> {
    walk(
        &rt,
        &[
            // A needless zero.
            Step::Line(b"e 03\n", Next::Fault(1)),
            // Two spaces.
            Step::Line(b"e  3\n", Next::Fault(2)),
            // A space at the end.
            Step::Line(b"e 3 \n", Next::Fault(3)),
            // Nothing.
            Step::Line(b"\n", Next::Fault(4)),
            // 2 ^ 64.
            Step::Line(b"unsat 18446744073709551616\n", Next::Fault(5)),
            // No operator.
            Step::Line(b"t distinct 1 2\n", Next::Fault(6)),
            // No end of the clause.
            Step::Line(b"c 1 2\n", Next::Fault(7)),
            // No variable.
            Step::Line(b"c -0 0\n", Next::Fault(8)),
            // No part.
            Step::Line(b"c 1 0 5\n", Next::Fault(9)),
            // No digit.
            Step::Line(b"v 0 #b\n", Next::Fault(10)),
        ],
    )
}

/// What a whole file is read as.
#[derive(Clone, Copy)]
enum File<'a> {
    /// These lines.
    Lines(&'a [Next]),
    /// The first line that is none has this number.
    Fault(u64),
}

/// Whether these are the lines.
fn are_lines(lines: &[Line], wanted: &[Next]) -> bool {
    if lines.len() != wanted.len() {
        return false;
    }
    for i in 0..lines.len() {
        if !is_line(&lines[i], wanted[i]) {
            return false;
        }
    }
    true
}

/// Whether a file that comes in these pieces is read so.
fn is_read(alloc: Global, pieces: &[&[u8]], wanted: File<'_>) -> Result<bool, AllocError> {
    let mut texts = Vec::new(alloc);
    for piece in pieces {
        texts.push(Text::from_slice(alloc, piece)?)?;
    }
    let read = lines(alloc, texts.as_slice())?;
    let is_so = match (&read, wanted) {
        (Ok(found), File::Lines(lines)) => are_lines(found.as_slice(), lines),
        (Err(fault), File::Fault(line)) => fault.line == line,
        _ => false,
    };
    drop(read);
    Ok(is_so)
}

#[test]
fn a_file_is_read_whole_or_to_its_first_fault(rt: HostRuntime) -> Result<(), Fail> {
    let alloc = rt.alloc();
    let whole = File::Lines(&[Next::Encode(0), Next::Selector(0)]);
    assert!(rt; is_read(alloc, &[b"e 0\ns ", b"0\n"], whole) == Ok(true));
    let cut: [&[u8]; 3] = [b"e 0\ns ", b"0\n", b"e x\ne y\n"];
    assert!(rt; is_read(alloc, &cut, File::Fault(3)) == Ok(true));
    Ok(())
}
