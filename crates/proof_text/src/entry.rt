// The lines of steps.

ghost use Rattle.std.specs.Prelude.{◌≡◌, ◌++◌, ◌∷◌, length, take, map, IsSome, IfSome, OnOk, OnErr};
ghost use Rattle.std.specs.List.{flat_map, AllByRecursion};
ghost use Rattle.std.specs.Fmt.{decimal};
ghost use Rattle.proof_text.specs.Lines.{spaced, head_words, joined, literal_text, hint_text, start_text, move_words, access_words, line_text, IsNumber, IsHead, IsLiteral, IsHint, IsStart, IsMove, IsAccess, IsLine};
ghost use Rattle.proof_text.specs.declared.line.Line.TheVariants.{Rewrite, Equal, Congruence, Accesses};
ghost use Rattle.proof_text.specs.Entries.{head_of, written_literal, written_hint, written_start, written_move, written_access, lemma_line, entry_line};

use crate::operator::operator_name;
use crate::write::{push_line, push_marked, push_spaced, push_spaced_wide, push_with_number};
use cnf_base::{Clause, ClauseId, Lit};
use proof_log::entry::{Entry, Hints, RuleUse};
use smt_terms::node::{Node, Op, TermId};
use smt_text::number::push_number;
use smt_text::print::whole_or_none;
use smt_text::text::Text;
use std::alloc::AllocError;
use theory_terms::lemma::{Access, Lemma, Move, Start};

/// Appends an operator with its numbers.
fn push_head(op: &Op, out: &mut Text) -> Result<(), AllocError>
    requires { IsSome (head_of op.now) }
    ensures ok { OnOk result
        (IfSome (head_of op.now) (λ head. out.new ≡ out.old ++ joined (head_words head))) }
    ensures head { OnOk result (IfSome (head_of op.now) IsHead) }
    ensures err { OnErr result (take (length out.old) out.new ≡ out.old) }
{
    match op {
        Op::Plain(operator) => out.push_slice(operator_name(*operator)),
        Op::Word { width, value } => {
            push_with_number(out, b"word", *width)?;
            push_spaced_wide(out, *value)
        }
        Op::Extract { high, low } => {
            push_with_number(out, b"extract", *high)?;
            push_spaced(out, *low)
        }
        Op::ZeroExtend(by) => push_with_number(out, b"zero_extend", *by),
        Op::SignExtend(by) => push_with_number(out, b"sign_extend", *by),
        Op::RotateLeft(by) => push_with_number(out, b"rotate_left", *by),
        Op::RotateRight(by) => push_with_number(out, b"rotate_right", *by),
        Op::Repeat(copies) => push_with_number(out, b"repeat", *copies),
        Op::Apply {
            declaration,
            signature: _,
        } => push_with_number(out, b"apply", *declaration as u64),
        Op::Constant {
            declaration: _,
            sort: _,
        } => unreachable!(),
        Op::Param { place: _, sort: _ } => unreachable!(),
        Op::ConstantArray(width) => push_with_number(out, b"const", *width),
    }
}

fn push_terms(terms: &[TermId], out: &mut Text) -> Result<(), AllocError>
    ensures ok { OnOk result (out.new ≡ out.old ++ spaced (map decimal terms.now)) }
    ensures numbers { OnOk result (AllByRecursion IsNumber terms.now) }
    ensures err { OnErr result (take (length out.old) out.new ≡ out.old) }
{
    for term in terms {
        push_spaced(out, *term as u64)?;
    }
    Ok(())
}

fn push_literal(literal: Lit, out: &mut Text) -> Result<(), AllocError>
    ensures ok { OnOk result (out.new ≡ out.old ++ 32 ∷ literal_text (written_literal literal)) }
    ensures literal { OnOk result (IsLiteral (written_literal literal)) }
    ensures err { OnErr result (take (length out.old) out.new ≡ out.old) }
{
    out.push(b' ')?;
    if !literal.is_positive() {
        out.push(b'-')?;
    }
    push_number(out, literal.variable())
}

fn push_literals(literals: &[Lit], out: &mut Text) -> Result<(), AllocError>
    ensures ok { OnOk result
        (out.new ≡ out.old ++ spaced (map literal_text (map written_literal literals.now))) }
    ensures literals { OnOk result (AllByRecursion IsLiteral (map written_literal literals.now)) }
    ensures err { OnErr result (take (length out.old) out.new ≡ out.old) }
{
    for literal in literals {
        push_literal(*literal, out)?;
    }
    Ok(())
}

fn push_hint(hint: ClauseId, out: &mut Text) -> Result<(), AllocError>
    ensures ok { OnOk result (out.new ≡ out.old ++ 32 ∷ hint_text (written_hint hint)) }
    ensures hint { OnOk result (IsHint (written_hint hint)) }
    ensures err { OnErr result (take (length out.old) out.new ≡ out.old) }
{
    push_spaced(out, hint.pos)?;
    push_marked(out, b'.', hint.part as u64)
}

fn push_hints(hints: &Hints, out: &mut Text) -> Result<(), AllocError>
    ensures ok { OnOk result
        (out.new ≡ out.old ++ spaced (map hint_text (map written_hint hints.now))) }
    ensures hints { OnOk result (AllByRecursion IsHint (map written_hint hints.now)) }
    ensures err { OnErr result (take (length out.old) out.new ≡ out.old) }
{
    for k in 0..hints.len() {
        push_hint(hints.hint(k), out)?;
    }
    Ok(())
}

fn push_node(node: &Node, out: &mut Text) -> Result<(), AllocError>
    requires { IsSome (head_of node.now.op) }
    ensures ok { OnOk result
        (IfSome (entry_line (Entry.Node node.now)) (λ line. out.new ≡ out.old ++ line_text line)) }
    ensures line { OnOk result (IfSome (entry_line (Entry.Node node.now)) IsLine) }
    ensures err { OnErr result (take (length out.old) out.new ≡ out.old) }
{
    out.push_slice(b"t ")?;
    push_head(&node.op, out)?;
    push_terms(node.args.as_slice(), out)?;
    out.push(b'\n')
}

fn push_chain(clause: &Clause, hints: &Hints, out: &mut Text) -> Result<(), AllocError>
    ensures ok { OnOk result
        (IfSome (entry_line (Entry.Chain clause.now hints.now))
        (λ line. out.new ≡ out.old ++ line_text line)) }
    ensures line { OnOk result (IfSome (entry_line (Entry.Chain clause.now hints.now)) IsLine) }
    ensures err { OnErr result (take (length out.old) out.new ≡ out.old) }
{
    out.push(b'c')?;
    push_literals(clause.literals(), out)?;
    out.push_slice(b" 0")?;
    push_hints(hints, out)?;
    out.push(b'\n')
}

fn push_rewrite(used: RuleUse, out: &mut Text) -> Result<(), AllocError>
    ensures ok { OnOk result
        (out.new ≡ out.old ++ line_text (Rewrite used.rule used.from used.to)) }
    ensures line { OnOk result (IsLine (Rewrite used.rule used.from used.to)) }
    ensures err { OnErr result (take (length out.old) out.new ≡ out.old) }
{
    push_with_number(out, b"r", used.rule as u64)?;
    push_spaced(out, used.from as u64)?;
    push_spaced(out, used.to as u64)?;
    out.push(b'\n')
}

fn push_equal(lower: TermId, upper: TermId, out: &mut Text) -> Result<(), AllocError>
    ensures ok { OnOk result (out.new ≡ out.old ++ line_text (Equal lower upper)) }
    ensures line { OnOk result (IsLine (Equal lower upper)) }
    ensures err { OnErr result (take (length out.old) out.new ≡ out.old) }
{
    push_with_number(out, b"q", lower as u64)?;
    push_spaced(out, upper as u64)?;
    out.push(b'\n')
}

fn push_congruence(lower: TermId, upper: TermId, out: &mut Text) -> Result<(), AllocError>
    ensures ok { OnOk result (out.new ≡ out.old ++ line_text (Congruence lower upper)) }
    ensures line { OnOk result (IsLine (Congruence lower upper)) }
    ensures err { OnErr result (take (length out.old) out.new ≡ out.old) }
{
    push_with_number(out, b"l c", lower as u64)?;
    push_spaced(out, upper as u64)?;
    out.push(b'\n')
}

fn push_start(start: Start, out: &mut Text) -> Result<(), AllocError>
    ensures ok { OnOk result (out.new ≡ out.old ++ 32 ∷ start_text (written_start start)) }
    ensures start { OnOk result (IsStart (written_start start)) }
    ensures err { OnErr result (take (length out.old) out.new ≡ out.old) }
{
    match start {
        Start::Term(term) => push_spaced(out, term as u64),
        Start::Const(array, index) => {
            push_spaced(out, array as u64)?;
            push_marked(out, b'@', index as u64)
        }
    }
}

fn push_move(passed: Move, out: &mut Text) -> Result<(), AllocError>
    ensures ok { OnOk result (out.new ≡ out.old ++ spaced (move_words (written_move passed))) }
    ensures term { OnOk result (IsMove (written_move passed)) }
    ensures err { OnErr result (take (length out.old) out.new ≡ out.old) }
{
    match passed {
        Move::Store(store) => push_with_number(out, b" w", store as u64),
        Move::Then(choice) => push_with_number(out, b" t", choice as u64),
        Move::Else(choice) => push_with_number(out, b" e", choice as u64),
        Move::Sides(equality) => push_with_number(out, b" q", equality as u64),
    }
}

fn push_moves(moves: &[Move], out: &mut Text) -> Result<(), AllocError>
    ensures ok { OnOk result
        (out.new ≡ out.old ++ spaced (flat_map move_words (map written_move moves.now))) }
    ensures terms { OnOk result (AllByRecursion IsMove (map written_move moves.now)) }
    ensures err { OnErr result (take (length out.old) out.new ≡ out.old) }
{
    for passed in moves {
        push_move(*passed, out)?;
    }
    Ok(())
}

fn push_access(access: &Access, out: &mut Text) -> Result<(), AllocError>
    ensures ok { OnOk result
        (out.new ≡ out.old ++ spaced (access_words (written_access access.now))) }
    ensures access { OnOk result (IsAccess (written_access access.now)) }
    ensures err { OnErr result (take (length out.old) out.new ≡ out.old) }
{
    push_start(access.start, out)?;
    push_moves(access.path.as_slice(), out)
}

fn push_accesses(one: &Access, other: &Access, out: &mut Text) -> Result<(), AllocError>
    ensures ok { OnOk result
        (out.new ≡ out.old
        ++ line_text (Accesses (written_access one.now) (written_access other.now))) }
    ensures line { OnOk result
        (IsLine (Accesses (written_access one.now) (written_access other.now))) }
    ensures err { OnErr result (take (length out.old) out.new ≡ out.old) }
{
    out.push_slice(b"l a")?;
    push_access(one, out)?;
    out.push_slice(b" /")?;
    push_access(other, out)?;
    out.push(b'\n')
}

fn push_lemma(lemma: &Lemma, out: &mut Text) -> Result<(), AllocError>
    ensures ok { OnOk result (out.new ≡ out.old ++ line_text (lemma_line lemma.now)) }
    ensures line { OnOk result (IsLine (lemma_line lemma.now)) }
    ensures err { OnErr result (take (length out.old) out.new ≡ out.old) }
{
    match lemma {
        Lemma::Congruence(lower, upper) => push_congruence(*lower, *upper, out),
        Lemma::Witness(equality) => push_line(out, b"l w", *equality as u64),
        Lemma::Arrays(one, other) => push_accesses(one, other, out),
    }
}

fn push_entry(entry: &Entry, out: &mut Text) -> Result<(), AllocError>
    requires { IsSome (entry_line entry.now) }
    ensures ok { OnOk result
        (IfSome (entry_line entry.now) (λ line. out.new ≡ out.old ++ line_text line)) }
    ensures line { OnOk result (IfSome (entry_line entry.now) IsLine) }
    ensures err { OnErr result (take (length out.old) out.new ≡ out.old) }
{
    match entry {
        Entry::Node(node) => push_node(node, out),
        Entry::Leaf(term) => push_line(out, b"f", *term as u64),
        Entry::Encode(term) => push_line(out, b"e", *term as u64),
        Entry::Selector(assertion, _) => push_line(out, b"s", *assertion as u64),
        Entry::Chain(clause, hints) => push_chain(clause, hints, out),
        Entry::Equal(lower, upper) => push_equal(*lower, *upper, out),
        Entry::Lemma(lemma) => push_lemma(lemma, out),
        Entry::Rewrite(used) => push_rewrite(*used, out),
    }
}

/// Appends the line of a step. It can be read: its numbers are in range.
pub fn write_entry(entry: &Entry, out: &mut Text) -> Result<(), AllocError>
    // No line makes a declared constant or a parameter.
    requires { IsSome (entry_line entry.now) }
    ensures ok { OnOk result
        (IfSome (entry_line entry.now) (λ line. out.new ≡ out.old ++ line_text line)) }
    ensures line { OnOk result (IfSome (entry_line entry.now) IsLine) }
    ensures err { OnErr result (out.new ≡ out.old) }
{
    let before = out.len();
    let written = push_entry(entry, out);
    whole_or_none(out, before, written)
}
