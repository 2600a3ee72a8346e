// What the user is told, of a refutation or of a search.

ghost use Rattle.std.specs.Prelude.{◌≡◌, ◌∷◌, ◌++◌, IfOk, OnOk};
ghost use Rattle.dimacs_run.specs.Endings.{cnf_rule, lrat_rule, line_in, rule_in, ending_text};
ghost use Rattle.dimacs_run.specs.Findings.{value_word, value_words, finding_text};

use crate::failure::Fault;
use crate::finding::Finding;
use dimacs_front::cnf::CnfKind;
use dimacs_front::lrat::LratKind;
use smt_text::number::push_number;
use smt_text::text::Text;
use std::alloc::{AllocError, Global};

/// The name of a fault of clauses.
fn cnf_rule(kind: CnfKind) -> &'static [u8]
    ensures { result.now ≡ cnf_rule kind }
{
    match kind {
        CnfKind::Header => b"header",
        CnfKind::Large => b"large",
        CnfKind::Token => b"token",
        CnfKind::Literal => b"literal",
        CnfKind::Count => b"count",
        CnfKind::Unfinished => b"unfinished",
    }
}

/// The name of a fault of a refutation.
fn lrat_rule(kind: LratKind) -> &'static [u8]
    ensures { result.now ≡ lrat_rule kind }
{
    match kind {
        LratKind::Proof => b"proof",
        LratKind::Order => b"order",
        LratKind::Rat => b"rat",
        LratKind::Chain => b"chain",
        LratKind::Empty => b"empty",
    }
}

/// The line of a fault.
fn line_in(fault: Fault) -> u64
    ensures { result ≡ line_in fault }
{
    match fault {
        Fault::Clauses(fault) => fault.line,
        Fault::Refutation(fault) => fault.line,
    }
}

/// The name of a fault.
fn rule_in(fault: Fault) -> &'static [u8]
    ensures { result.now ≡ rule_in fault }
{
    match fault {
        Fault::Clauses(fault) => cnf_rule(fault.kind),
        Fault::Refutation(fault) => lrat_rule(fault.kind),
    }
}

/// The line that is told: the refutation is accepted, or the first fault.
pub(crate) fn ending_line(alloc: Global, fault: Option<Fault>) -> Result<Text, AllocError>
    ensures { IfOk result (λ t. t ≡ ending_text fault) }
{
    match fault {
        None => Text::from_slice(alloc, b"accepted\n"),
        Some(fault) => {
            let mut text = Text::from_slice(alloc, b"refused line ")?;
            push_number(&mut text, line_in(fault))?;
            text.push_slice(b" rule ")?;
            text.push_slice(rule_in(fault))?;
            text.push_slice(b"\n")?;
            Ok(text)
        }
    }
}

/// Appends the literal of a variable that its value makes true, behind a blank.
fn push_value(out: &mut Text, variable: u64, value: bool) -> Result<(), AllocError>
    ensures { OnOk result (out.new ≡ out.old ++ 32 ∷ value_word variable value) }
{
    out.push(b' ')?;
    if !value {
        out.push(b'-')?;
    }
    push_number(out, variable)
}

/// Appends the literals that these values make true, that of variable 1 first.
fn push_values(out: &mut Text, values: &[bool]) -> Result<(), AllocError>
    ensures { OnOk result (out.new ≡ out.old ++ value_words 1 values.now) }
{
    'values: for place in 0..values.len() {
        push_value(out, place as u64 + 1, values[place])?;
    }
    Ok(())
}

/// The lines that are told of what was found.
pub(crate) fn finding_text(alloc: Global, finding: &Finding) -> Result<Text, AllocError>
    ensures { IfOk result (λ t. t ≡ finding_text finding.now) }
{
    match finding {
        Finding::Fault(fault) => ending_line(alloc, Some(Fault::Clauses(*fault))),
        Finding::Satisfiable(values) => {
            let mut text = Text::from_slice(alloc, b"sat\nv")?;
            push_values(&mut text, values.as_slice())?;
            text.push_slice(b" 0\n")?;
            Ok(text)
        }
        Finding::Unsatisfiable => Text::from_slice(alloc, b"unsat\n"),
    }
}
