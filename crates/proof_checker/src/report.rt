// What the user of a check is told.

ghost use Rattle.std.specs.Prelude.{◌≡◌, IfOk, length};
ghost use Rattle.accepted_proof.specs.Answers.{verdict_text};
ghost use Rattle.proof_checker.specs.Checkings.{verdicts_by};
ghost use Rattle.proof_checker.specs.Reports.{rule_text, ending_text};

use crate::checking::Judgement;
use accepted_proof::refusal::{Refusal, RuleName};
use script_state::answer::Verdict;
use smt_text::number::push_number;
use smt_text::text::Text;
use std::alloc::{AllocError, Global};

/// The name of a rule.
fn rule_name(rule: RuleName) -> &'static [u8]
    ensures { result.now ≡ rule_text rule }
{
    match rule {
        RuleName::Header => b"header",
        RuleName::Line => b"line",
        RuleName::Node => b"node",
        RuleName::Leaf => b"leaf",
        RuleName::Encode => b"encode",
        RuleName::Rewrite => b"rewrite",
        RuleName::Selector => b"selector",
        RuleName::Equal => b"equal",
        RuleName::Lemma => b"lemma",
        RuleName::Chain => b"chain",
        RuleName::Delete => b"delete",
        RuleName::Sat => b"sat",
        RuleName::Unsat => b"unsat",
        RuleName::Diary => b"diary",
        RuleName::End => b"end",
    }
}

/// What the user is told of a record that is accepted: the line of its verdict.
pub fn verdict_line(verdict: Verdict) -> &'static [u8]
    ensures { result.now ≡ verdict_text verdict }
{
    match verdict {
        Verdict::Sat => b"sat\n",
        Verdict::Unsat => b"unsat\n",
        Verdict::Unknown => b"unknown\n",
    }
}

/// The line of a check's end: so many records are accepted, or the first bad line and its rule.
fn ending_line(alloc: Global, accepted: u64, refusal: Option<Refusal>) -> Result<Text, AllocError>
    ensures { IfOk result (λ t. t ≡ ending_text accepted refusal) }
{
    match refusal {
        None => {
            let mut text = Text::from_slice(alloc, b"accepted ")?;
            push_number(&mut text, accepted)?;
            text.push_slice(b"\n")?;
            Ok(text)
        }
        Some(refusal) => {
            let mut text = Text::from_slice(alloc, b"refused line ")?;
            push_number(&mut text, refusal.line)?;
            text.push_slice(b" rule ")?;
            text.push_slice(rule_name(refusal.rule))?;
            text.push_slice(b"\n")?;
            Ok(text)
        }
    }
}

/// What the user is told at the end of a check, behind the verdicts: `accepted` and how many records are, or `refused` with the
/// first bad line and its rule.
pub fn end_line(alloc: Global, judgement: &Judgement) -> Result<Text, AllocError>
    ensures { IfOk result
        (λ t. t ≡ ending_text (length (verdicts_by judgement.now.checker)) judgement.now.refusal) }
{
    ending_line(alloc, judgement.verdicts().len() as u64, judgement.refusal)
}
