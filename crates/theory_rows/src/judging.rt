// What is judged of a script and a proof.

ghost use Rattle.std.specs.Prelude.{IfOk};
ghost use Rattle.proof_checker.specs.Checked.{IsJudged};
ghost use Rattle.proof_checker.specs.Checkings.{verdicts_by};
ghost use Rattle.theory_rows.specs.Rows.{IsEndOfCheck};

use proof_checker::checking::{Checking, Judgement, Progress};
use proof_checker::report::end_line;
use smt_text::text::Text;
use std::alloc::{AllocError, Global};

/// The end of a check of both texts.
fn judged(alloc: Global, script: &[u8], proof: &[u8]) -> Result<Judgement, AllocError>
    ensures { IfOk result
        (λ j. IsJudged script.now proof.now (verdicts_by j.checker) j.refusal) }
{
    let mut checking = Checking::new(alloc);
    checking.feed_script(script)?;
    checking.end_script();
    checking.feed_proof(proof)?;
    checking.end_proof();
    'records: loop {
        match checking.advance(alloc)? {
            Progress::Done(judgement) => return Ok(judgement),
            Progress::Shown(held, _) => checking = held,
            Progress::Script(_) | Progress::Proof(_) => unreachable!(),
        }
    }
}

/// The line that ends a check of both texts: that the proof is accepted, or its first bad line and the rule.
pub fn told(alloc: Global, script: &[u8], proof: &[u8]) -> Result<Text, AllocError>
    ensures { IfOk result (λ t. IsEndOfCheck script.now proof.now t) }
{
    let judgement = judged(alloc, script, proof)?;
    end_line(alloc, &judgement)
}
