// A check of a script and a proof that come in pieces.

ghost use Rattle.std.specs.Prelude.{◌≡◌, ◌++◌, [], ℕ, List, Option, Some, None, OnOk, OnErr, IfOk, false, true, length};
ghost use Rattle.script_state.specs.declared.answer.Verdict.{Verdict};
ghost use Rattle.accepted_proof.specs.declared.refusal.Refusal.{Refusal};
ghost use Rattle.proof_checker.specs.Checked.{IsJudged, IsAcceptedSoFar};
ghost use Rattle.accepted_proof.specs.Judged.{is_idle, bad_header};
ghost use Rattle.proof_checker.specs.Checkings.{Judges, Accepts, AreEnded, IsFed, verdicts_by, IsAtLine, Stops, Advances, GoesOn};

use crate::checker::Checker;
use crate::inputs::{Inputs, NextChunk, NextLine};
use accepted_proof::refusal::{Refusal, RuleName};
use proof_text::reader::ProofReader;
use script_state::answer::Verdict;
use smt_text::framer::Framer;
use std::alloc::{AllocError, Global};

/// What is held of a script and of its proof, and how far they are checked. The log, a line and a chunk are kept, and no more
/// of the texts than was fed and not yet read.
#[derive(Drop)]
pub struct Checking {
    inputs: Inputs,
    /// `None` before the first line of the proof.
    checker: Option<Checker>,
}

/// The end of a check.
#[derive(Drop)]
pub struct Judgement {
    checker: Option<Checker>,
    /// The first bad line and its rule; `None` exactly where the proof is accepted.
    pub refusal: Option<Refusal>,
}

/// How far a check came.
#[derive(Drop)]
pub enum Progress {
    /// More of the script has to come first, or its end.
    Script(Checking),
    /// More of the proof has to come first, or its end.
    Proof(Checking),
    /// One more record is accepted, which shows this verdict.
    Shown(Checking, Verdict),
    Done(Judgement),
}

#[derive(Drop)]
enum Step {
    On(Checking),
    Stop(Progress),
}

impl Judgement {
    /// The verdicts of the records that are accepted, in order.
    pub fn verdicts(&self) -> &[Verdict]
        ensures { result.now ≡ verdicts_by self.now.checker }
    {
        match &self.checker {
            Some(checker) => checker.verdicts(),
            None => &[],
        }
    }
}

/// The proof has no first line.
fn without_header() -> Judgement
    ensures { (result.checker ≡ None) × (result.refusal ≡ Some bad_header) }
{
    Judgement {
        checker: None,
        refusal: Some(Refusal {
            line: 1,
            rule: RuleName::Header,
        }),
    }
}

/// The first line of a proof is judged.
fn begin(alloc: Global, mut inputs: Inputs) -> Result<Step, AllocError>
    ensures { IfOk result (λ r. Advances inputs None r) }
{
    let first = match inputs.next_line(alloc)? {
        NextLine::Line(first) => first,
        NextLine::End => return Ok(Step::Stop(Progress::Done(without_header()))),
        NextLine::More => {
            let checking = Checking {
                inputs,
                checker: None,
            };
            return Ok(Step::Stop(Progress::Proof(checking)));
        }
    };
    match Checker::new(alloc, &first)? {
        Ok(checker) => Ok(Step::On(Checking {
            inputs,
            checker: Some(checker),
        })),
        Err(refusal) => Ok(Step::Stop(Progress::Done(Judgement {
            checker: None,
            refusal: Some(refusal),
        }))),
    }
}

/// A line was not refused. Where it ended a check, the verdict of its record is shown.
fn go_on(inputs: Inputs, checker: Checker) -> Step
    ensures { GoesOn inputs checker result }
{
    let shown = checker.shown();
    let checking = Checking {
        inputs,
        checker: Some(checker),
    };
    match shown {
        Some(verdict) => Step::Stop(Progress::Shown(checking, verdict)),
        None => Step::On(checking),
    }
}

/// The next line of the proof is judged, or its end.
fn judge_line(alloc: Global, mut inputs: Inputs, checker: Checker) -> Result<Step, AllocError>
    requires { IsAtLine inputs checker }
    ensures { IfOk result (λ r. Advances inputs (Some checker) r) }
{
    let Ok(next) = inputs.next_line(alloc) else {
        drop((inputs, checker));
        return Err(AllocError);
    };
    match next {
        NextLine::Line(line) => {
            let (checker, told) = checker.line(alloc, &line)?;
            match told {
                Ok(()) => Ok(go_on(inputs, checker)),
                Err(refusal) => Ok(Step::Stop(Progress::Done(Judgement {
                    checker: Some(checker),
                    refusal: Some(refusal),
                }))),
            }
        }
        NextLine::End => {
            let (checker, told) = checker.end();
            Ok(Step::Stop(Progress::Done(Judgement {
                checker: Some(checker),
                refusal: told.err(),
            })))
        }
        NextLine::More => Ok(Step::Stop(Progress::Proof(Checking {
            inputs,
            checker: Some(checker),
        }))),
    }
}

/// The next command of the script is done, or behind the last the next line is judged.
fn do_command(alloc: Global, mut inputs: Inputs, checker: Checker) -> Result<Step, AllocError>
    requires { is_idle checker.judging.owed ≡ true }
    ensures { IfOk result (λ r. Advances inputs (Some checker) r) }
{
    let Ok(next) = inputs.next_chunk() else {
        drop((inputs, checker));
        return Err(AllocError);
    };
    match next {
        NextChunk::Chunk(chunk) => {
            let (checker, ended) = checker.apply(alloc, &chunk)?;
            inputs.run_ended = ended;
            Ok(Step::On(Checking {
                inputs,
                checker: Some(checker),
            }))
        }
        NextChunk::End => judge_line(alloc, inputs, checker),
        NextChunk::More => Ok(Step::Stop(Progress::Script(Checking {
            inputs,
            checker: Some(checker),
        }))),
    }
}

impl Checking {
    /// Nothing was fed yet.
    pub fn new(alloc: Global) -> Checking
        ensures judged { (script proof : List ℕ) (vs : List Verdict) (o : Option Refusal)
            → Judges result script proof vs o → IsJudged script proof vs o }
        ensures accepted { (script proof : List ℕ) (vs : List Verdict)
            → Accepts result script proof vs → IsAcceptedSoFar script proof vs }
        ensures verdicts { verdicts_by result.checker ≡ [] }
        ensures ended { AreEnded result false false }
    {
        Checking {
            inputs: Inputs {
                framer: Framer::new(alloc),
                script_ended: false,
                run_ended: false,
                reader: ProofReader::new(alloc),
                proof_ended: false,
            },
            checker: None,
        }
    }

    /// Takes the next piece of the script. Want of memory is also the answer where its lines could not be counted; then all is as
    /// before.
    pub fn feed_script(&mut self, piece: &[u8]) -> Result<(), AllocError>
        ensures judged { OnOk result
            ((script proof : List ℕ) (vs : List Verdict) (o : Option Refusal)
            → Judges self.new script proof vs o
            → Judges self.old (piece.now ++ script) proof vs o) }
        ensures accepted { OnOk result ((script proof : List ℕ) (vs : List Verdict)
            → Accepts self.new script proof vs → Accepts self.old (piece.now ++ script) proof vs) }
        ensures fed { IsFed self.old self.new (length piece.now) }
        ensures err { OnErr result (self.new ≡ self.old) }
        ensures ended { AreEnded self.new self.old.inputs.script_ended self.old.inputs.proof_ended }
    {
        self.inputs.framer.feed(piece)
    }

    /// Takes the next piece of the proof. Want of memory is also the answer where its lines could not be counted; then all is as
    /// before.
    pub fn feed_proof(&mut self, piece: &[u8]) -> Result<(), AllocError>
        ensures judged { OnOk result
            ((script proof : List ℕ) (vs : List Verdict) (o : Option Refusal)
            → Judges self.new script proof vs o
            → Judges self.old script (piece.now ++ proof) vs o) }
        ensures accepted { OnOk result ((script proof : List ℕ) (vs : List Verdict)
            → Accepts self.new script proof vs → Accepts self.old script (piece.now ++ proof) vs) }
        ensures fed { IsFed self.old self.new (length piece.now) }
        ensures err { OnErr result (self.new ≡ self.old) }
        ensures ended { AreEnded self.new self.old.inputs.script_ended self.old.inputs.proof_ended }
    {
        self.inputs.reader.feed(piece)
    }

    /// No more of the script comes.
    pub fn end_script(&mut self)
        ensures judged { (script proof : List ℕ) (vs : List Verdict) (o : Option Refusal)
            → Judges self.new script proof vs o → Judges self.old script proof vs o }
        ensures accepted { (script proof : List ℕ) (vs : List Verdict)
            → Accepts self.new script proof vs → Accepts self.old script proof vs }
        ensures fed { IsFed self.old self.new 0 }
        ensures ended { AreEnded self.new true self.old.inputs.proof_ended }
    {
        self.inputs.script_ended = true;
    }

    /// No more of the proof comes.
    pub fn end_proof(&mut self)
        ensures judged { (script proof : List ℕ) (vs : List Verdict) (o : Option Refusal)
            → Judges self.new script proof vs o → Judges self.old script proof vs o }
        ensures accepted { (script proof : List ℕ) (vs : List Verdict)
            → Accepts self.new script proof vs → Accepts self.old script proof vs }
        ensures fed { IsFed self.old self.new 0 }
        ensures ended { AreEnded self.new self.old.inputs.script_ended true }
    {
        self.inputs.proof_ended = true;
    }

    /// One line or one command further.
    fn step(self, alloc: Global) -> Result<Step, AllocError>
        ensures { IfOk result (λ r. Advances self.inputs self.checker r) }
    {
        let Checking { inputs, checker } = self;
        match checker {
            None => begin(alloc, inputs),
            Some(checker) => {
                if checker.owes() {
                    judge_line(alloc, inputs, checker)
                } else {
                    do_command(alloc, inputs, checker)
                }
            }
        }
    }

    /// Goes as far as what is held allows: first the header, then the script command by command, and at each check the lines
    /// of the proof up to its record, which is shown as soon as it is accepted. Behind a command that ends the run no more of the
    /// script is asked for. Where it stops before the end, what is judged from here is judged of all.
    pub fn advance(self, alloc: Global) -> Result<Progress, AllocError>
        ensures { IfOk result (λ r. Stops self.inputs self.checker r) }
    {
        let mut checking = self;
        'steps: loop {
            match checking.step(alloc)? {
                Step::On(next) => checking = next,
                Step::Stop(progress) => return Ok(progress),
            }
        }
    }
}
