// The lines of a proof, one after the other.

ghost use Rattle.std.specs.Prelude.{◌≡◌, ◌+◌, ◌∷◌, ◌++◌, [], List, map, IfOk, OnOk, MatchResult};
ghost use Rattle.proof_text.specs.Lines.{line_text};
ghost use Rattle.proof_text.specs.declared.line.Line.{Line as Written};
ghost use Rattle.proof_conversion.specs.Parts.{kind_of};
ghost use Rattle.proof_conversion.specs.Needs.{Known, nothing_known, known_with, step_in};
ghost use Rattle.proof_conversion.specs.Conversions.{IsRead, IsFirstBad};
ghost use Rattle.proof_conversion.specs.Scans.{IsScan, IsBeside, part_with, whole_with, open_with};

use crate::fault::{Fault, Rule};
use crate::kind::{Kind, Owed, kind_of, owed_behind};
use crate::needing::mark_needs;
use proof_text::line::Line;
use proof_text::reader::ProofReader;
use smt_text::text::Text;
use std::alloc::{AllocError, Global};

/// What is known of the lines that were read: what is owed behind them, the steps, the last part that needs each, and the texts
/// of the parts that are whole and of the one that stands open.
#[derive(Drop)]
pub(crate) struct Scan {
    pub(crate) owed: Owed,
    pub(crate) part: u64,
    pub(crate) steps: Vec<Line>,
    pub(crate) last: Vec<u64>,
    pub(crate) texts: Vec<Text>,
    pub(crate) opened: Text,
}

fn next_number(number: u64) -> Result<u64, AllocError>
    ensures { IfOk result (λ n. n ≡ number + 1) }
{
    match number.checked_add(1) {
        Some(next) => Ok(next),
        None => Err(AllocError),
    }
}

impl Scan {
    /// Nothing was read.
    pub(crate) fn new(alloc: Global) -> Scan
        ensures { IsScan result nothing_known }
    {
        Scan {
            owed: Owed::Nothing,
            part: 1,
            steps: Vec::new(alloc),
            last: Vec::new(alloc),
            texts: Vec::new(alloc),
            opened: Text::new(alloc),
        }
    }

    /// The line of a step is known, and its part needs it.
    fn step(&mut self, line: Line) -> Result<(), AllocError>
        ensures others { IsBeside self.old self.new }
        ensures steps { OnOk result (self.new.steps.items ≡ self.old.steps.items ++ line ∷ []) }
        ensures last { OnOk result
            (self.new.last.items ≡ self.old.last.items ++ self.old.part ∷ []) }
    {
        self.last.push(self.part)?;
        self.steps.push(line)?;
        Ok(())
    }

    /// The same where the line is one of a step.
    fn add(&mut self, line: Line, kind: Kind) -> Result<(), AllocError>
        ensures others { IsBeside self.old self.new }
        ensures steps { OnOk result
            (self.new.steps.items ≡ self.old.steps.items ++ step_in kind line) }
        ensures last { OnOk result (self.new.last.items ≡ self.old.last.items
            ++ map (λ s. self.old.part) (step_in kind line)) }
    {
        match kind {
            Kind::Step | Kind::Added => self.step(line),
            _ => Ok(()),
        }
    }

    /// The part that stands open is whole.
    fn close(&mut self, alloc: Global) -> Result<(), AllocError>
        ensures owed { self.new.owed ≡ self.old.owed }
        ensures steps { self.new.steps.items ≡ self.old.steps.items }
        ensures last { self.new.last.items ≡ self.old.last.items }
        ensures part { OnOk result (self.new.part ≡ self.old.part + 1) }
        ensures texts { OnOk result
            (self.new.texts.items ≡ self.old.texts.items ++ self.old.opened ∷ []) }
        ensures opened { OnOk result (self.new.opened ≡ []) }
    {
        let next = next_number(self.part)?;
        let whole = Text::from_slice(alloc, self.opened.as_slice())?;
        self.texts.push(whole)?;
        self.opened.clear();
        self.part = next;
        Ok(())
    }

    /// This is owed; where it is nothing, the part that stands open is whole.
    fn settle(&mut self, alloc: Global, owed: Owed) -> Result<(), AllocError>
        ensures steps { self.new.steps.items ≡ self.old.steps.items }
        ensures last { self.new.last.items ≡ self.old.last.items }
        ensures owed { OnOk result (self.new.owed ≡ owed) }
        ensures part { OnOk result (self.new.part ≡ part_with owed self.old.part) }
        ensures texts { OnOk result
            (self.new.texts.items ≡ whole_with owed self.old.texts.items self.old.opened) }
        ensures opened { OnOk result (self.new.opened ≡ open_with owed self.old.opened) }
    {
        self.owed = owed;
        match owed {
            Owed::Nothing => self.close(alloc),
            Owed::Steps => Ok(()),
            Owed::Values(_) => Ok(()),
            Owed::Notes(_) => Ok(()),
        }
    }

    /// One line more, behind which this is owed, with its bytes.
    fn take(
        &mut self,
        alloc: Global,
        line: Line,
        kind: Kind,
        owed: Owed,
        bytes: &[u8],
    ) -> Result<(), AllocError>
        requires kind { kind ≡ kind_of line }
        requires bytes { bytes.now ≡ line_text line }
        ensures { OnOk result ((known : Known) → IsScan self.old known
            → IsScan self.new (known_with known line owed)) }
    {
        mark_needs(
            self.last.as_mut_slice(),
            self.part,
            self.steps.as_slice(),
            &line,
        );
        self.add(line, kind)?;
        self.opened.push_slice(bytes)?;
        self.settle(alloc, owed)
    }
}

/// The first bad line, by its number and its rule.
fn refused(line: u64, rule: Rule) -> Fault
    ensures { result ≡ record { line = line; rule = rule } }
{
    Fault { line, rule }
}

/// The parts of a proof, of which the header was read and the rest is held, or its first bad line.
pub(crate) fn scan_parts(
    alloc: Global,
    reader: &mut ProofReader,
    text: &[u8],
) -> Result<Result<Scan, Fault>, AllocError>
    requires held { reader.old ≡ record { line = 2; bytes = text.now } }
    ensures { IfOk result (λ r. MatchResult r
        (λ s. (lines : List Written) × (known : Known) × IsRead text.now lines known
        × IsScan s known)
        (λ f. IsFirstBad text.now f)) }
{
    let mut scan = Scan::new(alloc);
    let mut number = 2;
    let mut rest = text;
    'lines: while let Some(answer) = reader.next()? {
        let line = match answer {
            Ok(line) => line,
            Err(fault) => return Ok(Err(refused(fault.line, Rule::Line))),
        };
        let kind = kind_of(&line);
        let Some(owed) = owed_behind(scan.owed, kind) else {
            return Ok(Err(refused(number, Rule::Line)));
        };
        let (bytes, behind) = rest.split_at(rest.len() - reader.held());
        rest = behind;
        scan.take(alloc, line, kind, owed, bytes)?;
        number = next_number(number)?;
    }
    if let Some(fault) = reader.finish() {
        return Ok(Err(refused(fault.line, Rule::Line)));
    }
    match scan.owed {
        Owed::Nothing => Ok(Ok(scan)),
        _ => Ok(Err(refused(number, Rule::End))),
    }
}
