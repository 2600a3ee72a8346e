// A table of scripts, proofs and changes of proofs.

ghost use Rattle.std.specs.Prelude.{◌≡◌, ◌<◌, ◌+◌, ◌++◌, length, map, IfOk, OnOk, MatchOption};
ghost use Rattle.theory_rows.specs.Rows.{lines_text, changed_lines};

use smt_text::text::Text;
use std::alloc::{AllocError, Global};

/// So many lines, behind those that stay in front, are replaced by others.
#[derive(Drop)]
pub struct Change<'a> {
    pub front: u32,
    pub count: u32,
    pub lines: Vec<&'a str>,
}

/// A script, a proof, and changes of the proof.
#[derive(Drop)]
pub struct Base<'a> {
    pub name: &'a str,
    pub script: Vec<&'a str>,
    pub proof: Vec<&'a str>,
    pub changes: Vec<Change<'a>>,
}

/// What a line of a table says.
#[derive(Clone, Copy)]
enum Row<'a> {
    Nothing,
    Base(&'a str),
    Script(&'a str),
    Proof(&'a str),
    /// The first line that is replaced, counted from 1, and how many are.
    Change(u32, u32),
    Line(&'a str),
}

fn change_of(numbers: &str) -> Option<Row<'_>> {
    let (first, count) = numbers.split_once(' ')?;
    Some(Row::Change(first.parse().ok()?, count.parse().ok()?))
}

fn row_of(line: &str) -> Option<Row<'_>> {
    if line.is_empty() || line.starts_with('#') {
        return Some(Row::Nothing);
    }
    let (kind, rest) = line.split_once(' ')?;
    match kind {
        "=" => Some(Row::Base(rest)),
        ">" => Some(Row::Script(rest)),
        "|" => Some(Row::Proof(rest)),
        "-" => change_of(rest),
        "+" => Some(Row::Line(rest)),
        _ => None,
    }
}

/// Adds what a line says to the last base, or begins a base; false where the line cannot stand there.
fn add<'a>(alloc: Global, bases: &mut Vec<Base<'a>>, row: Row<'a>) -> Result<bool, AllocError> {
    if let Row::Base(name) = row {
        bases.push(Base {
            name,
            script: Vec::new(alloc),
            proof: Vec::new(alloc),
            changes: Vec::new(alloc),
        })?;
        return Ok(true);
    }
    let Some(base) = bases.last_mut() else {
        return Ok(false);
    };
    match row {
        Row::Script(line) => base.script.push(line)?,
        Row::Proof(line) => base.proof.push(line)?,
        Row::Change(first, count) => {
            let Some(front) = first.checked_sub(1) else {
                return Ok(false);
            };
            let lines = Vec::new(alloc);
            base.changes.push(Change {
                front,
                count,
                lines,
            })?;
        }
        Row::Line(line) => match base.changes.last_mut() {
            Some(change) => change.lines.push(line)?,
            None => return Ok(false),
        },
        Row::Base(_) | Row::Nothing => {}
    }
    Ok(true)
}

/// The bases of a table; nothing where a line of the text is none of a table.
pub fn bases<'a>(alloc: Global, text: &'a str) -> Result<Option<Vec<Base<'a>>>, AllocError> {
    let mut bases = Vec::new(alloc);
    for line in text.lines() {
        match row_of(line) {
            Some(row) => {
                if !add(alloc, &mut bases, row)? {
                    return Ok(None);
                }
            }
            None => return Ok(None),
        }
    }
    Ok(Some(bases))
}

/// Appends each line with a line feed.
fn push_lines(text: &mut Text, lines: &[&str]) -> Result<(), AllocError>
    ensures { OnOk result (text.new ≡ text.old ++ lines_text (map (λ l. l.now) lines.now)) }
{
    for line in lines {
        text.push_slice(line.as_bytes())?;
        text.push(b'\n')?;
    }
    Ok(())
}

/// The text of these lines.
pub fn text_of(alloc: Global, lines: &[&str]) -> Result<Text, AllocError>
    ensures { IfOk result (λ t. t ≡ lines_text (map (λ l. l.now) lines.now)) }
{
    let mut text = Text::new(alloc);
    push_lines(&mut text, lines)?;
    Ok(text)
}

/// The text of a proof behind a change; nothing exactly where the proof has not so many lines.
pub fn changed_text(
    alloc: Global,
    proof: &[&str],
    change: &Change<'_>,
) -> Result<Option<Text>, AllocError>
    ensures { IfOk result (λ o. MatchOption o
        (length proof.now < change.now.front + change.now.count)
        (λ t. t ≡ lines_text
        (changed_lines change.now.front change.now.count
        (map (λ l. l.now) change.now.lines.items) (map (λ l. l.now) proof.now)))) }
{
    let front = change.front as usize;
    let behind = front + change.count as usize;
    if proof.len() < behind {
        return Ok(None);
    }
    let mut text = Text::new(alloc);
    push_lines(&mut text, &proof[..front])?;
    push_lines(&mut text, change.lines.as_slice())?;
    push_lines(&mut text, &proof[behind..])?;
    Ok(Some(text))
}
