// The record of a part, by places.

ghost use Rattle.std.specs.Prelude.{◌≡◌, ◌&&◌, ◌++◌, ◌∷◌, [], Some, IfOk, OnOk, ltb, map, if◌then◌else◌};
ghost use Rattle.std.specs.List.{flat_map, AllByRecursion};
ghost use Rattle.proof_log.specs.Logs.{entry_at};
ghost use Rattle.proof_log.specs.declared.diary.DiaryLine.TheVariants.{Take};
ghost use Rattle.proof_text.specs.Lines.{line_text, IsLine};
ghost use Rattle.proof_text.specs.Records.{HaveDigits, record_lines};
ghost use Rattle.proof_file.specs.Places.{placed_line};
ghost use Rattle.proof_file.specs.Trimmed.{is_lemma, lemmas_before, placed_diary, placed_record};
ghost use Rattle.proof_file.specs.Held.{file_in};

use crate::places::{Place, Places};
use cnf_base::Pos;
use proof_log::Log;
use proof_log::diary::{Diary, DiaryLine, DiaryLines};
use proof_log::entry::Entry;
use proof_text::record::{Record, write_record};
use smt_text::text::Text;
use std::alloc::{AllocError, Global};

/// Whether a step is a lemma.
fn is_lemma(entry: &Entry) -> bool
    ensures { result ≡ is_lemma (Some entry.now) }
{
    match entry {
        Entry::Node(_) => false,
        Entry::Leaf(_) => false,
        Entry::Encode(_) => false,
        Entry::Selector(_, _) => false,
        Entry::Chain(_, _) => false,
        Entry::Rewrite(_) => false,
        Entry::Equal(_, _) => false,
        Entry::Lemma(_) => true,
    }
}

/// Whether a lemma stands at a position.
fn is_lemma_at(log: &Log, at: Pos) -> bool
    ensures { result ≡ is_lemma (entry_at log.now.entries at) }
{
    match log.entry(at) {
        Some(entry) => is_lemma(entry),
        None => false,
    }
}

/// Whether a lemma stands at a position that is before another.
fn is_held(log: &Log, at: Pos, start: Pos) -> bool
    ensures { result ≡ (ltb at start && is_lemma (entry_at log.now.entries at)) }
{
    at < start && is_lemma_at(log, at)
}

/// Puts a line behind others that takes what stands at this place, where the search held it.
fn push_take(lines: &mut DiaryLines, place: Place, is_held: bool) -> Result<(), AllocError>
    ensures { OnOk result
        (lines.new ≡ (if is_held then lines.old ++ Take place ∷ [] else lines.old)) }
{
    if is_held {
        lines.push(DiaryLine::Take(place.number()))?;
    }
    Ok(())
}

/// Puts lines behind others that take the lemmas of these positions which stand before a position.
fn push_lemmas(
    log: &Log,
    places: &Places,
    start: Pos,
    needed: &[Pos],
    lines: &mut DiaryLines,
) -> Result<(), AllocError>
    ensures { OnOk result (lines.new ≡ lines.old
        ++ map (λ p. Take ((file_in places.now).places p))
        (lemmas_before log.now.entries start needed.now)) }
{
    for at in needed {
        push_take(lines, places.place_of(*at), is_held(log, *at, start))?;
    }
    Ok(())
}

/// The line, which names the place of its position.
fn placed_line(places: &Places, line: DiaryLine) -> DiaryLine
    ensures { result ≡ placed_line (file_in places.now).places line }
{
    match line {
        DiaryLine::Take(at) => DiaryLine::Take(places.place_of(at).number()),
        DiaryLine::Put(at) => DiaryLine::Put(places.place_of(at).number()),
        DiaryLine::Drop(at) => DiaryLine::Drop(places.place_of(at).number()),
    }
}

/// Puts lines behind others, each of which names the place of its position.
fn push_placed(
    places: &Places,
    named: &[DiaryLine],
    lines: &mut DiaryLines,
) -> Result<(), AllocError>
    ensures { OnOk result
        (lines.new ≡ lines.old ++ map (placed_line (file_in places.now).places) named.now) }
{
    for line in named {
        lines.push(placed_line(places, *line))?;
    }
    Ok(())
}

/// The diary by places, the lemmas and chains of whose check begin at this place.
fn placed_diary(
    alloc: Global,
    log: &Log,
    places: &Places,
    start: Place,
    needed: &[Pos],
    diary: &Diary,
) -> Result<Diary, AllocError>
    ensures { IfOk result (λ d. d
        ≡ placed_diary log.now.entries (file_in places.now).places start needed.now diary.now) }
{
    let mut lines = DiaryLines::none(alloc);
    push_lemmas(log, places, diary.start, needed, &mut lines)?;
    push_placed(places, diary.lines.as_slice(), &mut lines)?;
    Ok(Diary {
        cube: diary.cube,
        start: start.number(),
        lines,
    })
}

/// Appends the record by places.
pub(crate) fn write_shown(
    alloc: Global,
    log: &Log,
    places: &Places,
    start: Place,
    needed: &[Pos],
    shown: &Record,
    out: &mut Text,
) -> Result<(), AllocError>
    requires { HaveDigits shown.now }
    ensures text { OnOk result (out.new ≡ out.old ++ flat_map line_text (record_lines
        (placed_record log.now.entries (file_in places.now).places start needed.now shown.now))) }
    ensures lines { OnOk result (AllByRecursion IsLine (record_lines
        (placed_record log.now.entries (file_in places.now).places start needed.now shown.now))) }
{
    match shown {
        Record::Sat(_) => write_record(shown, out),
        Record::Unsat(at) => write_record(&Record::Unsat(places.place_of(*at).number()), out),
        Record::Unknown(diary) => {
            let placed = placed_diary(alloc, log, places, start, needed, diary)?;
            write_record(&Record::Unknown(placed), out)
        }
    }
}
