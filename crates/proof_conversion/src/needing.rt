// Which part is the last to need the step at a position.

ghost use Rattle.std.specs.Prelude.{◌≡◌, ◌∷◌, Some};
ghost use Rattle.std.specs.Option.{option_copied};
ghost use Rattle.proof_conversion.specs.Needs.{mark, mark_all, places_of, step_at, cited_by, needs};

use proof_text::line::Line;
use proof_text::list::WrittenHint;

/// Notes that a part needs the step at a position.
fn mark(last: &mut [u64], part: u64, place: u64)
    ensures { last.new ≡ mark part place last.old }
{
    if place == 0 {
        return;
    }
    let row = place - 1;
    if row < last.len() as u64 {
        last[row as usize] = part;
    }
}

/// The same of those that hints name.
fn mark_hints(last: &mut [u64], part: u64, hints: &[WrittenHint])
    ensures { last.new ≡ mark_all part (places_of hints.now) last.old }
{
    for hint in hints {
        mark(last, part, hint.pos);
    }
}

/// The line of the step at a position; `None` exactly where there is none.
fn step_at(steps: &[Line], place: u64) -> Option<&Line>
    ensures { option_copied result ≡ step_at steps.now place }
{
    if place == 0 {
        return None;
    }
    steps.get((place - 1) as usize)
}

/// The same of those that a chain cites; a line of another step cites none.
fn mark_chain(last: &mut [u64], part: u64, line: &Line)
    ensures { last.new ≡ mark_all part (cited_by (Some line.now)) last.old }
{
    match line {
        Line::Chain { clause: _, hints } => mark_hints(last, part, hints.as_slice()),
        Line::Header {
            format: _,
            cubes: _,
            budget: _,
        } => (),
        Line::Term { head: _, args: _ } => (),
        Line::Leaf(_) => (),
        Line::Encode(_) => (),
        Line::Rewrite {
            rule: _,
            from: _,
            to: _,
        } => (),
        Line::Selector(_) => (),
        Line::Equal(_, _) => (),
        Line::Congruence(_, _) => (),
        Line::Witness(_) => (),
        Line::Accesses(_, _) => (),
        Line::Delete(_) => (),
        Line::Sat(_) => (),
        Line::Value {
            declaration: _,
            value: _,
        } => (),
        Line::Unsat(_) => (),
        Line::Unknown {
            cube: _,
            start: _,
            count: _,
        } => (),
        Line::Take(_) => (),
        Line::Put(_) => (),
        Line::Drop(_) => (),
    }
}

/// The same of those that the step at a position cites, where there is one.
fn mark_cited(last: &mut [u64], part: u64, steps: &[Line], place: u64)
    ensures { last.new ≡ mark_all part (cited_by (step_at steps.now place)) last.old }
{
    match step_at(steps, place) {
        Some(line) => mark_chain(last, part, line),
        None => (),
    }
}

/// The same of a put: of the position that it names, and of those that its chain cites.
fn mark_put(last: &mut [u64], part: u64, steps: &[Line], place: u64)
    ensures { last.new ≡ mark_all part (place ∷ cited_by (step_at steps.now place)) last.old }
{
    mark(last, part, place);
    mark_cited(last, part, steps, place);
}

/// The same of all that a line behind these steps needs.
pub(crate) fn mark_needs(last: &mut [u64], part: u64, steps: &[Line], line: &Line)
    ensures { last.new ≡ mark_all part (needs steps.now line.now) last.old }
{
    match line {
        Line::Chain { clause: _, hints } => mark_hints(last, part, hints.as_slice()),
        Line::Unsat(place) => mark(last, part, *place),
        Line::Take(place) => mark(last, part, *place),
        Line::Put(place) => mark_put(last, part, steps, *place),
        Line::Drop(place) => mark(last, part, *place),
        Line::Header {
            format: _,
            cubes: _,
            budget: _,
        } => (),
        Line::Term { head: _, args: _ } => (),
        Line::Leaf(_) => (),
        Line::Encode(_) => (),
        Line::Rewrite {
            rule: _,
            from: _,
            to: _,
        } => (),
        Line::Selector(_) => (),
        Line::Equal(_, _) => (),
        Line::Congruence(_, _) => (),
        Line::Witness(_) => (),
        Line::Accesses(_, _) => (),
        Line::Delete(_) => (),
        Line::Sat(_) => (),
        Line::Value {
            declaration: _,
            value: _,
        } => (),
        Line::Unknown {
            cube: _,
            start: _,
            count: _,
        } => (),
    }
}
