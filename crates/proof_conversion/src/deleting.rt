// The deletions in front of each part.

ghost use Rattle.std.specs.Prelude.{◌≡◌, ◌∷◌, ◌++◌, IfOk, OnOk, length};
ghost use Rattle.std.specs.List.{flat_map, AllByRecursion};
ghost use Rattle.std.specs.Fmt.{decimal};
ghost use Rattle.proof_text.specs.Lines.{line_text, IsLine, IsNumber};
ghost use Rattle.proof_conversion.specs.Needs.{deletion};
ghost use Rattle.proof_conversion.specs.Filing.{filed, no_lists, AreDue};

use crate::kind::{Kind, kind_of};
use plain_list::List as Places;
use proof_text::line::Line;
use smt_text::number::push_number;
use smt_text::text::Text;
use std::alloc::{AllocError, Global};

fn push_spaced(out: &mut Text, n: u64) -> Result<(), AllocError>
    ensures ok { OnOk result (out.new ≡ out.old ++ 32 ∷ decimal n) }
    ensures number { IsNumber n }
{
    out.push(b' ')?;
    push_number(out, n)
}

/// Appends the line that deletes these places, or nothing for none.
pub(crate) fn push_deletion(places: &[u64], out: &mut Text) -> Result<(), AllocError>
    ensures text { OnOk result (out.new ≡ out.old ++ flat_map line_text (deletion places.now)) }
    ensures line { OnOk result (AllByRecursion IsLine (deletion places.now)) }
{
    if places.is_empty() {
        return Ok(());
    }
    out.push(b'd')?;
    for place in places {
        push_spaced(out, *place)?;
    }
    out.push(b'\n')
}

/// Files a place under its part.
fn file(lists: &mut Vec<Places<u64>>, part: u64, place: u64) -> Result<(), AllocError>
    ensures { OnOk result (lists.new.items ≡ filed part place lists.old.items) }
{
    let row = part as usize;
    if row < lists.len() {
        lists[row].push(place)?;
    }
    Ok(())
}

/// So many lists of no place.
fn no_lists(alloc: Global, count: u64) -> Result<Vec<Places<u64>>, AllocError>
    ensures { IfOk result (λ v. v.items ≡ no_lists count) }
{
    let mut lists = Vec::new(alloc);
    for k in 0..count {
        let _done = k;
        lists.push(Places::none(alloc))?;
    }
    Ok(lists)
}

/// The places that each of so many parts is the last to need.
pub(crate) fn places_due(
    alloc: Global,
    parts: u64,
    steps: &[Line],
    last: &[u64],
) -> Result<Vec<Places<u64>>, AllocError>
    requires { length steps.now ≡ length last.now }
    ensures { IfOk result (λ v. AreDue parts steps.now last.now v.items) }
{
    let mut lists = no_lists(alloc, parts)?;
    for k in 0..steps.len() {
        match kind_of(&steps[k]) {
            Kind::Added => file(&mut lists, last[k], k as u64 + 1)?,
            _ => (),
        }
    }
    Ok(lists)
}
