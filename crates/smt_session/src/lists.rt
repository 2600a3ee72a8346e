// Lists of texts in parentheses.

ghost use Rattle.std.specs.Prelude.{◌≡◌, ◌++◌, IfOk, OnOk};
ghost use Rattle.proof_text.specs.Lines.{joined, spaced};
ghost use Rattle.accepted_proof.specs.Answers.{list_text};

use smt_text::text::Text;
use std::alloc::{AllocError, Global};

/// Appends texts, each behind a space.
fn push_spaced(items: &[Text], out: &mut Text) -> Result<(), AllocError>
    ensures { OnOk result (out.new ≡ out.old ++ spaced items.now) }
{
    'items: for item in items {
        out.push(b' ')?;
        out.push_slice(item.as_slice())?;
    }
    Ok(())
}

/// Appends texts with one space between.
fn push_joined(items: &[Text], out: &mut Text) -> Result<(), AllocError>
    ensures { OnOk result (out.new ≡ out.old ++ joined items.now) }
{
    match items {
        [] => Ok(()),
        [first, rest @ ..] => {
            out.push_slice(first.as_slice())?;
            push_spaced(rest, out)
        }
    }
}

/// The line of a list: texts in parentheses, with one space between.
pub(crate) fn list_text(alloc: Global, items: &[Text]) -> Result<Text, AllocError>
    ensures { IfOk result (λ t. t ≡ list_text items.now) }
{
    let mut out = Text::from_slice(alloc, b"(")?;
    push_joined(items, &mut out)?;
    out.push_slice(b")\n")?;
    Ok(out)
}
