// The elements of declared arrays.

ghost use Rattle.std.specs.Prelude.{◌≡◌, ℕ, Contains, OnOk, length};
ghost use Rattle.bit_blast.specs.Assigned.{assigned};
ghost use Rattle.access_tables.specs.Encoded.{HaveBits};
ghost use Rattle.access_tables.specs.Held.{IsAccess, assigned_value, IsClosedUnder};
ghost use Rattle.smt_terms.specs.declared.sort.Sort.TheVariants as sort;
ghost use Rattle.theory_terms.specs.declared.shape.Shape.TheVariants.{Declaring};
ghost use Rattle.theory_terms.specs.Shapes.{shape_at};
ghost use Rattle.model_build.specs.Drafts.{SetsDefault, SetsElement, GivesDefault, GivesElement, HasDefaults, HasElements, AreSorted, IsOpenArray, IsOpen};

use crate::draft::Draft;
use access_tables::table::AccessTable;
use access_tables::values::word_of;
use bit_blast::Assignment;
use smt_terms::bits::Bits;
use smt_terms::sort::{DeclId, Sort};
use smt_terms::terms::Terms;
use smt_values::array::ArrayValue;
use smt_values::value::Value;
use std::alloc::{AllocError, Global};
use theory_terms::atom::Landing;
use theory_terms::shape::{Shape, shape_at};

/// Gives a declared array its default, if the access is at the spare index.
fn set_default(
    alloc: Global,
    terms: &Terms,
    bits: &Bits,
    assignment: &Assignment,
    table: &AccessTable,
    row: Landing,
    declaration: DeclId,
    index: u32,
    element: u32,
    draft: &mut Draft,
) -> Result<(), AllocError>
    requires access { IsAccess terms.now.nodes bits.now table.now.terms row }
    requires shape { shape_at terms.now.nodes row.array
        ≡ Declaring declaration (sort.Array index element) }
    ensures { OnOk result
        (SetsDefault (assigned_value terms.now.nodes bits.now (assigned assignment.now))
        table.now.spares row declaration index element draft.old draft.new) }
{
    let _count = terms.len();
    let Some(spare) = table.spare(index) else {
        return Ok(());
    };
    let at = word_of(terms, bits, assignment, row.index);
    if spare != at.value() {
        return Ok(());
    }
    let default = word_of(terms, bits, assignment, row.value);
    let array = ArrayValue::constant(alloc, index, default);
    draft.set(declaration, Value::Array(array))
}

/// Gives a declared array its default, if the access is at the spare index.
fn give_default(
    alloc: Global,
    terms: &Terms,
    bits: &Bits,
    assignment: &Assignment,
    table: &AccessTable,
    row: Landing,
    draft: &mut Draft,
) -> Result<(), AllocError>
    requires access { IsAccess terms.now.nodes bits.now table.now.terms row }
    ensures { OnOk result
        (GivesDefault terms.now.nodes
        (assigned_value terms.now.nodes bits.now (assigned assignment.now)) table.now.spares row
        draft.old draft.new) }
{
    match shape_at(terms, row.array) {
        Shape::Declaring { declaration, sort } => match sort {
            Sort::Array(index, element) => set_default(
                alloc,
                terms,
                bits,
                assignment,
                table,
                row,
                declaration,
                index,
                element,
                draft,
            ),
            _ => Ok(()),
        },
        _ => Ok(()),
    }
}

/// Gives a declared array the element of an access.
fn set_element(
    terms: &Terms,
    bits: &Bits,
    assignment: &Assignment,
    table: &AccessTable,
    row: Landing,
    declaration: DeclId,
    index: u32,
    element: u32,
    draft: &mut Draft,
) -> Result<(), AllocError>
    requires access { IsAccess terms.now.nodes bits.now table.now.terms row }
    requires shape { shape_at terms.now.nodes row.array
        ≡ Declaring declaration (sort.Array index element) }
    requires ready { IsOpenArray draft.old declaration index element }
    ensures { OnOk result
        (SetsElement (assigned_value terms.now.nodes bits.now (assigned assignment.now)) row
        declaration index element draft.old draft.new) }
{
    let _count = terms.len();
    let at = word_of(terms, bits, assignment, row.index);
    let value = word_of(terms, bits, assignment, row.value);
    draft.enter(declaration, at, value)
}

/// Gives a declared array the element of an access.
fn give_element(
    terms: &Terms,
    bits: &Bits,
    assignment: &Assignment,
    table: &AccessTable,
    row: Landing,
    draft: &mut Draft,
) -> Result<(), AllocError>
    requires access { IsAccess terms.now.nodes bits.now table.now.terms row }
    requires ready { IsOpen terms.now.nodes row draft.old }
    ensures { OnOk result
        (GivesElement terms.now.nodes
        (assigned_value terms.now.nodes bits.now (assigned assignment.now)) row draft.old
        draft.new) }
{
    match shape_at(terms, row.array) {
        Shape::Declaring { declaration, sort } => match sort {
            Sort::Array(index, element) => set_element(
                terms,
                bits,
                assignment,
                table,
                row,
                declaration,
                index,
                element,
                draft,
            ),
            _ => Ok(()),
        },
        _ => Ok(()),
    }
}

/// Gives declared arrays their defaults.
pub(crate) fn give_defaults(
    alloc: Global,
    terms: &Terms,
    bits: &Bits,
    assignment: &Assignment,
    table: &AccessTable,
    draft: &mut Draft,
) -> Result<(), AllocError>
    requires bits { HaveBits terms.now.nodes bits.now (Contains table.now.terms) }
    requires closed { IsClosedUnder terms.now.nodes bits.now (assigned assignment.now) table.now }
    requires entered { HasDefaults terms.now.nodes bits.now (assigned assignment.now) table.now
        (length table.now.terms) 0 draft.old }
    requires sorted { AreSorted terms.now.nodes bits.now table.now.terms draft.old }
    ensures given { OnOk result
        (HasDefaults terms.now.nodes bits.now (assigned assignment.now) table.now
        (length table.now.terms) (length table.now.rows) draft.new) }
    ensures sorted { OnOk result
        (AreSorted terms.now.nodes bits.now table.now.terms draft.new) }
{
    let _count = terms.len();
    for row in table.rows() {
        give_default(alloc, terms, bits, assignment, table, *row, draft)?;
    }
    Ok(())
}

/// Gives declared arrays the elements of all accesses.
pub(crate) fn give_elements(
    terms: &Terms,
    bits: &Bits,
    assignment: &Assignment,
    table: &AccessTable,
    draft: &mut Draft,
) -> Result<(), AllocError>
    requires bits { HaveBits terms.now.nodes bits.now (Contains table.now.terms) }
    requires closed { IsClosedUnder terms.now.nodes bits.now (assigned assignment.now) table.now }
    requires given { HasDefaults terms.now.nodes bits.now (assigned assignment.now) table.now
        (length table.now.terms) (length table.now.rows) draft.old }
    requires sorted { AreSorted terms.now.nodes bits.now table.now.terms draft.old }
    ensures given { OnOk result
        (HasElements terms.now.nodes bits.now (assigned assignment.now) table.now
        (length table.now.terms) (length table.now.rows) draft.new) }
    ensures sorted { OnOk result
        (AreSorted terms.now.nodes bits.now table.now.terms draft.new) }
{
    let _count = terms.len();
    for row in table.rows() {
        give_element(terms, bits, assignment, table, *row, draft)?;
    }
    Ok(())
}
