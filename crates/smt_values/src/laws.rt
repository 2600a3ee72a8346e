// What the values promise together.

ghost use Rattle.std.specs.Prelude.{◌≡◌, List, map, if◌then◌else◌};
ghost use Rattle.std.specs.Ordering.{is_eq};
ghost use Rattle.smt_words.specs.Words.{WordValue};
ghost use Rattle.smt_terms.specs.declared.scalar.Scalar.{Scalar};
ghost use Rattle.smt_terms.specs.declared.sort.Sort.TheVariants as sort;
ghost use Rattle.smt_terms.specs.Scalars.{scalar_value};
ghost use Rattle.smt_terms.specs.Values.{VWord, HasSort, same_value, store_of};
ghost use Rattle.smt_values.specs.Arrays.{ArrayFields, IsArray, array_value, with_element};
ghost use Rattle.smt_values.specs.Differences.{agree};
ghost use Rattle.smt_values.specs.Tables.{TableFields, args_cmp, table_value, with_row};

/// An array that is held is a value of its sort, at every index.
pub fn arrays_are_of_their_sorts()
    ensures { (a : ArrayFields) → IsArray a
        → HasSort (sort.Array a.index a.default.width) (array_value a) }
{}

/// What is set at an index is the array with that element stored, and equality is that of the theory.
pub fn arrays_are_those_of_the_theory()
    ensures store { (a : ArrayFields) (i x : WordValue)
        → array_value (with_element a i x)
        ≡ store_of (array_value a) (VWord i.width i.value) (VWord x.width x.value) }
    ensures equal { (a b : ArrayFields) → agree a b ≡ same_value (array_value a) (array_value b) }
{}

/// A row changes the value for its own arguments alone.
pub fn rows_change_one_value()
    ensures { (t : TableFields) (args other : List Scalar) (value : Scalar)
        → table_value (with_row t args value) (map scalar_value other)
        ≡ (if is_eq (args_cmp args other) then scalar_value value else table_value t
        (map scalar_value other)) }
{}
