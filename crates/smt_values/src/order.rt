// The order of lists of truth values and words.

ghost use Rattle.std.specs.Prelude.{◌≡◌};
ghost use Rattle.std.specs.Ordering.{nat_cmp};
ghost use Rattle.smt_values.specs.Tables.{rank, number, scalar_cmp, args_cmp};

use smt_terms::scalar::Scalar;
use std::cmp::Ordering;

fn rank(scalar: &Scalar) -> u64
    ensures { result ≡ rank scalar.now }
{
    match scalar {
        Scalar::Bool(_) => 0,
        Scalar::Word(word) => u64::from(word.width()) + 1,
    }
}

fn number(scalar: &Scalar) -> u128
    ensures { result ≡ number scalar.now }
{
    match scalar {
        Scalar::Bool(holds) => { if *holds { 1 } else { 0 } }
        Scalar::Word(word) => word.value(),
    }
}

fn compare_numbers(a: u128, b: u128) -> Ordering
    ensures { result ≡ nat_cmp a b }
{
    if a < b {
        Ordering::Less
    } else if a == b {
        Ordering::Equal
    } else {
        Ordering::Greater
    }
}

/// Truth values before words, those before wider ones, and then by the value.
fn compare_scalars(a: &Scalar, b: &Scalar) -> Ordering
    ensures { result ≡ scalar_cmp a.now b.now }
{
    let first = rank(a);
    let second = rank(b);
    if first < second {
        return Ordering::Less;
    }
    if second < first {
        return Ordering::Greater;
    }
    compare_numbers(number(a), number(b))
}

/// By the first values that differ, and else by the lengths.
pub fn compare(a: &[Scalar], b: &[Scalar]) -> Ordering
    ensures { result ≡ args_cmp a.now b.now }
{
    match a {
        [] => match b {
            [] => Ordering::Equal,
            [_, ..] => Ordering::Less,
        },
        [x, xs @ ..] => match b {
            [] => Ordering::Greater,
            [y, ys @ ..] => match compare_scalars(x, y) {
                Ordering::Equal => compare(xs, ys),
                Ordering::Less => Ordering::Less,
                Ordering::Greater => Ordering::Greater,
            },
        },
    }
}
