// What an operator takes, and what it gives.

ghost use Rattle.std.specs.Prelude.{◌≡◌, ℕ, Result, Ok, ◌+◌, ◌*◌, ◌^◌, ◌≤◌, length, nat_lt, true};
ghost use Rattle.smt_terms.specs.Ranks.{and_then, allows, width_of, is_plain, index_sort, element_sort, word_sort, constant_sort, plain_sort, literal_sort, extract_sort, one_truth, two_truths, two_words, one_word, concatenation, equality, choice, selection, storing, difference, truth, application, each_of, ranked, rank_of, operator_rank};
ghost use Rattle.smt_terms.specs.declared.sort.Sort.{Sort};
ghost use Rattle.smt_terms.specs.declared.sort.Sort.TheVariants as sort;
ghost use Rattle.smt_terms.specs.declared.fault.MakeFault.{MakeFault};
ghost use Rattle.smt_terms.specs.Places.{sorts_at, taken, ended, ranked_at};

use crate::fault::MakeFault;
use crate::list::Arguments;
use crate::node::{Node, Op, TermId};
use crate::operator::Operator;
use crate::sort::{Signature, Sort};

/// What sorts an operator takes at a place.
#[derive(Clone, Copy, Debug)]
pub enum Demand {
    Any,
    AnyWord,
    AnyArray,
    /// This sort.
    Exactly(Sort),
    /// This sort, which is Bool or a word.
    Argument(Sort),
}

impl Sort {
    /// Whether the sort is Bool or a word.
    pub fn is_plain(self) -> bool
        ensures { result ≡ is_plain self }
    {
        !matches!(self, Sort::Array(..))
    }

    /// The width of a word, 0 for other sorts.
    pub fn width(self) -> u32
        ensures { result ≡ width_of self }
    {
        match self {
            Sort::Word(width) => width,
            Sort::Bool | Sort::Array(..) => 0,
        }
    }

    /// The sort of an array's indexes, Bool for other sorts.
    pub fn index(self) -> Sort
        ensures { result ≡ index_sort self }
    {
        match self {
            Sort::Array(index, _) => Sort::Word(index),
            Sort::Bool | Sort::Word(_) => Sort::Bool,
        }
    }

    /// The sort of an array's elements, Bool for other sorts.
    pub fn element(self) -> Sort
        ensures { result ≡ element_sort self }
    {
        match self {
            Sort::Array(_, element) => Sort::Word(element),
            Sort::Bool | Sort::Word(_) => Sort::Bool,
        }
    }
}

fn allows(demand: Demand, sort: Sort) -> bool
    ensures { result ≡ allows demand sort }
{
    match demand {
        Demand::Any => true,
        Demand::AnyWord => matches!(sort, Sort::Word(_)),
        Demand::AnyArray => matches!(sort, Sort::Array(..)),
        Demand::Exactly(wanted) => wanted == sort,
        Demand::Argument(wanted) => wanted.is_plain() && wanted == sort,
    }
}

fn taken(held: &[Sort], args: &[TermId], place: usize, demand: Demand) -> Result<Sort, MakeFault>
    ensures { result ≡ taken (sorts_at held.now args.now) place demand }
{
    let Some(term) = args.get(place) else {
        return Err(MakeFault::WrongSort(place as u64));
    };
    let Some(sort) = held.get(*term as usize) else {
        return Err(MakeFault::WrongSort(place as u64));
    };
    if allows(demand, *sort) {
        Ok(*sort)
    } else {
        Err(MakeFault::WrongSort(place as u64))
    }
}

fn ended(args: &[TermId], place: usize, given: Result<Sort, MakeFault>) -> Result<Sort, MakeFault>
    ensures { result ≡ ended (length args.now) place given }
{
    if args.len() <= place {
        given
    } else {
        Err(MakeFault::WrongSort(place as u64))
    }
}

fn word_sort(width: u128) -> Result<Sort, MakeFault>
    ensures { result ≡ word_sort width }
{
    if 1 <= width && width <= 128 {
        Ok(Sort::Word(width as u32))
    } else {
        Err(MakeFault::WidthOutOfRange(width))
    }
}

fn constant_sort(sort: Sort) -> Result<Sort, MakeFault>
    ensures { result ≡ constant_sort sort }
{
    match sort {
        Sort::Bool => Ok(Sort::Bool),
        Sort::Word(width) => word_sort(u128::from(width)),
        Sort::Array(index, element) => {
            word_sort(u128::from(index))?;
            word_sort(u128::from(element))?;
            Ok(sort)
        }
    }
}

fn plain_sort(sort: Sort) -> Result<Sort, MakeFault>
    ensures { result ≡ plain_sort sort }
{
    match sort {
        Sort::Bool => Ok(Sort::Bool),
        Sort::Word(width) => word_sort(u128::from(width)),
        Sort::Array(..) => Err(MakeFault::WrongSort(0)),
    }
}

/// Whether the value is below two to the width.
fn fits(width: u64, value: u128) -> bool
    ensures { result ≡ nat_lt value (2 ^ width) }
{
    width >= 128 || value < 1 << width
}

fn literal_sort(width: u64, value: u128) -> Result<Sort, MakeFault>
    ensures { result ≡ literal_sort width value }
{
    if fits(width, value) {
        word_sort(u128::from(width))
    } else {
        Err(MakeFault::WrongSort(0))
    }
}

fn extract_sort(high: u64, low: u64, width: u32) -> Result<Sort, MakeFault>
    ensures { result ≡ extract_sort high low width }
{
    if low <= high && high < u64::from(width) {
        word_sort(u128::from(high - low + 1))
    } else {
        Err(MakeFault::WrongSort(0))
    }
}

fn one_truth(held: &[Sort], args: &[TermId]) -> Result<Sort, MakeFault>
    ensures { result ≡ ranked_at one_truth 0 (sorts_at held.now args.now) }
{
    taken(held, args, 0, Demand::Exactly(Sort::Bool))?;
    ended(args, 1, Ok(Sort::Bool))
}

fn two_truths(held: &[Sort], args: &[TermId]) -> Result<Sort, MakeFault>
    ensures { result ≡ ranked_at two_truths 0 (sorts_at held.now args.now) }
{
    taken(held, args, 0, Demand::Exactly(Sort::Bool))?;
    taken(held, args, 1, Demand::Exactly(Sort::Bool))?;
    ended(args, 2, Ok(Sort::Bool))
}

/// A word, and its sort again.
fn same_word(held: &[Sort], args: &[TermId]) -> Result<Sort, MakeFault>
    ensures { result ≡ ranked_at (one_word word_sort) 0 (sorts_at held.now args.now) }
{
    let word = taken(held, args, 0, Demand::AnyWord)?;
    ended(args, 1, word_sort(u128::from(word.width())))
}

fn extraction(held: &[Sort], args: &[TermId], high: u64, low: u64) -> Result<Sort, MakeFault>
    ensures { result ≡ ranked_at (one_word (extract_sort high low)) 0 (sorts_at held.now args.now) }
{
    let word = taken(held, args, 0, Demand::AnyWord)?;
    ended(args, 1, extract_sort(high, low, word.width()))
}

fn extension(held: &[Sort], args: &[TermId], by: u64) -> Result<Sort, MakeFault>
    ensures { result ≡ ranked_at (one_word λ n. word_sort (n + by)) 0 (sorts_at held.now args.now) }
{
    let word = taken(held, args, 0, Demand::AnyWord)?;
    ended(
        args,
        1,
        word_sort(u128::from(word.width()) + u128::from(by)),
    )
}

fn repetition(held: &[Sort], args: &[TermId], copies: u64) -> Result<Sort, MakeFault>
    ensures { result
        ≡ ranked_at (one_word λ n. word_sort (n * copies)) 0 (sorts_at held.now args.now) }
{
    let word = taken(held, args, 0, Demand::AnyWord)?;
    ended(
        args,
        1,
        word_sort(u128::from(word.width()) * u128::from(copies)),
    )
}

/// The sort of an array whose index width stands in an operator.
fn array_sort(index: u64, element: u32) -> Result<Sort, MakeFault>
    ensures { result ≡ constant_sort (sort.Array index element) }
{
    if index > 128 {
        return Err(MakeFault::WidthOutOfRange(u128::from(index)));
    }
    constant_sort(Sort::Array(index as u32, element))
}

/// A word, and the sort of an array of such words.
fn everywhere(held: &[Sort], args: &[TermId], index: u64) -> Result<Sort, MakeFault>
    ensures { result
        ≡ ranked_at (one_word λ n. constant_sort (sort.Array index n)) 0
        (sorts_at held.now args.now) }
{
    let word = taken(held, args, 0, Demand::AnyWord)?;
    ended(args, 1, array_sort(index, word.width()))
}

/// The sort of two words of one sort.
fn two_words(held: &[Sort], args: &[TermId]) -> Result<Sort, MakeFault>
    ensures { result ≡ ranked_at (two_words Ok) 0 (sorts_at held.now args.now) }
{
    let word = taken(held, args, 0, Demand::AnyWord)?;
    taken(held, args, 1, Demand::Exactly(word))?;
    ended(args, 2, Ok(word))
}

/// What an operator on two words of one sort gives, whatever their sort.
fn comparison(held: &[Sort], args: &[TermId], given: Sort) -> Result<Sort, MakeFault>
    ensures { result ≡ ranked_at (two_words λ _. Ok given) 0 (sorts_at held.now args.now) }
{
    let word = taken(held, args, 0, Demand::AnyWord)?;
    taken(held, args, 1, Demand::Exactly(word))?;
    ended(args, 2, Ok(given))
}

fn concatenation(held: &[Sort], args: &[TermId]) -> Result<Sort, MakeFault>
    ensures { result ≡ ranked_at concatenation 0 (sorts_at held.now args.now) }
{
    let high = taken(held, args, 0, Demand::AnyWord)?;
    let low = taken(held, args, 1, Demand::AnyWord)?;
    ended(
        args,
        2,
        word_sort(u128::from(high.width()) + u128::from(low.width())),
    )
}

fn equality(held: &[Sort], args: &[TermId]) -> Result<Sort, MakeFault>
    ensures { result ≡ ranked_at equality 0 (sorts_at held.now args.now) }
{
    let side = taken(held, args, 0, Demand::Any)?;
    taken(held, args, 1, Demand::Exactly(side))?;
    ended(args, 2, Ok(Sort::Bool))
}

fn choice(held: &[Sort], args: &[TermId]) -> Result<Sort, MakeFault>
    ensures { result ≡ ranked_at choice 0 (sorts_at held.now args.now) }
{
    taken(held, args, 0, Demand::Exactly(Sort::Bool))?;
    let branch = taken(held, args, 1, Demand::Any)?;
    taken(held, args, 2, Demand::Exactly(branch))?;
    ended(args, 3, Ok(branch))
}

fn selection(held: &[Sort], args: &[TermId]) -> Result<Sort, MakeFault>
    ensures { result ≡ ranked_at selection 0 (sorts_at held.now args.now) }
{
    let array = taken(held, args, 0, Demand::AnyArray)?;
    taken(held, args, 1, Demand::Exactly(array.index()))?;
    ended(args, 2, Ok(array.element()))
}

fn storing(held: &[Sort], args: &[TermId]) -> Result<Sort, MakeFault>
    ensures { result ≡ ranked_at storing 0 (sorts_at held.now args.now) }
{
    let array = taken(held, args, 0, Demand::AnyArray)?;
    taken(held, args, 1, Demand::Exactly(array.index()))?;
    taken(held, args, 2, Demand::Exactly(array.element()))?;
    ended(args, 3, Ok(array))
}

fn difference(held: &[Sort], args: &[TermId]) -> Result<Sort, MakeFault>
    ensures { result ≡ ranked_at difference 0 (sorts_at held.now args.now) }
{
    let array = taken(held, args, 0, Demand::AnyArray)?;
    taken(held, args, 1, Demand::Exactly(array))?;
    ended(args, 2, Ok(array.index()))
}

/// Arguments of these sorts, and what is given for them.
fn each_of(
    held: &[Sort],
    args: &[TermId],
    wanted: &[Sort],
    given: Result<Sort, MakeFault>,
) -> Result<Sort, MakeFault>
    ensures { result ≡ ranked_at (each_of wanted.now given) 0 (sorts_at held.now args.now) }
{
    let mut place = 0;
    for sort in wanted {
        taken(held, args, place, Demand::Argument(*sort))?;
        place += 1;
    }
    ended(args, place, given)
}

/// A declared function of arguments of its signature's sorts, one at least.
fn application(held: &[Sort], args: &[TermId], signature: &Signature) -> Result<Sort, MakeFault>
    ensures { result
        ≡ ranked_at (application signature.now.args signature.now.value) 0
        (sorts_at held.now args.now) }
{
    let wanted = signature.args.as_slice();
    if wanted.is_empty() {
        return ended(args, 0, Err(MakeFault::WrongSort(0)));
    }
    each_of(held, args, wanted, plain_sort(signature.value))
}

fn operator_sort(operator: Operator, held: &[Sort], args: &[TermId]) -> Result<Sort, MakeFault>
    ensures { result ≡ ranked_at (operator_rank operator) 0 (sorts_at held.now args.now) }
{
    match operator {
        Operator::True | Operator::False => ended(args, 0, Ok(Sort::Bool)),
        Operator::Not => one_truth(held, args),
        Operator::And | Operator::Or | Operator::Xor | Operator::Implies => two_truths(held, args),
        Operator::Ite => choice(held, args),
        Operator::Equal => equality(held, args),
        Operator::Bvnot | Operator::Bvneg => same_word(held, args),
        Operator::Bvadd
        | Operator::Bvsub
        | Operator::Bvmul
        | Operator::Bvand
        | Operator::Bvor
        | Operator::Bvxor
        | Operator::Bvnand
        | Operator::Bvnor
        | Operator::Bvxnor
        | Operator::Bvudiv
        | Operator::Bvurem
        | Operator::Bvsdiv
        | Operator::Bvsrem
        | Operator::Bvsmod
        | Operator::Bvshl
        | Operator::Bvlshr
        | Operator::Bvashr => two_words(held, args),
        Operator::Bvult
        | Operator::Bvule
        | Operator::Bvugt
        | Operator::Bvuge
        | Operator::Bvslt
        | Operator::Bvsle
        | Operator::Bvsgt
        | Operator::Bvsge => comparison(held, args, Sort::Bool),
        Operator::Bvcomp => comparison(held, args, Sort::Word(1)),
        Operator::Concat => concatenation(held, args),
        Operator::Select => selection(held, args),
        Operator::Store => storing(held, args),
        Operator::Witness => difference(held, args),
    }
}

fn op_sort(op: &Op, held: &[Sort], args: &[TermId]) -> Result<Sort, MakeFault>
    ensures { result ≡ ranked_at (rank_of op.now) 0 (sorts_at held.now args.now) }
{
    match op {
        Op::Plain(operator) => operator_sort(*operator, held, args),
        Op::Word { width, value } => ended(args, 0, literal_sort(*width, *value)),
        Op::Extract { high, low } => extraction(held, args, *high, *low),
        Op::ZeroExtend(by) | Op::SignExtend(by) => extension(held, args, *by),
        Op::RotateLeft(_) | Op::RotateRight(_) => same_word(held, args),
        Op::Repeat(copies) => repetition(held, args, *copies),
        Op::ConstantArray(index) => everywhere(held, args, *index),
        Op::Constant { sort, .. } => ended(args, 0, constant_sort(*sort)),
        Op::Apply { signature, .. } => application(held, args, signature),
        Op::Param { sort, .. } => ended(args, 0, plain_sort(*sort)),
    }
}

/// The sort of a node over terms of these sorts, or its first fault.
#[tactic(auto, using(crate::proofs::Places::from_first))]
pub fn node_sort(held: &[Sort], node: &Node) -> Result<Sort, MakeFault>
    ensures { result ≡ ranked (rank_of node.now.op) 0 (sorts_at held.now node.now.args) }
{
    op_sort(&node.op, held, node.args.as_slice())
}
