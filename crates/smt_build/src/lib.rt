//! What the names, sorts and terms of a script mean.
//!
//! [`symbols::Symbols`] keeps the declarations that were made, the definitions, and the names that are live, level by
//! level. Its `declare`, `define` and `define_sort` make the declaration or the definition that a command asks for, and its
//! `elaborate` gives the number of the term that an S-expression means over the live names; each tells the first fault, and
//! then all is as before. The meaning is defined by recursion over the S-expression; the code reads its tokens from left to
//! right with a stack of open lists, and is proved to give the same. Constants of Bool, of word sorts and of
//! array sorts and functions are declared, and functions and names of sorts are defined. All operators of
//! Core, of FixedSizeBitVectors, of ArraysEx and of the logic QF_BV are read, those on two or more arguments grouped, chained
//! or held pairwise as the standard says, and so are literals, `(_ bvX n)`, names with indices, `((as const S) t)`, `let`, and
//! terms with attributes; other forms of the standard are told as not supported. The crate stands on `smt_syntax`, `smt_terms`, `term_reach` and `indexmap`.
//!
//! [`symbols::Symbols::assert_term`] reads the term of an assertion in the same way; there alone terms may be given names by
//! `:named`, which are definitions from then on. [`naming::name_of_assertion`] tells the name of the assertion itself.
#![tactic(auto)]

mod assertion;
mod binding;
mod build;
mod declare;
mod define;
pub mod definition;
mod elaborate;
pub mod fault;
mod grouping;
mod indices;
pub mod literal;
mod making;
pub mod naming;
mod operators;
mod parameters;
mod reader;
mod scope;
mod sort_parts;
mod sorts;
pub mod symbols;
