//! Worked searches over boards: a proved caller of `cube_search`.
//!
//! The tests search the log of four assertions over two truth values, whose clauses contradict one another, on a board of that log
//! alone, and on one whose first `sync` tells a clause that was not there before. Others search a log of an array, on which an equality
//! and a lemma that is false in the model that was found are put in the midst of the search. It is a crate of its own, since a crate
//! with tests is proved twice.
#![tactic(auto)]

#[cfg(test)]
mod assertions;
#[cfg(test)]
mod lemmas;
#[cfg(test)]
mod runs;
#[cfg(test)]
mod tests;
