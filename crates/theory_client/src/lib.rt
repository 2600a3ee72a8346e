//! Small scripts over functions and arrays, searched with lemmas on demand: a proved caller of
//! `theory_search` and `theory_cubes`.
//!
//! Each script is a table of terms by hand with some of them as assertions. A search over the log
//! of their circuits is to end as the script says: closed, or with an interpretation, which is
//! evaluated term by term and makes each assertion true. A second run of the same search puts no
//! lemma. The cubes of a script are to end as the script does. It is a crate of its own, since a
//! crate with tests is proved twice.
#![tactic(auto)]

#[cfg(test)]
mod cubes;
#[cfg(test)]
mod posing;
#[cfg(test)]
mod scripts;
#[cfg(test)]
mod searching;
#[cfg(test)]
mod tests;
