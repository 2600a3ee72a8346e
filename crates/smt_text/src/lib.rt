//! The lexical layer of a script: its chunks, the tokens of each, and the spelling of symbols and strings.
//!
//! A [`framer::Framer`] takes the script in pieces and gives its chunks: commands in balanced parentheses, and what
//! stands between them. However the script is cut into pieces, its chunks are those of the whole. [`tokens::tokens`]
//! gives the tokens of a chunk, or exactly where its first bad one stands; a text has one reading. What `print` writes
//! reads back as the same token. The readers above share what stands here: [`held::HeldBytes`], the bytes of a stream
//! that were fed and not yet given, and the printing of numbers. The crate stands on std alone.
#![tactic(auto)]

pub mod chunk;
mod find;
pub mod framer;
pub mod held;
pub mod lexicon;
pub mod number;
mod place;
pub mod print;
mod scan;
#[cfg(test)]
mod tests;
pub mod text;
pub mod token;
pub mod tokens;
