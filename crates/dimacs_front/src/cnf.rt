//! DIMACS texts, read in pieces.

ghost use Rattle.std.specs.Prelude.{◌≡◌, ◌≤◌, ◌<◌, ◌==◌, ◌∷◌, ◌++◌, [], ℕ, List, Ok, Some, false, length, slice_get, MatchResult, IfSome, OnOk};
ghost use Rattle.std.specs.Option.{option_map};
ghost use Rattle.dimacs_front.specs.Words.{words_of, number_limit};
ghost use Rattle.dimacs_front.specs.Cnf.{reading, nothing_held, header_words, header_of, with_number, with_words, with_line, with_lines, on_lines, goes_on, has_rest, last_line, cnf_in, StopsAt};

use crate::lines::take_line;
use crate::number::{Number, begins_with, next_word, signed_number, whole};
use crate::rows::Rows;
use crate::stop::Stop;
use cnf_base::Lit;
use smt_text::text::Text;
use std::alloc::{AllocError, Global};
use std::marker::Model;

/// The most variables, and the most clauses.
const MOST: u64 = 1 << 30;

/// How many variables and clauses a text says that it has.
#[derive(Clone, Copy, Debug, PartialEq, Eq)]
pub struct Header {
    pub variables: u32,
    pub clauses: u32,
}

/// What is wrong with a line of a text.
#[derive(Clone, Copy, Debug, PartialEq, Eq)]
pub enum CnfKind {
    /// The first line that says something is no header, or there is none.
    Header,
    /// The header tells more than 2^30 variables or clauses.
    Large,
    /// A word is no number.
    Token,
    /// A literal is of a variable that the header has not.
    Literal,
    /// There is one clause too many, or at the end there are too few.
    Count,
    /// The text ends inside a clause.
    Unfinished,
}

/// A fault and its line, counted from 1.
#[derive(Clone, Copy, Debug, PartialEq, Eq)]
pub struct CnfFault {
    pub line: u64,
    pub kind: CnfKind,
}

/// The clauses of a DIMACS text, in one flat table.
#[derive(Debug, Drop)]
pub struct Cnf {
    variables: u32,
    rows: Rows,
}

impl Model for Cnf {
    ghost use Rattle.std.specs.Prelude.{◌≡◌, []};
    ghost use Rattle.dimacs_front.specs.Cnf.{CnfValue};

    ghost Value = { CnfValue };

    ghost view = { λ c. record { variables = c.variables; clauses = c.rows.clauses } };

    ghost invariant = { λ c. c.rows.begun ≡ [] };
}

impl Cnf {
    /// How many variables there are.
    pub fn variables(&self) -> u32
        ensures { result ≡ self.now.variables }
    {
        self.variables
    }

    /// How many clauses there are.
    pub fn len(&self) -> usize
        ensures { result ≡ length self.now.clauses }
    {
        self.rows.len()
    }

    /// Whether there is no clause.
    pub fn is_empty(&self) -> bool
        ensures { result ≡ (length self.now.clauses == 0) }
    {
        self.rows.is_empty()
    }

    /// The table of the clauses, each of which is ended.
    pub(crate) fn into_rows(self) -> Rows
        ensures clauses { result.clauses ≡ self.clauses }
        ensures ended { result.begun ≡ [] }
    {
        self.rows
    }

    /// The literals of a clause, by its place, counted from 0.
    pub fn clause(&self, place: usize) -> &[Lit]
        requires { place < length self.now.clauses }
        ensures { slice_get self.now.clauses place ≡ Some result.now }
    {
        self.rows.clause(place)
    }
}

/// The two words behind `p cnf`.
fn header_words(line: &[u8]) -> Option<(&[u8], &[u8])>
    ensures { option_map (λ r. (r.0.now, r.1.now)) result ≡ header_words (words_of line.now) }
{
    let (p, rest) = next_word(line)?;
    let (cnf, rest) = next_word(rest)?;
    let (variables, rest) = next_word(rest)?;
    let (clauses, rest) = next_word(rest)?;
    match next_word(rest) {
        Some(_) => None,
        None => {
            if p == b"p".as_slice() && cnf == b"cnf".as_slice() {
                Some((variables, clauses))
            } else {
                None
            }
        }
    }
}

/// The header that a line says.
fn read_header(line: &[u8]) -> Result<Header, CnfKind>
    ensures { result ≡ header_of (words_of line.now) }
{
    let Some((variables, clauses)) = header_words(line) else {
        return Err(CnfKind::Header);
    };
    let (Some(variables), Some(clauses)) = (whole(variables), whole(clauses)) else {
        return Err(CnfKind::Header);
    };
    if variables > MOST || clauses > MOST {
        return Err(CnfKind::Large);
    }
    Ok(Header {
        variables: variables as u32,
        clauses: clauses as u32,
    })
}

/// Takes what a word says, where it is a number: 0 ends a clause, any other is a literal.
fn take_number(header: Header, rows: &mut Rows, number: Option<Number>) -> Result<(), Stop<CnfKind>>
    requires { IfSome number (λ n. n.size ≤ number_limit) }
    ensures { MatchResult result (λ _. with_number header rows.old number ≡ Ok rows.new)
        (StopsAt (with_number header rows.old number)) }
{
    let Some(number) = number else {
        return Err(Stop::Fault(CnfKind::Token));
    };
    if number.size == 0 {
        if rows.len() >= header.clauses as usize {
            return Err(Stop::Fault(CnfKind::Count));
        }
        rows.end()?;
        return Ok(());
    }
    if number.size > header.variables as u64 {
        return Err(Stop::Fault(CnfKind::Literal));
    }
    rows.push(Lit::new(number.size, !number.negative))?;
    Ok(())
}

/// Takes the numbers of a line.
fn take_words(header: Header, rows: &mut Rows, line: &[u8]) -> Result<(), Stop<CnfKind>>
    ensures { MatchResult result (λ _. with_words header rows.old (words_of line.now) ≡ Ok rows.new)
        (StopsAt (with_words header rows.old (words_of line.now))) }
{
    let mut left = line;
    'words: while let Some((word, more)) = next_word(left) {
        match take_number(header, rows, signed_number(word)) {
            Ok(()) => {}
            Err(stop) => return Err(stop),
        }
        left = more;
    }
    Ok(())
}

/// Takes a line that does not end the text.
fn take_content(
    header: &mut Option<Header>,
    rows: &mut Rows,
    line: &[u8],
) -> Result<(), Stop<CnfKind>>
    ensures { MatchResult result
        (λ _. with_line (reading header.old rows.old) line.now ≡ Ok (reading header.new rows.new))
        (StopsAt (with_line (reading header.old rows.old) line.now)) }
{
    if begins_with(b'c', line) {
        return Ok(());
    }
    match *header {
        Some(found) => take_words(found, rows, line),
        None => {
            if next_word(line).is_none() {
                return Ok(());
            }
            match read_header(line) {
                Ok(found) => {
                    *header = Some(found);
                    Ok(())
                }
                Err(kind) => Err(Stop::Fault(kind)),
            }
        }
    }
}

/// Reads a text that comes in pieces. After an error it is only dropped.
#[derive(Drop)]
pub struct CnfReader {
    /// How many whole lines were read.
    lines: u64,
    header: Option<Header>,
    rows: Rows,
    /// The bytes of the line that is begun.
    begun: Text,
    /// Whether a line has ended the text.
    is_over: bool,
}

impl Model for CnfReader {
    ghost use Rattle.dimacs_front.specs.Cnf.{Held, reading};

    ghost Value = { Held };

    ghost view = { λ r. record {
      lines = r.lines;
      reading = reading r.header r.rows;
      begun = r.begun;
      is_over = r.is_over;
    } };
}

impl CnfReader {
    /// Nothing was read yet.
    pub fn new(alloc: Global) -> CnfReader
        ensures { result ≡ nothing_held }
    {
        CnfReader {
            lines: 0,
            header: None,
            rows: Rows::new(alloc),
            begun: Text::new(alloc),
            is_over: false,
        }
    }

    /// Takes the line that was begun, which is whole.
    fn end_line(&mut self) -> Result<(), Stop<CnfFault>>
        requires { self.old.is_over ≡ false }
        ensures lines { (rest : List (List ℕ)) → MatchResult result
            (λ _. with_lines self.old.lines self.old.reading (self.old.begun ∷ rest)
            ≡ on_lines self.new rest)
            (StopsAt (with_lines self.old.lines self.old.reading (self.old.begun ∷ rest))) }
        ensures begun { OnOk result (self.new.begun ≡ []) }
    {
        if self.lines == u64::MAX {
            return Err(Stop::NoMemory);
        }
        let line = self.lines + 1;
        self.lines = line;
        if begins_with(b'%', self.begun.as_slice()) {
            self.is_over = true;
            self.begun.clear();
            return Ok(());
        }
        match take_content(&mut self.header, &mut self.rows, self.begun.as_slice()) {
            Ok(()) => {}
            Err(Stop::Fault(kind)) => return Err(Stop::Fault(CnfFault { line, kind })),
            Err(Stop::NoMemory) => return Err(Stop::NoMemory),
        }
        self.begun.clear();
        Ok(())
    }

    /// Takes the next piece of the text, up to the line that ends it. The error is the first fault
    /// of the text, whatever stands behind the piece.
    pub fn feed(&mut self, piece: &[u8]) -> Result<(), Stop<CnfFault>>
        ensures { (more : List ℕ) → MatchResult result
            (λ _. goes_on self.old (piece.now ++ more) ≡ goes_on self.new more)
            (StopsAt (goes_on self.old (piece.now ++ more))) }
    {
        let mut rest = piece;
        'lines: while !self.is_over {
            let Some(behind) = take_line(&mut self.begun, rest)? else {
                return Ok(());
            };
            match self.end_line() {
                Ok(()) => {}
                Err(stop) => return Err(stop),
            }
            rest = behind;
        }
        Ok(())
    }

    /// Whether a line is begun that the end of the text makes whole.
    fn has_rest(&self) -> bool
        ensures { result ≡ has_rest self.now }
    {
        !self.is_over && self.begun.len() != 0
    }

    /// Takes the line that the end of the text makes whole, where there is one.
    fn end_rest(&mut self) -> Result<(), Stop<CnfFault>>
        ensures { MatchResult result (λ _. goes_on self.old [] ≡ on_lines self.new [])
            (StopsAt (goes_on self.old [])) }
    {
        if !self.has_rest() {
            return Ok(());
        }
        self.end_line()
    }

    /// The clauses of a text of whole lines.
    fn end(self) -> Result<Cnf, Stop<CnfFault>>
        ensures { MatchResult result (λ cnf. on_lines self [] ≡ Ok cnf)
            (StopsAt (on_lines self [])) }
    {
        let reader = self;
        let line = last_line(reader.lines);
        match finished(reader.header, reader.rows) {
            Ok(cnf) => Ok(cnf),
            Err(kind) => Err(Stop::Fault(CnfFault { line, kind })),
        }
    }

    /// The clauses of the text, which has come to its end, or its first fault.
    pub fn finish(self) -> Result<Cnf, Stop<CnfFault>>
        ensures { MatchResult result (λ cnf. goes_on self [] ≡ Ok cnf)
            (StopsAt (goes_on self [])) }
    {
        let mut reader = self;
        match reader.end_rest() {
            Ok(()) => reader.end(),
            Err(stop) => {
                drop(reader);
                Err(stop)
            }
        }
    }
}

/// The last line of a text of so many lines.
fn last_line(lines: u64) -> u64
    ensures { result ≡ last_line lines }
{
    if lines == 0 { 1 } else { lines }
}

/// The clauses, where each is ended and there are as many as the header tells.
fn finished(header: Option<Header>, rows: Rows) -> Result<Cnf, CnfKind>
    ensures { result ≡ cnf_in header rows }
{
    let Some(header) = header else {
        return Err(CnfKind::Header);
    };
    if !rows.is_ended() {
        return Err(CnfKind::Unfinished);
    }
    if rows.len() != header.clauses as usize {
        return Err(CnfKind::Count);
    }
    Ok(Cnf {
        variables: header.variables,
        rows,
    })
}
