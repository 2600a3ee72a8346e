// How symbols, strings and tokens are spelled.

ghost use Rattle.std.specs.Prelude.{◌≡◌, ◌++◌, take, length, List, ℕ, Ok, Some, true, OnOk, OnErr};
ghost use Rattle.std.specs.List.{list_all};
ghost use Rattle.smt_text.specs.Lexicon.{is_quoted_byte, first_token, lexeme_of};
ghost use Rattle.smt_text.specs.Printing.{is_simple, between, symbol_text, symbol_lexeme, doubled_byte, doubled, string_text, string_lexeme_of, string_value, token_text, IsApart};

use crate::lexicon::{is_symbol, reserved_kind};
use crate::text::Text;
use crate::token::{Token, TokenKind};
use std::alloc::AllocError;

/// Whether a name is a simple symbol, which is printed plain.
fn is_simple(name: &[u8]) -> bool
    ensures { result ≡ is_simple name.now }
{
    is_symbol(name) && reserved_kind(name).is_none()
}

/// Gives what was written of it back where the rest of it failed.
pub fn whole_or_none(
    out: &mut Text,
    before: usize,
    written: Result<(), AllocError>,
) -> Result<(), AllocError>
    ensures value { result ≡ written }
    ensures ok { OnOk result (out.new ≡ out.old) }
    ensures err { OnErr result (out.new ≡ take before out.old) }
{
    if written.is_err() {
        out.truncate(before);
    }
    written
}

fn push_between(out: &mut Text, mark: u8, bytes: &[u8]) -> Result<(), AllocError>
    ensures ok { OnOk result (out.new ≡ out.old ++ between mark bytes.now) }
    ensures err { OnErr result (take (length out.old) out.new ≡ out.old) }
{
    out.push(mark)?;
    out.push_slice(bytes)?;
    out.push(mark)
}

fn push_doubled_byte(out: &mut Text, byte: u8) -> Result<(), AllocError>
    ensures ok { OnOk result (out.new ≡ out.old ++ doubled_byte byte) }
    ensures err { OnErr result (out.new ≡ out.old) }
{
    if byte == b'"' {
        out.push_slice(b"\"\"")
    } else {
        out.push(byte)
    }
}

fn push_doubled(out: &mut Text, bytes: &[u8]) -> Result<(), AllocError>
    ensures ok { OnOk result (out.new ≡ out.old ++ doubled bytes.now) }
    ensures err { OnErr result (take (length out.old) out.new ≡ out.old) }
{
    for byte in bytes {
        push_doubled_byte(out, *byte)?;
    }
    Ok(())
}

fn push_string(out: &mut Text, bytes: &[u8]) -> Result<(), AllocError>
    ensures ok { OnOk result (out.new ≡ out.old ++ string_text bytes.now) }
    ensures err { OnErr result (take (length out.old) out.new ≡ out.old) }
{
    out.push(b'"')?;
    push_doubled(out, bytes)?;
    out.push(b'"')
}

/// Appends a symbol of this name: plain where it is a simple symbol, else in bars. It reads back where neither a bar nor a
/// backslash stands in the name.
pub fn print_symbol(name: &[u8], out: &mut Text) -> Result<(), AllocError>
    ensures ok { OnOk result (out.new ≡ out.old ++ symbol_text name.now) }
    ensures err { OnErr result (out.new ≡ out.old) }
{
    if is_simple(name) {
        return out.push_slice(name);
    }
    let before = out.len();
    let written = push_between(out, b'|', name);
    whole_or_none(out, before, written)
}

/// Appends a string literal of this value: in quotes, each quote doubled.
pub fn print_text(string: &[u8], out: &mut Text) -> Result<(), AllocError>
    ensures ok { OnOk result (out.new ≡ out.old ++ string_text string.now) }
    ensures err { OnErr result (out.new ≡ out.old) }
{
    let before = out.len();
    let written = push_string(out, string);
    whole_or_none(out, before, written)
}

/// Appends a token as it was written.
pub fn print_token(token: Token<'_>, out: &mut Text) -> Result<(), AllocError>
    ensures ok { OnOk result (out.new ≡ out.old ++ token_text (lexeme_of token.entry)) }
    ensures err { OnErr result (out.new ≡ out.old) }
{
    let mark = match token.kind {
        TokenKind::Open => return out.push(b'('),
        TokenKind::Close => return out.push(b')'),
        TokenKind::String => b'"',
        _ if token.quoted => b'|',
        _ => return out.push_slice(token.text),
    };
    let before = out.len();
    let written = push_between(out, mark, token.text);
    whole_or_none(out, before, written)
}

/// What is printed reads back as the same token, whatever follows apart from it; and a token stands in its text as it is printed.
pub fn reads_back()
    ensures symbol { (name rest : List ℕ) → list_all is_quoted_byte name ≡ true → IsApart rest
        → first_token (symbol_text name ++ rest)
        ≡ Ok (Some (symbol_lexeme name, length (symbol_text name))) }
    ensures string { (value rest : List ℕ) → IsApart rest
        → first_token (string_text value ++ rest)
        ≡ Ok (Some (string_lexeme_of value, length (string_text value))) }
    ensures value { (value : List ℕ) → string_value (string_lexeme_of value).text ≡ value }
{}
