// The longest match at the start of a text.
ghost use Rattle.std.specs.Prelude.{◌≡◌, ◌<◌, length};
ghost use Rattle.patterns.specs.Bytes.{within};
ghost use Rattle.tables.specs.TokenKinds.{LPAREN, SEMI};
ghost use Rattle.lexer.specs.Scans.{Begun, all_plain, LineIs, Scanned};
ghost use Rattle.lexer.specs.Tokens.{Stuck};

use super::class::{DIGIT, LETTER, STRANGE, keyword, pair_of, word_run};
use numeral::{NumberLiteral, NumberParseError, parse_number_literal};
use tables::token_type::TokenType;
use utf8::char_len;

// What stands at the start of a text, and its size. The kind is a byte, as in the table of classes and in an entry: an enum between the two would be turned back at once.
#[derive(Clone, Copy)]
pub enum Found {
    Skip(usize),
    Token {
        kind: u8,
        size: usize,
    },
    Number {
        number: Result<NumberLiteral, NumberParseError>,
        size: usize,
    },
    Strange(usize),
}

#[derive(Clone, Copy)]
pub struct NotUtf8;

// All are ASCII characters other than LF. LLVM makes one comparison of vectors of it at 16 bytes, and 16 tests where it may end early.
fn is_plain(t: &[u8]) -> bool
    ensures { result ≡ all_plain t.now }
{
    t.iter()
        .fold(true, |plain, b| plain & (*b < 0x80) & (*b != b'\n'))
}

// How many bytes stand before the first LF.
fn line_run(t: &[u8]) -> Result<usize, NotUtf8>
    ensures { LineIs t.now result }
{
    let sixteens = t.chunks_exact(16).take_while(|c| is_plain(*c)).count();
    let mut i = sixteens * 16;
    // A turn goes on by a whole character.
    while i < t.len() {
        let b = t[i];
        if b == b'\n' {
            break;
        }
        if b < 0x80 {
            i += 1;
        } else {
            i += char_len(&t[i..]).ok_or(NotUtf8)?;
        }
    }
    Ok(i)
}

// A bracket, a comma or a semicolon, with which no mark of two bytes begins.
fn single(c: u8) -> bool
    ensures { result ≡ within LPAREN SEMI c }
{
    (TokenType::LParen as u8..=TokenType::Semicolon as u8).contains(&c)
}

// A character that begins no token.
fn strange(t: &[u8]) -> Result<Found, NotUtf8>
    requires t_nonzero { 0 < length t.now }
    requires stuck { Stuck t.now }
    ensures { Scanned t.now result }
{
    let n = char_len(t).ok_or(NotUtf8)?;
    Ok(Found::Strange(n))
}

// By the class of the first byte, which is no white space.
pub(crate) fn scan(t: &[u8], c: u8) -> Result<Found, NotUtf8>
    requires begun { Begun t.now c }
    ensures { Scanned t.now result }
{
    if c >= LETTER {
        if c == DIGIT {
            let (number, size) = parse_number_literal(t);
            return Ok(Found::Number { number, size });
        }
        let size = word_run(t);
        let kind = keyword(&t[..size]).unwrap_or(TokenType::Identifier as u8);
        return Ok(Found::Token { kind, size });
    }
    if c >= STRANGE {
        return strange(t);
    }
    let one = Found::Token { kind: c, size: 1 };
    if single(c) || t.len() == 1 {
        return Ok(one);
    }
    if c == TokenType::Div as u8 {
        if t[1] != b'/' {
            return Ok(one);
        }
        return Ok(Found::Skip(line_run(&t[2..])? + 2));
    }
    match pair_of(c, t[1]) {
        Some(kind) => Ok(Found::Token { kind, size: 2 }),
        None => Ok(one),
    }
}
