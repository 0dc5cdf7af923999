// The tokens and the lexical errors of a text.
ghost use Rattle.std.specs.Prelude.{◌≡◌, ◌+◌, ◌≤◌, length, drop, IfOk, IfErr};
ghost use Rattle.lexer.specs.Scans.{Begun, Stepped, Refused};
ghost use Rattle.lexer.specs.Answers.{LexedIs};
ghost use Rattle.lexer.specs.declared.lexing.TextError.TheVariants.{Encoding};

use super::class::{WHITE, class_of};
use super::scan::{Found, NotUtf8, scan};
use numeral::NumberLiteral;
use tables::entry_codes::{Reason, Suffix};
use tables::token_type::TokenType;
use tables::{Diagnostic, Entry, Token};

// What stands at a place. A token's kind is a byte, as the scanner has it.
#[derive(Clone, Copy)]
pub enum Item {
    Skipped,
    Token(u8),
    Literal(NumberLiteral),
    Error(Reason),
}

#[derive(Clone, Copy)]
pub struct Lexed {
    pub tokens: usize,
    pub unknown: usize,
    pub diagnostics: usize,
}

#[derive(Clone, Copy)]
pub enum TextError {
    Long,
    Encoding,
}

impl From<NotUtf8> for TextError {
    ghost from_gives = { λ _ e. e ≡ Encoding };

    fn from(_e: NotUtf8) -> TextError {
        TextError::Encoding
    }
}

// The item and its size, by the class of the byte at the place, which is no white space.
fn step(text: &[u8], at: usize, c: u8) -> Result<(Item, usize), NotUtf8>
    requires at_in_bounds { at ≤ length text.now }
    requires begun { Begun (drop at text.now) c }
    ensures { Stepped text.now at result }
{
    let t = &text[at..];
    match scan(t, c)? {
        Found::Skip(n) => Ok((Item::Skipped, n)),
        Found::Token { kind, size } => Ok((Item::Token(kind), size)),
        Found::Number { number, size } => match number {
            Ok(literal) => Ok((Item::Literal(literal), size)),
            Err(e) => Ok((Item::Error(Reason::from(e)), size)),
        },
        Found::Strange(n) => Ok((Item::Error(Reason::Character), n)),
    }
}

// One pass over the bytes. What fits is stored, all is counted, and every unused entry is zero.
fn pass(text: &[u8], tokens: &mut [u8], diagnostics: &mut [u8]) -> Result<Lexed, TextError>
    ensures done { IfOk result (λ r. LexedIs text.now (length tokens.old) (length diagnostics.old) tokens.new diagnostics.new (Ok r)) }
    ensures refused { IfErr result (λ e. Refused text.now e) }
{
    if text.len() > 65535 {
        return Err(TextError::Long);
    }
    let mut at = 0;
    let mut token_count: usize = 0;
    let mut unknown: usize = 0;
    let mut error_count: usize = 0;
    // A turn goes on by a whole item.
    while at < text.len() {
        let c = class_of(text[at]);
        if c == WHITE {
            at += 1;
        } else {
            let (item, size) = step(text, at, c)?;
            let start = at as u16;
            at += size;
            let end = at as u16;
            match item {
                Item::Skipped => {}
                Item::Token(kind) => {
                    let token = Token {
                        kind,
                        start,
                        end,
                        ..Token::default()
                    };
                    token.put(tokens, token_count);
                    token_count += 1;
                }
                Item::Literal(literal) => {
                    let token = Token {
                        kind: TokenType::LiteralNumber as u8,
                        suffix: literal.suffix as u8,
                        start,
                        end,
                        base: literal.base.radix(),
                        value: literal.value,
                    };
                    token.put(tokens, token_count);
                    token_count += 1;
                    unknown += usize::from(literal.suffix == Suffix::Other);
                }
                Item::Error(reason) => {
                    let diagnostic = Diagnostic {
                        start,
                        end,
                        reason: reason as u8,
                    };
                    diagnostic.put(diagnostics, error_count);
                    error_count += 1;
                }
            }
        }
    }
    Token::keep(tokens, token_count);
    Diagnostic::keep(diagnostics, error_count);
    Ok(Lexed {
        tokens: token_count,
        unknown,
        diagnostics: error_count,
    })
}

pub fn lex(text: &[u8], tokens: &mut [u8], diagnostics: &mut [u8]) -> Result<Lexed, TextError>
    ensures { LexedIs text.now (length tokens.old) (length diagnostics.old) tokens.new diagnostics.new result }
{
    let r = pass(text, tokens, diagnostics);
    if r.is_err() {
        // A text that is refused leaves nothing in the tables.
        tokens.fill(0);
        diagnostics.fill(0);
    }
    r
}
