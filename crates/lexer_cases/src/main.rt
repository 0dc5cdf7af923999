// Answers the cases on standard input, by a line each; tests/expected.py writes the cases and the answers that are owed.
#![tactic(auto)]

mod input;
mod lexing;

ghost use Rattle.std.specs.Prelude.{◌≡◌, []};

use case_io::{Case, Cases, answer_all, read_input, room};
use input::{Text, bytes};
use numeral::{NumberLiteral, NumeralError};
use std::io::Write;
use std::{fmt, io};
use tables::entry_codes::Reason;

fn main(rt: HostRuntime) -> io::Result<()> {
    let mut space = room::<262144>();
    let file = read_input(&mut rt.stdin(), &mut space)?;
    answer_all::<Line<'_>, _>(file, &mut rt.stdout())
}

// A case is a line, whose first letter says what it asks. A heading is printed as it stands.
// parser_cases has such a type too, since no program may implement case_io's trait for a type of case_io.
#[derive(Clone, Copy)]
struct Line<'a>(&'a [u8]);

impl<'a> Case<'a> for Line<'a> {
    ghost no_more = { λ rest. rest ≡ [] };

    fn next(cases: &mut Cases<'a>) -> Option<Line<'a>> {
        cases.line().map(Line)
    }

    fn answer<W: Write>(self, out: &mut W) -> io::Result<()> {
        let mut text = Text::new();
        match self.0 {
            [] | [_] | [_, _] => return Ok(()),
            [b'u', _, spelled @ ..] => {
                bytes(spelled, &mut text);
                utf8_case(out, text.as_slice())?
            }
            [b'n', _, spelled @ ..] => {
                bytes(spelled, &mut text);
                numeral_case(out, text.as_slice())?
            }
            [b'l', _, rest @ ..] => lexing_case(out, Cases { rest }, &mut text)?,
            heading => out.write_all(heading)?,
        }
        writeln!(out)
    }
}

// u BYTES: is_utf8, char_len.
fn utf8_case<W: Write>(out: &mut W, text: &[u8]) -> io::Result<()> {
    let valid = u8::from(utf8::is_utf8(text));
    let len = utf8::char_len(text).unwrap_or(0);
    write!(out, "u {valid} {len}")
}

// n BYTES: outcome, value, suffix, base and reason of the C entry, then the answer as a Result. C's entry is what is tested,
// so its answer comes through references, over what stood there.
fn numeral_case<W: Write>(out: &mut W, spelling: &[u8]) -> io::Result<()> {
    let mut value: u64 = 0xAAAA_AAAA_AAAA_AAAA;
    let mut suffix: u8 = 0xAA;
    let mut base: u8 = 0xAA;
    let mut reason: u8 = 0xAA;
    let outcome = entries::cairo_m_numeral(
        spelling,
        &mut value,
        &mut suffix,
        &mut base,
        &mut reason,
    );
    let answer = Shown(numeral::answer(spelling));
    write!(out, "n {outcome} {value} {suffix} {base} {reason} {answer}")
}

// An answer in words.
#[derive(Clone, Copy)]
struct Shown(Result<NumberLiteral, NumeralError>);

impl fmt::Display for Shown {
    fn fmt<W: fmt::Write>(&self, f: &mut fmt::Formatter<W>) -> fmt::Result {
        match self.0 {
            Ok(literal) => {
                let NumberLiteral {
                    value,
                    suffix,
                    base,
                } = literal;
                write!(f, "number {value} {} {}", suffix as u8, base as u8)
            }
            Err(NumeralError::Long) => write!(f, "long"),
            Err(NumeralError::Spelling) => write!(f, "spelling"),
            Err(NumeralError::Lexical(error)) => {
                write!(f, "lexical {}", Reason::from(error) as u8)
            }
        }
    }
}

// l T D BYTES: lexing with T bytes of token table and D bytes of diagnostics.
fn lexing_case<W: Write>(out: &mut W, mut case: Cases<'_>, text: &mut Text) -> io::Result<()> {
    let token_bytes = case.number_that_fits();
    let diagnostic_bytes = case.number_that_fits();
    bytes(case.rest, text);
    lexing::answer(out, text.as_slice(), token_bytes, diagnostic_bytes)
}
