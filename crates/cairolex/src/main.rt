// Lists the tokens of the Cairo-M text on standard input: one line of JSON without spaces.
#![tactic(auto)]

mod kind;
mod rows;

use cairo_m::{Refusal, counts_of, outcome_of};
use case_io::{UsedEntries, read_input, room};
use lexer::lex_alone;
use rows::{DiagnosticRow, TokenRow};
use std::fmt::Display;
use std::io;
use std::io::Write;
use tables::{Diagnostic, Entry, Token};

// Reads one byte more than the longest text, so that a longer one is seen to be too long.
fn main(rt: HostRuntime) -> io::Result<()> {
    let mut space = room::<65536>();
    let text = read_input(&mut rt.stdin(), &mut space)?;
    list(&mut rt.stdout(), text)
}

// [["Const",0,5,0,0,0],..] or {"refused":3,"diagnostics":[[0,1,1],..]}.
fn list<W: Write>(out: &mut W, text: &[u8]) -> io::Result<()> {
    let mut tokens = [0; 1024 * Token::SIZE];
    let mut diagnostics = [0; 1024 * Diagnostic::SIZE];
    match lex_alone(text, &mut tokens, &mut diagnostics) {
        Ok(lexed) => {
            let used = UsedEntries::<Token>::new(&tokens, lexed.tokens);
            array(out, &used, TokenRow)?;
        }
        Err(error) => {
            let refused = Err(Refusal::from(error));
            let count = counts_of(refused).diagnostics;
            let used = UsedEntries::<Diagnostic>::new(&diagnostics, count);
            write!(
                out,
                "{{\"refused\":{},\"diagnostics\":",
                outcome_of(refused)
            )?;
            array(out, &used, DiagnosticRow)?;
            write!(out, "}}")?;
        }
    }
    writeln!(out)
}

// The rows of the entries, in an array.
fn array<W: Write, E: Entry, R: Display + Drop, F: Fn(E) -> R>(
    out: &mut W,
    used: &UsedEntries<'_, E>,
    row: F,
) -> io::Result<()>
    requires { F.IsAlwaysCallable row }
{
    write!(out, "[")?;
    let mut entries = E::entries(used.bytes());
    if let Some(entry) = entries.next() {
        write!(out, "{}", row(entry))?;
    }
    for entry in entries {
        write!(out, ",{}", row(entry))?;
    }
    write!(out, "]")
}
