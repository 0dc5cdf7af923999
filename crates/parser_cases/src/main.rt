// Answers the cases on standard input, by a line each; tests/parser_expected.py writes the cases and the answers that are owed.
#![tactic(auto)]

mod given;
mod run;
mod tree;

ghost use Rattle.std.specs.Prelude.{◌≡◌, []};

use case_io::{Case, Cases, answer_all, read_input, room};
use std::io;
use std::io::Write;

fn main(rt: HostRuntime) -> io::Result<()> {
    let mut space = room::<524288>();
    let file = read_input(&mut rt.stdin(), &mut space)?;
    answer_all::<Line<'_>, _>(file, &mut rt.stdout())
}

// A case is a line, whose first letter says what it asks. A heading is printed as it stands.
#[derive(Clone, Copy)]
struct Line<'a>(&'a [u8]);

impl<'a> Case<'a> for Line<'a> {
    ghost no_more = { λ rest. rest ≡ [] };

    fn next(cases: &mut Cases<'a>) -> Option<Line<'a>> {
        cases.line().map(Line)
    }

    fn answer<W: Write>(self, out: &mut W) -> io::Result<()> {
        match self.0 {
            [b'p', _, rest @ ..] if !rest.is_empty() => parsing_case(out, Cases { rest })?,
            [b'r', _, rest @ ..] if !rest.is_empty() => run::answer(out, Cases { rest })?,
            heading => out.write_all(heading)?,
        }
        writeln!(out)
    }
}

// p N T TOKENS TEXT: parsing TEXT with T bytes of token table, whose whole entries TOKENS has, and N bytes of node table.
// The tables are full of another byte before.
fn parsing_case<W: Write>(out: &mut W, mut case: Cases<'_>) -> io::Result<()> {
    let mut nodes = [0xAA; 16384];
    let mut tokens = [0xAA; 16384];
    let (Some(nodes), Some(tokens)) = (
        nodes.get_mut(..case.number_that_fits()),
        tokens.get_mut(..case.number_that_fits()),
    ) else {
        return Ok(());
    };
    given::tokens(&mut case, tokens);
    tree::answer(out, case.rest, tokens, nodes)
}
