// One reading, and what it left.
ghost use Rattle.std.specs.Prelude.{⊤};

use cairo_m::{Accepted, counts_of, outcome_of, read};
use case_io::{Case, Cases, UsedEntries, line, list_answer};
use listing::ListError;
use std::io;
use std::io::Write;
use tables::{Diagnostic, Node, Token};

// T N D L, a line feed, L bytes of text, a line feed: a reading with T, N and D bytes of token, node and diagnostic table.
#[derive(Clone, Copy)]
pub struct Reading<'a> {
    tokens: usize,
    nodes: usize,
    diagnostics: usize,
    text: &'a [u8],
}

impl<'a> Case<'a> for Reading<'a> {
    // A text may be cut off.
    ghost no_more = { λ rest. ⊤ };

    fn next(cases: &mut Cases<'a>) -> Option<Reading<'a>> {
        if cases.rest.is_empty() {
            return None;
        }
        let tokens = cases.number_that_fits();
        let nodes = cases.number_that_fits();
        let diagnostics = cases.number_that_fits();
        let size = cases.number_that_fits();
        Some(Reading {
            tokens,
            nodes,
            diagnostics,
            text: cases.bytes(size)?,
        })
    }

    // The tables are full of another byte before the call.
    fn answer<W: Write>(self, out: &mut W) -> io::Result<()> {
        let mut tokens = [0xAA; 16384];
        let mut nodes = [0xAA; 16384];
        let mut diagnostics = [0xAA; 8192];
        let (Some(tokens), Some(nodes), Some(diagnostics)) = (
            tokens.get_mut(..self.tokens),
            nodes.get_mut(..self.nodes),
            diagnostics.get_mut(..self.diagnostics),
        ) else {
            return Ok(());
        };
        answer(out, self.text, tokens, nodes, diagnostics)
    }
}

// The outcome, the counts, the bytes that should be zero and are not, the tokens; then the listing.
fn answer<W: Write>(
    out: &mut W,
    text: &[u8],
    tokens: &mut [u8],
    nodes: &mut [u8],
    diagnostics: &mut [u8],
) -> io::Result<()> {
    let answer = read(text, tokens, nodes, diagnostics);
    let counts = counts_of(answer);
    write!(
        out,
        "o{} {} {} {}",
        outcome_of(answer),
        counts.tokens,
        counts.nodes,
        counts.diagnostics
    )?;
    // A refused text has no tokens and no nodes in its tables.
    let stored = answer.unwrap_or(Accepted {
        tokens: 0,
        nodes: 0,
    });
    let used = UsedEntries::<Token>::new(tokens, stored.tokens);
    write!(
        out,
        " {} {} {}",
        used.stray(),
        UsedEntries::<Node>::new(nodes, stored.nodes).stray(),
        UsedEntries::<Diagnostic>::new(diagnostics, counts.diagnostics).stray()
    )?;
    used.write(out, " ")?;
    writeln!(out)?;
    let mut listing = [0; 65536];
    match list_answer(answer, nodes, diagnostics, &mut listing) {
        Ok(text) => line(out, text),
        Err(ListError::Kind) => writeln!(out, "kind"),
        Err(ListError::Room) => writeln!(out, "room"),
    }
}
