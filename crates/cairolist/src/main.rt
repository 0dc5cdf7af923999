// Prints the tree of the Cairo-M text on standard input, or why it is refused: one line of JSON.
#![tactic(auto)]

use cairo_m::read;
use case_io::{line, list_answer, read_input, room};
use listing::ListError;
use std::io;
use std::io::Write;
use tables::{Diagnostic, Entry, Node, Token};

// Reads one byte more than the longest text, so that a longer one is seen to be too long.
fn main(rt: HostRuntime) -> io::Result<()> {
    let mut space = room::<65536>();
    let text = read_input(&mut rt.stdin(), &mut space)?;
    answer(&mut rt.stdout(), &mut rt.stderr(), text)
}

// The listing of 1,024 entries has less than 65,536 bytes.
fn answer<W: Write, E: Write>(out: &mut W, err: &mut E, text: &[u8]) -> io::Result<()> {
    let mut tokens = [0; 1024 * Token::SIZE];
    let mut nodes = [0; 1024 * Node::SIZE];
    let mut diagnostics = [0; 1024 * Diagnostic::SIZE];
    let mut listing = [0; 65536];
    let answer = read(text, &mut tokens, &mut nodes, &mut diagnostics);
    match list_answer(answer, &nodes, &diagnostics, &mut listing) {
        Ok(text) => line(out, text),
        Err(ListError::Kind) => writeln!(err, "cairolist: a node of no kind"),
        Err(ListError::Room) => writeln!(err, "cairolist: no room for the listing"),
    }
}
