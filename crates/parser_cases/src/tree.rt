// A case of parsing.
use case_io::UsedEntries;
use parser::{ParseError, parse};
use std::io;
use std::io::Write;
use tables::Node;

// What the parser answers, the bytes that should be zero and are not, and each node.
pub fn answer<W: Write>(
    out: &mut W,
    text: &[u8],
    tokens: &[u8],
    nodes: &mut [u8],
) -> io::Result<()> {
    let parsed = parse(text, tokens, nodes);
    match parsed {
        Ok(count) => write!(out, "tree {count}")?,
        Err(ParseError::Syntax(at)) => write!(out, "syntax {at}")?,
        Err(ParseError::Deep) => write!(out, "deep")?,
    }
    let used = UsedEntries::<Node>::new(nodes, parsed.unwrap_or(0));
    write!(out, " {}", used.stray())?;
    used.write(out, " n")
}
