// A case of the lexing entry.
use case_io::UsedEntries;
use std::io;
use std::io::Write;
use tables::{Diagnostic, Token};

// The tables are full of another byte before the call.
pub fn answer<W: Write>(
    out: &mut W,
    text: &[u8],
    token_bytes: usize,
    diagnostic_bytes: usize,
) -> io::Result<()> {
    let mut tokens = [0xAA; 16384];
    let mut diagnostics = [0xAA; 16384];
    let (Some(tokens), Some(diagnostics)) = (
        tokens.get_mut(..token_bytes),
        diagnostics.get_mut(..diagnostic_bytes),
    ) else {
        return Ok(());
    };
    lexed(out, text, tokens, diagnostics)
}

// The outcome, the counts, for each table the bytes that should be zero and are not, then each token and each diagnostic.
fn lexed<W: Write>(
    out: &mut W,
    text: &[u8],
    tokens: &mut [u8],
    diagnostics: &mut [u8],
) -> io::Result<()> {
    // C's entry is what is tested, so the counts come through references, over what stood there.
    let mut token_count: usize = 0xAAAA_AAAA_AAAA_AAAA;
    let mut diagnostic_count: usize = 0xAAAA_AAAA_AAAA_AAAA;
    let outcome = entries::cairo_m_lex(
        text,
        tokens,
        diagnostics,
        &mut token_count,
        &mut diagnostic_count,
    );
    // Only its own outcome uses a table.
    let (t, d) = match outcome {
        0 => (token_count, 0),
        3 => (0, diagnostic_count),
        _ => (0, 0),
    };
    let tokens = UsedEntries::<Token>::new(tokens, t);
    let diagnostics = UsedEntries::<Diagnostic>::new(diagnostics, d);
    write!(
        out,
        "l {outcome} {token_count} {diagnostic_count} {} {}",
        tokens.stray(),
        diagnostics.stray()
    )?;
    tokens.write(out, " t")?;
    diagnostics.write(out, " d")
}
