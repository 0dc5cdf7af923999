// A reading as numbers, and the spelling of a name, for C.
ghost use Rattle.std.specs.Prelude.{◌≡◌, length};
ghost use Rattle.entries.specs.Numbers.{EntryIs};
ghost use Rattle.entries.specs.Spelling.{spelling_of};

use crate::names::spelling;
use crate::records::{Diagnostic, lay};
use cairo_m::{counts_of, outcome_of, read};

// The reading for C: the outcome's number, and through the references how many tokens, nodes and errors there are, three since C
// lends three places. The diagnostics are in their table, and in a list of records besides.
pub fn cairo_m_read(
    text: &[u8],
    tokens: &mut [u8],
    nodes: &mut [u8],
    diagnostics: &mut [u8],
    token_count: &mut usize,
    node_count: &mut usize,
    diagnostic_count: &mut usize,
    list: &mut [Diagnostic],
) -> u32
    ensures { EntryIs text.now (length tokens.old) (length nodes.old) (length diagnostics.old) (length list.old) tokens.new nodes.new diagnostics.new list.new result token_count.new node_count.new diagnostic_count.new }
{
    let r = read(text, tokens, nodes, diagnostics);
    lay(list, diagnostics);
    let counts = counts_of(r);
    *token_count = counts.tokens;
    *node_count = counts.nodes;
    *diagnostic_count = counts.diagnostics;
    outcome_of(r)
}

// The spelling for C: its length, and it begins at `start`; 0 where there is none.
pub fn cairo_m_spelling(text: &[u8], kind: u8, start: u16, end: u16) -> usize
    ensures { result ≡ length (spelling_of text.now kind start end) }
{
    spelling(text, kind, start, end).len()
}
