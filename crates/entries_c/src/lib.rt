// The archive for C: each function of c/cairo_m.h calls the entry of its name, and says what that says.
#![tactic(auto)]

ghost use Rattle.std.specs.Prelude.{◌≡◌, length};
ghost use Rattle.tables.specs.Tables.{nodes_of, diagnostics_of};
ghost use Rattle.listing.specs.Answers.{listed, refused};
ghost use Rattle.entries.specs.Numbers.{EntryIs};
ghost use Rattle.entries.specs.Spelling.{spelling_of};
ghost use Rattle.entries.specs.Tokens.{LexIs};
ghost use Rattle.entries.specs.Numerals.{NumeralIs};
ghost use Rattle.entries.specs.Lists.{ListIs};
ghost use Rattle.entries.specs.Hits.{HitTestIs};

use entries::Diagnostic;

// What the spelling of a numeral says.
#[unsafe(no_mangle)]
pub extern "C" fn cairo_m_numeral(
    spelling: &[u8],
    value: &mut u64,
    suffix: &mut u8,
    base: &mut u8,
    reason: &mut u8,
) -> u32
    ensures { NumeralIs spelling.now result value.new suffix.new base.new reason.new }
{
    entries::cairo_m_numeral(spelling, value, suffix, base, reason)
}

// The tokens of a text.
#[unsafe(no_mangle)]
pub extern "C" fn cairo_m_lex(
    text: &[u8],
    tokens: &mut [u8],
    diagnostics: &mut [u8],
    token_count: &mut usize,
    diagnostic_count: &mut usize,
) -> u32
    ensures { LexIs text.now (length tokens.old) (length diagnostics.old) tokens.new diagnostics.new result token_count.new diagnostic_count.new }
{
    entries::cairo_m_lex(text, tokens, diagnostics, token_count, diagnostic_count)
}

// A text from bytes to nodes.
#[unsafe(no_mangle)]
pub extern "C" fn cairo_m_read(
    text: &[u8],
    tokens: &mut [u8],
    nodes: &mut [u8],
    diagnostics: &mut [u8],
    token_count: &mut usize,
    node_count: &mut usize,
    diagnostic_count: &mut usize,
    list: &mut [Diagnostic],
) -> u32
    ensures { EntryIs text.now (length tokens.old) (length nodes.old) (length diagnostics.old) (length list.old) tokens.new nodes.new diagnostics.new list.new result token_count.new node_count.new diagnostic_count.new }
{
    entries::cairo_m_read(
        text,
        tokens,
        nodes,
        diagnostics,
        token_count,
        node_count,
        diagnostic_count,
        list,
    )
}

// The length of the spelling of a node of this kind and span.
#[unsafe(no_mangle)]
pub extern "C" fn cairo_m_spelling(text: &[u8], kind: u8, start: u16, end: u16) -> usize
    ensures { result ≡ length (spelling_of text.now kind start end) }
{
    entries::cairo_m_spelling(text, kind, start, end)
}

// The listing of a tree.
#[unsafe(no_mangle)]
pub extern "C" fn cairo_m_list(nodes: &[u8], out: &mut [u8], size: &mut usize) -> u32
    ensures { ListIs (listed (length out.old) (nodes_of nodes.now)) (length out.old) out.new size.new result }
{
    entries::cairo_m_list(nodes, out, size)
}

// The listing of a refusal.
#[unsafe(no_mangle)]
pub extern "C" fn cairo_m_list_refused(
    outcome: u32,
    diagnostics: &[u8],
    out: &mut [u8],
    size: &mut usize,
) -> u32
    ensures { ListIs (refused (length out.old) outcome (diagnostics_of diagnostics.now)) (length out.old) out.new size.new result }
{
    entries::cairo_m_list_refused(outcome, diagnostics, out, size)
}

// The node under a place of the text.
#[unsafe(no_mangle)]
pub extern "C" fn cairo_m_hit_test(
    offset: usize,
    length: usize,
    nodes: &[u8],
    found: &mut u8,
    place: &mut usize,
) -> u32
    ensures { HitTestIs offset length nodes.now result found.new place.new }
{
    entries::cairo_m_hit_test(offset, length, nodes, found, place)
}
