// Lexing alone as numbers, for C.
ghost use Rattle.std.specs.Prelude.{length};
ghost use Rattle.entries.specs.Tokens.{LexIs};

use cairo_m::{Accepted, Refusal, counts_of, outcome_of};
use lexer::lex_alone;

// The outcome's number, and through the last two references how many tokens and diagnostics there are.
pub fn cairo_m_lex(
    text: &[u8],
    tokens: &mut [u8],
    diagnostics: &mut [u8],
    token_count: &mut usize,
    diagnostic_count: &mut usize,
) -> u32
    ensures { LexIs text.now (length tokens.old) (length diagnostics.old) tokens.new diagnostics.new result token_count.new diagnostic_count.new }
{
    // As a reading that has no nodes.
    let r = lex_alone(text, tokens, diagnostics)
        .map(|lexed| Accepted {
            tokens: lexed.tokens,
            nodes: 0,
        })
        .map_err(Refusal::from);
    let counts = counts_of(r);
    *token_count = counts.tokens;
    *diagnostic_count = counts.diagnostics;
    outcome_of(r)
}
