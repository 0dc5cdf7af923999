// From the tokens on: the tree, the place where reading stopped, the literals with an unknown suffix, the room for the nodes.
ghost use Rattle.std.specs.Prelude.{◌≡◌, ◌≤◌, length, map};
ghost use Rattle.tables.specs.Tables.{encode_diagnostic, stored, laid, tokens_of as tokens_in};
ghost use Rattle.tables.specs.Suffix.{unknown_suffix, unknown_numerals};
ghost use Rattle.cairo_m.specs.Reading.{suffix_error};
ghost use Rattle.cairo_m.specs.Suffixes.{stop_of, TokensRead};

use crate::{Accepted, Refusal};
use parser::{ParseError, parse};
use tables::entry_codes::{Reason, Suffix};
use tables::token_type::TokenType;
use tables::{Diagnostic, Entry, Node, Token};

// Lists where reading stopped: at this token, or where the text ends if there is none.
fn stop(tokens: &[u8], at: usize, text_end: u16, diagnostics: &mut [u8])
    ensures { diagnostics.new ≡ stored 8 diagnostics.old 0 (encode_diagnostic (stop_of tokens.now at text_end)) }
{
    // Past the last token an entry is all zero, which says nothing of the end: so there is a test.
    let (start, end) = if at < Token::room(tokens) {
        let token = Token::at(tokens, at);
        (token.start, token.end)
    } else {
        (text_end, text_end)
    };
    let stopped = Diagnostic {
        start,
        end,
        reason: Reason::Stopped as u8,
    };
    stopped.put(diagnostics, 0);
}

// Whether a token is a numeral with a suffix that is neither felt nor u32.
fn is_unknown(token: &Token) -> bool
    ensures { result ≡ unknown_suffix token.now }
{
    token.kind == TokenType::LiteralNumber as u8 && token.suffix == Suffix::Other as u8
}

// Lists all numerals with an unknown suffix.
fn unknown_suffixes(tokens: &[u8], diagnostics: &mut [u8])
    ensures { diagnostics.new ≡ laid 8 encode_diagnostic diagnostics.old (map suffix_error (unknown_numerals (tokens_in tokens.now))) }
{
    for (i, token) in Token::entries(tokens).filter(is_unknown).enumerate() {
        let error = Diagnostic {
            start: token.start,
            end: token.end,
            reason: Reason::UnknownSuffix as u8,
        };
        error.put(diagnostics, i);
    }
}

// Reads the tokens of a text, which are all that the table has, into the node table. `unknown` of them are numerals with an unknown suffix, which are looked for only if there are any.
pub(crate) fn read_tokens(
    text: &[u8],
    tokens: &[u8],
    unknown: usize,
    nodes: &mut [u8],
    diagnostics: &mut [u8],
) -> Result<Accepted, Refusal>
    requires text_len_bound { length text.now ≤ 65535 }
    requires unknown_value { unknown ≡ length (unknown_numerals (tokens_in tokens.now)) }
    ensures { TokensRead text.now tokens.now (length nodes.old) nodes.new diagnostics.old diagnostics.new result }
{
    let count = match parse(text, tokens, nodes) {
        Ok(count) => count,
        Err(ParseError::Deep) => return Err(Refusal::Nest),
        Err(ParseError::Syntax(at)) => {
            stop(tokens, at, text.len() as u16, diagnostics);
            return Err(Refusal::Syntax);
        }
    };
    if unknown > 0 {
        nodes.fill(0);
        unknown_suffixes(tokens, diagnostics);
        return Err(Refusal::Suffix(unknown));
    }
    if count > Node::room(nodes) {
        nodes.fill(0);
        return Err(Refusal::NodeRoom(count));
    }
    Ok(Accepted {
        tokens: Token::room(tokens),
        nodes: count,
    })
}
