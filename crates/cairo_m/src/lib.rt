// From the bytes of a Cairo-M text to its tree, after parse_file, with 01's outcomes.
#![tactic(auto)]

mod suffixes;

ghost use Rattle.std.specs.Prelude.{◌≡◌, length};
ghost use Rattle.cairo_m.specs.Reading.{outcome_of, counts_of, ReadingIs};
ghost use Rattle.cairo_m.specs.declared.Refusal.TheVariants.{Lexing};

use crate::suffixes::read_tokens;
use lexer::{LexError, TextError, lex_alone};
use tables::{Entry, Token};

// How many tokens and nodes a text has that is read.
#[derive(Clone, Copy)]
pub struct Accepted {
    pub tokens: usize,
    pub nodes: usize,
}

// Why a text is refused, with how many errors there are, or entries that would do.
#[derive(Clone, Copy)]
pub enum Refusal {
    Lexing(LexError),
    Nest,
    NodeRoom(usize),
    Syntax,
    Suffix(usize),
}

impl From<LexError> for Refusal {
    ghost from_gives = { λ e r. r ≡ Lexing e };

    fn from(e: LexError) -> Refusal {
        Refusal::Lexing(e)
    }
}

// How many tokens, nodes and errors an answer speaks of.
#[derive(Clone, Copy, Default)]
pub struct Counts {
    pub tokens: usize,
    pub nodes: usize,
    pub diagnostics: usize,
}

// 01's numbers, what C is given.
pub fn outcome_of(r: Result<Accepted, Refusal>) -> u32
    ensures { result ≡ outcome_of r }
{
    match r {
        Ok(_) => 0,
        Err(Refusal::Lexing(LexError::Text(TextError::Long))) => 1,
        Err(Refusal::Lexing(LexError::Text(TextError::Encoding))) => 2,
        Err(Refusal::Lexing(LexError::Lexical(_))) => 3,
        Err(Refusal::Lexing(LexError::TokenRoom(_))) => 4,
        Err(Refusal::Nest) => 5,
        Err(Refusal::NodeRoom(_)) => 6,
        Err(Refusal::Syntax) => 7,
        Err(Refusal::Suffix(_)) => 8,
    }
}

// The answer's counts.
pub fn counts_of(r: Result<Accepted, Refusal>) -> Counts
    ensures { result ≡ counts_of r }
{
    let none = Counts::default();
    match r {
        Ok(Accepted { tokens, nodes }) => Counts {
            tokens,
            nodes,
            ..none
        },
        Err(Refusal::Lexing(LexError::TokenRoom(tokens))) => Counts { tokens, ..none },
        Err(Refusal::NodeRoom(nodes)) => Counts { nodes, ..none },
        Err(Refusal::Lexing(LexError::Lexical(diagnostics)) | Refusal::Suffix(diagnostics)) =>
            Counts {
                diagnostics,
                ..none
            },
        Err(Refusal::Syntax) => Counts {
            diagnostics: 1,
            ..none
        },
        Err(Refusal::Lexing(LexError::Text(_)) | Refusal::Nest) => none,
    }
}

// Reads a text into the tables. What is not used of them is zero, and after a refusal the token and node tables are all zero.
pub fn read(
    text: &[u8],
    tokens: &mut [u8],
    nodes: &mut [u8],
    diagnostics: &mut [u8],
) -> Result<Accepted, Refusal>
    ensures { ReadingIs text.now (length tokens.old) (length nodes.old) (length diagnostics.old) tokens.new nodes.new diagnostics.new result }
{
    // Tried: `inspect_err(|_| nodes.fill(0))?`. No proof closed: what the closure leaves in `nodes` is not known after it.
    match lex_alone(text, tokens, diagnostics) {
        Ok(lexed) => {
            let lexemes = &tokens[..lexed.tokens * Token::SIZE];
            let answer = read_tokens(text, lexemes, lexed.unknown, nodes, diagnostics);
            if answer.is_err() {
                tokens.fill(0);
            }
            answer
        }
        Err(e) => {
            nodes.fill(0);
            Err(e.into())
        }
    }
}
