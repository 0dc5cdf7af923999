// Lexing alone, with 01's outcomes.
ghost use Rattle.std.specs.Prelude.{◌≡◌, length};
ghost use Rattle.lexer.specs.Answers.{AnswerIs};
ghost use Rattle.lexer.specs.declared.entry.LexError.TheVariants.{Text};

use super::lexing::{TextError, lex};
use tables::{Entry, Token};

#[derive(Clone, Copy)]
pub struct LexedAlone {
    pub tokens: usize,
    pub unknown: usize,
}

#[derive(Clone, Copy)]
pub enum LexError {
    Text(TextError),
    Lexical(usize),
    TokenRoom(usize),
}

impl From<TextError> for LexError {
    ghost from_gives = { λ e r. r ≡ Text e };

    fn from(e: TextError) -> LexError {
        LexError::Text(e)
    }
}

pub fn lex_alone(
    text: &[u8],
    tokens: &mut [u8],
    diagnostics: &mut [u8],
) -> Result<LexedAlone, LexError>
    ensures { AnswerIs text.now (length tokens.old) (length diagnostics.old) tokens.new diagnostics.new result }
{
    let lexed = lex(text, tokens, diagnostics)?;
    if lexed.diagnostics > 0 {
        tokens.fill(0);
        return Err(LexError::Lexical(lexed.diagnostics));
    }
    if lexed.tokens > Token::room(tokens) {
        tokens.fill(0);
        return Err(LexError::TokenRoom(lexed.tokens));
    }
    Ok(LexedAlone {
        tokens: lexed.tokens,
        unknown: lexed.unknown,
    })
}
