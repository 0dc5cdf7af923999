// From a program's input to its answers.
ghost use Rattle.std.specs.Prelude.{◌<◌, List, ℕ, length, IfOk, OnOk, OnSome, IfNone};
ghost use Rattle.std.specs.Io.KnownBytes.{Consumes, IsAtEnd};

use crate::cases::Cases;
use crate::fill;
use std::io;
use std::io::{Read, Write};

// The input, as much of it as there is room for. The place is lent, and the text handed back: a function that is called with
// the text would take a `requires`, that it can be called.
pub fn read_input<'a, R: Read>(input: &mut R, bytes: &'a mut [u8]) -> io::Result<&'a [u8]>
    ensures read { IfOk result (λ text. Consumes (R.remaining input.old) (R.remaining input.new) text.now) }
    ensures at_end { IfOk result (λ text. length text.now < length bytes.old → IsAtEnd (R.remaining input.new)) }
{
    let n = fill(input, bytes)?;
    Ok(&bytes[..n])
}

// A case of a file.
pub trait Case<'a>: Sized {
    // What is left where there is none.
    ghost no_more: { List ℕ → Type 0 };

    // The next one, whose bytes are passed.
    fn next(cases: &mut Cases<'a>) -> Option<Self>
        ensures some { OnSome result (length cases.new.rest.now < length cases.old.rest.now) }
        ensures none { IfNone result (no_more cases.old.rest.now) };

    // Writes what is owed to it.
    fn answer<W: Write>(self, out: &mut W) -> io::Result<()>;
}

// Answers the cases of a file in turn.
pub fn answer_all<'a, C: Case<'a>, W: Write>(file: &'a [u8], out: &mut W) -> io::Result<()>
    ensures { OnOk result ((rest : List ℕ) × C.no_more rest) }
{
    let mut cases = Cases { rest: file };
    while let Some(case) = C::next(&mut cases) {
        case.answer(out)?;
    }
    Ok(())
}
