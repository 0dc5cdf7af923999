// What the programs share: reading their input, going through its cases, printing a table's entries.
// The contracts say what keeps a caller safe. What is read and written is held to the case files, and what `Cases::number` reads
// to the test beside it.
#![tactic(auto)]

mod answering;
mod cases;
mod listed;
mod rows;
mod used;

ghost use Rattle.std.specs.Prelude.{◌≡◌, ◌≤◌, ◌<◌, ◌∷◌, [], ◌++◌, length, take, replicate, IfOk, OnOk};
ghost use Rattle.std.specs.Io.KnownBytes.{Appends, Consumes, IsAtEnd};

pub use answering::{Case, answer_all, read_input};
pub use cases::Cases;
pub use listed::list_answer;
pub use rows::{Row, Spelled};
use std::io;
use std::io::{Read, Write};
pub use used::UsedEntries;

// Zeros. They are made here, since where they are written out a proof counts them one by one.
pub fn room<const N: usize>() -> [u8; N]
    ensures { result ≡ replicate N 0 }
{
    [0; N]
}

// Reads until the buffer is full or the input ends, and says how many bytes there are.
pub fn fill<R: Read>(input: &mut R, buf: &mut [u8]) -> io::Result<usize>
    ensures within { IfOk result (λ n. n ≤ length buf.new) }
    ensures bytes { IfOk result (λ n. Consumes (R.remaining input.old) (R.remaining input.new) (take n buf.new)) }
    ensures at_end { IfOk result (λ n. n < length buf.new → IsAtEnd (R.remaining input.new)) }
{
    // `read_exact` would refuse a shorter input, and `read_to_end` needs the heap.
    let mut n = 0;
    while n < buf.len() {
        let k = input.read(&mut buf[n..])?;
        if k == 0 {
            return Ok(n);
        }
        n += k;
    }
    Ok(n)
}

// The text, and a line feed.
pub fn line<W: Write>(out: &mut W, text: &[u8]) -> io::Result<()>
    ensures { OnOk result (Appends (W.contents out.old) (W.contents out.new) (text.now ++ 10 ∷ [])) }
{
    out.write_all(text)?;
    out.write_all(b"\n")
}
