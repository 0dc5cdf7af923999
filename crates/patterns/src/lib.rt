// Byte sets, fixed byte strings and patterns: what the specifications of the crates above share. Of functions it has the one that reads a word in a table.
#![tactic(auto)]

ghost use Rattle.std.specs.Prelude.{◌≡◌, length, min, take};

// A word without what fills its row.
pub fn spelled<const N: usize>(row: &(u8, [u8; N])) -> &[u8]
    ensures { result.now ≡ take (min row.now.0 (length row.now.1)) row.now.1 }
{
    let (size, word) = row;
    let text = word.as_slice();
    &text[..(*size as usize).min(text.len())]
}
