// The bytes that a case spells.
ghost use Rattle.std.specs.Prelude.{◌<◌};

use arrayvec::ArrayVec;
use case_io::Cases;
use std::iter::repeat_n;

// Longer than the longest text. What there is no room for is left out.
pub type Text = ArrayVec<u8, 65600>;

// Adds the bytes that are spelled to a text, which is lent: handed out it would be copied. `XX` is a byte, `*N.` says that the
// last byte stands N times, and a lone byte at the end says nothing.
pub fn bytes(spelled: &[u8], text: &mut Text) {
    let mut case = Cases { rest: spelled };
    loop {
        let (byte, times) = match case.rest {
            [b'*', rest @ ..] => {
                case.rest = rest;
                let last = text.last().copied().unwrap_or(0);
                (last, case.number_that_fits().saturating_sub(1))
            }
            [high, low, rest @ ..] => {
                case.rest = rest;
                (nibble(*high) * 16 + nibble(*low), 1)
            }
            _ => return,
        };
        text.extend(repeat_n(byte, times)).ok();
    }
}

// The value of a hexadecimal digit, 0 for any other byte. `to_digit` would take capital letters too.
fn nibble(b: u8) -> u8
    ensures { result < 16 }
{
    match b {
        b'0'..=b'9' => b - b'0',
        b'a'..=b'f' => b - b'a' + 10,
        _ => 0,
    }
}
