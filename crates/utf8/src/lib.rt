// UTF-8 as RFC 3629 has it.
#![tactic(auto)]

ghost use Rattle.std.specs.Prelude.{◌↔◌, IsTrue};
ghost use Rattle.utf8.specs.Rows.{Tail, Two, Three, Four};
ghost use Rattle.utf8.specs.Utf8.{FirstChar, IsUtf8};

// The length of the character that the text begins with; None where it begins with none.
pub fn char_len(text: &[u8]) -> Option<usize>
    ensures { FirstChar text.now result }
{
    match *text {
        [b, ..] if b < 0x80 => Some(1),
        [b, d, ..] if b < 0xE0 => is_two(b, d).then_some(2),
        [b, d, e, ..] if b < 0xF0 => is_three(b, d, e).then_some(3),
        [b, d, e, f, ..] => is_four(b, d, e, f).then_some(4),
        _ => None,
    }
}

// A byte after the first: 10xxxxxx.
fn is_tail(b: u8) -> bool
    ensures { IsTrue result ↔ Tail b }
{
    b / 64 == 2
}

fn is_two(b: u8, d: u8) -> bool
    ensures { IsTrue result ↔ Two b d }
{
    b >= 0xC2 && b < 0xE0 && is_tail(d)
}

// No overlong form after 0xE0, and no surrogate after 0xED.
fn is_three(b: u8, d: u8, e: u8) -> bool
    ensures { IsTrue result ↔ Three b d e }
{
    b / 16 == 0xE && is_tail(d) && is_tail(e) && (b > 0xE0 || d >= 0xA0) && (b != 0xED || d < 0xA0)
}

// No overlong form after 0xF0, and nothing past the last character after 0xF4.
fn is_four(b: u8, d: u8, e: u8, f: u8) -> bool
    ensures { IsTrue result ↔ Four b d e f }
{
    b >= 0xF0
        && is_tail(d)
        && is_tail(e)
        && is_tail(f)
        && (b > 0xF0 || d >= 0x90)
        && (b < 0xF4 || b == 0xF4 && d < 0x90)
}

// The whole text is UTF-8, by the rows of the RFC. What `str::from_utf8` takes is by the library's own definition.
pub fn is_utf8(text: &[u8]) -> bool
    ensures { IsUtf8 text.now result }
{
    let mut rest = text;
    while let Some(n) = char_len(rest) {
        rest = &rest[n..];
    }
    rest.is_empty()
}
