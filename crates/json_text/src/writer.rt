// A text written piece by piece into lent bytes.
ghost use Rattle.std.specs.Prelude.{◌≡◌, ◌≤◌, length, unwrap_or, MatchOption};
ghost use Rattle.json_text.specs.Json.{decimal};
ghost use Rattle.json_text.specs.Copied.{Copied, PastEnd};

use itoa::Buffer;

// The end of the text so far; none once a piece did not fit.
#[derive(Drop)]
pub struct Writer<'a> {
    out: &'a mut [u8],
    end: Option<usize>,
    ghost within: { unwrap_or end 0 ≤ length out.now },
}

impl<'a> Writer<'a> {
    ghost use Rattle.json_text.specs.Writes.{Begins, Writes, Finishes};

    pub fn new(out: &'a mut [u8]) -> Writer<'a>
        ensures { Begins out.entry result }
    {
        Writer { out, end: Some(0) }
    }

    // Writes all of w, or nothing.
    pub fn put(&mut self, w: &[u8])
        ensures { Writes w.now self.old self.new }
    {
        if let Some(at) = self.end {
            self.end = copied(self.out, at, w);
        }
    }

    // The text's length, if it fitted; what is not of it is cleared.
    pub fn finish(self) -> Option<usize>
        ensures { Finishes self.entry self.exit.0.now result }
    {
        let Writer { out, end } = self;
        out[end.unwrap_or(0)..].fill(0);
        end
    }

    pub fn number(&mut self, n: u64)
        ensures { Writes (decimal n) self.old self.new }
    {
        let mut digits = Buffer::new();
        self.put(digits.format(n).as_bytes());
    }
}

// Copies w to this place; the end of it, none if there is no room for it.
fn copied(out: &mut [u8], at: usize, w: &[u8]) -> Option<usize>
    requires { at ≤ length out.old }
    ensures { MatchOption result (PastEnd out.old at w.now × (out.new ≡ out.old)) (λ end. Copied at w.now end out.old out.new) }
{
    // The library's `get_mut` of a range says nothing of what the whole ends as.
    if out.len() - at < w.len() {
        return None;
    }
    let end = at + w.len();
    out[at..end].copy_from_slice(w);
    Some(end)
}
