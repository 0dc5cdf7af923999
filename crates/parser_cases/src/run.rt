// A long run of tokens, which are kinds alone: a reader that took the stack for each of them would not end.
use crate::given::byte;
use crate::tree;
use arrayvec::ArrayVec;
use case_io::{Cases, UsedEntries};
use std::io;
use std::io::Write;
use tables::{Entry, Token};

// The longest run; what goes beyond is left out.
const MOST: usize = 16384;

type Kinds = ArrayVec<u8, MOST>;

// r N A KINDS B KINDS C KINDS: A kinds, N times B kinds, and C kinds. No node is stored: they are counted.
pub fn answer<W: Write>(out: &mut W, mut case: Cases<'_>) -> io::Result<()> {
    let times = case.number_that_fits();
    let mut kinds = Kinds::new();
    let mut tokens = [0; MOST * Token::SIZE];
    let mut end = 0;
    for n in [1, times, 1] {
        let count = case.number_that_fits();
        // Kinds that stand no times are not passed: the next number is the first of them.
        if n == 0 {
            continue;
        }
        given(&mut case, count, &mut kinds);
        for _ in 0..n {
            end = lay(kinds.as_slice(), &mut tokens, end);
        }
    }
    let used = UsedEntries::<Token>::new(&tokens, end);
    tree::answer(out, b"", used.bytes(), &mut [])
}

// So many kinds, in a place that is lent: handed out it would be copied.
fn given(case: &mut Cases<'_>, count: usize, kinds: &mut Kinds) {
    kinds.clear();
    for _ in 0..count {
        kinds.try_push(byte(case.number_that_fits())).ok();
    }
}

// Lays a token of each kind into the table from an entry on, and answers the entry after them.
fn lay(kinds: &[u8], tokens: &mut [u8], from: usize) -> usize {
    let mut end = from;
    for kind in kinds {
        if end >= MOST {
            return end;
        }
        let token = Token {
            kind: *kind,
            ..Token::default()
        };
        token.put(tokens, end);
        end += 1;
    }
    end
}
