// What each byte can begin, and which words can be keywords, in tables.
ghost use Rattle.std.specs.Prelude.{◌≡◌, [], ◌∷◌, ◌++◌, ◌+◌, ◌*◌, ◌%◌, ◌≤◌, ◌<◌};
ghost use Rattle.std.specs.List.{prefix_len};
ghost use Rattle.patterns.specs.Bytes.{in_set, word, run};
ghost use Rattle.tables.specs.TokenKinds.{AS, USE, NOT, DOT};
ghost use Rattle.lexer.specs.Kinds.{fixed_of};
ghost use Rattle.lexer.specs.Classes.{class_of, KindIs};

use patterns::spelled;
use tables::token_type::TokenType;

// A class below STRANGE that is not WHITE is the number of a mark's kind.
pub const WHITE: u8 = 1;

// From here up to LETTER no token begins.
pub const STRANGE: u8 = 0x80;

pub const LETTER: u8 = 0xFE;

pub const DIGIT: u8 = 0xFF;

static CLASS: [u8; 256] = [
    133, 133, 133, 133, 133, 133, 133, 133, 133, 1, 1, 133, 133, 1, 133, 133, 133, 133, 133, 133,
    133, 133, 133, 133, 133, 133, 133, 133, 133, 133, 133, 133, 1, 21, 133, 133, 133, 37, 24, 133,
    40, 41, 35, 33, 46, 34, 50, 36, 255, 255, 255, 255, 255, 255, 255, 255, 255, 255, 48, 47, 31,
    38, 32, 133, 133, 254, 254, 254, 254, 254, 254, 254, 254, 254, 254, 254, 254, 254, 254, 254,
    254, 254, 254, 254, 254, 254, 254, 254, 254, 254, 254, 44, 133, 45, 26, 254, 133, 254, 254,
    254, 254, 254, 254, 254, 254, 254, 254, 254, 254, 254, 254, 254, 254, 254, 254, 254, 254, 254,
    254, 254, 254, 254, 254, 42, 25, 43, 133, 133, 128, 128, 128, 128, 128, 128, 128, 128, 128,
    128, 128, 128, 128, 128, 128, 128, 128, 128, 128, 128, 128, 128, 128, 128, 128, 128, 128, 128,
    128, 128, 128, 128, 128, 128, 128, 128, 128, 128, 128, 128, 128, 128, 128, 128, 128, 128, 128,
    128, 128, 128, 128, 128, 128, 128, 128, 128, 128, 128, 128, 128, 128, 128, 128, 128, 129, 129,
    130, 130, 130, 130, 130, 130, 130, 130, 130, 130, 130, 130, 130, 130, 130, 130, 130, 130, 130,
    130, 130, 130, 130, 130, 130, 130, 130, 130, 130, 130, 131, 131, 131, 131, 131, 131, 131, 131,
    131, 131, 131, 131, 131, 131, 131, 131, 132, 132, 132, 132, 132, 129, 129, 129, 129, 129, 129,
    129, 129, 129, 129, 129,
];

// By a mark's kind, from `!` on: the byte that makes it a mark of two bytes, and the kind of that; 0 where there is none. A `match` of the two bytes was measured on random marks: 85 MB/s, and 220 with a table, since no branch foresees them.
static PAIRS: [(u8, u8); 30] = [
    (b'=', TokenType::Neq as u8),
    (0, 0),
    (0, 0),
    (b'&', TokenType::AndAnd as u8),
    (b'|', TokenType::OrOr as u8),
    (0, 0),
    (0, 0),
    (0, 0),
    (0, 0),
    (0, 0),
    (b'=', TokenType::LessEqual as u8),
    (b'=', TokenType::GreaterEqual as u8),
    (0, 0),
    (b'>', TokenType::Arrow as u8),
    (0, 0),
    (0, 0),
    (0, 0),
    (b'=', TokenType::EqEq as u8),
    (0, 0),
    (0, 0),
    (0, 0),
    (0, 0),
    (0, 0),
    (0, 0),
    (0, 0),
    (0, 0),
    (0, 0),
    (b':', TokenType::ColonColon as u8),
    (0, 0),
    (0, 0),
];

// By the key of a word's first two bytes and length: the kind of the keyword with that key, or 0.
static KEYS: [u8; 256] = [
    0, 0, 0, 0, 0, 0, 0, 0, 0, 0, 0, 0, 0, 0, 0, 0, 5, 0, 0, 0, 0, 0, 0, 0, 0, 0, 0, 0, 0, 0, 0, 0,
    0, 0, 0, 0, 0, 0, 0, 0, 0, 0, 0, 0, 0, 0, 0, 0, 0, 0, 0, 0, 0, 0, 0, 0, 0, 0, 0, 0, 0, 0, 0, 7,
    0, 0, 8, 0, 0, 0, 0, 0, 9, 0, 0, 0, 0, 0, 0, 0, 0, 0, 0, 0, 0, 0, 0, 0, 0, 0, 0, 0, 0, 0, 0, 0,
    10, 0, 0, 0, 0, 0, 0, 0, 0, 0, 0, 0, 0, 0, 0, 0, 0, 0, 0, 0, 0, 0, 0, 4, 0, 0, 0, 0, 0, 0, 0,
    0, 0, 0, 0, 0, 0, 0, 6, 0, 0, 13, 0, 0, 0, 0, 0, 16, 0, 0, 0, 3, 15, 0, 0, 0, 0, 0, 0, 0, 0, 0,
    0, 18, 0, 0, 0, 0, 0, 0, 0, 0, 0, 2, 14, 0, 0, 0, 17, 0, 0, 0, 0, 0, 0, 0, 0, 0, 0, 0, 0, 0, 0,
    0, 0, 0, 0, 0, 0, 0, 0, 0, 0, 0, 0, 0, 0, 0, 0, 0, 0, 0, 0, 0, 0, 0, 0, 0, 0, 0, 0, 0, 0, 0, 0,
    0, 0, 0, 12, 0, 0, 0, 0, 0, 0, 0, 0, 19, 0, 0, 0, 0, 0, 0, 0, 0, 0, 0, 0, 0, 0, 0, 0, 11, 0, 0,
    0, 0, 0, 0,
];

// By its kind, how many bytes a keyword has, and these. They are bytes and no slices, as the archive has no memory that is set up when it is loaded.
static KEYWORDS: [(u8, [u8; 8]); 20] = [
    (0, *b"........"),
    (0, *b"........"),
    (2, *b"as......"),
    (5, *b"const..."),
    (4, *b"else...."),
    (5, *b"false..."),
    (2, *b"fn......"),
    (2, *b"if......"),
    (3, *b"let....."),
    (3, *b"new....."),
    (6, *b"return.."),
    (6, *b"struct.."),
    (4, *b"true...."),
    (5, *b"while..."),
    (4, *b"loop...."),
    (3, *b"for....."),
    (2, *b"in......"),
    (5, *b"break..."),
    (8, *b"continue"),
    (3, *b"use....."),
];

// What a byte can begin.
pub fn class_of(b: u8) -> u8
    ensures { result ≡ class_of b }
{
    CLASS[b as usize]
}

// A letter, a digit or `_`.
fn in_word(b: u8) -> bool
    ensures { result ≡ in_set word b }
{
    class_of(b) >= LETTER
}

// How many bytes from the start are such.
fn word_within(t: &[u8]) -> usize
    ensures { result ≡ prefix_len (in_set word) t.now }
{
    t.iter().take_while(|b| in_word(**b)).count()
}

// The same four bytes at a time, a name's size: LLVM unrolls what it reads of each four.
pub fn word_run(t: &[u8]) -> usize
    ensures { result ≡ run (in_set word) t.now }
{
    let mut i = 0;
    for four in t.chunks_exact(4) {
        let n = word_within(four);
        if n < 4 {
            return i + n;
        }
        i += 4;
    }
    i + word_within(&t[i..])
}

// The kind of the keyword that a word is. It is compared with the one keyword that has its key; most names have no keyword's.
pub fn keyword(w: &[u8]) -> Option<u8>
    ensures { KindIs AS USE w.now result }
{
    let n @ 2..=8 = w.len() else {
        return None;
    };
    let kind = KEYS[key(w[0], w[1], n)];
    if kind != 0 && w == spelled(&KEYWORDS[kind as usize]) {
        return Some(kind);
    }
    None
}

// The kind of the mark of two bytes that a mark of kind c and the byte d make.
pub(crate) fn pair_of(c: u8, d: u8) -> Option<u8>
    requires { (NOT ≤ c) × (c ≤ DOT) }
    ensures { KindIs NOT DOT (fixed_of c ++ d ∷ []) result }
{
    let (next, kind) = &PAIRS[c as usize - TokenType::Not as usize];
    // A return of its own keeps this a branch. Of one test for both LLVM makes a conditional move, and the next token waits for its answer.
    if *next != d {
        return None;
    }
    (*kind != 0).then_some(*kind)
}

// The key of a word of n bytes that begins with these two.
fn key(a: u8, b: u8, n: usize) -> usize
    requires { n ≤ 8 }
    ensures { (result ≡ (a * 3 + b * 10 + n * 4) % 256) × (result < 256) }
{
    ((a as usize) * 3 + (b as usize) * 10 + n * 4) % 256
}
