// Token entries.
ghost use Rattle.std.proofs.Common.{rules};
ghost use Rattle.tables.specs.Tables.{encode_token, decode_token};

use crate::entry::{Entry, load, store};

// `TokenType`'s number, a numeral's suffix, base and value, and the place in the text.
#[derive(Clone, Copy, Default, PartialEq, Eq)]
pub struct Token {
    pub kind: u8,
    pub suffix: u8,
    pub start: u16,
    pub end: u16,
    pub base: u8,
    pub value: u64,
}

impl Entry for Token {
    const SIZE: usize = 16;

    ghost SIZE = { 16 };

    ghost encode = { encode_token };

    ghost decode = { decode_token };

    fn put(self, table: &mut [u8], i: usize) {
        let [a, b] = self.start.to_le_bytes();
        let [c, d] = self.end.to_le_bytes();
        let head = u64::from_le_bytes([self.kind, self.suffix, a, b, c, d, self.base, 0]);
        store(table, i, [head, self.value]);
    }

    #[tactic(auto, unfolding(crate::specs::Tables::number))]
    fn at(table: &[u8], i: usize) -> Token {
        match load::<16>(table, i) {
            Some(&[kind, suffix, a, b, c, d, base, _, e, f, g, h, j, k, l, m]) => Token {
                kind,
                suffix,
                start: u16::from_le_bytes([a, b]),
                end: u16::from_le_bytes([c, d]),
                base,
                value: u64::from_le_bytes([e, f, g, h, j, k, l, m]),
            },
            None => Token::default(),
        }
    }

    ghost positive = { Prim.search rules };
}
