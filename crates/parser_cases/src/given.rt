// The token table that a case spells.
use case_io::Cases;
use tables::{Entry, Token};

// Lays the tokens that a case spells into the table, one for each entry: kind, suffix, start, end, value and base, each
// with one byte after it.
pub fn tokens(case: &mut Cases<'_>, table: &mut [u8]) {
    for i in 0..Token::room(table) {
        let token = Token {
            kind: byte(case.number_that_fits()),
            suffix: byte(case.number_that_fits()),
            start: half(case.number_that_fits()),
            end: half(case.number_that_fits()),
            value: case.number_that_fits() as u64,
            base: byte(case.number_that_fits()),
        };
        token.put(table, i);
    }
}

// The last bits of a number, as many as a field has.
pub fn byte(n: usize) -> u8 {
    (n % 0x100) as u8
}

fn half(n: usize) -> u16 {
    (n % 0x1_0000) as u16
}
