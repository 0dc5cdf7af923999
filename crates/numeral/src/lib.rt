// The value, the suffix and the base of a numeral's spelling, after lexer.rs.
#![tactic(auto)]

ghost use Rattle.std.specs.Prelude.{◌≡◌, true, false, Some, None, ◌+◌, ◌*◌, ◌≤◌, ◌<◌, cond, ltb, List, ℕ, [], ◌∷◌, ◌++◌, take, get_or};
ghost use Rattle.patterns.specs.Bytes.{in_set, either, word, digit, run};
ghost use Rattle.numeral.specs.Entry.{AnswerIs, reason_of};
ghost use Rattle.numeral.specs.Numeral.{most, base_code, base_in, digit_of, numeral_of};
ghost use Rattle.numeral.specs.Parser.{Last, Ending, said, late, literal, WithDigit, BaseSet, NextCut, Ended, Upto, After, Reached, Step};

use tables::entry_codes::{Reason, Suffix};

// The bases, as their numbers.
#[derive(Clone, Copy, PartialEq, Eq)]
pub enum Base {
    Binary = 2,
    Octal = 8,
    Decimal = 10,
    Hexadecimal = 16,
}

impl Base {
    // Its number.
    pub fn radix(self) -> u8
        ensures value { result ≡ base_code self }
        ensures range { (2 ≤ result) × (result ≤ 16) }
    {
        self as u8
    }
}

// What a numeral says.
#[derive(Clone, Copy)]
pub struct NumberLiteral {
    pub value: u64,
    pub suffix: Suffix,
    pub base: Base,
}

#[derive(Clone, Copy, PartialEq, Eq)]
pub enum NumberParseError {
    Overflow,
    InvalidFormat,
}

impl From<NumberParseError> for Reason {
    ghost from_gives = { λ e r. r ≡ reason_of e };

    fn from(e: NumberParseError) -> Reason {
        match e {
            NumberParseError::Overflow => Reason::Overflow,
            NumberParseError::InvalidFormat => Reason::Format,
        }
    }
}

// Why the numeral entry refuses: too long, no spelling of a numeral, or a spelling that says no number.
#[derive(Clone, Copy, PartialEq, Eq)]
pub enum NumeralError {
    Long,
    Spelling,
    Lexical(NumberParseError),
}

// Below it no digit takes a value past 64 bits.
const SMALL: u64 = 0x1000_0000_0000_0000;

// The next digit takes the value past 64 bits. Tried: checked_mul and checked_add, which take 7 to 22 % more instructions for a numeral.
fn overflows(v: u64, base: u64, d: u64) -> bool
    requires { (base ≤ 16) × (d < base) }
    ensures { result ≡ ltb most (v * base + d) }
{
    if v < SMALL {
        return false;
    }
    v > (u64::MAX - d) / base
}

// `felt` and `u32` as numbers.
const FELT: u64 = 0x6665_6c74;

const U32: u64 = 0x75_3332;

// By byte: a digit's value, the letters in either case from 10 on; 36 for a byte that is no digit. With a test by ranges hexadecimal numerals took nearly half as long again, since no branch foresees whether a digit is a letter.
static DIGITS: [u8; 256] = [
    36, 36, 36, 36, 36, 36, 36, 36, 36, 36, 36, 36, 36, 36, 36, 36, 36, 36, 36, 36, 36, 36, 36, 36,
    36, 36, 36, 36, 36, 36, 36, 36, 36, 36, 36, 36, 36, 36, 36, 36, 36, 36, 36, 36, 36, 36, 36, 36,
    0, 1, 2, 3, 4, 5, 6, 7, 8, 9, 36, 36, 36, 36, 36, 36, 36, 10, 11, 12, 13, 14, 15, 16, 17, 18,
    19, 20, 21, 22, 23, 24, 25, 26, 27, 28, 29, 30, 31, 32, 33, 34, 35, 36, 36, 36, 36, 36, 36, 10,
    11, 12, 13, 14, 15, 16, 17, 18, 19, 20, 21, 22, 23, 24, 25, 26, 27, 28, 29, 30, 31, 32, 33, 34,
    35, 36, 36, 36, 36, 36, 36, 36, 36, 36, 36, 36, 36, 36, 36, 36, 36, 36, 36, 36, 36, 36, 36, 36,
    36, 36, 36, 36, 36, 36, 36, 36, 36, 36, 36, 36, 36, 36, 36, 36, 36, 36, 36, 36, 36, 36, 36, 36,
    36, 36, 36, 36, 36, 36, 36, 36, 36, 36, 36, 36, 36, 36, 36, 36, 36, 36, 36, 36, 36, 36, 36, 36,
    36, 36, 36, 36, 36, 36, 36, 36, 36, 36, 36, 36, 36, 36, 36, 36, 36, 36, 36, 36, 36, 36, 36, 36,
    36, 36, 36, 36, 36, 36, 36, 36, 36, 36, 36, 36, 36, 36, 36, 36, 36, 36, 36, 36, 36, 36, 36, 36,
    36, 36, 36, 36, 36, 36, 36, 36, 36, 36, 36, 36, 36, 36,
];

fn digit_of(b: u8) -> u64
    ensures { result ≡ digit_of b }
{
    u64::from(DIGITS[b as usize])
}

// A letter, a digit or `_`.
fn word_byte(b: u8, d: u64) -> bool
    requires { d ≡ digit_of b }
    ensures { result ≡ in_set word b }
{
    d < 36 || b == b'_'
}

// The base that a byte after a leading `0` sets.
fn base_after_zero(b: u8) -> Base
    ensures { result ≡ base_in (48 ∷ b ∷ []) }
{
    match b {
        b'x' | b'X' => Base::Hexadecimal,
        b'o' | b'O' => Base::Octal,
        b'b' | b'B' => Base::Binary,
        _ => Base::Decimal,
    }
}

// The last four bytes as one number, with a byte more.
#[tactic(auto, using(crate::proofs::Windows::last_on))]
fn pushed(last: u64, b: u8) -> u64
    ensures { (r : List ℕ) → Last r last → Last (r ++ b ∷ []) result }
{
    last % 0x0100_0000 * 0x100 + u64::from(b)
}

// The suffix word that they end with: `felt`, `u32` or none.
fn word_at(last: u64) -> Suffix
    ensures { (r : List ℕ) → Last r last → Ending r result }
{
    if last == FELT {
        return Suffix::Felt;
    }
    if last % 0x0100_0000 == U32 {
        return Suffix::U32;
    }
    Suffix::Absent
}

// What is known of a numeral after some of its bytes, whatever follows.
#[derive(Clone, Copy)]
struct NumberParser {
    // Of the digits before the first other byte.
    value: u64,
    // What stands before the last `f` or `u`, as digits: a suffix word may begin there.
    mark: Result<u64, NumberParseError>,
    // All of it, as digits.
    whole: Result<(), NumberParseError>,
    // From the first byte on that is no digit: what the spelling says unless a suffix word ends it.
    cut: Option<Result<(), NumberParseError>>,
    radix: u64,
    // The last four bytes as one number.
    last: u64,
    base: Base,
    // Below it a digit only adds to the value: 0 after another byte or an overflow, and not above 15, as `f` moves the mark.
    digits: u64,
}

const _: () = prove!(size_of::<NumberParser>() == 64);

impl NumberParser {
    // Before the first byte, and after those that set the base.
    fn new(base: Base) -> NumberParser
        ensures { Upto base [] result }
    {
        NumberParser {
            value: 0,
            mark: Err(NumberParseError::InvalidFormat),
            whole: Err(NumberParseError::InvalidFormat),
            cut: None,
            radix: u64::from(base.radix()),
            last: 0,
            base,
            digits: u64::from(base.radix()).min(15),
        }
    }

    // The value of the digits, if there is one.
    fn said(self, whole: Result<(), NumberParseError>) -> Result<u64, NumberParseError>
        ensures { result ≡ said self.value whole }
    {
        match whole {
            Ok(()) => Ok(self.value),
            Err(e) => Err(e),
        }
    }

    // What stands before the last `f` or `u`, with a byte more.
    fn marked(self, b: u8) -> Result<u64, NumberParseError>
        ensures { result ≡ cond (in_set (either "f" "u") b) (said self.value self.whole) self.mark }
    {
        match b {
            b'f' | b'u' => self.said(self.whole),
            _ => self.mark,
        }
    }

    // The digits so far give no value of 64 bits.
    fn late(self) -> bool
        ensures { result ≡ late self.whole }
    {
        match self.whole {
            Err(NumberParseError::Overflow) => true,
            _ => false,
        }
    }

    // The value with a digit more.
    fn with_digit(self, d: u64) -> Result<u64, NumberParseError>
        requires { (self.radix ≤ 16) × (d < self.radix) }
        ensures { WithDigit self d result }
    {
        if self.late() {
            return Err(NumberParseError::Overflow);
        }
        if overflows(self.value, self.radix, d) {
            return Err(NumberParseError::Overflow);
        }
        Ok(self.value * self.radix + d)
    }

    // With a byte more; None if no numeral goes on with it. Most digits stay within the first test.
    fn step(self, b: u8) -> Option<NumberParser>
        requires reached { Reached self }
        ensures { Step self b result }
    {
        let d = digit_of(b);
        if d < self.digits && self.value < SMALL {
            return Some(NumberParser {
                value: self.value * self.radix + d,
                whole: Ok(()),
                last: pushed(self.last, b),
                ..self
            });
        }
        self.any_step(b)
    }

    fn any_step(self, b: u8) -> Option<NumberParser>
        requires reached { Reached self }
        ensures { Step self b result }
    {
        let d = digit_of(b);
        if !word_byte(b, d) {
            return None;
        }
        let last = pushed(self.last, b);
        let mark = self.marked(b);
        if self.takes(d) {
            return Some(match self.with_digit(d) {
                Ok(value) => NumberParser {
                    value,
                    whole: Ok(()),
                    mark,
                    last,
                    ..self
                },
                Err(e) => NumberParser {
                    whole: Err(e),
                    mark,
                    last,
                    digits: 0,
                    ..self
                },
            });
        }
        if let Some(base) = self.base_set(b) {
            return Some(NumberParser::new(base));
        }
        Some(self.ended(self.next_cut(d), mark, last))
    }

    // The byte is one digit more, and no other byte stands before it.
    fn takes(self, d: u64) -> bool
        ensures yes { result ≡ true → (self.cut ≡ None) × (d < self.radix) }
        ensures no { result ≡ false → self.cut ≡ None → self.radix ≤ d }
    {
        match self.cut {
            None => d < self.radix,
            Some(_) => false,
        }
    }

    // The base that a byte sets, after `0` alone.
    #[tactic(auto, using(crate::specs::Parser::set, crate::specs::Parser::unset))]
    fn base_set(self, b: u8) -> Option<Base>
        ensures { BaseSet self b result }
    {
        if self.last != 0x30 {
            return None;
        }
        if self.radix != 10 {
            return None;
        }
        match base_after_zero(b) {
            Base::Decimal => None,
            base => Some(base),
        }
    }

    // What is said unless a suffix word ends the spelling. A first other byte that is a decimal digit is an error.
    #[tactic(auto, using(crate::specs::Parser::kept, crate::specs::Parser::decimal, crate::specs::Parser::first))]
    fn next_cut(self, d: u64) -> Result<(), NumberParseError>
        ensures { NextCut self d result }
    {
        match self.cut {
            Some(cut) => cut,
            None if d < 10 => Err(NumberParseError::InvalidFormat),
            None => self.whole,
        }
    }

    // After a byte that is no digit, or after such a byte.
    fn ended(
        self,
        cut: Result<(), NumberParseError>,
        mark: Result<u64, NumberParseError>,
        last: u64,
    ) -> NumberParser
        ensures { Ended self cut mark last result }
    {
        let e = match self.whole {
            Ok(()) => NumberParseError::InvalidFormat,
            Err(e) => e,
        };
        let cut = match word_at(last) {
            Suffix::Absent => cut,
            _ => Err(e),
        };
        NumberParser {
            whole: Err(e),
            cut: Some(cut),
            mark,
            last,
            digits: 0,
            ..self
        }
    }

    // What a spelling of these bytes says.
    fn finish(self) -> Result<NumberLiteral, NumberParseError>
        ensures { (s : List ℕ) → After s self → result ≡ numeral_of s }
    {
        match self.cut {
            None => self.literal(self.said(self.whole), Suffix::Absent),
            Some(cut) => match word_at(self.last) {
                Suffix::Absent => self.literal(self.said(cut), Suffix::Other),
                suffix => self.literal(self.mark, suffix),
            },
        }
    }

    fn literal(
        self,
        said: Result<u64, NumberParseError>,
        suffix: Suffix,
    ) -> Result<NumberLiteral, NumberParseError>
        ensures { result ≡ literal self.base suffix said }
    {
        said.map(|value| NumberLiteral {
            value,
            suffix,
            base: self.base,
        })
    }
}

// The longest numeral at the start of a text: what it says, and how many bytes it has. Each byte is looked at once.
pub fn parse_number_literal(t: &[u8]) -> (Result<NumberLiteral, NumberParseError>, usize)
    ensures size { result.1 ≡ run (in_set word) t.now }
    ensures value { result.0 ≡ numeral_of (take result.1 t.now) }
{
    let mut number = NumberParser::new(Base::Decimal);
    let mut size: usize = 0;
    for b in t {
        let Some(next) = number.step(*b) else {
            break;
        };
        number = next;
        size += 1;
    }
    (number.finish(), size)
}

fn begins_with_digit(s: &[u8]) -> bool
    ensures { result ≡ in_set digit (get_or s.now 0 0) }
{
    match s {
        [] => false,
        [b, ..] => digit_of(*b) < 10,
    }
}

// The answer of the numeral entry.
pub fn answer(spelling: &[u8]) -> Result<NumberLiteral, NumeralError>
    ensures { AnswerIs spelling.now result }
{
    if spelling.len() > 65535 {
        return Err(NumeralError::Long);
    }
    let (number, size) = parse_number_literal(spelling);
    if !begins_with_digit(spelling) {
        return Err(NumeralError::Spelling);
    }
    if size < spelling.len() {
        return Err(NumeralError::Spelling);
    }
    number.map_err(NumeralError::Lexical)
}
