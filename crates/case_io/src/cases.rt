// The cases of a file, in turn.
ghost use Rattle.std.specs.Prelude.{◌≡◌, ◌≤◌, ◌<◌, ◌+◌, ◌==◌, IfSome, OnSome, IfNone, take, drop, length, [], ◌∷◌};
ghost use Rattle.std.specs.List.{position_or_len, before_first, after_first};

use std::str::FromStr;

// The bytes that are left to read.
#[derive(Clone, Copy)]
pub struct Cases<'a> {
    pub rest: &'a [u8],
}

impl<'a> Cases<'a> {
    // The bytes up to the next line feed, which is passed, or up to the end; none at the end.
    pub fn line(&mut self) -> Option<&'a [u8]>
        ensures some { IfSome result (λ line. line.now ≡ before_first (λ b. b == 10) self.old.rest.now) }
        ensures passed { OnSome result (self.new.rest.now ≡ after_first (λ b. b == 10) self.old.rest.now) }
        ensures further { OnSome result (length self.new.rest.now < length self.old.rest.now) }
        ensures none { IfNone result (self.old.rest.now ≡ []) }
    {
        let all = self.rest;
        if all.is_empty() {
            return None;
        }
        self.bytes(line_end(all))
    }

    // The decimal number that comes next, read as any type that has `FromStr`, or the default of the type where `parse` refuses
    // the digits; the byte that ends it is passed.
    pub fn number<N: FromStr + Default>(&mut self) -> N
    where
        N::Err: Drop,
        ensures never_back { length self.new.rest.now ≤ length self.old.rest.now }
        ensures further { 0 < length self.old.rest.now → length self.new.rest.now < length self.old.rest.now }
    {
        let all = self.rest;
        self.number_that_fits();
        let digits = all.split(|b| !b.is_ascii_digit()).next().unwrap_or(&[]);
        str::from_utf8(digits)
            .ok()
            .and_then(|text| text.parse().ok())
            .unwrap_or_default()
    }

    // The decimal number that comes next, without the digits that do not fit; the byte that ends it is passed.
    pub fn number_that_fits(&mut self) -> usize
        ensures never_back { length self.new.rest.now ≤ length self.old.rest.now }
        ensures further { 0 < length self.old.rest.now → length self.new.rest.now < length self.old.rest.now }
    {
        let all = self.rest;
        let end = all
            .iter()
            .position(|b| !b.is_ascii_digit())
            .unwrap_or(all.len());
        let (digits, rest) = all.split_at(end);
        self.rest = rest.get(1..).unwrap_or(&[]);
        digits.iter().fold(0, |value, b| with_digit(value, *b))
    }

    // The next n bytes, and the byte after them is passed.
    pub fn bytes(&mut self, n: usize) -> Option<&'a [u8]>
        ensures some { IfSome result (λ bytes. bytes.now ≡ take n self.old.rest.now) }
        ensures passed { OnSome result (self.new.rest.now ≡ drop (n + 1) self.old.rest.now) }
        ensures none { IfNone result (length self.old.rest.now < n) }
        ensures same { IfNone result (self.new.rest.now ≡ self.old.rest.now) }
    {
        let bytes = self.rest.get(..n)?;
        self.rest = self.rest.get(n + 1..).unwrap_or(&[]);
        Some(bytes)
    }
}

// The place of the first line feed, or the end. `number_that_fits` looks for its end in the same way: one function for both would take a closure, and be no shorter.
fn line_end(bytes: &[u8]) -> usize
    ensures within { result ≤ length bytes.now }
    ensures first { result ≡ position_or_len (λ b. b == 10) bytes.now }
{
    bytes
        .iter()
        .position(|b| *b == b'\n')
        .unwrap_or(bytes.len())
}

// One digit more, as long as the number fits. `parse` refuses a number that does not fit, where a case passes over the digits.
fn with_digit(value: usize, b: u8) -> usize {
    if b < b'0' {
        return value;
    }
    let digit = (b - b'0') as usize;
    if value > (0xFFFF_FFFF_FFFF_FFFF - digit) / 10 {
        return value;
    }
    value * 10 + digit
}

#[cfg(test)]
mod tests {
    use super::*;

    // What each type reads of its digits is known from Rust's `parse`.
    #[test]
    fn numbers_of_several_types(rt: HostRuntime) {
        let mut cases = Cases {
            rest: b"7 255,256\n18446744073709551615 18446744073709551616 1208925819614629174706176\xFFx 9",
        };
        assert_eq!(rt; cases.number::<u16>(), 7);
        assert_eq!(rt; cases.number::<u8>(), 255);
        assert_eq!(rt; cases.number::<u8>(), 0, "it does not fit");
        assert_eq!(rt; cases.number::<usize>(), 0xFFFF_FFFF_FFFF_FFFF);
        assert_eq!(rt; cases.number::<usize>(), 0, "it does not fit");
        assert_eq!(rt; cases.number::<u128>(), 1 << 80);
        assert_eq!(rt; cases.number::<u8>(), 0, "there is no digit");
        assert_eq!(rt; cases.rest, b" 9".as_slice());
        assert_eq!(rt; cases.number::<u8>(), 0, "there is no digit");
        assert_eq!(rt; cases.number::<u8>(), 9);
        assert_eq!(rt; cases.number::<u8>(), 0, "there is no byte");
        assert_eq!(rt; cases.rest, b"".as_slice());
    }
}
