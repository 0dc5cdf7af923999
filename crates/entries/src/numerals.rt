// The numeral entry as numbers, for C.
ghost use Rattle.entries.specs.Numerals.{NumeralIs};

use numeral::{NumeralError, answer};
use tables::entry_codes::Reason;

// The numeral entry, for C: refused, value, suffix and base are 0; the reason is 0 but for a lexical error.
pub fn cairo_m_numeral(
    spelling: &[u8],
    value: &mut u64,
    suffix: &mut u8,
    base: &mut u8,
    reason: &mut u8,
) -> u32
    ensures { NumeralIs spelling.now result value.new suffix.new base.new reason.new }
{
    let numeral = answer(spelling);
    // 01's numbers, what C is given.
    let (outcome, why) = match numeral {
        Ok(_) => (0, 0),
        Err(NumeralError::Long) => (1, 0),
        Err(NumeralError::Spelling) => (9, 0),
        Err(NumeralError::Lexical(e)) => (3, Reason::from(e) as u8),
    };
    *value = numeral.map_or(0, |n| n.value);
    *suffix = numeral.map_or(0, |n| n.suffix as u8);
    *base = numeral.map_or(0, |n| n.base.radix());
    *reason = why;
    outcome
}
