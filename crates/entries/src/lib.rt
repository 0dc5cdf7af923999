// The entries for C: every answer as numbers.
#![tactic(auto)]

mod hits;
mod lists;
mod names;
mod numerals;
mod reading;
mod records;
mod tokens;

pub use hits::cairo_m_hit_test;
pub use lists::{cairo_m_list, cairo_m_list_refused};
pub use names::spelling;
pub use numerals::cairo_m_numeral;
pub use reading::{cairo_m_read, cairo_m_spelling};
pub use records::Diagnostic;
pub use tokens::cairo_m_lex;
