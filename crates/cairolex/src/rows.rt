// An entry of a table as a row of JSON.
use crate::kind::kind_name;
use case_io::Row;
use std::fmt;
use tables::{Diagnostic, Token};

// The kind by its name, then the place in the text, then what a numeral says.
#[derive(Clone, Copy)]
pub struct TokenRow(pub Token);

impl fmt::Display for TokenRow {
    fn fmt<W: fmt::Write>(&self, f: &mut fmt::Formatter<W>) -> fmt::Result {
        let Token {
            kind,
            suffix,
            start,
            end,
            base,
            value,
        } = self.0;
        let name = kind_name(kind).unwrap_or("");
        write!(f, "[\"{name}\",{start},{end},{suffix},{value},{base}]")
    }
}

#[derive(Clone, Copy)]
pub struct DiagnosticRow(pub Diagnostic);

impl fmt::Display for DiagnosticRow {
    fn fmt<W: fmt::Write>(&self, f: &mut fmt::Formatter<W>) -> fmt::Result {
        write!(f, "[{}]", Row(self.0))
    }
}
