// The JSON of nodes and of diagnostics, written piece by piece.
#![tactic(auto)]

mod names;
mod rows;
mod writer;

pub use rows::Row;
pub use writer::Writer;
