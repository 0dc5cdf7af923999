// Lent tables of entries, each of one size: 16 bytes for tokens and nodes, 8 for diagnostics.
#![tactic(auto)]

pub mod diagnostic;
pub mod entry;
pub mod entry_codes;
pub mod node;
pub mod token;
pub mod token_type;

pub use diagnostic::Diagnostic;
pub use entry::Entry;
pub use node::Node;
pub use token::Token;
