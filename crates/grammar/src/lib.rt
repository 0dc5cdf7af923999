// The grammar of Cairo-M is in specs/ and its theorems in proofs/; the code is the numbers of its node kinds, and what a node's value says.
#![tactic(auto)]

pub mod node_kind;
pub mod node_value;
