// A node table as JSON, and a refusal as JSON.
#![tactic(auto)]

ghost use Rattle.std.specs.Prelude.{◌≡◌, length};
ghost use Rattle.tables.specs.Tables.{nodes_of, diagnostics_of};
ghost use Rattle.listing.specs.Answers.{known, all_are_known, listed, refused, ListedIs};

use grammar::node_kind::NodeKind;
use json_text::Writer;
use tables::{Diagnostic, Entry, Node};

// A kind that is none, and no room for the text, by 01's numbers.
#[derive(Clone, Copy, PartialEq, Eq)]
pub enum ListError {
    Kind = 11,
    Room = 10,
}

#[tactic(auto, unfolding(crate::specs::Answers::known, json_text::specs::Json::names))]
fn is_known(kind: u8) -> bool
    ensures { result ≡ known kind }
{
    (NodeKind::Name as u8..=NodeKind::UseList as u8).contains(&kind)
}

fn all_known(nodes: &[u8]) -> bool
    ensures { result ≡ all_are_known (nodes_of nodes.now) }
{
    Node::entries(nodes).all(|node| is_known(node.kind))
}

// Every node of the table; out is zero after the text, and all zero when refused.
pub fn list(nodes: &[u8], out: &mut [u8]) -> Result<usize, ListError>
    ensures { ListedIs (listed (length out.old) (nodes_of nodes.now)) (length out.old) out.new result }
{
    if !all_known(nodes) {
        out.fill(0);
        return Err(ListError::Kind);
    }
    let mut writer = Writer::new(out);
    writer.rows::<Node>(nodes);
    writer.finish().ok_or(ListError::Room)
}

// The outcome of a refusal and every diagnostic of the table.
pub fn list_refused(outcome: u32, diagnostics: &[u8], out: &mut [u8]) -> Result<usize, ListError>
    ensures { ListedIs (refused (length out.old) outcome (diagnostics_of diagnostics.now)) (length out.old) out.new result }
{
    let mut writer = Writer::new(out);
    writer.put(b"{\"refused\":");
    writer.number(outcome as u64);
    writer.put(b",\"diagnostics\":");
    writer.rows::<Diagnostic>(diagnostics);
    writer.put(b"}");
    writer.finish().ok_or(ListError::Room)
}
