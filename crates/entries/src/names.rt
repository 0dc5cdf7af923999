// The spelling of a name.
ghost use Rattle.std.specs.Prelude.{◌≡◌};
ghost use Rattle.entries.specs.Spelling.{spelt, spelling_of};

use grammar::node_kind::NodeKind;

// Nodes of this kind have a spelling.
fn is_spelt(kind: u8) -> bool
    ensures { result ≡ spelt kind }
{
    [NodeKind::Name, NodeKind::Named, NodeKind::Identifier]
        .iter()
        .any(|&spelt| spelt as u8 == kind)
}

// The part of the text that a Name, Named or Identifier spans; empty for another kind, or a span that is not within the text.
pub fn spelling(text: &[u8], kind: u8, start: u16, end: u16) -> &[u8]
    ensures { result.now ≡ spelling_of text.now kind start end }
{
    match text.get(start as usize..end as usize) {
        Some(part) if is_spelt(kind) => part,
        _ => &[],
    }
}
