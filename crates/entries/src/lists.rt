// Listings as numbers, for C.
ghost use Rattle.std.specs.Prelude.{◌≡◌, length};
ghost use Rattle.tables.specs.Tables.{nodes_of, diagnostics_of};
ghost use Rattle.listing.specs.Answers.{listed, refused};
ghost use Rattle.entries.specs.Lists.{outcome_of, size_of, ListIs};

use listing::{ListError, list, list_refused};

// The outcome's number, and the text's length through the reference; refused, it is 0.
fn numbered(answer: Result<usize, ListError>, size: &mut usize) -> u32
    ensures outcome { result ≡ outcome_of answer }
    ensures length { size.new ≡ size_of answer }
{
    *size = answer.unwrap_or(0);
    match answer {
        Ok(_) => 0,
        Err(e) => e as u32,
    }
}

pub fn cairo_m_list(nodes: &[u8], out: &mut [u8], size: &mut usize) -> u32
    ensures { ListIs (listed (length out.old) (nodes_of nodes.now)) (length out.old) out.new size.new result }
{
    numbered(list(nodes, out), size)
}

pub fn cairo_m_list_refused(
    outcome: u32,
    diagnostics: &[u8],
    out: &mut [u8],
    size: &mut usize,
) -> u32
    ensures { ListIs (refused (length out.old) outcome (diagnostics_of diagnostics.now)) (length out.old) out.new size.new result }
{
    numbered(list_refused(outcome, diagnostics, out), size)
}
