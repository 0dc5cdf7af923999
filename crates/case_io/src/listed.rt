// The listing of an answer.
ghost use Rattle.std.specs.Prelude.{◌≡◌, length, Ok, Err, MatchResult};
ghost use Rattle.case_io.specs.Used.{listing_of};

use crate::used::UsedEntries;
use cairo_m::{Accepted, Refusal, counts_of, outcome_of};
use listing::{ListError, list, list_refused};
use tables::{Diagnostic, Node};

// Lists the nodes of a text that was read into these tables, or why it was refused.
#[tactic(auto, using(crate::proofs::Texts::text_of, crate::proofs::Texts::error_of), unfolding(listing::specs::Answers::fitted, listing::specs::Answers::listed, listing::specs::Answers::refused))]
pub fn list_answer<'a>(
    answer: Result<Accepted, Refusal>,
    nodes: &[u8],
    diagnostics: &[u8],
    out: &'a mut [u8],
) -> Result<&'a [u8], ListError>
    ensures { MatchResult result (λ text. listing_of (length out.old) answer nodes.now diagnostics.now ≡ Ok text.now) (λ e. listing_of (length out.old) answer nodes.now diagnostics.now ≡ Err e) }
{
    let n = match answer {
        Ok(accepted) => {
            let used = UsedEntries::<Node>::new(nodes, accepted.nodes);
            list(used.bytes(), out)?
        }
        Err(_) => {
            let used = UsedEntries::<Diagnostic>::new(diagnostics, counts_of(answer).diagnostics);
            list_refused(outcome_of(answer), used.bytes(), out)?
        }
    };
    Ok(&out[..n])
}
