// The hit test as numbers, for C.
ghost use Rattle.entries.specs.Hits.{HitTestIs};

use hit_test::{Hit, hit_test};

// 12 for an offset that is not within the text; a node is found or none, and its place is 0 where none is.
pub fn cairo_m_hit_test(
    offset: usize,
    length: usize,
    nodes: &[u8],
    found: &mut u8,
    place: &mut usize,
) -> u32
    ensures { HitTestIs offset length nodes.now result found.new place.new }
{
    let (outcome, is_found, at) = match hit_test(offset, length, nodes) {
        Hit::Node(i) => (0, 1, i),
        Hit::Nobody => (0, 0, 0),
        Hit::Refused => (12, 0, 0),
    };
    *found = is_found;
    *place = at;
    outcome
}
