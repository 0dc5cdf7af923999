// The node under a place of the text.
#![tactic(auto)]

ghost use Rattle.hit_test.specs.Hits.{HitIs};

use tables::{Entry, Node};

// A node by its place in the table, none, or refused since the offset is not within the text.
#[derive(Clone, Copy, PartialEq, Eq)]
pub enum Hit {
    Node(usize),
    Nobody,
    Refused,
}

// The node with the shortest span that contains the offset, among equal lengths the first of the table.
pub fn hit_test(offset: usize, length: usize, nodes: &[u8]) -> Hit
    ensures { HitIs offset length nodes.now result }
{
    if offset >= length {
        return Hit::Refused;
    }
    let mut hit = Hit::Nobody;
    let mut shortest = usize::MAX;
    for i in 0..Node::room(nodes) {
        let node = Node::at(nodes, i);
        let (start, end) = (node.start as usize, node.end as usize);
        if start <= offset && offset < end && end - start < shortest {
            shortest = end - start;
            hit = Hit::Node(i);
        }
    }
    hit
}
