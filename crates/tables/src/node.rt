// Node entries.
ghost use Rattle.std.proofs.Common.{rules};
ghost use Rattle.tables.specs.Tables.{encode_node, decode_node};

use crate::entry::{Entry, load, store};

// `NodeKind`'s number, the base of the numeral that it is, the place in the text, how many children it has, and a value.
#[derive(Clone, Copy, Default, PartialEq, Eq)]
pub struct Node {
    pub kind: u8,
    pub base: u8,
    pub start: u16,
    pub end: u16,
    pub children: u16,
    pub value: u64,
}

impl Entry for Node {
    const SIZE: usize = 16;

    ghost SIZE = { 16 };

    ghost encode = { encode_node };

    ghost decode = { decode_node };

    fn put(self, table: &mut [u8], i: usize) {
        let [a, b] = self.start.to_le_bytes();
        let [c, d] = self.end.to_le_bytes();
        let [e, f] = self.children.to_le_bytes();
        let head = u64::from_le_bytes([self.kind, self.base, a, b, c, d, e, f]);
        store(table, i, [head, self.value]);
    }

    #[tactic(auto, unfolding(crate::specs::Tables::number))]
    fn at(table: &[u8], i: usize) -> Node {
        match load::<16>(table, i) {
            Some(&[kind, base, a, b, c, d, e, f, g, h, j, k, l, m, n, o]) => Node {
                kind,
                base,
                start: u16::from_le_bytes([a, b]),
                end: u16::from_le_bytes([c, d]),
                children: u16::from_le_bytes([e, f]),
                value: u64::from_le_bytes([g, h, j, k, l, m, n, o]),
            },
            None => Node::default(),
        }
    }

    ghost positive = { Prim.search rules };
}
