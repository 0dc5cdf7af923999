// Diagnostic entries.
ghost use Rattle.std.proofs.Common.{rules};
ghost use Rattle.tables.specs.Tables.{encode_diagnostic, decode_diagnostic};

use crate::entry::{Entry, load, store};

// The place in the text, and `Reason`'s number.
#[derive(Clone, Copy, Default, PartialEq, Eq)]
#[repr(C)]
pub struct Diagnostic {
    pub start: u16,
    pub end: u16,
    pub reason: u8,
}

impl Entry for Diagnostic {
    const SIZE: usize = 8;

    ghost SIZE = { 8 };

    ghost encode = { encode_diagnostic };

    ghost decode = { decode_diagnostic };

    fn put(self, table: &mut [u8], i: usize) {
        let [a, b] = self.start.to_le_bytes();
        let [c, d] = self.end.to_le_bytes();
        let head = u64::from_le_bytes([a, b, c, d, self.reason, 0, 0, 0]);
        store(table, i, [head]);
    }

    #[tactic(auto, unfolding(crate::specs::Tables::number))]
    fn at(table: &[u8], i: usize) -> Diagnostic {
        match load::<8>(table, i) {
            Some(&[a, b, c, d, reason, _, _, _]) => Diagnostic {
                start: u16::from_le_bytes([a, b]),
                end: u16::from_le_bytes([c, d]),
                reason,
            },
            None => Diagnostic::default(),
        }
    }

    ghost positive = { Prim.search rules };
}
