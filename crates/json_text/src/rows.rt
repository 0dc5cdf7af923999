// The rows of nodes and of diagnostics.
ghost use Rattle.std.specs.Prelude.{◌≡◌, ◌∷◌, List, ℕ, map};
ghost use Rattle.patterns.specs.Bytes.{within};
ghost use Rattle.tables.specs.Left.{entries_of};
ghost use Rattle.grammar.specs.Kinds.{Count, LiteralU32};
ghost use Rattle.json_text.specs.Json.{decimal, value_text, sixth, array, row, diagnostic_row};
ghost use Rattle.json_text.specs.Writes.{Writes, added};

use crate::names::name_of;
use crate::writer::Writer;
use grammar::node_kind::NodeKind;
use tables::{Diagnostic, Entry, Node};

// The last before 64-bit floats skip numbers.
const MAX_SAFE_INTEGER: u64 = 9007199254740991;

// An entry that is listed as a row.
pub trait Row: Entry {
    ghost text: { Self → List ℕ };

    fn write(self, writer: &mut Writer<'_>)
        ensures { Writes (text self) writer.old writer.new };
}

impl Row for Node {
    ghost text = { row };

    fn write(self, writer: &mut Writer<'_>) {
        writer.put(b"[\"");
        writer.put(name_of(self.kind));
        writer.put(b"\"");
        writer.next(self.start as u64);
        writer.next(self.end as u64);
        writer.next(self.children as u64);
        writer.put(b",");
        writer.value(self.value);
        writer.base(self.kind, self.base);
        writer.put(b"]");
    }
}

impl Row for Diagnostic {
    ghost text = { diagnostic_row };

    fn write(self, writer: &mut Writer<'_>) {
        let Diagnostic { start, end, reason } = self;
        writer.put(b"[");
        writer.number(start as u64);
        writer.next(end as u64);
        writer.next(reason as u64);
        writer.put(b"]");
    }
}

// On Count and the three literals alone.
fn has_base(kind: u8) -> bool
    ensures { result ≡ within Count LiteralU32 kind }
{
    (NodeKind::Count as u8..=NodeKind::LiteralU32 as u8).contains(&kind)
}

impl Writer<'_> {
    // The rows of all entries of a table, in an array.
    pub fn rows<R: Row>(&mut self, table: &[u8])
        ensures { Writes (array (map R.text (entries_of R.SIZE R.decode table.now))) self.old self.new }
    {
        self.put(b"[");
        for (i, entry) in R::entries(table).enumerate() {
            if i > 0 {
                self.put(b",");
            }
            entry.write(self);
        }
        self.put(b"]");
    }

    // A comma and a number.
    fn next(&mut self, n: u64)
        ensures { Writes (44 ∷ decimal n) self.old self.new }
    {
        self.put(b",");
        self.number(n);
    }

    // The base, where there is one.
    fn base(&mut self, kind: u8, base: u8)
        ensures { Writes (added (sixth kind base)) self.old self.new }
    {
        if has_base(kind) {
            self.next(base as u64);
        }
    }

    // A number that a float may miss is a string.
    fn value(&mut self, value: u64)
        ensures { Writes (value_text value) self.old self.new }
    {
        if value <= MAX_SAFE_INTEGER {
            return self.number(value);
        }
        self.put(b"\"");
        self.number(value);
        self.put(b"\"");
    }
}
