// Entries of a table as the case files spell them.
ghost use Rattle.std.specs.Prelude.{List, ℕ, ◌∷◌, ◌++◌, Some, decimal};
ghost use Rattle.std.specs.Fmt.{DisplaysOnOk};

use std::fmt;
use std::ops::Range;
use tables::{Diagnostic, Entry, Node, Token};

// An entry that the case files spell: its fields with commas between them.
pub trait Spelled: Entry + Copy {
    // Its bytes that are in no field.
    const GAP: Range<usize>;

    ghost spelling: { Self → List ℕ };

    fn spell<W: fmt::Write>(&self, f: &mut fmt::Formatter<W>) -> fmt::Result
        ensures { DisplaysOnOk W.write_str_gives f.old result (Some (spelling self.now)) f.new };
}

impl Spelled for Token {
    const GAP: Range<usize> = 7..8;

    ghost spelling = { λ t. decimal t.kind ++ 44 ∷ decimal t.suffix ++ 44 ∷ decimal t.start ++ 44 ∷ decimal t.end ++ 44 ∷ decimal t.value ++ 44 ∷ decimal t.base };

    fn spell<W: fmt::Write>(&self, f: &mut fmt::Formatter<W>) -> fmt::Result {
        let Token {
            kind,
            suffix,
            start,
            end,
            base,
            value,
        } = *self;
        write!(f, "{kind},{suffix},{start},{end},{value},{base}")
    }
}

impl Spelled for Node {
    const GAP: Range<usize> = 0..0;

    ghost spelling = { λ n. decimal n.kind ++ 44 ∷ decimal n.start ++ 44 ∷ decimal n.end ++ 44 ∷ decimal n.children ++ 44 ∷ decimal n.value ++ 44 ∷ decimal n.base };

    fn spell<W: fmt::Write>(&self, f: &mut fmt::Formatter<W>) -> fmt::Result {
        let Node {
            kind,
            base,
            start,
            end,
            children,
            value,
        } = *self;
        write!(f, "{kind},{start},{end},{children},{value},{base}")
    }
}

impl Spelled for Diagnostic {
    const GAP: Range<usize> = 5..8;

    ghost spelling = { λ d. decimal d.start ++ 44 ∷ decimal d.end ++ 44 ∷ decimal d.reason };

    fn spell<W: fmt::Write>(&self, f: &mut fmt::Formatter<W>) -> fmt::Result {
        let Diagnostic { start, end, reason } = *self;
        write!(f, "{start},{end},{reason}")
    }
}

// An entry, printed as it is spelled.
#[derive(Clone, Copy)]
pub struct Row<E>(pub E);

impl<E: Spelled> fmt::Display for Row<E> {
    ghost output = { λ row. Some (E.spelling row.0) };

    fn fmt<W: fmt::Write>(&self, f: &mut fmt::Formatter<W>) -> fmt::Result {
        self.0.spell(f)
    }
}
