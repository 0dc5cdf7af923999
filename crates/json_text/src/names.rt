// The names of the kinds of nodes.
ghost use Rattle.std.specs.Prelude.{◌≡◌};
ghost use Rattle.json_text.specs.Json.{kind_name};

use patterns::spelled;

// Each with its size. They are bytes and no references, since the archive has no memory that is set up when it is loaded.
static NAMES: [(u8, [u8; 13]); 43] = [
    (0, *b"............."),
    (4, *b"Name........."),
    (5, *b"Named........"),
    (7, *b"Pointer......"),
    (9, *b"TypeTuple...."),
    (10, *b"FixedArray..."),
    (5, *b"Count........"),
    (7, *b"Literal......"),
    (11, *b"LiteralFelt.."),
    (10, *b"LiteralU32..."),
    (4, *b"Bool........."),
    (10, *b"Identifier..."),
    (5, *b"Unary........"),
    (6, *b"Binary......."),
    (4, *b"Call........."),
    (6, *b"Member......."),
    (5, *b"Index........"),
    (13, *b"StructLiteral"),
    (5, *b"Tuple........"),
    (10, *b"TupleIndex..."),
    (5, *b"Array........"),
    (11, *b"ArrayRepeat.."),
    (4, *b"Cast........."),
    (3, *b"New.........."),
    (5, *b"Paren........"),
    (12, *b"PatternTuple."),
    (3, *b"Let.........."),
    (5, *b"Const........"),
    (6, *b"Assign......."),
    (6, *b"Return......."),
    (2, *b"If..........."),
    (8, *b"ExprStmt....."),
    (5, *b"Block........"),
    (4, *b"Loop........."),
    (5, *b"While........"),
    (3, *b"For.........."),
    (5, *b"Break........"),
    (8, *b"Continue....."),
    (5, *b"Param........"),
    (8, *b"Function....."),
    (9, *b"StructDef...."),
    (9, *b"UseSingle...."),
    (7, *b"UseList......"),
];

// Empty for a number that is no kind.
pub(crate) fn name_of(kind: u8) -> &'static [u8]
    ensures { result.now ≡ kind_name kind }
{
    match NAMES.get(kind as usize) {
        Some(row) => spelled(row),
        None => b"",
    }
}
