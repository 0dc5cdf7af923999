// Types after `new`, which have no arrays, and what all types share.
ghost use Rattle.grammar.specs.Derive.{rule, alloc, ◌or◌};
ghost use Rattle.grammar.specs.Grammar.{entries, named_type, tuple_type, tuple_end, star};
ghost use Rattle.cursor.specs.Read.{Parses, Inside};

use cursor::repeated::{Repeated, many};
use cursor::{Cursor, Part, Source, Status, deeper};
use grammar::node_kind::NodeKind;
use tables::token_type::TokenType;

// In a cycle of calls, as `expr` is.
#[cycle(alloc)]
pub fn alloc_type_expr(source: &Source, nodes: &mut [u8], cursor: Cursor) -> Cursor
    ensures { Parses (rule alloc) source.now cursor nodes.old result nodes.new }
{
    if cursor.status != Status::Reading {
        return cursor;
    }
    let q = alloc_at(
        source,
        nodes,
        cursor.at,
        cursor.count,
        deeper(cursor.nest),
        cursor.furthest,
    );
    cursor.join(q)
}

// The inside of a type after `new`.
#[cycle(alloc)]
fn alloc_at(
    source: &Source,
    nodes: &mut [u8],
    at: usize,
    count: usize,
    nest: u8,
    furthest: usize,
) -> Part
    ensures { Inside alloc source.now.text.now source.now.tokens.now at count nest furthest nodes.old result nodes.new }
{
    let p = Cursor::begin(at, count, nest, furthest);
    let p = alloc_base(source, nodes, p);
    let p = many::<Pointer>(source, nodes, p);
    p.ended()
}

#[cycle(alloc)]
fn alloc_base(source: &Source, nodes: &mut [u8], cursor: Cursor) -> Cursor
    ensures { Parses (named_type or tuple_type alloc) source.now cursor nodes.old result nodes.new }
{
    if cursor.status != Status::Reading {
        return cursor;
    }
    let k = cursor.peek(source);
    if k.is(TokenType::Identifier) {
        let name = source.type_name(cursor.at);
        return cursor.leaf(
            source,
            nodes,
            TokenType::Identifier,
            NodeKind::Named,
            name as u64,
        );
    }
    let p = cursor.take(source, TokenType::LParen);
    let p = alloc_entries(source, nodes, p);
    tuple_end(source, nodes, p)
}

// In a cycle of calls, so a loop of its own: a call that leads back through a trait's method gets no proof.
#[cycle(alloc)]
fn alloc_entries(source: &Source, nodes: &mut [u8], cursor: Cursor) -> Cursor
    ensures { Parses (entries (rule alloc)) source.now cursor nodes.old result nodes.new }
{
    if cursor.status != Status::Reading {
        return cursor;
    }
    let mut p = alloc_type_expr(source, nodes, cursor);
    if p.status == Status::Failed {
        return cursor.rewind(p);
    }
    while p.status == Status::Reading {
        let q = p.take(source, TokenType::Comma);
        let q = alloc_type_expr(source, nodes, q);
        if q.status == Status::Failed {
            return p.rewind(q);
        }
        p = q;
    }
    p
}

// After the entries of a tuple: (T) is T itself.
pub fn tuple_end(source: &Source, nodes: &mut [u8], cursor: Cursor) -> Cursor
    ensures { Parses tuple_end source.now cursor nodes.old result nodes.new }
{
    let k = cursor.peek(source);
    if k.is(TokenType::Comma) {
        let p = cursor.take(source, TokenType::Comma);
        let p = p.take(source, TokenType::RParen);
        return p.whole(source, nodes, NodeKind::TypeTuple);
    }
    let p = cursor.take(source, TokenType::RParen);
    let q = p.alone();
    if q.status == Status::Failed {
        let p = p.rewind(q);
        return p.whole(source, nodes, NodeKind::TypeTuple);
    }
    q
}

// Each makes a pointer of the type before it.
pub struct Pointer;

impl Repeated for Pointer {
    ghost grammar = { star };

    ghost takes = { tt };

    fn one(source: &Source, nodes: &mut [u8], cursor: Cursor) -> Cursor {
        let p = cursor.take(source, TokenType::Mul);
        p.suffixed(source, nodes, NodeKind::Pointer)
    }
}
