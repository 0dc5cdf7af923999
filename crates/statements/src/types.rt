// Types.
ghost use Rattle.grammar.specs.Derive.{rule, type, ◌or◌};
ghost use Rattle.grammar.specs.Grammar.{entries, tuple_type, array_type, size};
ghost use Rattle.cursor.specs.Read.{Parses, Inside};

use cursor::repeated::many;
use cursor::{Cursor, Part, Source, Status, deeper};
use expressions::alloc_types::{Pointer, tuple_end};
use expressions::expr;
use grammar::node_kind::NodeKind;
use tables::token_type::TokenType;

// Written out as in the cycles of calls: a generic wrapper would serve this rule and the item alone.
pub fn type_expr(source: &Source, nodes: &mut [u8], cursor: Cursor) -> Cursor
    ensures { Parses (rule type) source.now cursor nodes.old result nodes.new }
{
    if cursor.status != Status::Reading {
        return cursor;
    }
    let q = type_at(
        source,
        nodes,
        cursor.at,
        cursor.count,
        deeper(cursor.nest),
        cursor.furthest,
    );
    cursor.join(q)
}

// The inside of a type. Types within it call it by itself, so that `type_expr`, which others call, is small enough to be inlined.
#[cycle(types)]
fn type_at(
    source: &Source,
    nodes: &mut [u8],
    at: usize,
    count: usize,
    nest: u8,
    furthest: usize,
) -> Part
    ensures { Inside type source.now.text.now source.now.tokens.now at count nest furthest nodes.old result nodes.new }
{
    let start = Cursor::begin(at, count, nest, furthest);
    let k = start.peek(source);
    if k.is(TokenType::Identifier) {
        let name = source.type_name(start.at);
        let p = start.leaf(
            source,
            nodes,
            TokenType::Identifier,
            NodeKind::Named,
            name as u64,
        );
        let p = many::<Pointer>(source, nodes, p);
        return p.ended();
    }
    let p = base_type(source, nodes, start);
    let p = many::<Pointer>(source, nodes, p);
    p.ended()
}

// An array or a tuple.
#[cycle(types)]
fn base_type(source: &Source, nodes: &mut [u8], cursor: Cursor) -> Cursor
    ensures { Parses (array_type or tuple_type type) source.now cursor nodes.old result nodes.new }
{
    if cursor.status != Status::Reading {
        return cursor;
    }
    let k = cursor.peek(source);
    if k.is(TokenType::LBrack) {
        return array_type(source, nodes, cursor);
    }
    let p = cursor.take(source, TokenType::LParen);
    let p = type_entries(source, nodes, p);
    tuple_end(source, nodes, p)
}

#[cycle(types)]
fn array_type(source: &Source, nodes: &mut [u8], cursor: Cursor) -> Cursor
    ensures { Parses array_type source.now cursor nodes.old result nodes.new }
{
    if cursor.status != Status::Reading {
        return cursor;
    }
    let p = cursor.take(source, TokenType::LBrack);
    if p.status != Status::Reading {
        return p;
    }
    let q = type_at(source, nodes, p.at, p.count, deeper(p.nest), p.furthest);
    let p = p.join(q);
    let p = p.take(source, TokenType::Semicolon);
    let p = array_size(source, nodes, p);
    let p = p.take(source, TokenType::RBrack);
    p.whole(source, nodes, NodeKind::FixedArray)
}

// An expression that is exactly a numeral without a suffix.
fn array_size(source: &Source, nodes: &mut [u8], cursor: Cursor) -> Cursor
    ensures { Parses size source.now cursor nodes.old result nodes.new }
{
    let e = expr(source, nodes, cursor);
    if e.status != Status::Reading {
        return e;
    }
    let p = cursor.outside();
    let p = p.count(source, nodes);
    p.agree(e, cursor.nest)
}

// As in expressions, a loop of its own: a call that leads back through a trait's method gets no proof.
#[cycle(types)]
fn type_entries(source: &Source, nodes: &mut [u8], cursor: Cursor) -> Cursor
    ensures { Parses (entries (rule type)) source.now cursor nodes.old result nodes.new }
{
    if cursor.status != Status::Reading {
        return cursor;
    }
    let q = type_at(
        source,
        nodes,
        cursor.at,
        cursor.count,
        deeper(cursor.nest),
        cursor.furthest,
    );
    let mut p = cursor.join(q);
    if p.status == Status::Failed {
        return cursor.rewind(p);
    }
    while p.status == Status::Reading {
        let q = p.take(source, TokenType::Comma);
        if q.status == Status::Failed {
            return p.rewind(q);
        }
        if q.status != Status::Reading {
            return q;
        }
        let t = type_at(source, nodes, q.at, q.count, deeper(q.nest), q.furthest);
        let q = q.join(t);
        if q.status == Status::Failed {
            return p.rewind(q);
        }
        p = q;
    }
    p
}
