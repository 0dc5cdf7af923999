// Patterns: a tuple of two or more, or a name.
ghost use Rattle.grammar.specs.Derive.{rule, pattern, many, ◌&◌};
ghost use Rattle.grammar.specs.Grammar.{another};
ghost use Rattle.cursor.specs.Read.{Parses, Inside};

use cursor::{Cursor, Part, Source, Status, deeper};
use grammar::node_kind::NodeKind;
use tables::token_type::TokenType;

// In a cycle of calls, as `expr` of expressions is.
#[cycle(patterns)]
pub fn pattern(source: &Source, nodes: &mut [u8], cursor: Cursor) -> Cursor
    ensures { Parses (rule pattern) source.now cursor nodes.old result nodes.new }
{
    if cursor.status != Status::Reading {
        return cursor;
    }
    let q = pattern_at(
        source,
        nodes,
        cursor.at,
        cursor.count,
        deeper(cursor.nest),
        cursor.furthest,
    );
    cursor.join(q)
}

// The inside of a pattern.
#[cycle(patterns)]
fn pattern_at(
    source: &Source,
    nodes: &mut [u8],
    at: usize,
    count: usize,
    nest: u8,
    furthest: usize,
) -> Part
    ensures { Inside pattern source.now.text.now source.now.tokens.now at count nest furthest nodes.old result nodes.new }
{
    let start = Cursor::begin(at, count, nest, furthest);
    let k = start.peek(source);
    if k.is(TokenType::LParen) {
        let p = start.take(source, TokenType::LParen);
        let p = pattern(source, nodes, p);
        let p = p.take(source, TokenType::Comma);
        if p.status != Status::Reading {
            return p.ended();
        }
        let q = pattern_at(source, nodes, p.at, p.count, deeper(p.nest), p.furthest);
        let p = p.join(q);
        let p = patterns(source, nodes, p);
        let p = p.take(source, TokenType::RParen);
        let p = p.spanless(nodes, NodeKind::PatternTuple);
        return p.ended();
    }
    let p = start.spanned_ident(source, nodes);
    p.ended()
}

// In a cycle of calls, so a loop of its own: a call that leads back through a trait's method gets no proof.
#[cycle(patterns)]
fn patterns(source: &Source, nodes: &mut [u8], cursor: Cursor) -> Cursor
    ensures { Parses (many (another (rule pattern))) source.now cursor nodes.old result nodes.new }
{
    let mut p = cursor;
    while p.status == Status::Reading {
        let q = p.take(source, TokenType::Comma);
        let q = pattern(source, nodes, q);
        if q.status == Status::Failed {
            return p.rewind(q);
        }
        p = q;
    }
    p
}
