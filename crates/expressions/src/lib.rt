// Expressions: atoms, postfixes, prefixes, casts, and the binary levels.
#![tactic(auto)]

pub mod alloc_types;

ghost use Rattle.std.specs.Prelude.{◌≡◌, ◌<◌};
ghost use Rattle.grammar.specs.Derive.{rule, expr, level, unary, many, ◌&◌, ◌or◌};
ghost use Rattle.grammar.specs.Kinds.{ArrayRepeat};
ghost use Rattle.grammar.specs.Grammar.{whole, another, list, field, fields, cast, link, operator, atom, postfix, new_expr, struct_literal, array_repeat, array_literal, paren_or_tuple, repeat_count};
ghost use Rattle.cursor.specs.Read.{Parses, Step, Inside};
ghost use Rattle.expressions.specs.Operators.{one_of};
ghost use Rattle.cursor.specs.Steps.{continues, is_prefix, Prefix, Prefixes, Unwound};

use crate::alloc_types::alloc_type_expr;
use cursor::repeated::{Repeated, many};
use cursor::{Cursor, Kind, Part, Source, Status, deeper};
use grammar::node_kind::NodeKind;
use grammar::node_value::{BinaryOp, UnaryOp};
use tables::token_type::TokenType;
use tables::{Entry, Token};

// How many binary levels there are.
const LEVELS: u8 = 5;

// The rules of a cycle of calls call each its inside by name: a call that leads back through a trait's method gets no proof. The measure of a cycle falls only where something is read, so each of its readers asks first.
#[cycle(expressions)]
pub fn expr(source: &Source, nodes: &mut [u8], cursor: Cursor) -> Cursor
    ensures { Parses (rule expr) source.now cursor nodes.old result nodes.new }
{
    if cursor.status != Status::Reading {
        return cursor;
    }
    let q = level_at(
        source,
        nodes,
        cursor.at,
        cursor.count,
        deeper(cursor.nest),
        cursor.furthest,
        LEVELS,
    );
    cursor.join(q)
}

// The nth binary level, tightest first. In a cycle of calls, as `expr` is.
#[cycle(expressions)]
pub(crate) fn level(source: &Source, nodes: &mut [u8], cursor: Cursor, n: u8) -> Cursor
    ensures { Parses (rule (level n)) source.now cursor nodes.old result nodes.new }
{
    if cursor.status != Status::Reading {
        return cursor;
    }
    let q = level_at(
        source,
        nodes,
        cursor.at,
        cursor.count,
        cursor.nest,
        cursor.furthest,
        n,
    );
    cursor.join(q)
}

// Over casts each level goes on from what the level below has read. Where no binary operator stands, none reads on.
#[cycle(expressions)]
pub(crate) fn level_at(
    source: &Source,
    nodes: &mut [u8],
    at: usize,
    count: usize,
    nest: u8,
    furthest: usize,
    n: u8,
) -> Part
    ensures { Inside (level n) source.now.text.now source.now.tokens.now at count nest furthest nodes.old result nodes.new }
{
    let start = Cursor::begin(at, count, nest, furthest);
    let p = unary(source, nodes, start);
    let mut p = casts(source, nodes, p);
    for i in 0..n {
        let k = p.peek(source);
        if !k.is_binary_op() {
            return p.ended();
        }
        p = chain(source, nodes, p, i);
    }
    p.ended()
}

// Operators of a level, each with all that stands left of it. A loop of its own, as `arguments` has.
#[cycle(expressions)]
fn chain(source: &Source, nodes: &mut [u8], cursor: Cursor, n: u8) -> Cursor
    ensures { Parses (many (link n)) source.now cursor nodes.old result nodes.new }
{
    let mut p = cursor;
    while p.status == Status::Reading {
        let q = operator(source, p, n);
        if q.status == Status::Failed {
            return p.rewind(q);
        }
        let q = level(source, nodes, q, n);
        let q = q.operands(nodes, NodeKind::Binary);
        if q.status == Status::Failed {
            return p.rewind(q);
        }
        p = q;
    }
    p
}

// An operator of a level, tightest first, whose number is the mark.
fn operator(source: &Source, cursor: Cursor, n: u8) -> Cursor
    ensures { Step (operator n) source.now.tokens.now cursor result }
{
    match n {
        0 => one_of(
            source,
            cursor,
            [
                (TokenType::Mul, BinaryOp::Mul),
                (TokenType::Div, BinaryOp::Div),
                (TokenType::Mod, BinaryOp::Mod),
            ],
        ),
        1 => one_of(
            source,
            cursor,
            [
                (TokenType::Plus, BinaryOp::Add),
                (TokenType::Minus, BinaryOp::Sub),
            ],
        ),
        2 => one_of(
            source,
            cursor,
            [
                (TokenType::EqEq, BinaryOp::Eq),
                (TokenType::Neq, BinaryOp::Neq),
                (TokenType::Less, BinaryOp::Less),
                (TokenType::Greater, BinaryOp::Greater),
                (TokenType::LessEqual, BinaryOp::LessEqual),
                (TokenType::GreaterEqual, BinaryOp::GreaterEqual),
            ],
        ),
        3 => one_of(
            source,
            cursor,
            [
                (TokenType::BitwiseAnd, BinaryOp::BitwiseAnd),
                (TokenType::BitwiseOr, BinaryOp::BitwiseOr),
                (TokenType::BitwiseXor, BinaryOp::BitwiseXor),
            ],
        ),
        _ => one_of(
            source,
            cursor,
            [
                (TokenType::AndAnd, BinaryOp::And),
                (TokenType::OrOr, BinaryOp::Or),
            ],
        ),
    }
}

// The first of these that is there, whose operator's number is the mark.
fn one_of<const N: usize>(
    source: &Source,
    cursor: Cursor,
    ops: [(TokenType, BinaryOp); N],
) -> Cursor
    requires { 0 < N }
    ensures { Step (one_of ops.entry) source.now.tokens.now cursor result }
{
    let k = cursor.peek(source);
    for &(kind, op) in ops.iter() {
        if k.is(kind) {
            return cursor.mark(source, kind, op as u64);
        }
    }
    cursor.halt(Status::Failed)
}

// Most operands have no cast, so the next token is looked at first.
fn casts(source: &Source, nodes: &mut [u8], cursor: Cursor) -> Cursor
    ensures { Parses (many cast) source.now cursor nodes.old result nodes.new }
{
    let k = cursor.peek(source);
    if !k.is(TokenType::As) {
        return cursor;
    }
    many::<Cast>(source, nodes, cursor)
}

// `as` and a type's name.
struct Cast;

impl Repeated for Cast {
    ghost grammar = { cast };

    ghost takes = { tt };

    fn one(source: &Source, nodes: &mut [u8], cursor: Cursor) -> Cursor {
        let p = cursor.take(source, TokenType::As);
        let name = source.type_name(p.at);
        let p = p.leaf(
            source,
            nodes,
            TokenType::Identifier,
            NodeKind::Named,
            name as u64,
        );
        p.operands(nodes, NodeKind::Cast)
    }
}

// The prefix that a token of this kind is, if it is one.
fn unary_op(kind: Kind) -> Option<UnaryOp>
    ensures { Prefix kind.byte result }
{
    if kind.is(TokenType::Not) {
        return Some(UnaryOp::Not);
    }
    if kind.is(TokenType::Minus) {
        return Some(UnaryOp::Neg);
    }
    None
}

// A token of this kind is a prefix.
fn is_prefix(kind: Kind) -> bool
    ensures { result ≡ is_prefix kind.byte }
{
    unary_op(kind).is_some()
}

// Where the prefixes from a token on end.
fn prefixes(source: &Source, at: usize) -> usize
    ensures { Prefixes source.now.tokens.now at result }
{
    let after = at..Token::room(source.tokens);
    at + after
        .take_while(|i| is_prefix(Kind::of(source, *i)))
        .count()
}

// Each prefix from `start` up to `end`, the last first, takes what was read past it as its operand.
fn unwind(source: &Source, nodes: &mut [u8], start: Cursor, end: usize, operand: Cursor) -> Cursor
    ensures { Unwound source.now.text.now source.now.tokens.now start end operand nodes.old result nodes.new }
{
    let mut p = operand;
    for e in (start.at..end).rev() {
        let Some(op) = unary_op(Kind::of(source, e)) else {
            return p;
        };
        let q = start.signed(e, e + 1, op as u64);
        let q = p.leave(q);
        p = q.prefixed(source, nodes, NodeKind::Unary);
    }
    p
}

#[cycle(expressions)]
fn unary(source: &Source, nodes: &mut [u8], cursor: Cursor) -> Cursor
    ensures { Parses (rule unary) source.now cursor nodes.old result nodes.new }
{
    if cursor.status != Status::Reading {
        return cursor;
    }
    if !continues(cursor.second(source)) {
        let k = cursor.peek(source);
        if k.is(TokenType::Identifier) {
            return cursor.leaf(
                source,
                nodes,
                TokenType::Identifier,
                NodeKind::Identifier,
                0,
            );
        }
        if k.is(TokenType::LiteralNumber) {
            return cursor.literal(source, nodes);
        }
    }
    let q = unary_at(
        source,
        nodes,
        cursor.at,
        cursor.count,
        cursor.nest,
        cursor.furthest,
    );
    cursor.join(q)
}

// A token of this kind continues a name or a numeral before it.
fn continues(kind: Kind) -> bool
    ensures { result ≡ continues kind.byte }
{
    kind.is(TokenType::LParen)
        || kind.is(TokenType::Dot)
        || kind.is(TokenType::LBrack)
        || kind.is(TokenType::LBrace)
}

// Prefixes by a loop: the operand is read past them all.
#[cycle(expressions)]
pub(crate) fn unary_at(
    source: &Source,
    nodes: &mut [u8],
    at: usize,
    count: usize,
    nest: u8,
    furthest: usize,
) -> Part
    ensures { Inside unary source.now.text.now source.now.tokens.now at count nest furthest nodes.old result nodes.new }
{
    let start = Cursor::begin(at, count, nest, furthest);
    let end = prefixes(source, start.at);
    let p = start.operand(end);
    if p.status != Status::Reading {
        return p.ended();
    }
    let p = postfixed(source, nodes, p);
    let p = unwind(source, nodes, start, end, p);
    p.ended()
}

// The atom, then postfixes. A loop of its own, as `arguments` has.
#[cycle(expressions)]
fn postfixed(source: &Source, nodes: &mut [u8], cursor: Cursor) -> Cursor
    ensures { Parses (atom & many postfix) source.now cursor nodes.old result nodes.new }
{
    if cursor.status != Status::Reading {
        return cursor;
    }
    let mut p = atom(source, nodes, cursor);
    while p.status == Status::Reading {
        let q = postfix_op(source, nodes, p);
        if q.status == Status::Failed {
            return p.rewind(q);
        }
        p = q;
    }
    p
}

#[cycle(expressions)]
fn postfix_op(source: &Source, nodes: &mut [u8], cursor: Cursor) -> Cursor
    ensures { Parses postfix source.now cursor nodes.old result nodes.new }
{
    if cursor.status != Status::Reading {
        return cursor;
    }
    let k = cursor.peek(source);
    if k.is(TokenType::LParen) {
        let p = cursor.take(source, TokenType::LParen);
        let p = arguments(source, nodes, p);
        let p = p.take(source, TokenType::RParen);
        return p.called(nodes);
    }
    if k.is(TokenType::Dot) {
        let p = cursor.take(source, TokenType::Dot);
        let q = p.index(source);
        let q = q.suffixed(source, nodes, NodeKind::TupleIndex);
        if q.status != Status::Failed {
            return q;
        }
        let p = p.rewind(q);
        let q = p.spanned_ident(source, nodes);
        return q.operands(nodes, NodeKind::Member);
    }
    let p = cursor.take(source, TokenType::LBrack);
    if p.status != Status::Reading {
        return p;
    }
    let p = expr(source, nodes, p);
    let p = p.take(source, TokenType::RBrack);
    p.operands(nodes, NodeKind::Index)
}

// Lists within a cycle of calls have a loop each: a call that leads back through a trait's method gets no proof.
#[cycle(expressions)]
fn arguments(source: &Source, nodes: &mut [u8], cursor: Cursor) -> Cursor
    ensures { Parses (list (rule expr)) source.now cursor nodes.old result nodes.new }
{
    if cursor.status != Status::Reading {
        return cursor;
    }
    let k = cursor.peek(source);
    if k.is(TokenType::RParen) {
        return cursor;
    }
    let mut p = cursor;
    while p.status == Status::Reading {
        let q = expr(source, nodes, p);
        if q.status == Status::Failed {
            return p.rewind(q);
        }
        let k = q.peek(source);
        if !k.is(TokenType::Comma) {
            return q;
        }
        p = q.take(source, TokenType::Comma);
    }
    p
}

// A loop of its own, as `arguments` has.
#[cycle(expressions)]
fn exprs(source: &Source, nodes: &mut [u8], cursor: Cursor) -> Cursor
    ensures { Parses (many (another (rule expr))) source.now cursor nodes.old result nodes.new }
{
    let mut p = cursor;
    while p.status == Status::Reading {
        let k = p.peek(source);
        if !k.is(TokenType::Comma) {
            return p;
        }
        let q = p.take(source, TokenType::Comma);
        let q = expr(source, nodes, q);
        if q.status == Status::Failed {
            return p.rewind(q);
        }
        p = q;
    }
    p
}

#[cycle(expressions)]
fn atom(source: &Source, nodes: &mut [u8], cursor: Cursor) -> Cursor
    ensures { Parses atom source.now cursor nodes.old result nodes.new }
{
    if cursor.status != Status::Reading {
        return cursor;
    }
    let k = cursor.peek(source);
    if k.is(TokenType::Identifier) {
        let p = struct_literal(source, nodes, cursor);
        if p.status != Status::Failed {
            return p;
        }
        let p = cursor.rewind(p);
        return p.leaf(
            source,
            nodes,
            TokenType::Identifier,
            NodeKind::Identifier,
            0,
        );
    }
    if k.is(TokenType::LiteralNumber) {
        return cursor.literal(source, nodes);
    }
    if k.is(TokenType::True) {
        return cursor.leaf(source, nodes, TokenType::True, NodeKind::Bool, 1);
    }
    if k.is(TokenType::False) {
        return cursor.leaf(source, nodes, TokenType::False, NodeKind::Bool, 0);
    }
    if k.is(TokenType::New) {
        return new_expr(source, nodes, cursor);
    }
    if k.is(TokenType::LBrack) {
        return array(source, nodes, cursor);
    }
    paren_or_tuple(source, nodes, cursor)
}

#[cycle(expressions)]
fn new_expr(source: &Source, nodes: &mut [u8], cursor: Cursor) -> Cursor
    ensures { Parses new_expr source.now cursor nodes.old result nodes.new }
{
    if cursor.status != Status::Reading {
        return cursor;
    }
    let p = cursor.take(source, TokenType::New);
    let p = alloc_type_expr(source, nodes, p);
    let p = p.take(source, TokenType::LBrack);
    let p = expr(source, nodes, p);
    let p = p.take(source, TokenType::RBrack);
    p.whole(source, nodes, NodeKind::New)
}

#[cycle(expressions)]
fn struct_literal(source: &Source, nodes: &mut [u8], cursor: Cursor) -> Cursor
    ensures { Parses struct_literal source.now cursor nodes.old result nodes.new }
{
    if cursor.status != Status::Reading {
        return cursor;
    }
    let p = cursor.spanned_ident(source, nodes);
    let p = p.take(source, TokenType::LBrace);
    if p.status != Status::Reading {
        return p;
    }
    let p = struct_literal_fields(source, nodes, p);
    let p = p.take(source, TokenType::RBrace);
    p.whole(source, nodes, NodeKind::StructLiteral)
}

// A loop of its own, as `arguments` has.
#[cycle(expressions)]
fn struct_literal_fields(source: &Source, nodes: &mut [u8], cursor: Cursor) -> Cursor
    ensures { Parses (fields (rule expr)) source.now cursor nodes.old result nodes.new }
{
    if cursor.status != Status::Reading {
        return cursor;
    }
    let mut p = cursor;
    while p.status == Status::Reading {
        let q = field(source, nodes, p);
        if q.status == Status::Failed {
            return p.rewind(q);
        }
        let k = q.peek(source);
        if !k.is(TokenType::Comma) {
            return q;
        }
        p = q.take(source, TokenType::Comma);
    }
    p
}

#[cycle(expressions)]
fn field(source: &Source, nodes: &mut [u8], cursor: Cursor) -> Cursor
    ensures { Parses (field (rule expr)) source.now cursor nodes.old result nodes.new }
{
    if cursor.status != Status::Reading {
        return cursor;
    }
    let p = cursor.spanned_ident(source, nodes);
    let p = p.take(source, TokenType::Colon);
    expr(source, nodes, p)
}

// The first element is read once: `;` then tells a repeat from a literal.
#[cycle(expressions)]
fn array(source: &Source, nodes: &mut [u8], cursor: Cursor) -> Cursor
    ensures { Parses (array_repeat or array_literal) source.now cursor nodes.old result nodes.new }
{
    if cursor.status != Status::Reading {
        return cursor;
    }
    let p = cursor.take(source, TokenType::LBrack);
    let e = expr(source, nodes, p);
    if e.status == Status::Failed {
        let p = p.rewind(e);
        let q = p.take(source, TokenType::RBrack);
        return q.whole(source, nodes, NodeKind::Array);
    }
    let k = e.peek(source);
    if k.is(TokenType::Semicolon) {
        let q = e.take(source, TokenType::Semicolon);
        return repeat_end(source, nodes, q);
    }
    let q = exprs(source, nodes, e);
    let q = q.skip(source, TokenType::Comma);
    let q = q.take(source, TokenType::RBrack);
    q.whole(source, nodes, NodeKind::Array)
}

// The count and the bracket, after which a suffix is turned down.
fn repeat_end(source: &Source, nodes: &mut [u8], cursor: Cursor) -> Cursor
    ensures { Parses (repeat_count & whole ArrayRepeat) source.now cursor nodes.old result nodes.new }
{
    let e = cursor.take(source, TokenType::LiteralNumber);
    let e = e.take(source, TokenType::RBrack);
    if e.status != Status::Reading {
        return e;
    }
    let p = cursor.outside();
    let p = p.count(source, nodes);
    let p = p.take(source, TokenType::RBrack);
    let p = p.agree(e, cursor.nest);
    p.whole(source, nodes, NodeKind::ArrayRepeat)
}

// The elements end as in `array`, but the grammar groups them otherwise: there with the comma, here one after another, so that one function for both would be of neither rule.
#[cycle(expressions)]
fn paren_or_tuple(source: &Source, nodes: &mut [u8], cursor: Cursor) -> Cursor
    ensures { Parses paren_or_tuple source.now cursor nodes.old result nodes.new }
{
    if cursor.status != Status::Reading {
        return cursor;
    }
    let p = cursor.take(source, TokenType::LParen);
    let k = p.peek(source);
    if k.is(TokenType::RParen) {
        let q = p.take(source, TokenType::RParen);
        return q.whole(source, nodes, NodeKind::Tuple);
    }
    let p = expr(source, nodes, p);
    let q = p.take(source, TokenType::RParen);
    let q = q.whole(source, nodes, NodeKind::Paren);
    if q.status != Status::Failed {
        return q;
    }
    let p = p.rewind(q);
    let q = exprs(source, nodes, p);
    let q = q.skip(source, TokenType::Comma);
    let q = q.take(source, TokenType::RParen);
    q.whole(source, nodes, NodeKind::Tuple)
}
