// Items: functions, structs, constants and uses.
ghost use Rattle.grammar.specs.Derive.{rule, type, param, unit, item, many};
ghost use Rattle.grammar.specs.Grammar.{name, list, field, parameter, result_type, function, struct_def, segment, use_single, use_list, use_def, file};
ghost use Rattle.cursor.specs.Read.{Parses, Grown, Inside};

use cursor::repeated::{Repeated, list, many};
use cursor::{Cursor, Part, Source, Status};
use grammar::node_kind::NodeKind;
use statements::types::type_expr;
use statements::{stmt_at, stmts};
use tables::token_type::TokenType;

pub fn items(source: &Source, nodes: &mut [u8], cursor: Cursor) -> Cursor
    ensures { Parses file source.now cursor nodes.old result nodes.new }
{
    many::<Item>(source, nodes, cursor)
}

// Written out as `type_expr` is.
struct Item;

impl Repeated for Item {
    ghost grammar = { rule item };

    ghost takes = { tt };

    fn one(source: &Source, nodes: &mut [u8], cursor: Cursor) -> Cursor {
        if cursor.status != Status::Reading {
            return cursor;
        }
        let q = item_at(
            source,
            nodes,
            cursor.at,
            cursor.count,
            cursor.nest,
            cursor.furthest,
        );
        cursor.join(q)
    }
}

// The inside of an item. A constant is read as the statement that it is.
fn item_at(
    source: &Source,
    nodes: &mut [u8],
    at: usize,
    count: usize,
    nest: u8,
    furthest: usize,
) -> Part
    ensures { Inside item source.now.text.now source.now.tokens.now at count nest furthest nodes.old result nodes.new }
{
    let start = Cursor::begin(at, count, nest, furthest);
    let k = start.peek(source);
    if k.is(TokenType::Function) {
        let p = function_def(source, nodes, start);
        return p.ended();
    }
    if k.is(TokenType::Struct) {
        let p = struct_def(source, nodes, start);
        return p.ended();
    }
    if k.is(TokenType::Const) {
        let q = stmt_at(source, nodes, at, count, nest, furthest);
        return q.part;
    }
    let p = use_stmt(source, nodes, start);
    p.ended()
}

fn function_def(source: &Source, nodes: &mut [u8], cursor: Cursor) -> Cursor
    ensures { Parses function source.now cursor nodes.old result nodes.new }
{
    let p = cursor.take(source, TokenType::Function);
    let p = p.spanned_ident(source, nodes);
    let p = p.take(source, TokenType::LParen);
    let p = list::<Parameter>(source, nodes, p);
    let p = p.take(source, TokenType::RParen);
    let p = return_type(source, nodes, p);
    let p = p.take(source, TokenType::LBrace);
    let p = stmts(source, nodes, p);
    let p = p.take(source, TokenType::RBrace);
    p.whole(source, nodes, NodeKind::Function)
}

fn param(source: &Source, nodes: &mut [u8], cursor: Cursor) -> Cursor
    ensures { Parses (rule param) source.now cursor nodes.old result nodes.new }
{
    if cursor.status != Status::Reading {
        return cursor;
    }
    let p = cursor.enter();
    let p = p.spanned_ident(source, nodes);
    let p = p.take(source, TokenType::Colon);
    let p = type_expr(source, nodes, p);
    let p = p.spanless(nodes, NodeKind::Param);
    p.leave(cursor)
}

fn return_type(source: &Source, nodes: &mut [u8], cursor: Cursor) -> Cursor
    ensures { Parses result_type source.now cursor nodes.old result nodes.new }
{
    let p = cursor.take(source, TokenType::Arrow);
    let p = type_expr(source, nodes, p);
    if p.status == Status::Failed {
        let p = cursor.rewind(p);
        return unit_type(nodes, p);
    }
    p
}

// A return type that is not there is the empty tuple.
fn unit_type(nodes: &mut [u8], cursor: Cursor) -> Cursor
    ensures { Grown (rule unit) cursor nodes.old result nodes.new }
{
    if cursor.status != Status::Reading {
        return cursor;
    }
    let p = cursor.enter();
    let p = p.spanless(nodes, NodeKind::TypeTuple);
    p.leave(cursor)
}

fn struct_def(source: &Source, nodes: &mut [u8], cursor: Cursor) -> Cursor
    ensures { Parses struct_def source.now cursor nodes.old result nodes.new }
{
    let p = cursor.take(source, TokenType::Struct);
    let p = p.spanned_ident(source, nodes);
    let p = p.take(source, TokenType::LBrace);
    let p = list::<Field>(source, nodes, p);
    let p = p.take(source, TokenType::RBrace);
    p.whole(source, nodes, NodeKind::StructDef)
}

fn use_stmt(source: &Source, nodes: &mut [u8], cursor: Cursor) -> Cursor
    ensures { Parses use_def source.now cursor nodes.old result nodes.new }
{
    let p = cursor.take(source, TokenType::Use);
    let q = single(source, nodes, p);
    if q.status == Status::Failed {
        let p = p.rewind(q);
        return use_list(source, nodes, p);
    }
    q
}

fn single(source: &Source, nodes: &mut [u8], cursor: Cursor) -> Cursor
    ensures { Parses use_single source.now cursor nodes.old result nodes.new }
{
    let p = cursor.spanned_ident(source, nodes);
    let p = many::<Segment>(source, nodes, p);
    let p = p.take(source, TokenType::Semicolon);
    p.whole(source, nodes, NodeKind::UseSingle)
}

fn use_list(source: &Source, nodes: &mut [u8], cursor: Cursor) -> Cursor
    ensures { Parses use_list source.now cursor nodes.old result nodes.new }
{
    let p = cursor.spanned_ident(source, nodes);
    let p = p.tick();
    let p = many::<Segment>(source, nodes, p);
    let p = p.take(source, TokenType::ColonColon);
    let p = p.take(source, TokenType::LBrace);
    let p = list::<Name>(source, nodes, p);
    let p = p.take(source, TokenType::RBrace);
    let p = p.take(source, TokenType::Semicolon);
    p.whole(source, nodes, NodeKind::UseList)
}

// One name more of a path, which is counted by the mark.
struct Segment;

impl Repeated for Segment {
    ghost grammar = { segment };

    ghost takes = { tt };

    fn one(source: &Source, nodes: &mut [u8], cursor: Cursor) -> Cursor {
        let p = cursor.take(source, TokenType::ColonColon);
        let p = p.spanned_ident(source, nodes);
        p.tick()
    }
}

// Counted by the mark.
struct Parameter;

impl Repeated for Parameter {
    ghost grammar = { parameter };

    ghost takes = { tt };

    fn one(source: &Source, nodes: &mut [u8], cursor: Cursor) -> Cursor {
        let p = param(source, nodes, cursor);
        p.tick()
    }
}

struct Field;

impl Repeated for Field {
    ghost grammar = { field (rule type) };

    ghost takes = { tt };

    fn one(source: &Source, nodes: &mut [u8], cursor: Cursor) -> Cursor {
        let p = cursor.spanned_ident(source, nodes);
        let p = p.take(source, TokenType::Colon);
        type_expr(source, nodes, p)
    }
}

struct Name;

impl Repeated for Name {
    ghost grammar = { name };

    ghost takes = { tt };

    fn one(source: &Source, nodes: &mut [u8], cursor: Cursor) -> Cursor {
        cursor.spanned_ident(source, nodes)
    }
}
