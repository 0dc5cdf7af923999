// Statements.
#![tactic(auto)]

mod let_pattern;
pub mod types;

ghost use Rattle.grammar.specs.Derive.{rule, expr, stmt, for_step, many, ◌&◌};
ghost use Rattle.grammar.specs.Kinds.{If, kind_of as node_kind};
ghost use Rattle.grammar.specs.Grammar.{tok, whole, opt, typed, condition, let_stmt, const_def, action, assigned, finish, for_stmt, for_init, else_part, block_stmt, if_stmt, loop_stmt, while_stmt, return_stmt, statement};
ghost use Rattle.tables.specs.TokenKinds.{EQ, SEMI, kind_of as token_kind};
ghost use Rattle.cursor.specs.Read.{Parses, Ends, begun};

use crate::let_pattern::pattern;
use crate::types::type_expr;
use cursor::{Cursor, Source, Status, StmtPart, deeper};
use expressions::expr;
use grammar::node_kind::NodeKind;
use tables::token_type::TokenType;

// In a cycle of calls, as `expr` of expressions is.
#[cycle(statements)]
fn stmt(source: &Source, nodes: &mut [u8], cursor: Cursor) -> Cursor
    ensures { Parses (rule stmt) source.now cursor nodes.old result nodes.new }
{
    if cursor.status != Status::Reading {
        return cursor;
    }
    let q = stmt_at(
        source,
        nodes,
        cursor.at,
        cursor.count,
        deeper(cursor.nest),
        cursor.furthest,
    );
    cursor.join(q.part)
}

// The inside of a statement: its first token says which.
#[cycle(statements)]
pub fn stmt_at(
    source: &Source,
    nodes: &mut [u8],
    at: usize,
    count: usize,
    nest: u8,
    furthest: usize,
) -> StmtPart
    ensures { Ends statement source.now.text.now source.now.tokens.now (begun at count nest furthest) nodes.old result nodes.new }
{
    let start = Cursor::begin(at, count, nest, furthest);
    let k = start.peek(source);
    if k.is(TokenType::LBrace) {
        let p = block(source, nodes, start);
        return p.ended_with(false);
    }
    if k.is(TokenType::If) {
        return if_stmt(source, nodes, start);
    }
    if k.is(TokenType::Loop) {
        return loop_stmt(source, nodes, start);
    }
    if k.is(TokenType::While) {
        return while_stmt(source, nodes, start);
    }
    if k.is(TokenType::For) {
        return for_stmt(source, nodes, start);
    }
    if k.is(TokenType::Break) {
        let p = jump(source, nodes, start, TokenType::Break, NodeKind::Break);
        return p.ended_with(false);
    }
    if k.is(TokenType::Continue) {
        let p = jump(
            source,
            nodes,
            start,
            TokenType::Continue,
            NodeKind::Continue,
        );
        return p.ended_with(false);
    }
    if k.is(TokenType::Let) {
        let p = let_stmt(source, nodes, start);
        return p.ended_with(false);
    }
    if k.is(TokenType::Const) {
        let p = const_def(source, nodes, start);
        return p.ended_with(false);
    }
    if k.is(TokenType::Return) {
        let p = return_stmt(source, nodes, start);
        return p.ended_with(false);
    }
    let p = assignment_or_expr(source, nodes, start);
    p.ended_with(false)
}

// A word that is a statement by itself: `break` or `continue`.
fn jump(
    source: &Source,
    nodes: &mut [u8],
    cursor: Cursor,
    word: TokenType,
    kind: NodeKind,
) -> Cursor
    ensures { Parses (tok (token_kind word) & tok SEMI & whole (node_kind kind)) source.now cursor nodes.old result nodes.new }
{
    let p = cursor.take(source, word);
    let p = p.take(source, TokenType::Semicolon);
    p.whole(source, nodes, kind)
}

#[cycle(statements)]
fn block(source: &Source, nodes: &mut [u8], cursor: Cursor) -> Cursor
    ensures { Parses block_stmt source.now cursor nodes.old result nodes.new }
{
    if cursor.status != Status::Reading {
        return cursor;
    }
    let p = cursor.take(source, TokenType::LBrace);
    let p = stmts(source, nodes, p);
    let p = p.take(source, TokenType::RBrace);
    p.whole(source, nodes, NodeKind::Block)
}

// In a cycle of calls, so a loop of its own: a call that leads back through a trait's method gets no proof.
#[cycle(statements)]
pub fn stmts(source: &Source, nodes: &mut [u8], cursor: Cursor) -> Cursor
    ensures { Parses (many (rule stmt)) source.now cursor nodes.old result nodes.new }
{
    let mut p = cursor;
    while p.status == Status::Reading {
        let k = p.peek(source);
        if k.is(TokenType::RBrace) {
            return p;
        }
        let q = stmt(source, nodes, p);
        if q.status == Status::Failed {
            return p.rewind(q);
        }
        p = q;
    }
    p
}

#[cycle(statements)]
fn if_stmt(source: &Source, nodes: &mut [u8], cursor: Cursor) -> StmtPart
    ensures { Ends if_stmt source.now.text.now source.now.tokens.now cursor nodes.old result nodes.new }
{
    if cursor.status != Status::Reading {
        return cursor.ended_with(false);
    }
    let p = cursor.take(source, TokenType::If);
    let p = condition(source, nodes, p);
    branches(source, nodes, p)
}

// The statement of an `if`, and its `else`: one that failed at this token within the statement is not tried again.
#[cycle(statements)]
fn branches(source: &Source, nodes: &mut [u8], cursor: Cursor) -> StmtPart
    ensures { Ends (rule stmt & else_part & whole If) source.now.text.now source.now.tokens.now cursor nodes.old result nodes.new }
{
    if cursor.status != Status::Reading {
        return cursor.ended_with(false);
    }
    let s = stmt_at(
        source,
        nodes,
        cursor.at,
        cursor.count,
        deeper(cursor.nest),
        cursor.furthest,
    );
    let p = cursor.join(s.part);
    if s.tried {
        let p = p.whole(source, nodes, NodeKind::If);
        return p.ended_with(true);
    }
    let q = p.take(source, TokenType::Else);
    if q.status == Status::Failed {
        let p = p.rewind(q);
        let p = p.whole(source, nodes, NodeKind::If);
        return p.ended_with(true);
    }
    if q.status != Status::Reading {
        return q.ended_with(false);
    }
    let t = stmt_at(source, nodes, q.at, q.count, deeper(q.nest), q.furthest);
    let q = q.join(t.part);
    if q.status == Status::Failed {
        let p = p.rewind(q);
        let p = p.whole(source, nodes, NodeKind::If);
        return p.ended_with(true);
    }
    let q = q.whole(source, nodes, NodeKind::If);
    q.ended_with(t.tried)
}

#[cycle(statements)]
fn loop_stmt(source: &Source, nodes: &mut [u8], cursor: Cursor) -> StmtPart
    ensures { Ends loop_stmt source.now.text.now source.now.tokens.now cursor nodes.old result nodes.new }
{
    if cursor.status != Status::Reading {
        return cursor.ended_with(false);
    }
    let p = cursor.take(source, TokenType::Loop);
    last_stmt(source, nodes, p, NodeKind::Loop)
}

#[cycle(statements)]
fn while_stmt(source: &Source, nodes: &mut [u8], cursor: Cursor) -> StmtPart
    ensures { Ends while_stmt source.now.text.now source.now.tokens.now cursor nodes.old result nodes.new }
{
    if cursor.status != Status::Reading {
        return cursor.ended_with(false);
    }
    let p = cursor.take(source, TokenType::While);
    let p = condition(source, nodes, p);
    last_stmt(source, nodes, p, NodeKind::While)
}

#[cycle(statements)]
fn for_stmt(source: &Source, nodes: &mut [u8], cursor: Cursor) -> StmtPart
    ensures { Ends for_stmt source.now.text.now source.now.tokens.now cursor nodes.old result nodes.new }
{
    if cursor.status != Status::Reading {
        return cursor.ended_with(false);
    }
    let p = cursor.take(source, TokenType::For);
    let p = p.take(source, TokenType::LParen);
    let p = for_init(source, nodes, p);
    let p = expr(source, nodes, p);
    let p = p.take(source, TokenType::Semicolon);
    let p = for_step(source, nodes, p);
    let p = p.take(source, TokenType::RParen);
    last_stmt(source, nodes, p, NodeKind::For)
}

// The statement that a loop ends with, and the loop's node.
#[cycle(statements)]
fn last_stmt(source: &Source, nodes: &mut [u8], cursor: Cursor, kind: NodeKind) -> StmtPart
    ensures { Ends (rule stmt & whole (node_kind kind)) source.now.text.now source.now.tokens.now cursor nodes.old result nodes.new }
{
    if cursor.status != Status::Reading {
        return cursor.ended_with(false);
    }
    let s = stmt_at(
        source,
        nodes,
        cursor.at,
        cursor.count,
        deeper(cursor.nest),
        cursor.furthest,
    );
    let p = cursor.join(s.part);
    let p = p.whole(source, nodes, kind);
    p.ended_with(s.tried)
}

// A `let` is read as the statement that it is.
#[cycle(statements)]
fn for_init(source: &Source, nodes: &mut [u8], cursor: Cursor) -> Cursor
    ensures { Parses for_init source.now cursor nodes.old result nodes.new }
{
    if cursor.status != Status::Reading {
        return cursor;
    }
    let k = cursor.peek(source);
    if k.is(TokenType::Let) {
        let q = stmt_at(
            source,
            nodes,
            cursor.at,
            cursor.count,
            cursor.nest,
            cursor.furthest,
        );
        return cursor.join(q.part);
    }
    let p = cursor.enter();
    let p = assignment_or_expr(source, nodes, p);
    p.leave(cursor)
}

// As `assignment_or_expr`, but for the semicolon before the node is made, without which it is another grammar.
fn for_step(source: &Source, nodes: &mut [u8], cursor: Cursor) -> Cursor
    ensures { Parses (rule for_step) source.now cursor nodes.old result nodes.new }
{
    if cursor.status != Status::Reading {
        return cursor;
    }
    let p = cursor.enter();
    let p = expr(source, nodes, p);
    let p = assigned(source, nodes, p);
    let p = finish(source, nodes, p);
    p.leave(cursor)
}

// In line for the same reason as `value`.
#[inline(always)]
fn assignment_or_expr(source: &Source, nodes: &mut [u8], cursor: Cursor) -> Cursor
    ensures { Parses (action (tok SEMI)) source.now cursor nodes.old result nodes.new }
{
    let p = expr(source, nodes, cursor);
    let p = assigned(source, nodes, p);
    let p = p.take(source, TokenType::Semicolon);
    finish(source, nodes, p)
}

fn assigned(source: &Source, nodes: &mut [u8], cursor: Cursor) -> Cursor
    ensures { Parses assigned source.now cursor nodes.old result nodes.new }
{
    let k = cursor.peek(source);
    if !k.is(TokenType::Eq) {
        return cursor;
    }
    let p = cursor.take(source, TokenType::Eq);
    let p = expr(source, nodes, p);
    if p.status == Status::Failed {
        return cursor.rewind(p);
    }
    p
}

// One part is an expression, two are an assignment.
fn finish(source: &Source, nodes: &mut [u8], cursor: Cursor) -> Cursor
    ensures { Parses finish source.now cursor nodes.old result nodes.new }
{
    let p = cursor.alone();
    let p = p.whole(source, nodes, NodeKind::ExprStmt);
    if p.status == Status::Failed {
        let p = cursor.rewind(p);
        return p.whole(source, nodes, NodeKind::Assign);
    }
    p
}

fn condition(source: &Source, nodes: &mut [u8], cursor: Cursor) -> Cursor
    ensures { Parses condition source.now cursor nodes.old result nodes.new }
{
    let p = cursor.take(source, TokenType::LParen);
    let p = expr(source, nodes, p);
    let p = p.take(source, TokenType::RParen);
    if p.status == Status::Failed {
        let p = cursor.rewind(p);
        return expr(source, nodes, p);
    }
    p
}

fn let_stmt(source: &Source, nodes: &mut [u8], cursor: Cursor) -> Cursor
    ensures { Parses let_stmt source.now cursor nodes.old result nodes.new }
{
    let p = cursor.take(source, TokenType::Let);
    let p = pattern(source, nodes, p);
    value(source, nodes, p, NodeKind::Let)
}

fn const_def(source: &Source, nodes: &mut [u8], cursor: Cursor) -> Cursor
    ensures { Parses const_def source.now cursor nodes.old result nodes.new }
{
    let p = cursor.take(source, TokenType::Const);
    let p = p.spanned_ident(source, nodes);
    value(source, nodes, p, NodeKind::Const)
}

// What is bound to a name or a pattern: its type, if it is there, and its value. Out of line, a program's statements take a fifth more instructions.
#[inline(always)]
fn value(source: &Source, nodes: &mut [u8], cursor: Cursor, kind: NodeKind) -> Cursor
    ensures { Parses (typed & tok EQ & rule expr & tok SEMI & whole (node_kind kind)) source.now cursor nodes.old result nodes.new }
{
    let p = typed(source, nodes, cursor);
    let p = p.take(source, TokenType::Eq);
    let p = expr(source, nodes, p);
    let p = p.take(source, TokenType::Semicolon);
    p.whole(source, nodes, kind)
}

fn typed(source: &Source, nodes: &mut [u8], cursor: Cursor) -> Cursor
    ensures { Parses typed source.now cursor nodes.old result nodes.new }
{
    let k = cursor.peek(source);
    if !k.is(TokenType::Colon) {
        return cursor;
    }
    let p = cursor.take(source, TokenType::Colon);
    let p = type_expr(source, nodes, p);
    let p = p.tick();
    if p.status == Status::Failed {
        return cursor.rewind(p);
    }
    p
}

fn return_stmt(source: &Source, nodes: &mut [u8], cursor: Cursor) -> Cursor
    ensures { Parses return_stmt source.now cursor nodes.old result nodes.new }
{
    let p = cursor.take(source, TokenType::Return);
    let p = returned(source, nodes, p);
    let p = p.take(source, TokenType::Semicolon);
    p.whole(source, nodes, NodeKind::Return)
}

fn returned(source: &Source, nodes: &mut [u8], cursor: Cursor) -> Cursor
    ensures { Parses (opt (rule expr)) source.now cursor nodes.old result nodes.new }
{
    let p = expr(source, nodes, cursor);
    if p.status == Status::Failed {
        return cursor.rewind(p);
    }
    p
}
