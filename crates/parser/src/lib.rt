// The readers of Cairo-M: tokens to nodes. Each says which part of the grammar it reads.
#![tactic(auto)]

mod items;

ghost use Rattle.std.specs.Prelude.{length};
ghost use Rattle.grammar.specs.Grammar.{file};
ghost use Rattle.cursor.specs.Read.{Parses, start};
ghost use Rattle.parser.specs.Parse.{ParsedIs};

use crate::items::items;
use cursor::{Cursor, Source, Status};
use tables::{Entry, Node, Token};

// Why a text's tokens have no tree: the first token that no attempt takes, or too deep.
#[derive(Clone, Copy)]
pub enum ParseError {
    Syntax(usize),
    Deep,
}

// All items from the first token on.
fn read(source: &Source, nodes: &mut [u8]) -> Cursor
    ensures { Parses file source.now start nodes.old result nodes.new }
{
    let first = Cursor::begin(0, 0, 0, 0);
    items(source, nodes, first)
}

// Reads the tokens of a text into the node table: as many nodes as it has room for. All are counted, and what is not used is zero.
pub fn parse(text: &[u8], tokens: &[u8], nodes: &mut [u8]) -> Result<usize, ParseError>
    ensures { ParsedIs text.now tokens.now (length nodes.old) nodes.new result }
{
    let source = Source { text, tokens };
    let p = read(&source, nodes);
    if p.status != Status::Reading {
        nodes.fill(0);
        return Err(ParseError::Deep);
    }
    if p.at != Token::room(tokens) {
        nodes.fill(0);
        return Err(ParseError::Syntax(p.reached()));
    }
    Node::keep(nodes, p.count);
    Ok(p.count)
}
