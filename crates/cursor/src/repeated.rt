// Repetitions and lists of what a type says how to read.
ghost use lib.Dec.{T as Yes};
ghost use Rattle.grammar.specs.Derive.{G, many};
ghost use Rattle.grammar.specs.Grammar.{list};
ghost use Rattle.cursor.specs.Read.{Parses};
ghost use Rattle.std.specs.Prelude.{◌&&◌};
ghost use Rattle.grammar.proofs.Progress.{eats, sane?};
ghost use Rattle.grammar.proofs.Whole.{solid};

use crate::{Cursor, Source, Status};
use tables::token_type::TokenType;

// What is read again and again. It takes a token at least.
pub trait Repeated {
    ghost grammar: { G };

    fn one(source: &Source, nodes: &mut [u8], cursor: Cursor) -> Cursor
        ensures { Parses grammar source.now cursor nodes.old result nodes.new };

    ghost takes: { Yes (eats solid grammar && sane? solid grammar) };
}

// As often as it goes.
pub fn many<T: Repeated>(source: &Source, nodes: &mut [u8], cursor: Cursor) -> Cursor
    ensures { Parses (many T.grammar) source.now cursor nodes.old result nodes.new }
{
    let mut p = cursor;
    while p.status == Status::Reading {
        let q = T::one(source, nodes, p);
        if q.status == Status::Failed {
            return p.rewind(q);
        }
        p = q;
    }
    p
}

// Each with a comma after it, which the last may go without.
pub fn list<T: Repeated>(source: &Source, nodes: &mut [u8], cursor: Cursor) -> Cursor
    ensures { Parses (list T.grammar) source.now cursor nodes.old result nodes.new }
{
    let mut p = cursor;
    while p.status == Status::Reading {
        let q = T::one(source, nodes, p);
        if q.status == Status::Failed {
            return p.rewind(q);
        }
        let k = q.peek(source);
        if !k.is(TokenType::Comma) {
            return q;
        }
        p = q.take(source, TokenType::Comma);
    }
    p
}
