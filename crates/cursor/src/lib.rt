// Where a reader stands, and the steps that every reader is made of.
#![tactic(auto)]

pub mod repeated;

ghost use Rattle.std.specs.Prelude.{◌≡◌, ◌==◌, take as first_of, drop, ◌+◌, ◌-◌, min};
ghost use Rattle.patterns.specs.Bytes.{within};
ghost use Rattle.tables.specs.Tables.{token_at};
ghost use Rattle.tables.specs.TokenKinds.{ANDAND, MOD, kind_of as token_kind};
ghost use Rattle.grammar.specs.Derive.{step, take, leaf, index, literal, count, close, tick, alone, literal_kind, type_name, spelling, first_token, first_part, last_token, last_part, call_end};
ghost use Rattle.grammar.specs.Kinds.{Call, kind_of as node_kind};
ghost use Rattle.grammar.specs.Grammar.{tok, op, opt, name, numeral, whole, operands, spanless};
ghost use Rattle.cursor.specs.Entries.{input};
ghost use Rattle.cursor.specs.Read.{Parses, Grown, Step, Free, reached, begun, ending, ending_with};
ghost use Rattle.cursor.specs.Steps.{named_number, Halted, rewound, Advanced, Emitted, Closed, Agreed, Restarted, Left, with_part, fresh_at, signed_at, shallow, joining};

use grammar::node_kind::NodeKind;
use grammar::node_value::NamedType;
use tables::entry_codes::Suffix;
use tables::token_type::TokenType;
use tables::{Entry, Node, Token};

// What became of a reading so far. What failed goes as it is through the rest of a rule. Tried: a `Result` from each step, by `?`, with which long lists take an eighth to a quarter more time (docs/DECISIONS.md); and each of its 193 `?` is a return to be proved.
#[derive(Clone, Copy, PartialEq, Eq)]
pub enum Status {
    Reading,
    Failed,
    Deep,
}

// The deepest nest at which a token may be taken.
const LIMIT: u8 = 64;

// Without gaps, and what seldom changes last.
#[derive(Clone, Copy)]
pub struct Cursor {
    // The next token, and how many nodes there are.
    pub at: usize,
    pub count: usize,
    // What the construct at hand has gathered: its first token, its mark, its parts, the start of the first part and the end of the last.
    pub first: usize,
    pub mark: u64,
    pub parts: u16,
    pub from: u16,
    pub to: u16,
    // How deep.
    pub nest: u8,
    pub status: Status,
    // How far attempts came that were dropped: the token after the last that they took.
    pub furthest: usize,
}

// What a rule has read: where it ended, how many nodes there are then, how far attempts came, and the part that it is of what is around it.
// The status stands off every fourth byte, where it would be loaded with the gap behind it, which waits for its store.
#[derive(Clone, Copy)]
pub struct Part {
    pub at: usize,
    pub count: usize,
    pub from: u16,
    pub status: Status,
    pub to: u16,
    pub furthest: usize,
}

// What a statement has read, and whether an `else` where it ended is known to fail.
#[derive(Clone, Copy)]
pub struct StmtPart {
    pub part: Part,
    pub tried: bool,
}

// A token's kind as its entry has it: a byte, which past the last token is none of them.
#[derive(Clone, Copy)]
pub struct Kind {
    byte: u8,
}

impl Kind {
    // The kind of a token.
    pub fn of(source: &Source, i: usize) -> Kind
        ensures { result.byte ≡ (token_at source.now.tokens.now i).kind }
    {
        Kind {
            byte: Token::at(source.tokens, i).kind,
        }
    }

    pub fn is(self, kind: TokenType) -> bool
        ensures { result ≡ (self.byte == token_kind kind) }
    {
        self.byte == kind as u8
    }

    // A binary operator's.
    pub fn is_binary_op(self) -> bool
        ensures { result ≡ within ANDAND MOD self.byte }
    {
        (TokenType::AndAnd as u8..=TokenType::Mod as u8).contains(&self.byte)
    }
}

impl Cursor {
    // The kind of the next token.
    pub fn peek(self, source: &Source) -> Kind
        ensures { result.byte ≡ (token_at source.now.tokens.now self.at).kind }
    {
        Kind::of(source, self.at)
    }

    // The kind of the token after the next.
    pub fn second(self, source: &Source) -> Kind
        ensures { result.byte ≡ (token_at source.now.tokens.now (self.at + 1)).kind }
    {
        Kind::of(source, self.at.saturating_add(1))
    }

    // Another status, for a cursor that was reading.
    pub fn halt(mut self, status: Status) -> Cursor
        ensures { Halted status self result }
    {
        if self.status != Status::Reading {
            return self;
        }
        self.status = status;
        self
    }

    // How far attempts have come, this one or one that was dropped: all tokens before that were taken.
    pub fn reached(self) -> usize
        ensures { result ≡ reached self }
    {
        self.at.max(self.furthest)
    }

    // Back here, after an attempt that failed: how far it came is kept.
    pub fn rewind(mut self, failed: Cursor) -> Cursor
        ensures { result ≡ rewound self failed }
    {
        self.furthest = failed.reached();
        self
    }

    // Past a token of this kind, if it is there and not too deep.
    fn advance(mut self, source: &Source, kind: TokenType) -> Cursor
        ensures { Advanced source.now.tokens.now (token_kind kind) self result }
    {
        if self.status != Status::Reading {
            return self;
        }
        if !Kind::of(source, self.at).is(kind) {
            return self.halt(Status::Failed);
        }
        if self.nest > LIMIT {
            return self.halt(Status::Deep);
        }
        self.at += 1;
        self
    }

    // Takes a token of this kind.
    pub fn take(self, source: &Source, kind: TokenType) -> Cursor
        ensures { Step (tok (token_kind kind)) source.now.tokens.now self result }
    {
        self.advance(source, kind)
    }

    // Takes a token of this kind if it is there.
    pub fn skip(self, source: &Source, kind: TokenType) -> Cursor
        ensures { Step (opt (tok (token_kind kind))) source.now.tokens.now self result }
    {
        let p = self.advance(source, kind);
        if p.status == Status::Failed {
            return self.rewind(p);
        }
        p
    }

    // Takes a token of this kind, and sets the mark.
    pub fn mark(self, source: &Source, kind: TokenType, m: u64) -> Cursor
        ensures { Step (op (token_kind kind) m) source.now.tokens.now self result }
    {
        let mut p = self.advance(source, kind);
        if p.status != Status::Reading {
            return p;
        }
        p.mark = m;
        p
    }

    // Takes a numeral without a suffix, whose value is the mark.
    pub fn index(self, source: &Source) -> Cursor
        ensures { Step (numeral index) source.now.tokens.now self result }
    {
        let token = Token::at(source.tokens, self.at);
        let p = self.mark(source, TokenType::LiteralNumber, token.value);
        if token.suffix != Suffix::Absent as u8 {
            return p.halt(Status::Failed);
        }
        p
    }

    // One part more.
    fn part(mut self, start: u16, end: u16) -> Cursor
        ensures { result ≡ with_part start end self }
    {
        if self.parts == 0 {
            self.from = start;
        }
        self.parts = self.parts.saturating_add(1);
        self.to = end;
        self
    }

    // Takes a token of this kind, and emits a leaf.
    fn emit(
        self,
        source: &Source,
        nodes: &mut [u8],
        kind: TokenType,
        node: NodeKind,
        base: u8,
        value: u64,
    ) -> Cursor
        ensures { Emitted (token_kind kind) (node_kind node) base value source.now.tokens.now self nodes.old result nodes.new }
    {
        let mut p = self.advance(source, kind);
        if p.status != Status::Reading {
            return p;
        }
        let token = Token::at(source.tokens, self.at);
        let entry = Node {
            kind: node as u8,
            base,
            start: token.start,
            end: token.end,
            children: 0,
            value,
        };
        entry.put(nodes, p.count);
        p.count = p.count.saturating_add(1);
        p.part(token.start, token.end)
    }

    // The same of one that is no numeral.
    pub fn leaf(
        self,
        source: &Source,
        nodes: &mut [u8],
        kind: TokenType,
        node: NodeKind,
        value: u64,
    ) -> Cursor
        ensures { Parses (step (take (token_kind kind) (leaf (node_kind node) value))) source.now self nodes.old result nodes.new }
    {
        self.emit(source, nodes, kind, node, 0, value)
    }

    // Takes a name, and emits a Name.
    pub fn spanned_ident(self, source: &Source, nodes: &mut [u8]) -> Cursor
        ensures { Parses name source.now self nodes.old result nodes.new }
    {
        self.leaf(source, nodes, TokenType::Identifier, NodeKind::Name, 0)
    }

    // Takes a numeral, and emits a literal by its suffix.
    pub fn literal(self, source: &Source, nodes: &mut [u8]) -> Cursor
        ensures { Parses (numeral literal) source.now self nodes.old result nodes.new }
    {
        let token = Token::at(source.tokens, self.at);
        self.emit(
            source,
            nodes,
            TokenType::LiteralNumber,
            literal_kind(token.suffix),
            token.base,
            token.value,
        )
    }

    // Takes a numeral without a suffix, and emits a Count.
    pub fn count(self, source: &Source, nodes: &mut [u8]) -> Cursor
        ensures { Parses (numeral count) source.now self nodes.old result nodes.new }
    {
        let token = Token::at(source.tokens, self.at);
        if token.suffix != Suffix::Absent as u8 {
            return self
                .take(source, TokenType::LiteralNumber)
                .halt(Status::Failed);
        }
        self.emit(
            source,
            nodes,
            TokenType::LiteralNumber,
            NodeKind::Count,
            token.base,
            token.value,
        )
    }

    // The mark goes up by 1.
    pub fn tick(mut self) -> Cursor
        ensures { Free (step tick) self result }
    {
        if self.status != Status::Reading {
            return self;
        }
        self.mark = self.mark.saturating_add(1);
        self
    }

    // Fails unless there is one part.
    pub fn alone(self) -> Cursor
        ensures { Free (step alone) self result }
    {
        if self.parts == 1 {
            return self;
        }
        self.halt(Status::Failed)
    }

    // All parts gathered become the children of a node with this span.
    fn close(mut self, nodes: &mut [u8], kind: NodeKind, start: u16, end: u16) -> Cursor
        ensures { Closed (node_kind kind) start end self nodes.old result nodes.new }
    {
        if self.status != Status::Reading {
            return self;
        }
        let node = Node {
            kind: kind as u8,
            base: 0,
            start,
            end,
            children: self.parts,
            value: self.mark,
        };
        node.put(nodes, self.count);
        self.count = self.count.saturating_add(1);
        self.parts = 1;
        self.mark = 0;
        self.from = start;
        self.to = end;
        self
    }

    // A node over all its tokens.
    pub fn whole(self, source: &Source, nodes: &mut [u8], kind: NodeKind) -> Cursor
        ensures { Parses (whole (node_kind kind)) source.now self nodes.old result nodes.new }
    {
        let first = Token::at(source.tokens, self.first);
        let last = Token::at(source.tokens, self.at.saturating_sub(1));
        self.close(nodes, kind, first.start, last.end)
    }

    // A node from its first operand to its last.
    pub fn operands(self, nodes: &mut [u8], kind: NodeKind) -> Cursor
        ensures { Grown (operands (node_kind kind)) self nodes.old result nodes.new }
    {
        self.close(nodes, kind, self.from, self.to)
    }

    // A node from its operand to the last token.
    pub fn suffixed(self, source: &Source, nodes: &mut [u8], kind: NodeKind) -> Cursor
        ensures { Parses (step (close (node_kind kind) first_part last_token)) source.now self nodes.old result nodes.new }
    {
        let last = Token::at(source.tokens, self.at.saturating_sub(1));
        self.close(nodes, kind, self.from, last.end)
    }

    // A node from its first token to its operand.
    pub fn prefixed(self, source: &Source, nodes: &mut [u8], kind: NodeKind) -> Cursor
        ensures { Parses (step (close (node_kind kind) first_token last_part)) source.now self nodes.old result nodes.new }
    {
        let first = Token::at(source.tokens, self.first);
        self.close(nodes, kind, first.start, self.to)
    }

    // A call: without arguments it ends 2 past the callee.
    pub fn called(self, nodes: &mut [u8]) -> Cursor
        ensures { Grown (step (close Call first_part call_end)) self nodes.old result nodes.new }
    {
        if self.parts == 1 {
            return self.close(nodes, NodeKind::Call, self.from, self.to.saturating_add(2));
        }
        self.close(nodes, NodeKind::Call, self.from, self.to)
    }

    // A node with the span 0..0.
    pub fn spanless(self, nodes: &mut [u8], kind: NodeKind) -> Cursor
        ensures { Grown (spanless (node_kind kind)) self nodes.old result nodes.new }
    {
        self.close(nodes, kind, 0, 0)
    }

    // At the first token of a rule. These are four numbers and no struct, which would go through memory (docs/DECISIONS.md, "A rule's inside is a function of numbers").
    pub fn begin(at: usize, count: usize, nest: u8, furthest: usize) -> Cursor
        ensures { result ≡ begun at count nest furthest }
    {
        Cursor {
            at,
            count,
            furthest,
            first: at,
            mark: 0,
            parts: 0,
            from: 0,
            to: 0,
            nest,
            status: Status::Reading,
        }
    }

    // Past the rule: what it has read.
    pub fn ended(self) -> Part
        ensures { result ≡ ending self }
    {
        Part {
            at: self.at,
            count: self.count,
            furthest: self.furthest,
            from: self.from,
            status: self.status,
            to: self.to,
        }
    }

    // Past a statement: what it has read, and whether an `else` here is known to fail.
    pub fn ended_with(self, tried: bool) -> StmtPart
        ensures { result ≡ ending_with tried self }
    {
        StmtPart {
            part: self.ended(),
            tried,
        }
    }

    // With what a rule has read as one part more.
    pub fn join(self, q: Part) -> Cursor
        ensures { result ≡ joining self q }
    {
        let mut p = self.part(q.from, q.to);
        p.at = q.at;
        p.count = q.count;
        p.furthest = q.furthest;
        p.status = q.status;
        p
    }

    // At this token, with nothing gathered yet.
    fn fresh(mut self, at: usize) -> Cursor
        ensures { result ≡ fresh_at at self }
    {
        self.at = at;
        self.first = at;
        self.parts = 0;
        self.mark = 0;
        self.from = 0;
        self.to = 0;
        self
    }

    // Into a rule that adds nothing to the nest.
    pub fn enter(self) -> Cursor
        ensures { result ≡ fresh_at self.at self }
    {
        self.fresh(self.at)
    }

    // Out of it again: what was gathered is one part more of what is outside.
    pub fn leave(self, outer: Cursor) -> Cursor
        ensures { Left outer self result }
    {
        outer.join(self.ended())
    }

    // The same at nest 0: for a second look at tokens that have been taken.
    pub fn outside(mut self) -> Cursor
        ensures { result ≡ shallow self }
    {
        self.nest = 0;
        self
    }

    // Fails unless another reading of the same tokens came to the same place; then it is back at this nest. How far attempts came is for the other to say.
    pub fn agree(mut self, other: Cursor, nest: u8) -> Cursor
        ensures { Agreed nest other self result }
    {
        if self.status != Status::Reading {
            return other.halt(self.status);
        }
        if other.at != self.at {
            return other.halt(Status::Failed);
        }
        self.nest = nest;
        self.furthest = other.furthest;
        self
    }

    // At the operand of prefixes that end there; too deep if there are any past the limit.
    pub fn operand(self, end: usize) -> Cursor
        ensures { Restarted end self result }
    {
        if end <= self.at {
            return self.fresh(end);
        }
        if self.nest > LIMIT {
            return self.halt(Status::Deep);
        }
        self.fresh(end)
    }

    // Past a prefix alone.
    pub fn signed(self, prefix: usize, at: usize, m: u64) -> Cursor
        ensures { result ≡ signed_at prefix at m self }
    {
        let mut p = self.fresh(prefix);
        p.at = at;
        p.mark = m;
        p
    }
}

// One deeper; past the limit nests are not told apart.
pub fn deeper(nest: u8) -> u8
    ensures { result ≡ min (nest + 1) 65 }
{
    nest.min(LIMIT) + 1
}

// A literal's kind, by its suffix.
fn literal_kind(suffix: u8) -> NodeKind
    ensures { node_kind result ≡ literal_kind suffix }
{
    if suffix == Suffix::Felt as u8 {
        NodeKind::LiteralFelt
    } else if suffix == Suffix::U32 as u8 {
        NodeKind::LiteralU32
    } else {
        NodeKind::Literal
    }
}

// A text, and the table of its tokens. The node table is lent beside it: in one struct, which would be lent to be written, each contract would have to say that text and tokens stay.
#[derive(Clone, Copy)]
pub struct Source<'a> {
    pub text: &'a [u8],
    pub tokens: &'a [u8],
}

impl<'a> Source<'a> {
    // A Named's value, by the spelling of a token.
    pub fn type_name(&self, at: usize) -> NamedType
        ensures { named_number result ≡ type_name (spelling (input self.now.text.now self.now.tokens.now) (token_at self.now.tokens.now at)) }
    {
        let token = Token::at(self.tokens, at);
        named_type(between(self.text, token.start, token.end))
    }
}

// The bytes from one place to another, as far as there are any.
fn between(text: &[u8], start: u16, end: u16) -> &[u8]
    ensures { result.now ≡ first_of (end - start) (drop start text.now) }
{
    let to = (end as usize).min(text.len());
    let from = (start as usize).min(to);
    &text[from..to]
}

// A Named's value, by its spelling.
#[tactic(auto, unfolding(grammar::specs::Derive::type_name, patterns::specs::Bytes::same, patterns::specs::Bytes::starts))]
fn named_type(name: &[u8]) -> NamedType
    ensures { named_number result ≡ type_name name.now }
{
    match name {
        b"felt" => NamedType::Felt,
        b"bool" => NamedType::Bool,
        b"u32" => NamedType::U32,
        _ => NamedType::Custom,
    }
}
