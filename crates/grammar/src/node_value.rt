// What a node's value says, each numbered from 0 in its order.
#[derive(Clone, Copy, PartialEq, Eq)]
pub enum UnaryOp {
    Not,
    Neg,
}

#[derive(Clone, Copy, PartialEq, Eq)]
pub enum BinaryOp {
    Add,
    Sub,
    Mul,
    Div,
    Mod,
    Eq,
    Neq,
    Less,
    Greater,
    LessEqual,
    GreaterEqual,
    And,
    Or,
    BitwiseAnd,
    BitwiseOr,
    BitwiseXor,
}

// A type by its name.
#[derive(Clone, Copy, PartialEq, Eq)]
pub enum NamedType {
    Felt,
    Bool,
    U32,
    Custom,
}
