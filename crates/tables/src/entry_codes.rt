// What stands after a numeral's digits, numbered from 0.
#[derive(Clone, Copy, PartialEq, Eq)]
pub enum Suffix {
    Absent,
    Felt,
    U32,
    Other,
}

// What a diagnostic says, numbered from 1.
#[derive(Clone, Copy, PartialEq, Eq)]
pub enum Reason {
    Character = 1,
    Overflow,
    Format,
    UnknownSuffix,
    Stopped,
}
