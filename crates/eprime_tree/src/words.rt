//! The operators and words over lists of Essence Prime, as the Conjure manual's chapter on its output has them.

/// The operators of models with one operand.
#[derive(Clone, Copy, Debug, PartialEq, Eq)]
pub enum POp1 {
    /// `-`: the negative of a number.
    Minus,
    /// `!`
    Not,
    /// `|x|`: the absolute value of a number.
    Bar,
    /// `toInt(x)`: 1 for true, 0 for false.
    ToInt,
}

/// The operators of models with two operands.
#[derive(Clone, Copy, Debug, PartialEq, Eq)]
pub enum POp2 {
    /// `**`
    Pow,
    /// `*`
    Times,
    /// `/`, rounded down.
    Div,
    /// `%`, the remainder of `/`.
    Mod,
    /// `+`
    Plus,
    /// `-`, between two numbers.
    Minus,
    /// `=`
    Eq,
    /// `!=`
    Ne,
    /// `<`
    Lt,
    /// `<=`
    Le,
    /// `>`
    Gt,
    /// `>=`
    Ge,
    /// `<lex`: the lexicographic order of two lists, in which a prefix is lower.
    LexLt,
    /// `<=lex`
    LexLe,
    /// `>lex`
    LexGt,
    /// `>=lex`
    LexGe,
    /// `/\`
    And,
    /// `\/`
    Or,
    /// `->`
    Implies,
    /// `<->`
    Iff,
}

/// The words of models over a list.
#[derive(Clone, Copy, Debug, PartialEq, Eq)]
pub enum PFun {
    And,
    Or,
    Sum,
    Product,
    Min,
    Max,
    /// `allDiff`: no two items are equal.
    AllDiff,
}
