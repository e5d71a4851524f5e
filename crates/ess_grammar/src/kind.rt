/// The kinds of tokens: one for each reserved word and each symbol, names, numbers, and the word
/// `ESSENCE'` of models and of texts of cells.
#[derive(Clone, Copy, Debug, PartialEq, Eq)]
pub enum Kind {
    /// A name: a letter or `_`, then letters, digits or `_`, and no reserved word.
    Name,
    /// A number, with its value, which is at least 0.
    Num(i64),
    /// `ESSENCE'`
    PrimeWord,

    // words of statements
    Language,
    Given,
    Find,
    Letting,
    Be,
    New,
    /// `type`
    TypeWord,
    Enum,
    Domain,
    Of,
    Where,
    Such,
    That,
    Minimising,
    Maximising,

    // words of domains and literals
    Bool,
    Int,
    Tuple,
    Record,
    Matrix,
    Indexed,
    By,
    Set,
    MSet,
    Function,
    Relation,
    Partition,
    From,
    True,
    False,

    // words of quantifiers, and function words
    ForAll,
    Exists,
    Sum,
    Product,
    And,
    Or,
    Min,
    Max,
    AllDiff,
    ToInt,
    Image,
    PreImage,
    Defined,
    Range,
    ToSet,
    ToMSet,
    ToRelation,
    Freq,
    Parts,
    Party,
    Participants,
    Together,

    // words that are operators
    In,
    Subset,
    SubsetEq,
    Supset,
    SupsetEq,
    Union,
    Intersect,

    /// `(`
    OpenRound,
    /// `)`
    CloseRound,
    /// `[`
    OpenSquare,
    /// `]`
    CloseSquare,
    /// `{`
    OpenCurly,
    /// `}`
    CloseCurly,
    /// `,`
    Comma,
    /// `;`
    Semicolon,
    /// `:`
    Colon,
    /// `.`
    Dot,
    /// `..`
    Dots,
    /// `|`
    Bar,
    /// `=`
    Equal,
    /// `!=`
    NotEqual,
    /// `<`
    Less,
    /// `<=`
    LessEqual,
    /// `>`
    Greater,
    /// `>=`
    GreaterEqual,
    /// `+`
    Plus,
    /// `-`
    Minus,
    /// `*`
    Star,
    /// `/`
    Slash,
    /// `%`
    Percent,
    /// `**`
    StarStar,
    /// `!`
    Exclamation,
    /// `/\`
    Conjunction,
    /// `\/`
    Disjunction,
    /// `->`
    Implies,
    /// `<->`
    Iff,
    /// `-->`
    MapsTo,
    /// `<-`
    DrawnFrom,
    /// `<lex`
    LexLess,
    /// `<=lex`
    LexLessEqual,
    /// `>lex`
    LexGreater,
    /// `>=lex`
    LexGreaterEqual,
}
