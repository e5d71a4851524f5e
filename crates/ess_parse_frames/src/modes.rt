use crate::{Declaring, Inner, Literal, Operand};
use ess_core::{Dom, Fun, Key, Stm};
use ess_rows::{Boxed, Row, Text};

/// The word that began a statement which ends in no expression and no domain.
#[derive(Clone, Copy)]
pub enum Opening {
    /// The language line.
    Language,
    /// `given`
    Given,
    /// `letting`
    Letting,
}

/// What is wanted next, or what was just read. Each row is in the order of the text.
#[derive(Drop)]
pub enum Mode {
    /// An operand is wanted.
    OperandWanted,
    /// An atom.
    OperandRead(Operand),
    /// A function word.
    FunctionWordRead(Fun),
    /// The word of a literal.
    LiteralBegun(Literal),
    /// `function` in an expression.
    FunctionLiteralBegun,
    /// `record` in an expression.
    RecordLiteralBegun,
    /// The name of a record literal's field is wanted.
    FieldWanted,
    /// That name.
    FieldRead(Text),
    /// A domain is wanted.
    DomainWanted,
    /// A domain.
    DomainRead(Boxed<Dom>),
    /// `int`
    IntRead,
    /// `matrix`
    MatrixBegun,
    /// `matrix indexed`
    IndexedRead,
    /// `matrix indexed by`
    ByRead,
    /// The index domains of a matrix.
    AxesRead,
    /// `tuple` in a domain.
    TupleBegun,
    /// `record` in a domain.
    RecordBegun,
    /// The name of a record domain's field is wanted.
    FieldNameWanted,
    /// That name.
    FieldNameRead(Text),
    /// The word of a domain with one inner domain.
    InnerBegun(Inner),
    /// The word before that inner domain is wanted.
    JoiningWanted(Inner),
    /// `relation` in a domain.
    RelationBegun,
    /// `of` is wanted before a relation's domains.
    RelationOfWanted,
    /// That word.
    RelationOfRead,
    /// `function` in a domain.
    FunctionBegun,
    /// `function (` in a domain.
    FunctionBracketRead,
    /// An attribute is wanted.
    AttributeWanted,
    /// The word of an attribute.
    AttributeRead(Key),
    /// Nothing.
    NothingRead,
    /// `language`
    LanguageRead,
    /// `language Essence`
    LanguageNameRead,
    /// The first number of the language line.
    FirstNumberRead,
    /// The dot behind it.
    LanguageDotRead,
    /// The word that declares names and these names, behind the statements before them, where another name is wanted.
    NamesWanted(Declaring, Row<Text>, Row<Stm>),
    /// The same behind a name.
    NameRead(Declaring, Row<Text>, Row<Stm>),
    /// `given NAME new`
    GivenNewRead(Text, Row<Stm>),
    /// `given NAME new type`
    GivenTypeRead(Text, Row<Stm>),
    /// The name of a letting is wanted, behind the statements before it.
    LettingWanted(Row<Stm>),
    /// `letting NAME`
    LettingNameRead(Text, Row<Stm>),
    /// `letting NAME be`
    BeRead(Text, Row<Stm>),
    /// `letting NAME be new`
    LettingNewRead(Text, Row<Stm>),
    /// `letting NAME be new type`
    LettingTypeRead(Text, Row<Stm>),
    /// `letting NAME be new type enum`
    EnumRead(Text, Row<Stm>),
    /// `letting NAME be new type of`
    OfRead(Text, Row<Stm>),
    /// The values of an enumerated type, where another is wanted.
    ValueNameWanted(Text, Row<Text>, Row<Stm>),
    /// The same behind one.
    ValueNameRead(Text, Row<Text>, Row<Stm>),
    /// `such`
    SuchRead(Row<Stm>),
    /// A statement that ends in no expression and no domain, of a list of this word; also the language line.
    StatementRead(Opening, Row<Stm>),
}
