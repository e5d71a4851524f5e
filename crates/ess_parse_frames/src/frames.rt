use crate::Listed;
use ess_bound_names::BoundNames;
use ess_core::{Attr, Dom, Ex, FieldDom, FieldEx, Fun, Gen, Key, Op2, PairEx, Pat, Range, Stm};
use ess_rows::{Boxed, Row, Text};

/// The literals that a word begins, before a list of expressions in round brackets.
#[derive(Clone, Copy)]
pub enum Literal {
    /// `tuple (..)`
    Tuple,
    /// `mset (..)`
    MSet,
    /// `relation (..)`
    Relation,
    /// `partition (..)`
    Partition,
}

/// What a list in brackets becomes.
#[derive(Drop)]
pub enum Listing {
    /// An expression in brackets, or a tuple.
    Round,
    /// The expressions of an index, behind what is indexed.
    Index(Boxed<Ex>),
    /// The arguments of an application, behind what is applied.
    Application(Boxed<Ex>),
    /// The operands of a function word.
    Call(Fun),
    /// A literal that a word begins.
    Literal(Literal),
    /// A set, in curly brackets.
    Set,
    /// A matrix, in square brackets.
    Matrix,
}

/// The kinds of domains with one inner domain.
#[derive(Clone, Copy)]
pub enum Inner {
    /// `set`
    Set,
    /// `mset`
    MSet,
    /// `partition`
    Partition,
}

/// The kinds of domains that have attributes.
#[derive(Clone, Copy)]
pub enum Owner {
    /// A domain with one inner domain.
    Inner(Inner),
    /// `relation`
    Relation,
    /// `function`
    Function,
}

/// How many domains a tuple has at least: one behind its word, two without it.
#[derive(Clone, Copy)]
pub enum AtLeast {
    /// One.
    One,
    /// Two.
    Two,
}

/// The words that declare names.
#[derive(Clone, Copy)]
pub enum Declaring {
    /// `given`
    Given,
    /// `find`
    Find,
}

/// The words of an objective.
#[derive(Clone, Copy)]
pub enum Sense {
    /// `maximising`
    Maximising,
    /// `minimising`
    Minimising,
}

/// What items belong to.
#[derive(Drop)]
pub enum Head {
    /// A quantifier with its fold.
    Quantifier(Fun),
    /// `sum` before a bracket with two or more patterns, whose first item has to be a generator.
    Sum,
    /// A comprehension with its body.
    Comprehension(Boxed<Ex>),
}

/// A rule that is read in part. Each row is in the order of the text.
#[derive(Drop)]
pub enum Frame {
    /// `-` before its operand.
    Minus,
    /// `!` before its operand.
    Not,
    /// The bar before a bar's expression.
    Bar,
    /// A binary operator behind its left operand.
    Binary(Op2, Boxed<Ex>),
    /// A quantifier's fold and its items, before its body.
    Body(Fun, Row<Gen>),
    /// A list in brackets with its items.
    List(Listing, Listed),
    /// The pairs of a function literal, before the left part of one.
    PairLeft(Row<PairEx>),
    /// The same before the right part of the pair that begins with this.
    PairRight(Row<PairEx>, Boxed<Ex>),
    /// The fields of a record literal, before a name.
    Fields(Row<FieldEx>),
    /// The same before the value of the field of this name.
    FieldValue(Row<FieldEx>, Text),
    /// The names that earlier items bind, the items, and the patterns that wait: before an item.
    Items(Head, BoundNames, Row<Gen>, Row<Pat>),
    /// The same with a generator's patterns, before its value.
    GeneratorSource(Head, BoundNames, Row<Gen>, Row<Pat>),
    /// The same before its domain.
    GeneratorDomain(Head, BoundNames, Row<Gen>, Row<Pat>),
    /// The items of a matrix, before its index domain.
    IndexDomain(Row<Ex>),
    /// The ranges of an int domain, before a range.
    Ranges(Row<Range>),
    /// The same behind a lower bound and dots.
    HighBound(Row<Range>, Boxed<Ex>),
    /// The same behind dots alone.
    LoneHighBound(Row<Range>),
    /// The index domains of a matrix, before one.
    Axes(Row<Dom>),
    /// The index domains of a matrix, before the domain of its items.
    Element(Row<Dom>),
    /// A tuple's domains, before one; and how many it has at least.
    TupleDomains(AtLeast, Row<Dom>),
    /// The fields of a record domain, before a name.
    FieldNames(Row<FieldDom>),
    /// The same before the domain of the field of this name.
    FieldDomain(Row<FieldDom>, Text),
    /// The attributes of a domain with one inner domain, before it.
    InnerDomain(Inner, Row<Attr>),
    /// A relation's attributes and domains, before a domain.
    RelationDomains(Row<Attr>, Row<Dom>),
    /// A function's attributes, before its first domain.
    FunctionFrom(Row<Attr>),
    /// A function's attributes and its first domain, before its second.
    FunctionTo(Row<Attr>, Boxed<Dom>),
    /// The attributes of a domain, before one.
    Attributes(Owner, Row<Attr>),
    /// The same before the number of the attribute of this word.
    AttributeValue(Owner, Key, Row<Attr>),
    /// A letting's name, behind the statements before it: before its value.
    Letting(Text, Row<Stm>),
    /// The same before the size of an unnamed type.
    Unnamed(Text, Row<Stm>),
    /// The same before a domain.
    LettingDomain(Text, Row<Stm>),
    /// The statements before a condition.
    Where(Row<Stm>),
    /// The statements before a constraint.
    SuchThat(Row<Stm>),
    /// The statements before an objective.
    Objective(Sense, Row<Stm>),
    /// The word that declares names and these names, behind the statements before them: before their domain.
    Declaration(Declaring, Row<Text>, Row<Stm>),
}
