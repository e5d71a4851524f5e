//! The operators, function words, attributes and representations of Essence, as the Essence paper and the Conjure manual
//! have them.

/// The operators with one operand.
#[derive(Clone, Copy, Debug, PartialEq, Eq)]
pub enum Op1 {
    /// The negative of a number.
    Minus,
    /// `!`
    Not,
    /// `|x|`: the absolute value of a number, or the number of members.
    Bar,
}

/// The operators with two operands.
#[derive(Clone, Copy, Debug, PartialEq, Eq)]
pub enum Op2 {
    /// `**`
    Pow,
    /// `*`
    Times,
    /// `/`, rounded down.
    Div,
    /// `%`, the remainder of `/`.
    Mod,
    /// `intersect`
    Intersect,
    /// `+`
    Plus,
    /// `-`, of numbers, sets or relations.
    Minus,
    /// `union`
    Union,
    /// `=`
    Eq,
    /// `!=`
    Ne,
    /// `<`
    Lt,
    /// `<=`
    Le,
    /// `>`
    Gt,
    /// `>=`
    Ge,
    /// `<lex`: the lexicographic order of two lists, in which a prefix is lower.
    LexLt,
    /// `<=lex`
    LexLe,
    /// `>lex`
    LexGt,
    /// `>=lex`
    LexGe,
    /// `in`
    Member,
    /// `subset`: within, and different.
    Subset,
    /// `subsetEq`
    SubsetEq,
    /// `supset`
    Supset,
    /// `supsetEq`
    SupsetEq,
    /// `/\`
    And,
    /// `\/`
    Or,
    /// `->`
    Implies,
    /// `<->`
    Iff,
}

/// The function words, which stand before operands in brackets.
#[derive(Clone, Copy, Debug, PartialEq, Eq)]
pub enum Fun {
    Sum,
    Product,
    /// `and`, of a list. A `forAll` is read as one.
    And,
    /// `or`, of a list. An `exists` is read as one.
    Or,
    Min,
    Max,
    /// `allDiff`: no two items of a list are equal.
    AllDiff,
    /// `toInt`: 1 for true, 0 for false.
    ToInt,
    /// `image(f, x)`: the value of the function f at x.
    Image,
    /// `preImage(f, y)`: the set of the arguments at which f has the value y.
    PreImage,
    /// `defined(f)`: the set of all arguments of a function.
    Defined,
    /// `range(f)`: the set of all values of a function.
    Range,
    ToSet,
    /// `toMSet`: with repeats.
    ToMSet,
    /// `toRelation`: the pairs of a function.
    ToRelation,
    /// `freq(m, x)`: how often x occurs in a multiset.
    Freq,
    /// `parts(p)`: the set of the parts of a partition.
    Parts,
    /// `party(x, p)`: the part of a partition in which x stands.
    Party,
    /// `participants(p)`: the set of all members of the parts.
    Participants,
    /// `together(s, p)`: whether some part holds every member of the set s.
    Together,
}

/// The attributes of domains. Those of sizes, of how often members occur and of parts stand with a number, all others
/// without one.
#[derive(Clone, Copy, Debug, PartialEq, Eq)]
pub enum Key {
    /// How many members, pairs or tuples there are.
    Size,
    MinSize,
    MaxSize,
    /// Each member of the first domain is related to itself.
    Reflexive,
    /// No member is related to itself.
    Irreflexive,
    Symmetric,
    /// Two members are related in both directions only where they are equal.
    AntiSymmetric,
    /// No two members are related in both directions.
    ASymmetric,
    Transitive,
    /// How often each member occurs at least that occurs in a multiset.
    MinOccur,
    MaxOccur,
    /// A function has a value at each member of its first domain.
    Total,
    /// No two arguments of a function have one value.
    Injective,
    /// Each member of the second domain is a value of the function.
    Surjective,
    /// Injective and surjective.
    Bijective,
    /// How many parts a partition has.
    NumParts,
    MinNumParts,
    MaxNumParts,
    /// How many members each part has.
    PartSize,
    MinPartSize,
    MaxPartSize,
    /// All parts have equally many members.
    Regular,
}

/// The ways to keep a value in tables of numbers. Their order is that in which all representations of a domain are listed.
#[derive(Clone, Copy, Debug, PartialEq, Eq)]
pub enum ReprKind {
    /// One cell: a number, a truth value, or a value of a named type by its position.
    Atom,
    /// A tuple by its components.
    Tuple,
    /// A record by its fields.
    Rec,
    /// A matrix by its elements.
    Matrix,
    /// A set of atoms: for each member of the inner domain whether it is in.
    Occurrence,
    /// A set of fixed size: its members in slots.
    Explicit,
    /// A set: slots, and how many of them are in use.
    ExplicitVarSizeWithMarker,
    /// A set: slots, and of each whether it is in use.
    ExplicitVarSizeWithFlags,
    /// A set of atoms: slots, where one number above all members says that a slot is out of use.
    ExplicitVarSizeWithDummy,
    /// A multiset of atoms: how often each member of the inner domain occurs.
    MSetOccurrence,
    /// A multiset: slots for the members with repeats, and how many of them are in use.
    MSetExplicitWithRepetition,
    /// A multiset: slots for the different members, and of each how often it occurs.
    MSetExplicitWithFlags,
    /// A total function from an atom: the value at each argument.
    Function1D,
    /// A function from an atom: of each argument whether there is a value, and the value.
    Function1DPartial,
    /// A total function from a tuple of atoms: the value at each argument.
    FunctionND,
    /// A function from a tuple of atoms: of each argument whether there is a value, and the value.
    FunctionNDPartial,
    /// A function by the relation of its pairs.
    FunctionAsRelation,
    /// A relation of atoms: for each tuple whether it is in.
    RelationAsMatrix,
    /// A relation by the set of its tuples.
    RelationAsSet,
    /// A partition of an atom: how many parts there are, and of each member the number of its part.
    PartitionOccurrence,
    /// A partition by the set of its parts.
    PartitionAsSet,
}
