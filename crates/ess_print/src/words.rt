// The texts of operators, function words, attributes and kinds of representations.
ghost use Rattle.std.specs.Prelude.{◌≡◌};
ghost use Rattle.std.specs.List.{list_any};
ghost use Rattle.std.specs.Str.{bytes_eq};
ghost use Rattle.ess_print_laws.specs.TokenTexts.{function_text, key_text, kind_text};
ghost use Rattle.ess_print_laws.specs.Pieces.{piece_text};
ghost use Rattle.ess_print_laws.specs.Parts.{truth_piece};
ghost use Rattle.ess_print.specs.Written.{spaced_operator, key_names};

use ess_core::{Fun, Key, Op2, ReprKind};

/// The text of a truth value.
pub(crate) fn truth_text(truth: bool) -> &'static str
    ensures { result.now ≡ piece_text (truth_piece truth) }
{
    if truth { "true" } else { "false" }
}

/// The text of an operator between its two operands, with a space on either side.
pub(crate) fn operator_between(op: Op2) -> &'static str
    ensures { result.now ≡ spaced_operator op }
{
    match op {
        Op2::Pow => " ** ",
        Op2::Times => " * ",
        Op2::Div => " / ",
        Op2::Mod => " % ",
        Op2::Intersect => " intersect ",
        Op2::Plus => " + ",
        Op2::Minus => " - ",
        Op2::Union => " union ",
        Op2::Eq => " = ",
        Op2::Ne => " != ",
        Op2::Lt => " < ",
        Op2::Le => " <= ",
        Op2::Gt => " > ",
        Op2::Ge => " >= ",
        Op2::LexLt => " <lex ",
        Op2::LexLe => " <=lex ",
        Op2::LexGt => " >lex ",
        Op2::LexGe => " >=lex ",
        Op2::Member => " in ",
        Op2::Subset => " subset ",
        Op2::SubsetEq => " subsetEq ",
        Op2::Supset => " supset ",
        Op2::SupsetEq => " supsetEq ",
        Op2::And => " /\\ ",
        Op2::Or => " \\/ ",
        Op2::Implies => " -> ",
        Op2::Iff => " <-> ",
    }
}

/// The text of a function word.
pub(crate) fn word_text(fun: Fun) -> &'static str
    ensures { result.now ≡ function_text fun }
{
    match fun {
        Fun::Sum => "sum",
        Fun::Product => "product",
        Fun::And => "and",
        Fun::Or => "or",
        Fun::Min => "min",
        Fun::Max => "max",
        Fun::AllDiff => "allDiff",
        Fun::ToInt => "toInt",
        Fun::Image => "image",
        Fun::PreImage => "preImage",
        Fun::Defined => "defined",
        Fun::Range => "range",
        Fun::ToSet => "toSet",
        Fun::ToMSet => "toMSet",
        Fun::ToRelation => "toRelation",
        Fun::Freq => "freq",
        Fun::Parts => "parts",
        Fun::Party => "party",
        Fun::Participants => "participants",
        Fun::Together => "together",
    }
}

/// The name of an attribute.
pub(crate) fn attribute_name(key: Key) -> &'static str
    ensures { result.now ≡ key_text key }
{
    match key {
        Key::Size => "size",
        Key::MinSize => "minSize",
        Key::MaxSize => "maxSize",
        Key::Reflexive => "reflexive",
        Key::Irreflexive => "irreflexive",
        Key::Symmetric => "symmetric",
        Key::AntiSymmetric => "antiSymmetric",
        Key::ASymmetric => "aSymmetric",
        Key::Transitive => "transitive",
        Key::MinOccur => "minOccur",
        Key::MaxOccur => "maxOccur",
        Key::Total => "total",
        Key::Injective => "injective",
        Key::Surjective => "surjective",
        Key::Bijective => "bijective",
        Key::NumParts => "numParts",
        Key::MinNumParts => "minNumParts",
        Key::MaxNumParts => "maxNumParts",
        Key::PartSize => "partSize",
        Key::MinPartSize => "minPartSize",
        Key::MaxPartSize => "maxPartSize",
        Key::Regular => "regular",
    }
}

/// The name of a kind of representation.
pub(crate) fn kind_name(kind: ReprKind) -> &'static str
    ensures { result.now ≡ kind_text kind }
{
    match kind {
        ReprKind::Atom => "Atom",
        ReprKind::Tuple => "Tuple",
        ReprKind::Rec => "Rec",
        ReprKind::Matrix => "Matrix",
        ReprKind::Occurrence => "Occurrence",
        ReprKind::Explicit => "Explicit",
        ReprKind::ExplicitVarSizeWithMarker => "ExplicitVarSizeWithMarker",
        ReprKind::ExplicitVarSizeWithFlags => "ExplicitVarSizeWithFlags",
        ReprKind::ExplicitVarSizeWithDummy => "ExplicitVarSizeWithDummy",
        ReprKind::MSetOccurrence => "MSetOccurrence",
        ReprKind::MSetExplicitWithRepetition => "MSetExplicitWithRepetition",
        ReprKind::MSetExplicitWithFlags => "MSetExplicitWithFlags",
        ReprKind::Function1D => "Function1D",
        ReprKind::Function1DPartial => "Function1DPartial",
        ReprKind::FunctionND => "FunctionND",
        ReprKind::FunctionNDPartial => "FunctionNDPartial",
        ReprKind::FunctionAsRelation => "FunctionAsRelation",
        ReprKind::RelationAsMatrix => "RelationAsMatrix",
        ReprKind::RelationAsSet => "RelationAsSet",
        ReprKind::PartitionOccurrence => "PartitionOccurrence",
        ReprKind::PartitionAsSet => "PartitionAsSet",
    }
}

/// The attribute words, which are plain names elsewhere.
const KEYS: [&str; 22] = [
    "size",
    "minSize",
    "maxSize",
    "reflexive",
    "irreflexive",
    "symmetric",
    "antiSymmetric",
    "aSymmetric",
    "transitive",
    "minOccur",
    "maxOccur",
    "total",
    "injective",
    "surjective",
    "bijective",
    "numParts",
    "minNumParts",
    "maxNumParts",
    "partSize",
    "minPartSize",
    "maxPartSize",
    "regular",
];

/// Is the name an attribute word?
pub(crate) fn is_attribute_word(name: &[u8]) -> bool
    ensures { result ≡ list_any (λ word. bytes_eq word name.now) key_names }
{
    is_among(name, &KEYS)
}

/// Does the text stand in a list of words?
fn is_among(text: &[u8], words: &[&str]) -> bool
    ensures { result ≡ list_any (λ word. bytes_eq word.now text.now) words.now }
{
    words.iter().any(|word| word.as_bytes() == text)
}
