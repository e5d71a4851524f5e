ghost use Rattle.std.specs.Prelude.{◌≡◌};
ghost use Rattle.std.specs.Option.{option_map};
ghost use Rattle.std.specs.List.{list_any};
ghost use Rattle.std.specs.Str.{bytes_eq};
ghost use Rattle.ess_semantics.specs.Names.{look_by};
ghost use Rattle.ess_grammar.specs.Words.{words, symbols, lex_symbols, outside};
ghost use Rattle.ess_grammar.specs.Kinds.{token};
ghost use Rattle.ess_lex.specs.Tables.{shown_table, of_length};

use crate::Kind;

/// The reserved words of a length, each with its kind.
pub(crate) fn words_of_length(len: usize) -> &'static [(&'static str, Kind)]
    ensures { shown_table result.now ≡ of_length len words }
{
    match len {
        2 => &[
            ("be", Kind::Be),
            ("of", Kind::Of),
            ("by", Kind::By),
            ("or", Kind::Or),
            ("in", Kind::In),
        ],
        3 => &[
            ("new", Kind::New),
            ("int", Kind::Int),
            ("set", Kind::Set),
            ("sum", Kind::Sum),
            ("and", Kind::And),
            ("min", Kind::Min),
            ("max", Kind::Max),
        ],
        4 => &[
            ("find", Kind::Find),
            ("type", Kind::TypeWord),
            ("enum", Kind::Enum),
            ("such", Kind::Such),
            ("that", Kind::That),
            ("bool", Kind::Bool),
            ("mset", Kind::MSet),
            ("from", Kind::From),
            ("true", Kind::True),
            ("freq", Kind::Freq),
        ],
        5 => &[
            ("given", Kind::Given),
            ("where", Kind::Where),
            ("tuple", Kind::Tuple),
            ("false", Kind::False),
            ("toInt", Kind::ToInt),
            ("image", Kind::Image),
            ("range", Kind::Range),
            ("toSet", Kind::ToSet),
            ("parts", Kind::Parts),
            ("party", Kind::Party),
            ("union", Kind::Union),
        ],
        6 => &[
            ("domain", Kind::Domain),
            ("record", Kind::Record),
            ("matrix", Kind::Matrix),
            ("forAll", Kind::ForAll),
            ("exists", Kind::Exists),
            ("toMSet", Kind::ToMSet),
            ("subset", Kind::Subset),
            ("supset", Kind::Supset),
        ],
        7 => &[
            ("letting", Kind::Letting),
            ("indexed", Kind::Indexed),
            ("product", Kind::Product),
            ("allDiff", Kind::AllDiff),
            ("defined", Kind::Defined),
        ],
        8 => &[
            ("language", Kind::Language),
            ("function", Kind::Function),
            ("relation", Kind::Relation),
            ("preImage", Kind::PreImage),
            ("together", Kind::Together),
            ("subsetEq", Kind::SubsetEq),
            ("supsetEq", Kind::SupsetEq),
        ],
        9 => &[
            ("partition", Kind::Partition),
            ("intersect", Kind::Intersect),
        ],
        10 => &[
            ("minimising", Kind::Minimising),
            ("maximising", Kind::Maximising),
            ("toRelation", Kind::ToRelation),
        ],
        11 => &[],
        12 => &[("participants", Kind::Participants)],
        _ => &[],
    }
}

/// The symbols of a length, each with its kind.
pub(crate) fn symbols_of_length(len: usize) -> &'static [(&'static str, Kind)]
    ensures { shown_table result.now ≡ of_length len symbols }
{
    match len {
        1 => &[
            ("(", Kind::OpenRound),
            (")", Kind::CloseRound),
            ("[", Kind::OpenSquare),
            ("]", Kind::CloseSquare),
            ("{", Kind::OpenCurly),
            ("}", Kind::CloseCurly),
            (",", Kind::Comma),
            (";", Kind::Semicolon),
            (":", Kind::Colon),
            (".", Kind::Dot),
            ("|", Kind::Bar),
            ("=", Kind::Equal),
            ("<", Kind::Less),
            (">", Kind::Greater),
            ("+", Kind::Plus),
            ("-", Kind::Minus),
            ("*", Kind::Star),
            ("/", Kind::Slash),
            ("%", Kind::Percent),
            ("!", Kind::Exclamation),
        ],
        2 => &[
            ("..", Kind::Dots),
            ("!=", Kind::NotEqual),
            ("<=", Kind::LessEqual),
            (">=", Kind::GreaterEqual),
            ("**", Kind::StarStar),
            ("/\\", Kind::Conjunction),
            ("\\/", Kind::Disjunction),
            ("->", Kind::Implies),
            ("<-", Kind::DrawnFrom),
        ],
        3 => &[("<->", Kind::Iff), ("-->", Kind::MapsTo)],
        _ => &[],
    }
}

/// The symbols of a length that are symbols only where no byte of a name follows.
pub(crate) fn lex_symbols_of_length(len: usize) -> &'static [(&'static str, Kind)]
    ensures { shown_table result.now ≡ of_length len lex_symbols }
{
    match len {
        4 => &[("<lex", Kind::LexLess), (">lex", Kind::LexGreater)],
        5 => &[
            ("<=lex", Kind::LexLessEqual),
            (">=lex", Kind::LexGreaterEqual),
        ],
        _ => &[],
    }
}

/// The kind that stands beside a text in a table.
pub(crate) fn kind_in(table: &[(&str, Kind)], text: &[u8]) -> Option<Kind>
    ensures { option_map (λ k. token k text.now) result ≡ look_by bytes_eq (shown_table table.now) text.now }
{
    for (spelling, kind) in table {
        if spelling.as_bytes() == text {
            return Some(*kind);
        }
    }
    None
}

/// The words outside the subset.
const OUTSIDE: [&str; 31] = [
    "variant",
    "permutation",
    "sequence",
    "powerSet",
    "hist",
    "table",
    "factorial",
    "catchUndef",
    "branching",
    "heuristic",
    "dim",
    "apart",
    "flatten",
    "concatenate",
    "subsequence",
    "substring",
    "inverse",
    "restrict",
    "pred",
    "succ",
    "gcc",
    "atleast",
    "atmost",
    "alldifferent_except",
    "imageSet",
    "active",
    "connex",
    "Euclidean",
    "serial",
    "equivalence",
    "partialOrder",
];

/// Is the text a word outside the subset?
pub(crate) fn is_outside_word(text: &[u8]) -> bool
    ensures { result ≡ list_any (bytes_eq text.now) outside }
{
    is_among(text, &OUTSIDE)
}

/// Does the text stand in a list of words?
fn is_among(text: &[u8], words: &[&str]) -> bool
    ensures { result ≡ list_any (λ word. bytes_eq text.now word.now) words.now }
{
    words.iter().any(|word| text == word.as_bytes())
}
