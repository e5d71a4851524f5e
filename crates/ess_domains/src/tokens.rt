ghost use Rattle.std.specs.Prelude.{◌≡◌, ◌&&◌};
ghost use Rattle.std.specs.List.{list_all};
ghost use Rattle.ess_semantics.specs.NameTokens.{reserved, outside, is_letter as is_a_letter, is_name_byte as is_byte_of_names, is_name as is_a_name, is_name_token as is_a_name_token, are_name_tokens as are_all_name_tokens};
ghost use Rattle.ess_semantics.specs.Names.{is_among as stands_among, all_distinct};

use crate::names::{is_among, is_word};
use ess_core::Text;

/// The reserved words.
const RESERVED: [&str; 59] = [
    "language",
    "given",
    "find",
    "letting",
    "be",
    "new",
    "type",
    "enum",
    "domain",
    "of",
    "where",
    "such",
    "that",
    "minimising",
    "maximising",
    "bool",
    "int",
    "tuple",
    "record",
    "matrix",
    "indexed",
    "by",
    "set",
    "mset",
    "function",
    "relation",
    "partition",
    "from",
    "true",
    "false",
    "forAll",
    "exists",
    "sum",
    "product",
    "and",
    "or",
    "min",
    "max",
    "allDiff",
    "toInt",
    "image",
    "preImage",
    "defined",
    "range",
    "toSet",
    "toMSet",
    "toRelation",
    "freq",
    "parts",
    "party",
    "participants",
    "together",
    "in",
    "subset",
    "subsetEq",
    "supset",
    "supsetEq",
    "union",
    "intersect",
];

/// The words of the whole language that stand outside the subset.
const OUTSIDE: [&str; 31] = [
    "variant",
    "permutation",
    "sequence",
    "powerSet",
    "hist",
    "table",
    "factorial",
    "catchUndef",
    "branching",
    "heuristic",
    "dim",
    "apart",
    "flatten",
    "concatenate",
    "subsequence",
    "substring",
    "inverse",
    "restrict",
    "pred",
    "succ",
    "gcc",
    "atleast",
    "atmost",
    "alldifferent_except",
    "imageSet",
    "active",
    "connex",
    "Euclidean",
    "serial",
    "equivalence",
    "partialOrder",
];

/// Whether the names can be spelled, and no two of them are equal.
pub(crate) fn are_names_apart(names: &[Text]) -> bool
    ensures { result ≡ are_all_name_tokens names.now && all_distinct names.now }
{
    are_name_tokens(names) && are_distinct(names)
}

/// Whether the names can be spelled.
fn are_name_tokens(names: &[Text]) -> bool
    ensures { result ≡ are_all_name_tokens names.now }
{
    names.iter().all(|name| is_name_token(name))
}

/// Whether no name stands twice.
fn are_distinct(names: &[Text]) -> bool
    ensures { result ≡ all_distinct names.now }
{
    for (i, name) in names.iter().enumerate() {
        if is_among(&names[i + 1..], name) {
            return false;
        }
    }
    true
}

/// Whether a text can spell the name: letters, digits and `_`, but no digit first, and none of the words.
fn is_name_token(name: &Text) -> bool
    ensures { result ≡ is_a_name_token name.now }
{
    is_name(name.as_bytes()) && !is_reserved(name) && !is_outside(name)
}

/// Whether a name is one of the reserved words.
fn is_reserved(name: &Text) -> bool
    ensures { result ≡ stands_among reserved name.now }
{
    is_word(&RESERVED, name)
}

/// Whether a name is one of the words outside the subset.
fn is_outside(name: &Text) -> bool
    ensures { result ≡ stands_among outside name.now }
{
    is_word(&OUTSIDE, name)
}

/// Whether these are a letter or `_`, then letters, digits and `_`.
fn is_name(bytes: &[u8]) -> bool
    ensures { result ≡ is_a_name bytes.now }
{
    match bytes.split_first() {
        None => false,
        Some((first, rest)) => is_letter(*first) && are_name_bytes(rest),
    }
}

/// Whether these are letters, digits and `_`.
fn are_name_bytes(bytes: &[u8]) -> bool
    ensures { result ≡ list_all is_byte_of_names bytes.now }
{
    bytes.iter().all(|byte| is_name_byte(*byte))
}

/// Whether a byte is a letter of ASCII or `_`.
fn is_letter(byte: u8) -> bool
    ensures { result ≡ is_a_letter byte }
{
    byte.is_ascii_alphabetic() || byte == b'_'
}

/// Whether a byte may stand in a name, behind the first.
fn is_name_byte(byte: u8) -> bool
    ensures { result ≡ is_byte_of_names byte }
{
    is_letter(byte) || byte.is_ascii_digit()
}
