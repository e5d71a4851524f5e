// The words of Essence that are no names.
ghost use Rattle.std.specs.Prelude.{◌≡◌, map};
ghost use Rattle.conjure_cli_laws.specs.Words.{is_among, language_words};

const WORDS: [&[u8]; 90] = [
    b"language",
    b"given",
    b"find",
    b"letting",
    b"be",
    b"new",
    b"type",
    b"enum",
    b"domain",
    b"of",
    b"where",
    b"such",
    b"that",
    b"minimising",
    b"maximising",
    b"bool",
    b"int",
    b"tuple",
    b"record",
    b"matrix",
    b"indexed",
    b"by",
    b"set",
    b"mset",
    b"function",
    b"relation",
    b"partition",
    b"from",
    b"true",
    b"false",
    b"forAll",
    b"exists",
    b"sum",
    b"product",
    b"and",
    b"or",
    b"min",
    b"max",
    b"allDiff",
    b"in",
    b"subset",
    b"subsetEq",
    b"supset",
    b"supsetEq",
    b"union",
    b"intersect",
    b"toInt",
    b"image",
    b"preImage",
    b"defined",
    b"range",
    b"toSet",
    b"toMSet",
    b"toRelation",
    b"freq",
    b"parts",
    b"party",
    b"participants",
    b"together",
    b"variant",
    b"permutation",
    b"sequence",
    b"powerSet",
    b"hist",
    b"table",
    b"factorial",
    b"catchUndef",
    b"branching",
    b"heuristic",
    b"dim",
    b"apart",
    b"flatten",
    b"concatenate",
    b"subsequence",
    b"substring",
    b"inverse",
    b"restrict",
    b"pred",
    b"succ",
    b"gcc",
    b"atleast",
    b"atmost",
    b"alldifferent_except",
    b"imageSet",
    b"active",
    b"connex",
    b"Euclidean",
    b"serial",
    b"equivalence",
    b"partialOrder",
];

/// Whether the name is one of the names.
#[tactic(auto, using(crate::proofs::NameLaws::among_views))]
fn is_among(names: &[&[u8]], name: &[u8]) -> bool
    ensures { result ≡ is_among (map (λ word. word.now) names.now) name.now }
{
    names.contains(&name)
}

/// Whether the language reserves the word, or has it and this tool doesn't read it.
#[tactic(auto, unfolding(conjure_cli_laws::specs::Words::language_words))]
pub(crate) fn is_word(name: &[u8]) -> bool
    ensures { result ≡ is_among language_words name.now }
{
    is_among(&WORDS, name)
}
