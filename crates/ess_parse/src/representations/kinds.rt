ghost use Rattle.std.specs.Prelude.{◌≡◌};
ghost use Rattle.std.specs.Str.{bytes_eq};
ghost use Rattle.ess_semantics.specs.Names.{look_by};
ghost use Rattle.ess_grammar.specs.Representations.{kind_of};
ghost use Rattle.ess_parse.specs.Machines.{shown_table};

use ess_core::ReprKind;

/// The names of the kinds.
const KINDS: [(&str, ReprKind); 21] = [
    ("Atom", ReprKind::Atom),
    ("Tuple", ReprKind::Tuple),
    ("Rec", ReprKind::Rec),
    ("Matrix", ReprKind::Matrix),
    ("Occurrence", ReprKind::Occurrence),
    ("Explicit", ReprKind::Explicit),
    (
        "ExplicitVarSizeWithMarker",
        ReprKind::ExplicitVarSizeWithMarker,
    ),
    (
        "ExplicitVarSizeWithFlags",
        ReprKind::ExplicitVarSizeWithFlags,
    ),
    (
        "ExplicitVarSizeWithDummy",
        ReprKind::ExplicitVarSizeWithDummy,
    ),
    ("MSetOccurrence", ReprKind::MSetOccurrence),
    (
        "MSetExplicitWithRepetition",
        ReprKind::MSetExplicitWithRepetition,
    ),
    ("MSetExplicitWithFlags", ReprKind::MSetExplicitWithFlags),
    ("Function1D", ReprKind::Function1D),
    ("Function1DPartial", ReprKind::Function1DPartial),
    ("FunctionND", ReprKind::FunctionND),
    ("FunctionNDPartial", ReprKind::FunctionNDPartial),
    ("FunctionAsRelation", ReprKind::FunctionAsRelation),
    ("RelationAsMatrix", ReprKind::RelationAsMatrix),
    ("RelationAsSet", ReprKind::RelationAsSet),
    ("PartitionOccurrence", ReprKind::PartitionOccurrence),
    ("PartitionAsSet", ReprKind::PartitionAsSet),
];

/// The kind that a name is, if it is one.
pub(super) fn kind_of(name: &[u8]) -> Option<ReprKind>
    ensures { result ≡ kind_of name.now }
{
    kind_in(&KINDS, name)
}

/// The kind that stands beside a name in a table.
fn kind_in(table: &[(&str, ReprKind)], name: &[u8]) -> Option<ReprKind>
    ensures { result ≡ look_by bytes_eq (shown_table table.now) name.now }
{
    for (spelling, kind) in table {
        if spelling.as_bytes() == name {
            return Some(*kind);
        }
    }
    None
}
