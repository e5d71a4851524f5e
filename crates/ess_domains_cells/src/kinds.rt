ghost use Rattle.std.specs.Prelude.{◌≡◌};
ghost use Rattle.ess_domains_cells.specs.KindCounts.{is_atom_kind as is_atom_kind_of, is_tuple_kind as is_tuple_kind_of, is_record_kind as is_record_kind_of, is_matrix_kind as is_matrix_kind_of, has_flags as has_flags_of, is_pairs_kind as is_pairs_kind_of, is_relation_table as is_relation_table_of, is_relation_set as is_relation_set_of, is_partition_table as is_partition_table_of, is_partition_set as is_partition_set_of};

use ess_core::ReprKind;

/// Whether a kind is that of atoms.
pub fn is_atom_kind(kind: ReprKind) -> bool
    ensures { result ≡ is_atom_kind_of kind }
{
    matches!(kind, ReprKind::Atom)
}

/// Whether a kind is that of tuples.
pub fn is_tuple_kind(kind: ReprKind) -> bool
    ensures { result ≡ is_tuple_kind_of kind }
{
    matches!(kind, ReprKind::Tuple)
}

/// Whether a kind is that of records.
pub fn is_record_kind(kind: ReprKind) -> bool
    ensures { result ≡ is_record_kind_of kind }
{
    matches!(kind, ReprKind::Rec)
}

/// Whether a kind is that of matrices.
pub fn is_matrix_kind(kind: ReprKind) -> bool
    ensures { result ≡ is_matrix_kind_of kind }
{
    matches!(kind, ReprKind::Matrix)
}

/// Whether a kind of functions has a flag for each argument.
pub fn has_flags(kind: ReprKind) -> bool
    ensures { result ≡ has_flags_of kind }
{
    matches!(
        kind,
        ReprKind::Function1DPartial | ReprKind::FunctionNDPartial
    )
}

/// Whether a kind of functions is the relation of the pairs.
pub fn is_pairs_kind(kind: ReprKind) -> bool
    ensures { result ≡ is_pairs_kind_of kind }
{
    matches!(kind, ReprKind::FunctionAsRelation)
}

/// Whether a kind of relations has a truth value for each tuple.
pub fn is_relation_table(kind: ReprKind) -> bool
    ensures { result ≡ is_relation_table_of kind }
{
    matches!(kind, ReprKind::RelationAsMatrix)
}

/// Whether a kind of relations is the set of the tuples.
pub fn is_relation_set(kind: ReprKind) -> bool
    ensures { result ≡ is_relation_set_of kind }
{
    matches!(kind, ReprKind::RelationAsSet)
}

/// Whether a kind of partitions has a number for each member.
pub fn is_partition_table(kind: ReprKind) -> bool
    ensures { result ≡ is_partition_table_of kind }
{
    matches!(kind, ReprKind::PartitionOccurrence)
}

/// Whether a kind of partitions is the set of the parts.
pub fn is_partition_set(kind: ReprKind) -> bool
    ensures { result ≡ is_partition_set_of kind }
{
    matches!(kind, ReprKind::PartitionAsSet)
}
