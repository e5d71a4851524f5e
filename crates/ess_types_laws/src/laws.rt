//! Laws on types, each the contract of a function that does nothing.

ghost use Rattle.ess_types_laws.specs.Laws.{ResolvingKeepsTypes, ResolvedTreesStay, PreparedIsResolved, MembersHaveTheirType, ListedMembersHaveTheirType, PatternsBindTheirTypes, MeaningsHaveTheirType, MeaningsOverTablesHaveTheirType, JudgedExpressionsAreSound, FixedMentionsNoFind, TypesStay};

/// A resolved expression has the type that the expression had before.
pub fn resolving_keeps_types()
    ensures { ResolvingKeepsTypes }
{}

/// Resolved again, a resolved expression stays as it is.
pub fn resolved_trees_stay()
    ensures { ResolvedTreesStay }
{}

/// The statements of a specification, with lettings put in and resolved, are resolved: resolving them again changes nothing.
pub fn prepared_is_resolved()
    ensures { PreparedIsResolved }
{}

/// The members of a closed domain have the type of the domain.
pub fn members_have_their_type()
    ensures { MembersHaveTheirType }
{}

/// The members that a domain lists have its type.
pub fn listed_members_have_their_type()
    ensures { ListedMembersHaveTheirType }
{}

/// A pattern that fits a type binds, at a value of the type, values of the types of its names.
pub fn patterns_bind_their_types()
    ensures { PatternsBindTheirTypes }
{}

/// Type soundness: under an env that gives names values of their types, a resolved expression that has a type has nothing
/// or a value of it.
pub fn meanings_have_their_type()
    ensures { MeaningsHaveTheirType }
{}

/// So it is over tables, where each cell and view in the expression has values of its type.
pub fn meanings_over_tables_have_their_type()
    ensures { MeaningsOverTablesHaveTheirType }
{}

/// So it is with each judged expression without cells and views, once it is resolved.
pub fn judged_expressions_are_sound()
    ensures { JudgedExpressionsAreSound }
{}

/// Behind a generator names have values of their types still, the bound ones too.
pub fn types_stay()
    ensures { TypesStay }
{}

/// What is fixed mentions no find: a judged expression that is fixed has, once it is resolved, no free name that depends on one.
pub fn fixed_mentions_no_find()
    ensures { FixedMentionsNoFind }
{}
