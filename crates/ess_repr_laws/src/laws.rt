//! Laws of canonical tables, each the contract of a function that does nothing.

ghost use Rattle.ess_repr_laws.specs.Laws.{MembersHaveCanonicalTables, JudgedDomainsAreWell, CanonicalTablesAreOne, CanonicalCellsAreRight, BoundsAreRight, PositionsStandForTypes, PlansStandForMembers, LayersAreComposed, StructuresMeanCanonical, ShapesAreOfTables, ChannelsSaySame};

/// Each member of a domain has canonical tables under a representation that fits the domain: they are over exactly the declared
/// axes, in the declared domains, canonical, stand for the member, and are the only ones.
pub fn members_have_canonical_tables()
    ensures { MembersHaveCanonicalTables }
{}

/// A domain that meets the judgements is one that the other laws speak of.
pub fn judged_domains_are_well()
    ensures { JudgedDomainsAreWell }
{}

/// Of tables over the declared axes whose cells are canonical at most one list stands for a value.
pub fn canonical_tables_are_one()
    ensures { CanonicalTablesAreOne }
{}

/// Canonical cells stand for a value, are one for each value, and are tidy.
pub fn canonical_cells_are_right()
    ensures { CanonicalCellsAreRight }
{}

/// A finite domain has no more members than its bound says, and the members of an enumerable one are listed completely.
pub fn bounds_are_right()
    ensures { BoundsAreRight }
{}

/// A value with positions stands for one member of the domain with named types, in the same order.
pub fn positions_stand_for_types()
    ensures { PositionsStandForTypes }
{}

/// Tables that stand for a member of a plan's domain stand for one with types, which comes back.
pub fn plans_stand_for_members()
    ensures { PlansStandForMembers }
{}

/// One layer: its canonical tables are made of those of the inner values, and its value of theirs.
pub fn layers_are_composed()
    ensures { LayersAreComposed }
{}

/// The structure constraint of a view means that its cells are canonical.
pub fn structures_mean_canonical()
    ensures { StructuresMeanCanonical }
{}

/// A view has as many shapes as tables, and tables that are found by their names are those of the shapes.
pub fn shapes_are_of_tables()
    ensures { ShapesAreOfTables }
{}

/// A channel between two views of a domain is true exactly where both stand for one value.
pub fn channels_say_same()
    ensures { ChannelsSaySame }
{}
