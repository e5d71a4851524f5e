//! Laws of structures of judged domains, each the contract of a function that does nothing.

ghost use Rattle.ess_repr_structure_laws.specs.Laws.{JudgedDomainsAreOrderly, JudgedViewsAreReady, JudgedStructuresMeanCanonical, StructuresAreTotal, StructuresSpellConstants, TablesMeetStructures, TablesAreFull, JudgedNumbersAreNumbers, JudgedLiteralsFit};

/// A domain that meets the judgements is one that the other laws speak of.
pub fn judged_domains_are_orderly()
    ensures { JudgedDomainsAreOrderly }
{}

/// What a structure asks of the parts of its view's domain follows from the judgements.
pub fn judged_views_are_ready()
    ensures { JudgedViewsAreReady }
{}

/// The structure constraint of a view of a judged domain means that its cells are canonical.
pub fn judged_structures_mean_canonical()
    ensures { JudgedStructuresMeanCanonical }
{}

/// The structure constraint of a view is total where the numbers of its domain are, or stand under their conditions; and means the same
/// with them.
pub fn structures_are_total()
    ensures { StructuresAreTotal }
{}

/// The structure constraint of a view spells no numbers but those of its domain, 0, 1 and 2.
pub fn structures_spell_constants()
    ensures { StructuresSpellConstants }
{}

/// Tables on the declared axes with items in the declared domains meet the structures of the structure constraint.
pub fn tables_meet_structures()
    ensures { TablesMeetStructures }
{}

/// Tables on the declared axes with items in the declared domains are full for the structure constraint, and no name over items stands in an
/// index list under it, where its view's domain reads no table.
pub fn tables_are_full()
    ensures { TablesAreFull }
{}

/// The bounds and attribute values of a judged domain are whole numbers.
pub fn judged_numbers_are_numbers()
    ensures { JudgedNumbersAreNumbers }
{}

/// Literals of a judged statement stand where types allow them, once it is resolved.
pub fn judged_literals_fit()
    ensures { JudgedLiteralsFit }
{}
