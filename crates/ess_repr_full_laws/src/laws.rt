//! Laws of full tables, each the contract of a function that does nothing.

ghost use Rattle.ess_repr_full_laws.specs.Laws.{TablesAreFullBelow};

/// Tables on the declared axes with items in the declared domains are full for the structure constraint of their view, where the tables of
/// the env are full for the view's domain: where the cells and views that its numbers read find what they read.
pub fn tables_are_full_below()
    ensures { TablesAreFullBelow }
{}
