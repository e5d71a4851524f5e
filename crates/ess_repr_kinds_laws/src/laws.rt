//! Laws of every kind of representation, each the contract of a function that does nothing.

ghost use Rattle.ess_repr_kinds_laws.specs.Laws.{ChannelsOfFittingTables, EveryLayerIsComposed};

/// A channel between two views of any domain, bool too, is true exactly where both stand for one value, over tables that fit.
pub fn channels_of_fitting_tables()
    ensures { ChannelsOfFittingTables }
{}

/// One layer of every kind: without children, with one child, and of components.
pub fn every_layer_is_composed()
    ensures { EveryLayerIsComposed }
{}
