//! Laws of steps of rules that read views of partitions, each the contract of a function that does nothing.

ghost use Rattle.ess_kind_partitions_laws.specs.PartitionsAtHand.{PartitionRulesHaveWhatTheyAsk, PartitionsAreListed};

/// Of a typed tree each part of which has a value, where views are those of judged domains and their structures are met, what is counted on
/// follows by the rules of views of partitions by part numbers; so they keep what they rewrite.
pub fn partition_rules_have_what_they_ask()
    ensures { PartitionRulesHaveWhatTheyAsk }
{}

/// So does what the listing of such a view counts on, where the name is new.
pub fn views_of_partitions_are_listed()
    ensures { PartitionsAreListed }
{}
