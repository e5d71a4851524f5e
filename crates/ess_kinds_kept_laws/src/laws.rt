//! Laws of the rules that read the kind of a view, each the contract of a function that does nothing.

ghost use Rattle.ess_kinds_kept_laws.specs.MultisetAsks.{CountedMultisetsServe};
ghost use Rattle.ess_kinds_kept_laws.specs.PartitionAsks.{PartitionsByNumberServe};
ghost use Rattle.ess_kinds_kept_laws.specs.FunctionAsks.{FunctionSizesServe};
ghost use Rattle.ess_kinds_kept_laws.specs.ViewAsks.{ViewsOffer};
ghost use Rattle.ess_kinds_kept_laws.specs.LookupAsks.{TermsAreLookedUp};
ghost use Rattle.ess_kinds_kept_laws.specs.UnorderedTails.{UnorderedTails};
ghost use Rattle.ess_kinds_kept_laws.specs.CanonicalChildren.{CanonicalChildren};
ghost use Rattle.ess_kinds_kept_laws.specs.KindAsks.{KindRulesKeep};

/// Sizes and frequencies of views of multisets keep what they rewrite, whatever the kind, and the set of the members is offered. A view in
/// slots with numbers offers the view in each slot as often as its number says.
pub fn counted_multisets_serve()
    ensures { CountedMultisetsServe }
{}

/// The size of a view of a total function is the bound of its first domain, where that says how many members the domain has.
pub fn function_sizes_serve()
    ensures { FunctionSizesServe }
{}

/// Of a partition that is kept by the number of each member's part, the part with a term has the members with its number, members lie
/// together where some number is that of all, and the parts are listed by their numbers: where the term's own number tells it from all
/// members, and no more parts are there than the bound of the inner domain says.
pub fn partitions_by_number_serve()
    ensures { PartitionsByNumberServe }
{}

/// Each view offers what its kind has as a listing, where its tables meet its structure and it has what the kind asks.
pub fn views_offer()
    ensures { ViewsOffer }
{}

/// What is picked out of any term is looked up: of views of functions, of literals, of other functions, and of views of matrices,
/// at any depth.
pub fn terms_are_looked_up()
    ensures { TermsAreLookedUp }
{}

/// Each rule that reads the kind of a view keeps what it rewrites where it has what it counts on, and so does the first one that fires.
pub fn kind_rules_keep()
    ensures { KindRulesKeep }
{}

/// Where the cells of a view are canonical, so are those of each child at each place in use, whatever the kind, and they are tidy where the
/// child's kinds are ones for its domain. So what is asked of the view of a child as which a value is kept follows from canonical tables.
pub fn canonical_children_serve()
    ensures { CanonicalChildren }
{}

/// What keeps the multiset of the items of a comprehension at each binding of generators keeps any word that forgets order over the
/// comprehension with these generators before its own: so a rule for the first generator serves at a later one.
pub fn tails_may_change_their_order()
    ensures { UnorderedTails }
{}
