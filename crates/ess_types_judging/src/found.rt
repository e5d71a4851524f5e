//! What is found of a part of a statement in its scope: a truth value for each thing that judging asks of all that the part
//! holds.
ghost use Rattle.std.specs.Prelude.{◌≡◌};
ghost use Rattle.ess_types_judging_laws.specs.Found.{all_well as are_all_well, both as both_of, at_place as placed};
ghost use Rattle.ess_types_judging_laws.specs.Combined.{layer as layer_of};
ghost use Rattle.ess_types_judging.specs.Findings.{pure_found};

/// The findings of a part, each said of the part and of all parts in it.
#[derive(Clone, Copy, Debug)]
pub struct Found {
    /// All names are known.
    pub known: bool,
    /// Patterns bind new names.
    pub fresh: bool,
    /// Types fit.
    pub fits: bool,
    /// No find is mentioned.
    pub fixed: bool,
    /// Each comprehension is ordered where order counts, if it counts at the part's own place.
    pub in_order: bool,
    /// The same if order doesn't count at the part's own place.
    pub unordered: bool,
    /// Domains of generators are finite.
    pub finite: bool,
    /// Domains of generators and those that an attribute lists are enumerable, and numbers of domains are fixed.
    pub enumerable: bool,
}

/// Nothing is amiss.
pub fn all_well() -> Found
    ensures { pure_found result ≡ are_all_well }
{
    Found {
        known: true,
        fresh: true,
        fits: true,
        fixed: true,
        in_order: true,
        unordered: true,
        finite: true,
        enumerable: true,
    }
}

/// What is found of two parts together.
pub fn both(f: Found, g: Found) -> Found
    ensures { pure_found result ≡ both_of (pure_found f) (pure_found g) }
{
    Found {
        known: f.known & g.known,
        fresh: f.fresh & g.fresh,
        fits: f.fits & g.fits,
        fixed: f.fixed & g.fixed,
        in_order: f.in_order & g.in_order,
        unordered: f.unordered & g.unordered,
        finite: f.finite & g.finite,
        enumerable: f.enumerable & g.enumerable,
    }
}

/// What is found of a part at a place of which `counts` says whether order counts there.
pub fn at_place(counts: bool, f: Found) -> Found
    ensures { pure_found result ≡ placed counts (pure_found f) }
{
    if counts {
        Found {
            unordered: f.in_order,
            ..f
        }
    } else {
        Found {
            in_order: f.unordered,
            ..f
        }
    }
}

/// A part of which is asked by itself whether types fit.
pub fn layer(fits: bool) -> Found
    ensures { pure_found result ≡ layer_of fits }
{
    Found { fits, ..all_well() }
}
