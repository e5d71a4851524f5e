//! Laws of marks of listings, each the contract of a function that does nothing.

ghost use Rattle.ess_listing_marks_laws.specs.ListingsMarked.{ListingsHaveMarks};

/// What a marked term offers as a listing has marks, where its items have the type of the term's members.
pub fn listings_have_marks()
    ensures { ListingsHaveMarks }
{}
