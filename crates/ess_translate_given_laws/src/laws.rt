//! Laws of given tables, each the contract of a function that does nothing.

ghost use Rattle.ess_translate_given_laws.specs.Laws.{HeadersFit, GivenTablesAreThere, GivenTablesArePrinted};
ghost use Rattle.ess_translate_given_laws.specs.Laws.{PlansAddOneByOne, TooManyByPlans};

/// Each plan of a header of this tool fits its domain.
pub fn headers_fit()
    ensures { HeadersFit }
{}

/// A parameter of a header of this tool has its given tables, and each plan of a given its own among them.
pub fn given_tables_are_there()
    ensures { GivenTablesAreThere }
{}

/// Tables, declarations and numbers of cells are what the plans add one after the other.
pub fn plans_add_one_by_one()
    ensures { PlansAddOneByOne }
{}

/// The first given or find with too many cells is found plan by plan.
pub fn too_many_by_plans()
    ensures { TooManyByPlans }
{}

/// Given tables fit the declarations of a model that declares them, and their text is read as them.
pub fn given_tables_are_printed()
    ensures { GivenTablesArePrinted }
{}
