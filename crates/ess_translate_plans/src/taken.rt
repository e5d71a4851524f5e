//! The names that tables can't have.
ghost use Rattle.std.specs.Prelude.{◌≡◌, ◌++◌, ◌∷◌, map, OnOk, IfOk};
ghost use Rattle.std.specs.Option.{option_copied};
ghost use Rattle.ess_semantics.specs.Order.{same_text};
ghost use Rattle.ess_semantics.specs.Names.{is_among, keys, without};
ghost use Rattle.ess_semantics.specs.Parameters.{all_declared};
ghost use Rattle.ess_semantics.specs.Judgements.{declares};
ghost use Rattle.ess_core.specs.StatementViews.{pure_stm};
ghost use Rattle.ess_translate_plans_laws.specs.Requests.{SameNames, declared_beside, first_among};
ghost use Rattle.ess_translate_plans_laws.specs.Laws.{taken_at_first};
ghost use Rattle.ess_translate_plans.specs.Views.{pure_table_name, decl_text};

use crate::plans::TableName;
use ess_core::{CellDecl, NoMemory, Stm, Text};
use ess_types_scopes::NameSet;
use std::alloc::Global;
use std::cmp::Ordering;

/// Whether two names are equal.
fn same_name(a: &Text, b: &Text) -> bool
    ensures { result ≡ same_text a.now b.now }
{
    a.cmp(b) == Ordering::Equal
}

/// Whether a table of `own` can't have this name: it is declared, for something else than `own` or where `all` says so for anything,
/// or an earlier table has it.
#[tactic(auto, using(crate::proofs::Turns::among_both))]
pub(crate) fn is_taken(
    all: bool,
    own: &Text,
    declared: &NameSet,
    tables: &NameSet,
    name: &Text,
) -> bool
    ensures { result ≡ is_among (declared_beside all own.now declared.now ++ tables.now) name.now }
{
    is_declared(all, own, declared, name) || tables.has(name)
}

/// Whether a name is declared, for something else than `own` or where `all` says so for anything.
#[tactic(auto, using(crate::proofs::Turns::beside_all, crate::proofs::Turns::beside_own))]
fn is_declared(all: bool, own: &Text, declared: &NameSet, name: &Text) -> bool
    ensures { result ≡ is_among (declared_beside all own.now declared.now) name.now }
{
    if all {
        declared.has(name)
    } else {
        is_other(own, declared, name)
    }
}

/// Whether a name is declared and another one than `own`.
#[tactic(auto, using(crate::proofs::Turns::without_own, crate::proofs::Turns::without_other))]
fn is_other(own: &Text, declared: &NameSet, name: &Text) -> bool
    ensures { result ≡ is_among (without own.now declared.now) name.now }
{
    if same_name(own, name) {
        false
    } else {
        declared.has(name)
    }
}

/// The name of the first of these tables that is taken.
#[tactic(auto, using(crate::proofs::Turns::taken_here, crate::proofs::Turns::taken_later, crate::proofs::Turns::taken_nowhere))]
pub(crate) fn first_taken<'a>(
    decls: &'a [CellDecl],
    all: bool,
    own: &Text,
    declared: &NameSet,
    tables: &NameSet,
) -> Option<&'a Text>
    ensures { option_copied result ≡ first_among (declared_beside all own.now declared.now ++ tables.now) (map decl_text decls.now) }
{
    for decl in decls {
        if is_taken(all, own, declared, tables, &decl.name) {
            return Some(&decl.name);
        }
    }
    None
}

/// Adds the names of tables. `NoMemory` where there is no room for them; some may then be added.
#[tactic(auto, using(crate::proofs::Turns::names_none, crate::proofs::Turns::names_more, crate::proofs::Turns::names_all))]
pub(crate) fn add_names(
    alloc: Global,
    names: &[TableName],
    tables: &mut NameSet,
) -> Result<(), NoMemory>
    ensures { OnOk result (SameNames tables.new (keys (map pure_table_name names.now) ++ tables.old)) }
{
    for name in names {
        tables.add(alloc, &name.name)?;
    }
    Ok(())
}

// ---- the names that are declared

/// The names that no table has before any has one.
pub(crate) fn first_names(alloc: Global) -> Result<NameSet, NoMemory>
    ensures { IfOk result (λ ns. ns ≡ taken_at_first) }
{
    let mut names = NameSet::new(alloc);
    names.add(alloc, &Text::from_str(alloc, "alldifferent_except")?)?;
    Ok(names)
}

/// The names that statements declare. `NoMemory` where there is no room for them.
#[tactic(auto, using(crate::proofs::Turns::declared_none, crate::proofs::Turns::declared_more, crate::proofs::Turns::declared_all))]
pub fn declared_names(alloc: Global, stms: &[Stm]) -> Result<NameSet, NoMemory>
    ensures { IfOk result (λ ns. SameNames ns (all_declared (map pure_stm stms.now))) }
{
    let mut names = NameSet::new(alloc);
    for stm in stms {
        add_declared(alloc, stm, &mut names)?;
    }
    Ok(names)
}

/// Adds the names that a statement declares.
#[tactic(auto, using(crate::proofs::Turns::one_declared))]
fn add_declared(alloc: Global, stm: &Stm, names: &mut NameSet) -> Result<(), NoMemory>
    ensures { OnOk result (SameNames names.new (declares (pure_stm stm.now) ++ names.old)) }
{
    match stm {
        Stm::Given(name, _) => add_one(alloc, name, &[], names),
        Stm::GivenEnum(name) => add_one(alloc, name, &[], names),
        Stm::LetEx(name, _) => add_one(alloc, name, &[], names),
        Stm::LetDom(name, _) => add_one(alloc, name, &[], names),
        Stm::LetEnum(name, values) => add_one(alloc, name, values.as_slice(), names),
        Stm::LetUnnamed(name, _) => add_one(alloc, name, &[], names),
        Stm::Find(name, _) => add_one(alloc, name, &[], names),
        _ => Ok(()),
    }
}

/// Adds a name, and others.
#[tactic(auto, using(crate::proofs::Turns::texts_none, crate::proofs::Turns::texts_more, crate::proofs::Turns::texts_all))]
fn add_one(alloc: Global, name: &Text, others: &[Text], names: &mut NameSet) -> Result<(), NoMemory>
    ensures { OnOk result (SameNames names.new ((name.now ∷ others.now) ++ names.old)) }
{
    names.add(alloc, name)?;
    for other in others {
        names.add(alloc, other)?;
    }
    Ok(())
}
