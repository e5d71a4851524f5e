//! Patterns at types: whether they fit, and what they bind.
ghost use Rattle.std.specs.Prelude.{◌≡◌, [], ◌∷◌, map, option_map, IfOk, OnOk};
ghost use Rattle.std.specs.Option.{option_copied};
ghost use Rattle.ess_semantics.specs.Trees.{tuple_pat};
ghost use Rattle.ess_semantics.specs.Types.{any_ty, no_tys, more_tys, parts_of_ty, bind_types as bind, bind_all_types};
ghost use Rattle.ess_semantics.specs.ExpressionJudgements.{pattern_fits, patterns_fit};
ghost use Rattle.ess_core.specs.TypeViews.{pure_ty, pure_tys, pure_field_ty};
ghost use Rattle.ess_core.specs.TreeViews.{pure_pat, pats_of};
ghost use Rattle.ess_types_operators.specs.Parts.{ty_at, types_in, newest_first};

use ess_core::{FieldTy, NoMemory, Pat, Row, Text, Ty};
use std::alloc::Global;

/// Whether a tuple of patterns has the length of the tuple that it takes apart, in each part.
#[cycle(pattern_fits)]
pub fn pattern_fits(pat: &Pat, ty: &Ty) -> bool
    ensures { result ≡ pattern_fits (pure_pat pat.now) (pure_ty ty.now) }
{
    match pat {
        Pat::Name(_) => true,
        Pat::Tuple(pats) => tuple_fits(pats.as_slice(), ty),
    }
}

/// Whether patterns take apart values of the type.
#[cycle(pattern_fits)]
fn tuple_fits(pats: &[Pat], ty: &Ty) -> bool
    ensures { result ≡ pattern_fits (tuple_pat (pats_of (map pure_pat pats.now))) (pure_ty ty.now) }
{
    match ty {
        Ty::Any => true,
        Ty::Tuple(tys) => patterns_fit(pats, tys.as_slice()),
        _ => false,
    }
}

/// Whether there are as many patterns as types, and each fits.
#[cycle(pattern_fits)]
#[tactic(auto, using(crate::proofs::PatternLemmas::fit_more, crate::proofs::PatternLemmas::fit_none, crate::proofs::PatternLemmas::fit_short, crate::proofs::PatternLemmas::fit_long, crate::proofs::PatternLemmas::fit_all))]
fn patterns_fit(pats: &[Pat], tys: &[Ty]) -> bool
    ensures { result ≡ patterns_fit (pats_of (map pure_pat pats.now)) (pure_tys tys.now) }
{
    for (i, pat) in pats.iter().enumerate() {
        if i >= tys.len() {
            return false;
        }
        if !pattern_fits(pat, &tys[i]) {
            return false;
        }
    }
    if pats.len() < tys.len() {
        return false;
    }
    true
}

/// Pushes what a pattern binds at a type: each name with its type, the newest last. `NoMemory` where there is no room for
/// it; the names then hold what they held, and perhaps more behind it.
#[cycle(bind_types)]
pub fn bind_types(
    alloc: Global,
    pat: &Pat,
    ty: &Ty,
    names: &mut Row<FieldTy>,
) -> Result<(), NoMemory>
    ensures { OnOk result (newest_first names.new ≡ bind (pure_pat pat.now) (pure_ty ty.now) (newest_first names.old)) }
{
    match pat {
        Pat::Name(name) => push_name(alloc, name, ty, names),
        Pat::Tuple(pats) => bind_parts(alloc, pats.as_slice(), ty, names),
    }
}

/// The same of several patterns at the parts of a type; those behind the last part bind names of any type.
#[cycle(bind_types)]
#[tactic(auto, using(crate::proofs::PatternLemmas::parts_more, crate::proofs::PatternLemmas::parts_any))]
fn bind_parts(
    alloc: Global,
    pats: &[Pat],
    ty: &Ty,
    names: &mut Row<FieldTy>,
) -> Result<(), NoMemory>
    ensures { OnOk result (newest_first names.new ≡ bind_all_types (pats_of (map pure_pat pats.now)) (parts_of_ty (pure_ty ty.now)) (newest_first names.old)) }
{
    for (i, pat) in pats.iter().enumerate() {
        match part(ty, i) {
            Some(part) => bind_types(alloc, pat, part, names)?,
            None => bind_any(alloc, pat, names)?,
        }
    }
    Ok(())
}

/// What a pattern binds at the type of the members of an empty literal.
#[cycle(bind_any)]
fn bind_any(alloc: Global, pat: &Pat, names: &mut Row<FieldTy>) -> Result<(), NoMemory>
    ensures { OnOk result (newest_first names.new ≡ bind (pure_pat pat.now) any_ty (newest_first names.old)) }
{
    match pat {
        Pat::Name(name) => push_any(alloc, name, names),
        Pat::Tuple(pats) => bind_each_any(alloc, pats.as_slice(), names),
    }
}

/// The same of several patterns.
#[cycle(bind_any)]
#[tactic(auto, using(crate::proofs::PatternLemmas::any_more))]
fn bind_each_any(alloc: Global, pats: &[Pat], names: &mut Row<FieldTy>) -> Result<(), NoMemory>
    ensures { OnOk result (newest_first names.new ≡ bind_all_types (pats_of (map pure_pat pats.now)) (parts_of_ty any_ty) (newest_first names.old)) }
{
    for pat in pats {
        bind_any(alloc, pat, names)?;
    }
    Ok(())
}

/// Pushes a name with a type.
#[tactic(auto, using(crate::proofs::PatternLemmas::one_pushed))]
fn push_name(alloc: Global, name: &Text, ty: &Ty, names: &mut Row<FieldTy>) -> Result<(), NoMemory>
    ensures { OnOk result (newest_first names.new ≡ (name.now, pure_ty ty.now) ∷ newest_first names.old) }
{
    let name = name.copy(alloc)?;
    match ty.copy(alloc) {
        Ok(ty) => names.push(FieldTy { name, ty }),
        Err(no) => Err(no),
    }
}

/// Pushes a name with the type of the members of an empty literal.
#[tactic(auto, using(crate::proofs::PatternLemmas::one_pushed))]
fn push_any(alloc: Global, name: &Text, names: &mut Row<FieldTy>) -> Result<(), NoMemory>
    ensures { OnOk result (newest_first names.new ≡ (name.now, any_ty) ∷ newest_first names.old) }
{
    let name = name.copy(alloc)?;
    names.push(FieldTy { name, ty: Ty::Any })
}

/// The part of a type at a place.
fn part<'a>(ty: &'a Ty, at: usize) -> Option<&'a Ty>
    ensures { option_map pure_ty (option_copied result) ≡ ty_at (parts_of_ty (pure_ty ty.now)) at }
{
    match ty {
        Ty::Tuple(tys) => listed_part(tys.as_slice(), at),
        Ty::Rec(fields) => field_part(fields.as_slice(), at),
        Ty::Matrix(index, item) => one_of_two(index.get(), item.get(), at),
        Ty::Set(member) => only_part(member.get(), at),
        Ty::MSet(member) => only_part(member.get(), at),
        Ty::Function(from, to) => one_of_two(from.get(), to.get(), at),
        Ty::Relation(tys) => listed_part(tys.as_slice(), at),
        Ty::Partition(member) => only_part(member.get(), at),
        _ => None,
    }
}

/// The type at a place.
#[tactic(auto, using(crate::proofs::PatternLemmas::part_there, crate::proofs::PatternLemmas::part_past))]
fn listed_part<'a>(tys: &'a [Ty], at: usize) -> Option<&'a Ty>
    ensures { option_map pure_ty (option_copied result) ≡ ty_at (pure_tys tys.now) at }
{
    if at >= tys.len() {
        return None;
    }
    Some(&tys[at])
}

/// The type of the field at a place.
#[tactic(auto, using(crate::proofs::PatternLemmas::field_there, crate::proofs::PatternLemmas::field_past))]
fn field_part<'a>(fields: &'a [FieldTy], at: usize) -> Option<&'a Ty>
    ensures { option_map pure_ty (option_copied result) ≡ ty_at (types_in (map pure_field_ty fields.now)) at }
{
    if at >= fields.len() {
        return None;
    }
    Some(&fields[at].ty)
}

/// The part of a type with two parts at a place.
fn one_of_two<'a>(first: &'a Ty, second: &'a Ty, at: usize) -> Option<&'a Ty>
    ensures { option_map pure_ty (option_copied result) ≡ ty_at (more_tys (pure_ty first.now) (more_tys (pure_ty second.now) no_tys)) at }
{
    if at == 0 {
        return Some(first);
    }
    if at == 1 {
        return Some(second);
    }
    None
}

/// The part of a type with one part at a place.
fn only_part<'a>(only: &'a Ty, at: usize) -> Option<&'a Ty>
    ensures { option_map pure_ty (option_copied result) ≡ ty_at (more_tys (pure_ty only.now) no_tys) at }
{
    if at == 0 {
        return Some(only);
    }
    None
}

/// What a pattern binds at a type: each name with its type, the newest last. `NoMemory` where there is no room for it.
pub fn bound_types(alloc: Global, pat: &Pat, ty: &Ty) -> Result<Row<FieldTy>, NoMemory>
    ensures { IfOk result (λ r. newest_first r ≡ bind (pure_pat pat.now) (pure_ty ty.now) []) }
{
    let mut names = Row::new(alloc);
    bind_types(alloc, pat, ty, &mut names)?;
    Ok(names)
}
