//! The representation of a domain where none is named.
ghost use Rattle.std.specs.Prelude.{◌≡◌, false, if◌then◌else◌, IfOk, map};
ghost use Rattle.ess_semantics.specs.Trees.{repr as repr_of, no_reprs, more_reprs};
ghost use Rattle.ess_semantics.specs.declared.words.ReprKind.TheVariants.{Tuple, Rec, Function1D, Function1DPartial, FunctionND, FunctionNDPartial};
ghost use Rattle.ess_semantics.specs.declared.words.Key.TheVariants.{Size};
ghost use Rattle.ess_semantics.specs.Kinds.{doms_of, has_key as has_the_key, is_atom as is_atom_meant, are_atoms as are_atoms_meant};
ghost use Rattle.ess_semantics.specs.Choice.{reprs_of, alone as alone_meant, over_child, default_set, default_mset, default_relation, default_partition, default_repr, default_reprs};
ghost use Rattle.ess_core.specs.TreeViews.{words_of, pure_attr, pure_repr, pure_dom, pure_doms, pure_field_dom, field_values};

use crate::atoms::{are_atoms, is_atom, is_atom_tuple};
use crate::attributes::has_key;
use ess_core::{Attr, Dom, FieldDom, Key, NoMemory, Repr, ReprKind, Row};
use std::alloc::Global;

/// The representation of a domain where none is named, by the table of choice; its children are chosen by the same table. It fits
/// the domain. `NoMemory` where there is no room for it.
#[cycle(choose)]
#[tactic(auto, using(crate::proofs::Chosen::of_bool, crate::proofs::Chosen::of_int, crate::proofs::Chosen::of_name, crate::proofs::Chosen::function_one, crate::proofs::Chosen::function_many, crate::proofs::Chosen::function_else))]
pub fn choose(alloc: Global, dom: &Dom) -> Result<Repr, NoMemory>
    ensures { IfOk result (λ r. pure_repr r ≡ default_repr (pure_dom dom.now)) }
{
    match dom {
        Dom::Bool => Ok(alone(alloc, ReprKind::Atom)),
        Dom::Int(_) => Ok(alone(alloc, ReprKind::Atom)),
        Dom::Name(_) => Ok(alone(alloc, ReprKind::Atom)),
        Dom::Tuple(parts) => chosen_tuple(alloc, parts.as_slice()),
        Dom::Rec(fields) => chosen_record(alloc, fields.as_slice()),
        Dom::Matrix(_, item) => over(alloc, ReprKind::Matrix, choose(alloc, item.get())?),
        Dom::Set(attrs, member) => {
            chosen_set(alloc, has_key(attrs.as_slice(), Key::Size), member.get())
        }
        Dom::MSet(_, member) => chosen_mset(alloc, member.get()),
        Dom::Function(attrs, from, to) => {
            let (attrs, from, to) = (attrs.as_slice(), from.get(), to.get());
            let total = has_key(attrs, Key::Total);
            let values = choose(alloc, to)?;
            if is_atom(from) {
                return over(alloc, kind_of_one(total), values);
            }
            if is_atom_tuple(from) {
                return over(alloc, kind_of_many(total), values);
            }
            let sized = total || has_key(attrs, Key::Size);
            let pairs = of_pairs(alloc, sized, choose(alloc, from)?, values)?;
            over(alloc, ReprKind::FunctionAsRelation, pairs)
        }
        Dom::Relation(attrs, parts) => chosen_relation(alloc, parts.as_slice(), attrs.as_slice()),
        Dom::Partition(attrs, member) => { chosen_partition(alloc, member.get(), attrs.as_slice()) }
    }
}

/// A representation without children.
#[tactic(auto, using(crate::proofs::Chosen::made_alone))]
fn alone(alloc: Global, kind: ReprKind) -> Repr
    ensures { pure_repr result ≡ alone_meant kind }
{
    Repr {
        kind,
        children: Row::new(alloc),
    }
}

/// A representation with one child. `NoMemory` where there is no room for it; the child is then dropped.
#[tactic(auto, using(crate::proofs::Chosen::made_over))]
fn over(alloc: Global, kind: ReprKind, child: Repr) -> Result<Repr, NoMemory>
    ensures { IfOk result (λ r. pure_repr r ≡ over_child kind (pure_repr child)) }
{
    let children = Row::from_array(alloc, [child])?;
    Ok(Repr { kind, children })
}

/// The representation of a set in slots, where none is named.
fn in_slots(alloc: Global, sized: bool, child: Repr) -> Result<Repr, NoMemory>
    ensures { IfOk result (λ r. pure_repr r ≡ default_set false sized (pure_repr child)) }
{
    let kind = if sized {
        ReprKind::Explicit
    } else {
        ReprKind::ExplicitVarSizeWithMarker
    };
    over(alloc, kind, child)
}

/// That of a tuple.
#[cycle(choose)]
#[tactic(auto, using(crate::proofs::Chosen::made_of))]
fn chosen_tuple(alloc: Global, parts: &[Dom]) -> Result<Repr, NoMemory>
    ensures { IfOk result (λ r. pure_repr r ≡ repr_of Tuple (default_reprs (pure_doms parts.now))) }
{
    let children = chosen_parts(alloc, parts)?;
    Ok(Repr {
        kind: ReprKind::Tuple,
        children,
    })
}

/// That of a record.
#[cycle(choose)]
#[tactic(auto, using(crate::proofs::Chosen::made_of))]
fn chosen_record(alloc: Global, fields: &[FieldDom]) -> Result<Repr, NoMemory>
    ensures { IfOk result (λ r. pure_repr r ≡ repr_of Rec (default_reprs (doms_of (field_values (map pure_field_dom fields.now))))) }
{
    let children = chosen_fields(alloc, fields)?;
    Ok(Repr {
        kind: ReprKind::Rec,
        children,
    })
}

/// Those of all components.
#[cycle(choose)]
#[tactic(auto, using(crate::proofs::Chosen::parts_more, crate::proofs::Chosen::parts_all))]
fn chosen_parts(alloc: Global, parts: &[Dom]) -> Result<Row<Repr>, NoMemory>
    ensures { IfOk result (λ rs. reprs_of (map pure_repr rs) ≡ default_reprs (pure_doms parts.now)) }
{
    let mut chosen = Row::with_capacity(alloc, parts.len())?;
    for part in parts {
        chosen.push(choose(alloc, part)?)?;
    }
    Ok(chosen)
}

/// Those of the domains of all fields.
#[cycle(choose)]
#[tactic(auto, using(crate::proofs::Chosen::fields_more, crate::proofs::Chosen::fields_all))]
fn chosen_fields(alloc: Global, fields: &[FieldDom]) -> Result<Row<Repr>, NoMemory>
    ensures { IfOk result (λ rs. reprs_of (map pure_repr rs) ≡ default_reprs (doms_of (field_values (map pure_field_dom fields.now)))) }
{
    let mut chosen = Row::with_capacity(alloc, fields.len())?;
    for field in fields {
        chosen.push(choose(alloc, &field.dom)?)?;
    }
    Ok(chosen)
}

/// That of a set, which has the attribute `size` or not.
#[cycle(choose)]
fn chosen_set(alloc: Global, sized: bool, member: &Dom) -> Result<Repr, NoMemory>
    ensures { IfOk result (λ r. pure_repr r ≡ default_set (is_atom_meant (pure_dom member.now)) sized (default_repr (pure_dom member.now))) }
{
    if is_atom(member) {
        return Ok(alone(alloc, ReprKind::Occurrence));
    }
    in_slots(alloc, sized, choose(alloc, member)?)
}

/// That of a multiset.
#[cycle(choose)]
fn chosen_mset(alloc: Global, member: &Dom) -> Result<Repr, NoMemory>
    ensures { IfOk result (λ r. pure_repr r ≡ default_mset (is_atom_meant (pure_dom member.now)) (default_repr (pure_dom member.now))) }
{
    if is_atom(member) {
        return Ok(alone(alloc, ReprKind::MSetOccurrence));
    }
    over(
        alloc,
        ReprKind::MSetExplicitWithRepetition,
        choose(alloc, member)?,
    )
}

/// The kind for a function from an atom, total or not.
fn kind_of_one(total: bool) -> ReprKind
    ensures { result ≡ (if total then Function1D else Function1DPartial) }
{
    if total {
        ReprKind::Function1D
    } else {
        ReprKind::Function1DPartial
    }
}

/// The kind for a function from a tuple of atoms, total or not.
fn kind_of_many(total: bool) -> ReprKind
    ensures { result ≡ (if total then FunctionND else FunctionNDPartial) }
{
    if total {
        ReprKind::FunctionND
    } else {
        ReprKind::FunctionNDPartial
    }
}

/// That of a relation of pairs, which has the attribute `size` or not, over those of its two components.
#[tactic(auto, using(crate::proofs::Chosen::made_pairs))]
fn of_pairs(alloc: Global, sized: bool, from: Repr, to: Repr) -> Result<Repr, NoMemory>
    ensures { IfOk result (λ r. pure_repr r ≡ default_relation false sized (more_reprs (pure_repr from) (more_reprs (pure_repr to) no_reprs))) }
{
    let children = Row::from_array(alloc, [from, to])?;
    let tuple = Repr {
        kind: ReprKind::Tuple,
        children,
    };
    over(
        alloc,
        ReprKind::RelationAsSet,
        in_slots(alloc, sized, tuple)?,
    )
}

/// That of a relation.
#[cycle(choose)]
fn chosen_relation(alloc: Global, parts: &[Dom], attrs: &[Attr]) -> Result<Repr, NoMemory>
    ensures { IfOk result (λ r. pure_repr r ≡ default_relation (are_atoms_meant (pure_doms parts.now)) (has_the_key Size (words_of (map pure_attr attrs.now))) (default_reprs (pure_doms parts.now))) }
{
    if are_atoms(parts) {
        return Ok(alone(alloc, ReprKind::RelationAsMatrix));
    }
    let tuple = chosen_tuple(alloc, parts)?;
    let slots = in_slots(alloc, has_key(attrs, Key::Size), tuple)?;
    over(alloc, ReprKind::RelationAsSet, slots)
}

/// That of a partition.
#[cycle(choose)]
fn chosen_partition(alloc: Global, member: &Dom, attrs: &[Attr]) -> Result<Repr, NoMemory>
    ensures { IfOk result (λ r. pure_repr r ≡ default_partition (words_of (map pure_attr attrs.now)) (pure_dom member.now) (default_repr (pure_dom member.now))) }
{
    if is_atom(member) {
        return Ok(alone(alloc, ReprKind::PartitionOccurrence));
    }
    let part = chosen_set(alloc, has_key(attrs, Key::PartSize), member)?;
    let slots = in_slots(alloc, has_key(attrs, Key::NumParts), part)?;
    over(alloc, ReprKind::PartitionAsSet, slots)
}
