//! Which representations fit a domain. Only the form of the domain and the names of its attributes count.
ghost use Rattle.std.specs.Prelude.{◌≡◌, map};
ghost use Rattle.ess_semantics.specs.Trees.{bool_dom, tuple_dom, record_dom, matrix_dom, mset_dom, function_dom, partition_dom};
ghost use Rattle.ess_semantics.specs.Names.{keys};
ghost use Rattle.ess_semantics.specs.Choice.{reprs_of};
ghost use Rattle.ess_semantics.specs.Kinds.{fits as fits_meant, all_fit as all_fit_meant, doms_of, dom_list};
ghost use Rattle.ess_core.specs.TreeViews.{words_of, within, exs_of, pure_attr, pure_repr, pure_dom, pure_doms, pure_field_dom, field_values};

use crate::atoms::{is_atom, is_atom_tuple};
use crate::attributes::has_key;
use crate::fitting_pairs::pairs_fit;
use crate::fitting_sets::{child_fits, is_leaf, parts_fit_sets, set_fits};
use crate::fitting_tuples::relation_fits;
use ess_core::{Attr, Dom, FieldDom, Key, Repr, ReprKind};

/// Whether a representation fits a domain: each kind is one for its layer, and each child fits its own domain. Takes no memory.
#[cycle(fits)]
#[tactic(auto, using(crate::proofs::FittingChildren::kind_in, crate::proofs::SizedForms::ints_alike, crate::proofs::SizedForms::names_alike, crate::proofs::SizedForms::set_sized, crate::proofs::SizedForms::relation_sized))]
pub fn fits(repr: &Repr, dom: &Dom) -> bool
    ensures { result ≡ fits_meant (pure_repr repr.now) (pure_dom dom.now) }
{
    match dom {
        Dom::Bool => atom_fits(repr),
        Dom::Int(_) => atom_fits(repr),
        Dom::Name(_) => atom_fits(repr),
        Dom::Tuple(parts) => tuple_fits(repr, parts.as_slice()),
        Dom::Rec(fields) => record_fits(repr, fields.as_slice()),
        Dom::Matrix(axes, item) => matrix_fits(repr, axes.as_slice(), item.get()),
        Dom::Set(attrs, member) => {
            set_fits(repr, has_key(attrs.as_slice(), Key::Size), member.get())
        }
        Dom::MSet(attrs, member) => mset_fits(repr, attrs.as_slice(), member.get()),
        Dom::Function(attrs, from, to) => {
            function_fits(repr, attrs.as_slice(), from.get(), to.get())
        }
        Dom::Relation(attrs, parts) => {
            relation_fits(repr, has_key(attrs.as_slice(), Key::Size), parts.as_slice())
        }
        Dom::Partition(attrs, member) => partition_fits(repr, attrs.as_slice(), member.get()),
    }
}

/// Whether a representation is one of atoms.
#[tactic(auto, using(crate::proofs::FittingChildren::kind_in))]
fn atom_fits(repr: &Repr) -> bool
    ensures { result ≡ fits_meant (pure_repr repr.now) bool_dom }
{
    match repr.kind {
        ReprKind::Atom => is_leaf(repr.children.as_slice()),
        _ => false,
    }
}

/// Whether a representation fits tuples of these components.
#[cycle(fits)]
#[tactic(auto, using(crate::proofs::FittingChildren::kind_in))]
pub(crate) fn tuple_fits(repr: &Repr, parts: &[Dom]) -> bool
    ensures { result ≡ fits_meant (pure_repr repr.now) (tuple_dom (pure_doms parts.now)) }
{
    match repr.kind {
        ReprKind::Tuple => parts_fit(repr.children.as_slice(), parts),
        _ => false,
    }
}

/// Whether a representation fits records of these fields.
#[cycle(fits)]
#[tactic(auto, using(crate::proofs::FittingChildren::kind_in))]
fn record_fits(repr: &Repr, fields: &[FieldDom]) -> bool
    ensures { result ≡ fits_meant (pure_repr repr.now) (record_dom (keys (map pure_field_dom fields.now)) (doms_of (field_values (map pure_field_dom fields.now)))) }
{
    match repr.kind {
        ReprKind::Rec => fields_fit(repr.children.as_slice(), fields),
        _ => false,
    }
}

/// Whether a representation fits matrices over these axes.
#[cycle(fits)]
#[tactic(auto, using(crate::proofs::FittingChildren::kind_in))]
fn matrix_fits(repr: &Repr, axes: &[Dom], item: &Dom) -> bool
    ensures { result ≡ fits_meant (pure_repr repr.now) (matrix_dom (pure_doms axes.now) (pure_dom item.now)) }
{
    match repr.kind {
        ReprKind::Matrix => child_fits(repr.children.as_slice(), item),
        _ => false,
    }
}

/// Whether there are as many children as domains, and each fits its own.
#[cycle(fits)]
#[tactic(auto, using(crate::proofs::FittingChildren::parts_unequal, crate::proofs::FittingChildren::parts_more, crate::proofs::FittingChildren::parts_none, crate::proofs::FittingChildren::parts_all))]
fn parts_fit(children: &[Repr], parts: &[Dom]) -> bool
    ensures { result ≡ all_fit_meant (reprs_of (map pure_repr children.now)) (dom_list (pure_doms parts.now)) }
{
    if children.len() != parts.len() {
        return false;
    }
    for (i, child) in children.iter().enumerate() {
        if !fits(child, &parts[i]) {
            return false;
        }
    }
    true
}

/// The same of the domains of fields.
#[cycle(fits)]
#[tactic(auto, using(crate::proofs::FittingChildren::fields_unequal, crate::proofs::FittingChildren::fields_more, crate::proofs::FittingChildren::fields_none, crate::proofs::FittingChildren::fields_all))]
fn fields_fit(children: &[Repr], fields: &[FieldDom]) -> bool
    ensures { result ≡ all_fit_meant (reprs_of (map pure_repr children.now)) (dom_list (doms_of (field_values (map pure_field_dom fields.now)))) }
{
    if children.len() != fields.len() {
        return false;
    }
    for (i, child) in children.iter().enumerate() {
        if !fits(child, &fields[i].dom) {
            return false;
        }
    }
    true
}

/// Whether a representation fits a multiset.
#[cycle(fits)]
#[tactic(auto, using(crate::proofs::FittingChildren::kind_in))]
fn mset_fits(repr: &Repr, attrs: &[Attr], member: &Dom) -> bool
    ensures { result ≡ fits_meant (pure_repr repr.now) (mset_dom (words_of (map pure_attr attrs.now)) (exs_of (within (map pure_attr attrs.now))) (pure_dom member.now)) }
{
    let children = repr.children.as_slice();
    match repr.kind {
        ReprKind::MSetOccurrence => is_atom(member) && is_leaf(children),
        ReprKind::MSetExplicitWithRepetition => child_fits(children, member),
        ReprKind::MSetExplicitWithFlags => child_fits(children, member),
        _ => false,
    }
}

/// Whether a representation fits a function.
#[cycle(fits)]
#[tactic(auto, using(crate::proofs::FittingChildren::kind_in, crate::proofs::SizedForms::pairs_are))]
fn function_fits(repr: &Repr, attrs: &[Attr], from: &Dom, to: &Dom) -> bool
    ensures { result ≡ fits_meant (pure_repr repr.now) (function_dom (words_of (map pure_attr attrs.now)) (exs_of (within (map pure_attr attrs.now))) (pure_dom from.now) (pure_dom to.now)) }
{
    let children = repr.children.as_slice();
    match repr.kind {
        ReprKind::Function1D => {
            has_key(attrs, Key::Total) && is_atom(from) && child_fits(children, to)
        }
        ReprKind::Function1DPartial => is_atom(from) && child_fits(children, to),
        ReprKind::FunctionND => {
            has_key(attrs, Key::Total) && is_atom_tuple(from) && child_fits(children, to)
        }
        ReprKind::FunctionNDPartial => is_atom_tuple(from) && child_fits(children, to),
        ReprKind::FunctionAsRelation => {
            let sized = has_key(attrs, Key::Total) || has_key(attrs, Key::Size);
            pairs_fit(children, sized, from, to)
        }
        _ => false,
    }
}

/// Whether a representation fits a partition.
#[cycle(fits)]
#[tactic(auto, using(crate::proofs::FittingChildren::kind_in, crate::proofs::SizedForms::parts_are))]
fn partition_fits(repr: &Repr, attrs: &[Attr], member: &Dom) -> bool
    ensures { result ≡ fits_meant (pure_repr repr.now) (partition_dom (words_of (map pure_attr attrs.now)) (exs_of (within (map pure_attr attrs.now))) (pure_dom member.now)) }
{
    let children = repr.children.as_slice();
    match repr.kind {
        ReprKind::PartitionOccurrence => is_atom(member) && is_leaf(children),
        ReprKind::PartitionAsSet => {
            let sized = has_key(attrs, Key::NumParts);
            parts_fit_sets(children, sized, has_key(attrs, Key::PartSize), member)
        }
        _ => false,
    }
}
