ghost use Rattle.std.specs.Prelude.{◌≡◌, ◌↔◌, map};
ghost use Rattle.std.specs.declared.cmp.Ordering.TheVariants.{Equal};
ghost use Rattle.ess_semantics.specs.Values.{of_list};
ghost use Rattle.ess_semantics.specs.Names.{keys};
ghost use Rattle.ess_semantics.specs.Order.{order as order_of, orders, order_texts};
ghost use Rattle.ess_core.specs.ValueViews.{pure_val, pure_vals, pure_field_val, pure_pair};
ghost use Rattle.ess_values.specs.Forms.{form_rank};

use ess_core::{FieldVal, Pair, Val};
use std::cmp::Ordering;

/// The order of two values of one type: numbers by size, false below true, values of a named type by position, and all
/// else lexicographically over the lists of the value, where a prefix is lower. Values of different kinds are ordered by
/// their kinds. It is `Equal` exactly
/// where the two are equal. It takes no memory.
pub fn order(a: &Val, b: &Val) -> Ordering
    ensures order { result ≡ order_of (pure_val a.now) (pure_val b.now) }
    ensures equal { (result ≡ Equal) ↔ (a.now ≡ b.now) }
{
    order_val(a, b)
}

/// The order of two values.
#[cycle(order)]
pub(crate) fn order_val(a: &Val, b: &Val) -> Ordering
    ensures { result ≡ order_of (pure_val a.now) (pure_val b.now) }
{
    match (a, b) {
        (Val::Num(x), Val::Num(y)) => x.cmp(y),
        (Val::Truth(x), Val::Truth(y)) => x.cmp(y),
        (Val::Item(t, i), Val::Item(u, j)) => t.cmp(u).then(i.cmp(j)),
        (Val::Tuple(xs), Val::Tuple(ys)) => order_vals(xs.as_slice(), ys.as_slice()),
        (Val::Rec(xs), Val::Rec(ys)) => {
            order_names(xs.as_slice(), ys.as_slice()).then(order_fields(
                xs.as_slice(),
                ys.as_slice(),
            ))
        }
        (Val::Matrix(is, xs), Val::Matrix(js, ys)) => {
            order_vals(is.as_slice(), js.as_slice()).then(order_vals(xs.as_slice(), ys.as_slice()))
        }
        (Val::Set(xs), Val::Set(ys)) => order_vals(xs.as_slice(), ys.as_slice()),
        (Val::MSet(xs), Val::MSet(ys)) => order_vals(xs.as_slice(), ys.as_slice()),
        (Val::Function(xs), Val::Function(ys)) => order_pairs(xs.as_slice(), ys.as_slice()),
        (Val::Relation(xs), Val::Relation(ys)) => order_vals(xs.as_slice(), ys.as_slice()),
        (Val::Partition(xs), Val::Partition(ys)) => order_vals(xs.as_slice(), ys.as_slice()),
        (_, _) => rank(a).cmp(&rank(b)),
    }
}

/// The rank of a value's kind.
fn rank(val: &Val) -> u8
    ensures { result ≡ form_rank (pure_val val.now) }
{
    match val {
        Val::Num(_) => 0,
        Val::Truth(_) => 1,
        Val::Item(_, _) => 2,
        Val::Tuple(_) => 3,
        Val::Rec(_) => 4,
        Val::Matrix(_, _) => 5,
        Val::Set(_) => 6,
        Val::MSet(_) => 7,
        Val::Function(_) => 8,
        Val::Relation(_) => 9,
        Val::Partition(_) => 10,
    }
}

/// The order of two lists of values: the first that differs decides, and a prefix is lower.
#[cycle(order)]
#[tactic(auto, using(crate::proofs::Orders::vals_end))]
fn order_vals(a: &[Val], b: &[Val]) -> Ordering
    ensures { result ≡ orders (pure_vals a.now) (pure_vals b.now) }
{
    for (i, x) in a.iter().enumerate() {
        if i >= b.len() {
            return Ordering::Greater;
        }
        let found = order_val(x, &b[i]);
        if found != Ordering::Equal {
            return found;
        }
    }
    if a.len() < b.len() {
        Ordering::Less
    } else {
        Ordering::Equal
    }
}

/// The order of the names of two records' fields.
#[tactic(auto, using(crate::proofs::Orders::names_end))]
fn order_names(a: &[FieldVal], b: &[FieldVal]) -> Ordering
    ensures { result ≡ order_texts (keys (map pure_field_val a.now)) (keys (map pure_field_val b.now)) }
{
    for (i, x) in a.iter().enumerate() {
        if i >= b.len() {
            return Ordering::Greater;
        }
        let found = x.name.cmp(&b[i].name);
        if found != Ordering::Equal {
            return found;
        }
    }
    if a.len() < b.len() {
        Ordering::Less
    } else {
        Ordering::Equal
    }
}

/// The order of the values of two records' fields.
#[cycle(order)]
#[tactic(auto, using(crate::proofs::Orders::fields_end))]
fn order_fields(a: &[FieldVal], b: &[FieldVal]) -> Ordering
    ensures { result ≡ orders (of_list (map (λ f. f.1) (map pure_field_val a.now))) (of_list (map (λ f. f.1) (map pure_field_val b.now))) }
{
    for (i, x) in a.iter().enumerate() {
        if i >= b.len() {
            return Ordering::Greater;
        }
        let found = order_val(&x.val, &b[i].val);
        if found != Ordering::Equal {
            return found;
        }
    }
    if a.len() < b.len() {
        Ordering::Less
    } else {
        Ordering::Equal
    }
}

/// The order of two lists of pairs.
#[cycle(order)]
#[tactic(auto, using(crate::proofs::Orders::pairs_end))]
fn order_pairs(a: &[Pair], b: &[Pair]) -> Ordering
    ensures { result ≡ orders (of_list (map pure_pair a.now)) (of_list (map pure_pair b.now)) }
{
    for (i, x) in a.iter().enumerate() {
        if i >= b.len() {
            return Ordering::Greater;
        }
        let found = order_pair(x, &b[i]);
        if found != Ordering::Equal {
            return found;
        }
    }
    if a.len() < b.len() {
        Ordering::Less
    } else {
        Ordering::Equal
    }
}

/// The order of two pairs: by the arguments, then by the values there.
#[cycle(order)]
pub fn order_pair(a: &Pair, b: &Pair) -> Ordering
    ensures { result ≡ order_of (pure_pair a.now) (pure_pair b.now) }
{
    order_val(&a.from, &b.from).then(order_val(&a.to, &b.to))
}
