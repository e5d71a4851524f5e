//! What is found of an expression in one pass over it.
ghost use Rattle.std.specs.Prelude.{◌≡◌, false, map, IfOk, OnOk};
ghost use Rattle.ess_semantics.specs.Trees.{ex1, function_literal, is_truth_op1, node_ex, record_literal};
ghost use Rattle.ess_semantics.specs.Names.{keys};
ghost use Rattle.ess_core.specs.TreeViews.{pure_ex, pure_exs, pure_pair_ex, pure_field_ex, exs_of, field_values};
ghost use Rattle.ess_types_judging_laws.specs.Judged.{judged, judged_all};
ghost use Rattle.ess_types_judging_laws.specs.Accumulated.{several_on, added};
ghost use Rattle.ess_types_judging.specs.Findings.{pure_judged, pure_operands, pure_node};
ghost use Rattle.ess_types_judging.specs.ScopeViews.{pure_scope};

use crate::comprehensions::judge_gens;
use crate::domains::judge_dom;
use crate::finishing::{finish, name_judged};
use crate::generators::comp_judged;
use crate::indices::{index_judged, judge_steps, reached_first};
use crate::judged::{Judged, Operands, add, no_operands, number_judged, truth_judged};
use crate::matrices::{judge_cell, judge_view, matrix_over};
use crate::nodes::Node;
use crate::scope::Scope;
use ess_core::{Ex, FieldEx, NoMemory, Op1, PairEx};
use std::alloc::Global;

/// What is found of an expression. The scope is as it was. `NoMemory` where there is no room for types; the scope may then hold
/// further bound names.
#[cycle(judge)]
pub fn judge(alloc: Global, ex: &Ex, scope: &mut Scope) -> Result<Judged, NoMemory>
    ensures ok { IfOk result (λ j. pure_judged j ≡ judged (pure_ex ex.now) (pure_scope scope.old)) }
    ensures kept { OnOk result (scope.new ≡ scope.old) }
{
    match ex {
        Ex::Num(_) => number_judged(alloc),
        Ex::Truth(_) => truth_judged(alloc),
        Ex::Name(name) => name_judged(alloc, name, scope),
        Ex::One(op, operand) => judge_one(alloc, operand.get(), *op, scope),
        Ex::Two(op, a, b) => {
            let mut operands = no_operands(alloc);
            judge_operand(alloc, a.get(), scope, &mut operands)?;
            judge_operand(alloc, b.get(), scope, &mut operands)?;
            finish(alloc, &Node::Binary(*op), operands, scope)
        }
        Ex::Call(_, fun, operands) => {
            judge_node(alloc, operands.as_slice(), &Node::Word(*fun), scope)
        }
        Ex::At(_, place, steps) => {
            let judged = judge(alloc, place.get(), scope)?;
            let mut reached = reached_first(judged);
            judge_steps(alloc, steps.as_slice(), scope, &mut reached)?;
            Ok(index_judged(reached))
        }
        Ex::Apply(_, applied, arguments) => {
            let mut operands = no_operands(alloc);
            judge_operand(alloc, applied.get(), scope, &mut operands)?;
            judge_operands(alloc, arguments.as_slice(), scope, &mut operands)?;
            finish(alloc, &Node::Application, operands, scope)
        }
        Ex::Tuple(items) => judge_node(alloc, items.as_slice(), &Node::Tuple, scope),
        Ex::Rec(fields) => judge_record(alloc, fields.as_slice(), scope),
        Ex::Set(members) => judge_node(alloc, members.as_slice(), &Node::Set, scope),
        Ex::MSet(members) => judge_node(alloc, members.as_slice(), &Node::MSet, scope),
        Ex::Function(pairs) => judge_function(alloc, pairs.as_slice(), scope),
        Ex::Relation(tuples) => judge_node(alloc, tuples.as_slice(), &Node::Relation, scope),
        Ex::Partition(parts) => judge_node(alloc, parts.as_slice(), &Node::Partition, scope),
        Ex::Matrix(items, axis) => match axis {
            None => judge_node(alloc, items.as_slice(), &Node::List, scope),
            Some(axis) => {
                let mut operands = no_operands(alloc);
                judge_operands(alloc, items.as_slice(), scope, &mut operands)?;
                let found = judge_dom(alloc, axis.get(), scope)?;
                matrix_over(alloc, axis.get(), operands, found)
            }
        },
        Ex::Comp(body, gens) => {
            let types = scope.table.bound_len();
            let generators = scope.bound.len();
            let gathered = judge_gens(alloc, gens.as_slice(), scope)?;
            let body = judge(alloc, body.get(), scope)?;
            comp_judged(alloc, gathered, body, types, generators, scope)
        }
        Ex::Cell(is_bool, name, at) => judge_cell(alloc, at.as_slice(), *is_bool, name, scope),
        Ex::Seen(view) => judge_view(alloc, view.get(), scope),
    }
}

/// Judges an operand and adds what is found.
#[cycle(judge)]
fn judge_operand(
    alloc: Global,
    ex: &Ex,
    scope: &mut Scope,
    operands: &mut Operands,
) -> Result<(), NoMemory>
    ensures ok { OnOk result (pure_operands operands.new ≡ added (pure_operands operands.old) (judged (pure_ex ex.now) (pure_scope scope.old))) }
    ensures kept { OnOk result (scope.new ≡ scope.old) }
{
    let judged = judge(alloc, ex, scope)?;
    add(operands, judged)
}

/// Judges operands and adds what is found.
#[cycle(judge)]
#[tactic(auto, using(crate::proofs::RowLemmas::operands_more, crate::proofs::RowLemmas::operands_all))]
pub(crate) fn judge_operands(
    alloc: Global,
    exs: &[Ex],
    scope: &mut Scope,
    operands: &mut Operands,
) -> Result<(), NoMemory>
    ensures ok { OnOk result (pure_operands operands.new ≡ several_on (judged_all (pure_exs exs.now) (pure_scope scope.old)) (pure_operands operands.old)) }
    ensures kept { OnOk result (scope.new ≡ scope.old) }
{
    for (i, ex) in exs.iter().enumerate() {
        judge_operand(alloc, ex, scope, operands)?;
    }
    Ok(())
}

/// An operator on one operand.
#[cycle(judge)]
fn judge_one(alloc: Global, operand: &Ex, op: Op1, scope: &mut Scope) -> Result<Judged, NoMemory>
    ensures ok { IfOk result (λ j. pure_judged j ≡ judged (ex1 (is_truth_op1 op) op (pure_ex operand.now)) (pure_scope scope.old)) }
    ensures kept { OnOk result (scope.new ≡ scope.old) }
{
    let mut operands = no_operands(alloc);
    judge_operand(alloc, operand, scope, &mut operands)?;
    finish(alloc, &Node::Unary(op), operands, scope)
}

/// A node on several operands.
#[cycle(judge)]
fn judge_node(
    alloc: Global,
    exs: &[Ex],
    node: &Node<'_>,
    scope: &mut Scope,
) -> Result<Judged, NoMemory>
    ensures ok { IfOk result (λ j. pure_judged j ≡ judged (node_ex false (pure_node node.now) (pure_exs exs.now)) (pure_scope scope.old)) }
    ensures kept { OnOk result (scope.new ≡ scope.old) }
{
    let mut operands = no_operands(alloc);
    judge_operands(alloc, exs, scope, &mut operands)?;
    finish(alloc, node, operands, scope)
}

/// The values of a record literal's fields.
#[cycle(judge)]
#[tactic(auto, using(crate::proofs::RowLemmas::fields_more, crate::proofs::RowLemmas::fields_all))]
fn judge_values(
    alloc: Global,
    fields: &[FieldEx],
    scope: &mut Scope,
    operands: &mut Operands,
) -> Result<(), NoMemory>
    ensures ok { OnOk result (pure_operands operands.new ≡ several_on (judged_all (exs_of (field_values (map pure_field_ex fields.now))) (pure_scope scope.old)) (pure_operands operands.old)) }
    ensures kept { OnOk result (scope.new ≡ scope.old) }
{
    for (i, field) in fields.iter().enumerate() {
        judge_operand(alloc, &field.ex, scope, operands)?;
    }
    Ok(())
}

/// A record literal.
#[cycle(judge)]
fn judge_record(alloc: Global, fields: &[FieldEx], scope: &mut Scope) -> Result<Judged, NoMemory>
    ensures ok { IfOk result (λ j. pure_judged j ≡ judged (node_ex false (record_literal (keys (map pure_field_ex fields.now))) (exs_of (field_values (map pure_field_ex fields.now)))) (pure_scope scope.old)) }
    ensures kept { OnOk result (scope.new ≡ scope.old) }
{
    let mut operands = no_operands(alloc);
    judge_values(alloc, fields, scope, &mut operands)?;
    finish(alloc, &Node::Record(fields), operands, scope)
}

/// A pair of a function literal, as a tuple.
#[cycle(judge)]
fn judge_pair(
    alloc: Global,
    pair: &PairEx,
    scope: &mut Scope,
    operands: &mut Operands,
) -> Result<(), NoMemory>
    ensures ok { OnOk result (pure_operands operands.new ≡ added (pure_operands operands.old) (judged (pure_pair_ex pair.now) (pure_scope scope.old))) }
    ensures kept { OnOk result (scope.new ≡ scope.old) }
{
    let mut parts = no_operands(alloc);
    judge_operand(alloc, &pair.from, scope, &mut parts)?;
    judge_operand(alloc, &pair.to, scope, &mut parts)?;
    let judged = finish(alloc, &Node::Tuple, parts, scope)?;
    add(operands, judged)
}

/// The pairs of a function literal.
#[cycle(judge)]
#[tactic(auto, using(crate::proofs::RowLemmas::pairs_more, crate::proofs::RowLemmas::pairs_all))]
fn judge_pairs(
    alloc: Global,
    pairs: &[PairEx],
    scope: &mut Scope,
    operands: &mut Operands,
) -> Result<(), NoMemory>
    ensures ok { OnOk result (pure_operands operands.new ≡ several_on (judged_all (exs_of (map pure_pair_ex pairs.now)) (pure_scope scope.old)) (pure_operands operands.old)) }
    ensures kept { OnOk result (scope.new ≡ scope.old) }
{
    for (i, pair) in pairs.iter().enumerate() {
        judge_pair(alloc, pair, scope, operands)?;
    }
    Ok(())
}

/// A function literal.
#[cycle(judge)]
fn judge_function(alloc: Global, pairs: &[PairEx], scope: &mut Scope) -> Result<Judged, NoMemory>
    ensures ok { IfOk result (λ j. pure_judged j ≡ judged (node_ex false function_literal (exs_of (map pure_pair_ex pairs.now))) (pure_scope scope.old)) }
    ensures kept { OnOk result (scope.new ≡ scope.old) }
{
    let mut operands = no_operands(alloc);
    judge_pairs(alloc, pairs, scope, &mut operands)?;
    finish(alloc, &Node::Function, operands, scope)
}
