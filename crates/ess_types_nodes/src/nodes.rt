//! Operators, calls, applications, comprehensions and leaves beside their types.
ghost use Rattle.std.specs.Prelude.{◌≡◌, true, map, option_map, IfOk, OnOk};
ghost use Rattle.ess_semantics.specs.Lists.{all_some};
ghost use Rattle.ess_semantics.specs.Names.{Names};
ghost use Rattle.ess_semantics.specs.Types.{Ty as PureTy};
ghost use Rattle.ess_semantics.specs.Trees.{word, application, node_ex, comp_ex, more_exs, ex1, ex2, is_truth_op1, is_truth_op2};
ghost use Rattle.ess_semantics.specs.Typing.{type_of, types_of, types_under};
ghost use Rattle.ess_core.specs.TypeViews.{pure_ty};
ghost use Rattle.ess_core.specs.TreeViews.{call_mark, pure_ex, pure_exs, pure_gens};
ghost use Rattle.ess_types_names.specs.Tables.{pure_table};
ghost use Rattle.ess_types_names.specs.Generators.{under as under_of};

use crate::types::{
    item_where, type_of_apply, type_of_call, type_of_items, type_of_one, type_of_two,
};
use ess_core::{Boxed, Ex, Fun, Gen, NoMemory, Op1, Op2, Row, Ty};
use ess_types_names::{TypeTable, Under, type_of};
use std::alloc::Global;

/// An expression beside its type under the types of names, which is found where it is asked, by looking at each of its parts:
/// so this is for what has none, and for what is copied. The table is as it was. `NoMemory` where there is no room for the
/// type; the table may then hold further bound names.
pub fn leaf_node(
    alloc: Global,
    ex: Boxed<Ex>,
    asked: bool,
    table: &mut TypeTable,
) -> Result<(Boxed<Ex>, Option<Boxed<Ty>>), NoMemory>
    ensures tree { IfOk result (λ r. pure_ex r.0 ≡ pure_ex ex) }
    ensures types { IfOk result (λ r. asked ≡ true → option_map pure_ty r.1 ≡ type_of (pure_ex r.0) (pure_table table.old)) }
    ensures kept { OnOk result (table.new ≡ table.old) }
{
    let ty = type_where(alloc, asked, ex.get(), table)?;
    Ok((ex, ty))
}

/// The type of an expression, where it is asked.
fn type_where(
    alloc: Global,
    asked: bool,
    ex: &Ex,
    table: &mut TypeTable,
) -> Result<Option<Boxed<Ty>>, NoMemory>
    ensures types { IfOk result (λ o. asked ≡ true → option_map pure_ty o ≡ type_of (pure_ex ex.now) (pure_table table.old)) }
    ensures kept { OnOk result (table.new ≡ table.old) }
{
    if asked {
        type_of(alloc, ex, table)
    } else {
        Ok(None)
    }
}

/// An operator on one operand: its type is right under any names where that of the operand is. `NoMemory` where there is no
/// room for it.
#[tactic(auto, using(crate::proofs::NodeTypes::one_typed))]
pub fn one_node(
    alloc: Global,
    op: Op1,
    operand: (Boxed<Ex>, Option<Boxed<Ty>>),
) -> Result<(Boxed<Ex>, Option<Boxed<Ty>>), NoMemory>
    ensures tree { IfOk result (λ r. pure_ex r.0 ≡ ex1 (is_truth_op1 op) op (pure_ex operand.0)) }
    ensures types { IfOk result (λ r. (g : Names PureTy) → option_map pure_ty operand.1 ≡ type_of (pure_ex operand.0) g
        → option_map pure_ty r.1 ≡ type_of (pure_ex r.0) g) }
{
    let (operand, ty) = operand;
    let ty = type_of_one(alloc, op, ty)?;
    let ex = Boxed::new(alloc, Ex::One(op, operand))?;
    Ok((ex, ty))
}

/// An operator on two operands: its type is right under any names where those of the operands are. `NoMemory` where there is no
/// room for it.
#[tactic(auto, using(crate::proofs::NodeTypes::two_typed))]
pub fn two_node(
    alloc: Global,
    op: Op2,
    first: (Boxed<Ex>, Option<Boxed<Ty>>),
    second: (Boxed<Ex>, Option<Boxed<Ty>>),
) -> Result<(Boxed<Ex>, Option<Boxed<Ty>>), NoMemory>
    ensures tree { IfOk result (λ r. pure_ex r.0 ≡ ex2 (is_truth_op2 op) op (pure_ex first.0) (pure_ex second.0)) }
    ensures types { IfOk result (λ r. (g : Names PureTy) → option_map pure_ty first.1 ≡ type_of (pure_ex first.0) g
        → option_map pure_ty second.1 ≡ type_of (pure_ex second.0) g
        → option_map pure_ty r.1 ≡ type_of (pure_ex r.0) g) }
{
    let (a, first) = first;
    let (b, second) = second;
    let ty = type_of_two(alloc, op, first, second)?;
    let ex = Boxed::new(alloc, Ex::Two(op, a, b))?;
    Ok((ex, ty))
}

/// A call of a function word: its type is right under any names where those of the operands are. `NoMemory` where there is no
/// room for it.
#[tactic(auto, using(crate::proofs::NodeTypes::call_typed))]
pub fn call_node(
    alloc: Global,
    is_bool: bool,
    fun: Fun,
    operands: (Row<Ex>, Option<Row<Ty>>),
) -> Result<(Boxed<Ex>, Option<Boxed<Ty>>), NoMemory>
    ensures tree { IfOk result (λ r. pure_ex r.0 ≡ node_ex (call_mark is_bool fun) (word fun) (pure_exs operands.0)) }
    ensures types { IfOk result (λ r. (g : Names PureTy)
        → option_map (map pure_ty) operands.1 ≡ all_some (types_of (pure_exs operands.0) g)
        → option_map pure_ty r.1 ≡ type_of (pure_ex r.0) g) }
{
    let (operands, tys) = operands;
    let ty = type_of_call(alloc, fun, tys)?;
    let ex = Boxed::new(alloc, Ex::Call(is_bool, fun, operands))?;
    Ok((ex, ty))
}

/// An application: its type is right under any names where those of its parts are. `NoMemory` where there is no room for it.
#[tactic(auto, using(crate::proofs::NodeTypes::apply_typed))]
pub fn apply_node(
    alloc: Global,
    is_bool: bool,
    applied: (Boxed<Ex>, Option<Boxed<Ty>>),
    arguments: (Row<Ex>, Option<Row<Ty>>),
) -> Result<(Boxed<Ex>, Option<Boxed<Ty>>), NoMemory>
    ensures tree { IfOk result (λ r. pure_ex r.0 ≡ node_ex is_bool application (more_exs (pure_ex applied.0) (pure_exs arguments.0))) }
    ensures types { IfOk result (λ r. (g : Names PureTy) → option_map pure_ty applied.1 ≡ type_of (pure_ex applied.0) g
        → option_map (map pure_ty) arguments.1 ≡ all_some (types_of (pure_exs arguments.0) g)
        → option_map pure_ty r.1 ≡ type_of (pure_ex r.0) g) }
{
    let (applied, first) = applied;
    let (arguments, tys) = arguments;
    let ty = type_of_apply(alloc, first, tys)?;
    let ex = Boxed::new(alloc, Ex::Apply(is_bool, applied, arguments))?;
    Ok((ex, ty))
}

/// A comprehension: its type is right under names where generators lead from them to the names under which that of its body is
/// right. `NoMemory` where there is no room for it.
#[tactic(auto, using(crate::proofs::NodeTypes::comp_typed))]
pub fn comp_node(
    alloc: Global,
    body: (Boxed<Ex>, Option<Boxed<Ty>>),
    gens: (Row<Gen>, Under),
) -> Result<(Boxed<Ex>, Option<Boxed<Ty>>), NoMemory>
    ensures tree { IfOk result (λ r. pure_ex r.0 ≡ comp_ex (pure_ex body.0) (pure_gens gens.0)) }
    ensures types { IfOk result (λ r. (g h : Names PureTy) → types_under (pure_gens gens.0) g ≡ under_of gens.1 h
        → option_map pure_ty body.1 ≡ type_of (pure_ex body.0) h
        → option_map pure_ty r.1 ≡ type_of (pure_ex r.0) g) }
{
    let (body, item) = body;
    let (gens, under) = gens;
    let ty = type_of_items(alloc, item_where(under, item))?;
    let ex = Boxed::new(alloc, Ex::Comp(body, gens))?;
    Ok((ex, ty))
}
