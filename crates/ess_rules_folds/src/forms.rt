//! The forms of roots that rules rewrite: the parts of a node that has the form, and nothing of another.
ghost use Rattle.std.specs.Prelude.{◌≡◌, option_map};
ghost use Rattle.ess_core.specs.TreeViews.{pure_pat};
ghost use Rattle.ess_core_nodes.specs.NodeViews.{pure_node, pure_nodes, pure_gens};
ghost use Rattle.ess_rules_folds.specs.Forms.{only_operand, are_none, are_no_gens, word_parts, comp_parts, first_comp, list_items, written_items, set_operand, made_set_of, from_parts, only_condition, pattern_name, source_parts, fold_parts, pure_fold};

use ess_core::{Fun, Pat};
use ess_core_nodes::{Gen, Node, Op};
use ess_rows::Text;

/// A function word of a comprehension whose first generator binds a name over a value.
#[derive(Clone, Copy)]
pub struct Fold<'a> {
    /// Whether the word is Boolean.
    pub mark: bool,
    /// The word.
    pub fun: Fun,
    /// The body of the comprehension.
    pub body: &'a Node,
    /// The name that the first generator binds.
    pub name: &'a Text,
    /// What it binds it over.
    pub source: &'a Node,
    /// The generators and conditions behind it.
    pub rest: &'a [Gen],
    /// The operands behind the comprehension: a word of a comprehension alone has none.
    pub others: &'a [Node],
}

/// The parts of a function word of a comprehension whose first generator binds a name over a value.
pub fn fold_over(node: &Node) -> Option<Fold<'_>>
    ensures { option_map pure_fold result ≡ fold_parts (pure_node node.now) }
{
    let Some((mark, fun, operands)) = word_in(node) else {
        return None;
    };
    let Some((body, gens, others)) = first_comp(operands) else {
        return None;
    };
    match source_in(gens) {
        Some((name, source, rest)) => Some(Fold {
            mark,
            fun,
            body,
            name,
            source,
            rest,
            others,
        }),
        None => None,
    }
}

/// A function word: whether it is Boolean, the word, and the operands.
#[tactic(auto, using(ess_core_nodes::proofs::NodeEquations::pure_seen_is))]
pub fn word_in(node: &Node) -> Option<(bool, Fun, &[Node])>
    ensures { option_map (λ w. (w.0, w.1, pure_nodes w.2.now)) result ≡ word_parts (pure_node node.now) }
{
    match node {
        Node::Op(mark, Op::Word(fun), operands) => Some((*mark, *fun, operands.as_slice())),
        _ => None,
    }
}

/// A comprehension: its body and its generators.
#[tactic(auto, using(ess_core_nodes::proofs::NodeEquations::pure_seen_is))]
pub fn comp_in(node: &Node) -> Option<(&Node, &[Gen])>
    ensures { option_map (λ c. (pure_node c.0.now, pure_gens c.1.now)) result ≡ comp_parts (pure_node node.now) }
{
    match node {
        Node::Comp(body, gens) => Some((body.get(), gens.as_slice())),
        _ => None,
    }
}

/// A comprehension that is the first operand: its body, its generators, and the operands behind it.
pub fn first_comp(operands: &[Node]) -> Option<(&Node, &[Gen], &[Node])>
    ensures { option_map (λ c. (pure_node c.0.now, pure_gens c.1.now, pure_nodes c.2.now)) result ≡ first_comp (pure_nodes operands.now) }
{
    let Some((first, others)) = operands.split_first() else {
        return None;
    };
    match comp_in(first) {
        Some((body, gens)) => Some((body, gens, others)),
        None => None,
    }
}

/// The only operand.
pub fn only_in(operands: &[Node]) -> Option<&Node>
    ensures { option_map (λ a. pure_node a.now) result ≡ only_operand (pure_nodes operands.now) }
{
    match operands.split_first() {
        None => None,
        Some((first, rest)) => match rest.split_first() {
            None => Some(first),
            Some(_) => None,
        },
    }
}

/// Whether there are no operands.
pub fn are_none(operands: &[Node]) -> bool
    ensures { result ≡ are_none (pure_nodes operands.now) }
{
    match operands.split_first() {
        None => true,
        Some(_) => false,
    }
}

/// Whether there are no generators and no conditions.
#[tactic(auto, using(crate::proofs::FoldRows::no_gens_more))]
pub fn are_no_gens(gens: &[Gen]) -> bool
    ensures { result ≡ are_no_gens (pure_gens gens.now) }
{
    match gens.split_first() {
        None => true,
        Some(_) => false,
    }
}

/// The items of a list literal.
#[tactic(auto, using(ess_core_nodes::proofs::NodeEquations::pure_seen_is))]
pub fn list_items(node: &Node) -> Option<&[Node]>
    ensures { option_map (λ es. pure_nodes es.now) result ≡ list_items (pure_node node.now) }
{
    match node {
        Node::Op(false, Op::Matrix, items) => Some(items.as_slice()),
        _ => None,
    }
}

/// The items of a list literal or of a multiset literal.
#[tactic(auto, using(ess_core_nodes::proofs::NodeEquations::pure_seen_is))]
pub fn written_items(node: &Node) -> Option<&[Node]>
    ensures { option_map (λ es. pure_nodes es.now) result ≡ written_items (pure_node node.now) }
{
    match node {
        Node::Op(false, Op::Matrix, items) => Some(items.as_slice()),
        Node::Op(false, Op::MSet, items) => Some(items.as_slice()),
        _ => None,
    }
}

/// What a set is made of.
#[tactic(auto, using(crate::proofs::FoldForms::made_set_by_word))]
pub fn made_set_of(node: &Node) -> Option<&Node>
    ensures { option_map (λ s. pure_node s.now) result ≡ made_set_of (pure_node node.now) }
{
    match word_in(node) {
        Some((mark, fun, operands)) => set_operand(mark, fun, operands),
        None => None,
    }
}

/// The same by a word and its operands.
fn set_operand(mark: bool, fun: Fun, operands: &[Node]) -> Option<&Node>
    ensures { option_map (λ s. pure_node s.now) result ≡ set_operand mark fun (pure_nodes operands.now) }
{
    if mark {
        return None;
    }
    match fun {
        Fun::ToSet => only_in(operands),
        _ => None,
    }
}

/// A first generator over a value: its pattern, the value, and what stands behind it.
#[tactic(auto, using(ess_core_nodes::proofs::NodeEquations::pure_gen_over, ess_core_nodes::proofs::NodeEquations::pure_gen_from, ess_core_nodes::proofs::NodeEquations::pure_gen_if))]
pub fn from_in(gens: &[Gen]) -> Option<(&Pat, &Node, &[Gen])>
    ensures { option_map (λ s. (pure_pat s.0.now, pure_node s.1.now, pure_gens s.2.now)) result ≡ from_parts (pure_gens gens.now) }
{
    match gens.split_first() {
        Some((Gen::From(pat, source), rest)) => Some((pat, source.get(), rest)),
        _ => None,
    }
}

/// A condition alone.
#[tactic(auto, using(ess_core_nodes::proofs::NodeEquations::pure_gen_over, ess_core_nodes::proofs::NodeEquations::pure_gen_from, ess_core_nodes::proofs::NodeEquations::pure_gen_if, crate::proofs::FoldRows::condition_with_more))]
pub fn only_condition(gens: &[Gen]) -> Option<&Node>
    ensures { option_map (λ c. pure_node c.now) result ≡ only_condition (pure_gens gens.now) }
{
    match gens.split_first() {
        Some((Gen::If(condition), rest)) => match rest.split_first() {
            None => Some(condition.get()),
            Some(_) => None,
        },
        _ => None,
    }
}

/// The name that a pattern is.
pub fn name_in(pat: &Pat) -> Option<&Text>
    ensures { option_map (λ a. a.now) result ≡ pattern_name (pure_pat pat.now) }
{
    match pat {
        Pat::Name(name) => Some(name),
        Pat::Tuple(_) => None,
    }
}

/// A first generator that binds a name over a value: the name, the value, and what stands behind it.
pub fn source_in(gens: &[Gen]) -> Option<(&Text, &Node, &[Gen])>
    ensures { option_map (λ s. (s.0.now, pure_node s.1.now, pure_gens s.2.now)) result ≡ source_parts (pure_gens gens.now) }
{
    let Some((pat, source, rest)) = from_in(gens) else {
        return None;
    };
    match name_in(pat) {
        Some(name) => Some((name, source, rest)),
        None => None,
    }
}
