//! Copies of nodes. Each answers a tree that equals its source, or `NoMemory` where there is no room for it.
ghost use Rattle.std.specs.Prelude.{◌≡◌, IfOk};

use crate::converting_generators::copy_texts;
use crate::nodes::{Gen, Node, NodeDom, Seen};
use crate::words::{Ends, Mark, Op, Step};
use ess_rows::{Boxed, NoMemory, Row};
use std::alloc::Global;

impl Node {
    /// A copy, which equals this node. `NoMemory` where there is no room for it.
    #[cycle(copy_node)]
    pub fn copy(&self, alloc: Global) -> Result<Boxed<Node>, NoMemory>
        ensures { IfOk result (λ n. n ≡ self.now) }
    {
        match self {
            Node::Number(number) => Boxed::new(alloc, Node::Number(*number)),
            Node::Truth(truth) => Boxed::new(alloc, Node::Truth(*truth)),
            Node::Name(name) => {
                let name = name.copy(alloc)?;
                Boxed::new(alloc, Node::Name(name))
            }
            Node::Op(mark, op, operands) => {
                let operands = copy_nodes(alloc, operands.as_slice())?;
                op_node(alloc, *mark, op, operands)
            }
            Node::MatrixOn(items, axis) => {
                let items = copy_nodes(alloc, items.as_slice())?;
                let axis = axis.get().copy(alloc)?;
                Boxed::new(alloc, Node::MatrixOn(items, axis))
            }
            Node::Comp(body, gens) => {
                let body = body.get().copy(alloc)?;
                let gens = copy_gens(alloc, gens.as_slice())?;
                Boxed::new(alloc, Node::Comp(body, gens))
            }
            Node::Cell(is_bool, name, at) => {
                let at = copy_nodes(alloc, at.as_slice())?;
                let name = name.copy(alloc)?;
                Boxed::new(alloc, Node::Cell(*is_bool, name, at))
            }
            Node::Seen(seen) => {
                let seen = seen.get().copy(alloc)?;
                Boxed::new(alloc, Node::Seen(seen))
            }
        }
    }
}

impl Gen {
    /// A copy, which equals this generator or condition. `NoMemory` where there is no room for it.
    #[cycle(copy_node)]
    pub fn copy(&self, alloc: Global) -> Result<Boxed<Gen>, NoMemory>
        ensures { IfOk result (λ g. g ≡ self.now) }
    {
        match self {
            Gen::Over(pat, dom) => {
                let dom = dom.get().copy(alloc)?;
                let pat = pat.copy(alloc)?;
                Boxed::new(alloc, Gen::Over(pat, dom))
            }
            Gen::From(pat, node) => {
                let node = node.get().copy(alloc)?;
                let pat = pat.copy(alloc)?;
                Boxed::new(alloc, Gen::From(pat, node))
            }
            Gen::If(node) => {
                let node = node.get().copy(alloc)?;
                Boxed::new(alloc, Gen::If(node))
            }
        }
    }
}

impl NodeDom {
    /// A copy, which equals this domain. `NoMemory` where there is no room for it.
    #[cycle(copy_node)]
    pub fn copy(&self, alloc: Global) -> Result<Boxed<NodeDom>, NoMemory>
        ensures { IfOk result (λ d. d ≡ self.now) }
    {
        match self {
            NodeDom::Bool => Boxed::new(alloc, NodeDom::Bool),
            NodeDom::Int(ends, bounds) => {
                let bounds = copy_nodes(alloc, bounds.as_slice())?;
                let ends = copy_ends(alloc, ends.as_slice())?;
                Boxed::new(alloc, NodeDom::Int(ends, bounds))
            }
            NodeDom::Name(name) => {
                let name = name.copy(alloc)?;
                Boxed::new(alloc, NodeDom::Name(name))
            }
            NodeDom::Tuple(doms) => {
                let doms = copy_doms(alloc, doms.as_slice())?;
                Boxed::new(alloc, NodeDom::Tuple(doms))
            }
            NodeDom::Record(names, doms) => {
                let doms = copy_doms(alloc, doms.as_slice())?;
                let names = copy_texts(alloc, names.as_slice())?;
                Boxed::new(alloc, NodeDom::Record(names, doms))
            }
            NodeDom::Matrix(axes, item) => {
                let axes = copy_doms(alloc, axes.as_slice())?;
                let item = item.get().copy(alloc)?;
                Boxed::new(alloc, NodeDom::Matrix(axes, item))
            }
            NodeDom::Set(marks, numbers, member) => {
                let (marks, numbers) = copy_attrs(alloc, marks.as_slice(), numbers.as_slice())?;
                let member = member.get().copy(alloc)?;
                Boxed::new(alloc, NodeDom::Set(marks, numbers, member))
            }
            NodeDom::MSet(marks, numbers, member) => {
                let (marks, numbers) = copy_attrs(alloc, marks.as_slice(), numbers.as_slice())?;
                let member = member.get().copy(alloc)?;
                Boxed::new(alloc, NodeDom::MSet(marks, numbers, member))
            }
            NodeDom::Function(marks, numbers, from, to) => {
                let (marks, numbers) = copy_attrs(alloc, marks.as_slice(), numbers.as_slice())?;
                let from = from.get().copy(alloc)?;
                let to = to.get().copy(alloc)?;
                Boxed::new(alloc, NodeDom::Function(marks, numbers, from, to))
            }
            NodeDom::Relation(marks, numbers, parts) => {
                let (marks, numbers) = copy_attrs(alloc, marks.as_slice(), numbers.as_slice())?;
                let parts = copy_doms(alloc, parts.as_slice())?;
                Boxed::new(alloc, NodeDom::Relation(marks, numbers, parts))
            }
            NodeDom::Partition(marks, numbers, member) => {
                let (marks, numbers) = copy_attrs(alloc, marks.as_slice(), numbers.as_slice())?;
                let member = member.get().copy(alloc)?;
                Boxed::new(alloc, NodeDom::Partition(marks, numbers, member))
            }
        }
    }
}

impl Seen {
    /// A copy, which equals this view. `NoMemory` where there is no room for it.
    #[cycle(copy_node)]
    pub fn copy(&self, alloc: Global) -> Result<Boxed<Seen>, NoMemory>
        ensures { IfOk result (λ v. v ≡ self.now) }
    {
        let dom = self.dom.get().copy(alloc)?;
        let at = copy_nodes(alloc, self.at.as_slice())?;
        let cells = copy_texts(alloc, self.cells.as_slice())?;
        let repr = self.repr.copy(alloc)?;
        Boxed::new(
            alloc,
            Seen {
                repr,
                dom,
                cells,
                at,
            },
        )
    }
}

/// Copies of several nodes, which equal these. `NoMemory` where there is no room for them.
#[cycle(copy_node)]
pub fn copy_nodes(alloc: Global, nodes: &[Node]) -> Result<Row<Node>, NoMemory>
    ensures { IfOk result (λ ns. ns ≡ nodes.now) }
{
    let mut copies = Row::with_capacity(alloc, nodes.len())?;
    for node in nodes {
        let copy = node.copy(alloc)?;
        copies.push(copy.into_inner())?;
    }
    Ok(copies)
}

/// Copies of generators and conditions, which equal these. `NoMemory` where there is no room for them.
#[cycle(copy_node)]
pub fn copy_gens(alloc: Global, gens: &[Gen]) -> Result<Row<Gen>, NoMemory>
    ensures { IfOk result (λ gs. gs ≡ gens.now) }
{
    let mut copies = Row::with_capacity(alloc, gens.len())?;
    for item in gens {
        let copy = item.copy(alloc)?;
        copies.push(copy.into_inner())?;
    }
    Ok(copies)
}

/// Copies of several domains, which equal these. `NoMemory` where there is no room for them.
#[cycle(copy_node)]
pub fn copy_doms(alloc: Global, doms: &[NodeDom]) -> Result<Row<NodeDom>, NoMemory>
    ensures { IfOk result (λ ds. ds ≡ doms.now) }
{
    let mut copies = Row::with_capacity(alloc, doms.len())?;
    for dom in doms {
        let copy = dom.copy(alloc)?;
        copies.push(copy.into_inner())?;
    }
    Ok(copies)
}

/// A copy of attributes, and of their numbers.
#[cycle(copy_node)]
fn copy_attrs(
    alloc: Global,
    marks: &[Mark],
    numbers: &[Node],
) -> Result<(Row<Mark>, Row<Node>), NoMemory>
    ensures marks { IfOk result (λ r. r.0 ≡ marks.now) }
    ensures numbers { IfOk result (λ r. r.1 ≡ numbers.now) }
{
    let numbers = copy_nodes(alloc, numbers)?;
    let marks = copy_marks(alloc, marks)?;
    Ok((marks, numbers))
}

/// A copy of attributes.
pub fn copy_marks(alloc: Global, marks: &[Mark]) -> Result<Row<Mark>, NoMemory>
    ensures { IfOk result (λ ms. ms ≡ marks.now) }
{
    Row::from_slice(alloc, marks)
}

/// A copy of the forms of ranges.
pub fn copy_ends(alloc: Global, ends: &[Ends]) -> Result<Row<Ends>, NoMemory>
    ensures { IfOk result (λ es. es ≡ ends.now) }
{
    Row::from_slice(alloc, ends)
}

/// An operator's node with a copy of the operator.
fn op_node(alloc: Global, mark: bool, op: &Op, operands: Row<Node>) -> Result<Boxed<Node>, NoMemory>
    ensures { IfOk result (λ n. n ≡ Node.Op mark op.now operands) }
{
    let op = op.copy(alloc)?;
    Boxed::new(alloc, Node::Op(mark, op, operands))
}

impl Op {
    /// A copy, which equals this operator. `NoMemory` where there is no room for it.
    pub fn copy(&self, alloc: Global) -> Result<Op, NoMemory>
        ensures { IfOk result (λ o. o ≡ self.now) }
    {
        match self {
            Op::Unary(op) => Ok(Op::Unary(*op)),
            Op::Binary(op) => Ok(Op::Binary(*op)),
            Op::Word(fun) => Ok(Op::Word(*fun)),
            Op::Index(steps) => match copy_steps(alloc, steps.as_slice()) {
                Ok(steps) => Ok(Op::Index(steps)),
                Err(no) => Err(no),
            },
            Op::Apply => Ok(Op::Apply),
            Op::Tuple => Ok(Op::Tuple),
            Op::Set => Ok(Op::Set),
            Op::MSet => Ok(Op::MSet),
            Op::Function => Ok(Op::Function),
            Op::Relation => Ok(Op::Relation),
            Op::Partition => Ok(Op::Partition),
            Op::Matrix => Ok(Op::Matrix),
            Op::Record(names) => match copy_texts(alloc, names.as_slice()) {
                Ok(names) => Ok(Op::Record(names)),
                Err(no) => Err(no),
            },
        }
    }
}

/// A copy of steps.
fn copy_steps(alloc: Global, steps: &[Step]) -> Result<Row<Step>, NoMemory>
    ensures { IfOk result (λ ss. ss ≡ steps.now) }
{
    let mut copies = Row::with_capacity(alloc, steps.len())?;
    for step in steps {
        match step.copy(alloc) {
            Ok(copy) => copies.push(copy)?,
            Err(no) => return Err(no),
        }
    }
    Ok(copies)
}

impl Step {
    /// A copy, which equals this step. `NoMemory` where there is no room for it.
    pub fn copy(&self, alloc: Global) -> Result<Step, NoMemory>
        ensures { IfOk result (λ s. s ≡ self.now) }
    {
        match self {
            Step::Value => Ok(Step::Value),
            Step::Component(number) => Ok(Step::Component(*number)),
            Step::Field(name) => match name.copy(alloc) {
                Ok(name) => Ok(Step::Field(name)),
                Err(no) => Err(no),
            },
        }
    }
}
