//! Whether an expression reads a table.
ghost use Rattle.std.specs.Prelude.{◌≡◌, map};
ghost use Rattle.ess_semantics.specs.Occurrences.{has_cells};
ghost use Rattle.ess_core_nodes.specs.NodeViews.{pure_node, pure_nodes, pure_gen, pure_gens, pure_dom, pure_doms};
ghost use Rattle.ess_rules_everywhere.specs.TableParts.{reads, any_reads, gens_read, dom_reads, doms_read, item_reads, any_item_reads};

use ess_core_nodes::{Gen, Node, NodeDom};

/// Whether the expression reads a table: it or a part of it, also of a domain or generator, is a cell or a view.
#[tactic(auto, using(crate::proofs::CellParts::reads_where_cells))]
pub fn has_cells(node: &Node) -> bool
    ensures { result ≡ has_cells (pure_node node.now) }
{
    reads(node)
}

/// The same, part by part.
#[cycle(reads)]
#[tactic(auto, using(ess_core_nodes::proofs::NodeEquations::pure_seen_is))]
fn reads(node: &Node) -> bool
    ensures { result ≡ reads (pure_node node.now) }
{
    match node {
        Node::Number(_) | Node::Truth(_) | Node::Name(_) => false,
        Node::Op(_, _, operands) => any_reads(operands.as_slice()),
        Node::MatrixOn(items, axis) => any_reads(items.as_slice()) || dom_reads(axis.get()),
        Node::Comp(body, gens) => reads(body.get()) || gens_read(gens.as_slice()),
        Node::Cell(_, _, _) | Node::Seen(_) => true,
    }
}

/// Whether one of the expressions does.
#[cycle(reads)]
fn any_reads(nodes: &[Node]) -> bool
    ensures { result ≡ any_reads (pure_nodes nodes.now) }
{
    for node in nodes {
        if reads(node) {
            return true;
        }
    }
    false
}

/// Whether one of the generators does.
#[cycle(reads)]
#[tactic(auto, using(crate::proofs::CellParts::items_read))]
fn gens_read(gens: &[Gen]) -> bool
    ensures { result ≡ gens_read (pure_gens gens.now) }
{
    any_gen_reads(gens)
}

/// The same, one by one.
#[cycle(reads)]
fn any_gen_reads(gens: &[Gen]) -> bool
    ensures { result ≡ any_item_reads (map pure_gen gens.now) }
{
    for item in gens {
        if gen_reads(item) {
            return true;
        }
    }
    false
}

/// Whether a generator does.
#[cycle(reads)]
#[tactic(auto, using(ess_core_nodes::proofs::NodeEquations::pure_gen_over, ess_core_nodes::proofs::NodeEquations::pure_gen_from, ess_core_nodes::proofs::NodeEquations::pure_gen_if))]
fn gen_reads(item: &Gen) -> bool
    ensures { result ≡ item_reads (pure_gen item.now) }
{
    match item {
        Gen::Over(_, dom) => dom_reads(dom.get()),
        Gen::From(_, source) => reads(source.get()),
        Gen::If(condition) => reads(condition.get()),
    }
}

/// Whether a domain does.
#[cycle(reads)]
fn dom_reads(dom: &NodeDom) -> bool
    ensures { result ≡ dom_reads (pure_dom dom.now) }
{
    match dom {
        NodeDom::Bool | NodeDom::Name(_) => false,
        NodeDom::Int(_, bounds) => any_reads(bounds.as_slice()),
        NodeDom::Tuple(doms) | NodeDom::Record(_, doms) => doms_read(doms.as_slice()),
        NodeDom::Matrix(axes, item) => doms_read(axes.as_slice()) || dom_reads(item.get()),
        NodeDom::Set(_, numbers, member) => any_reads(numbers.as_slice())
            || dom_reads(member.get()),
        NodeDom::MSet(_, numbers, member) => any_reads(numbers.as_slice())
            || dom_reads(member.get()),
        NodeDom::Partition(_, numbers, member) => {
            any_reads(numbers.as_slice()) || dom_reads(member.get())
        }
        NodeDom::Function(_, numbers, from, to) => {
            any_reads(numbers.as_slice()) || dom_reads(from.get()) || dom_reads(to.get())
        }
        NodeDom::Relation(_, numbers, doms) => {
            any_reads(numbers.as_slice()) || doms_read(doms.as_slice())
        }
    }
}

/// Whether one of the domains does.
#[cycle(reads)]
fn doms_read(doms: &[NodeDom]) -> bool
    ensures { result ≡ doms_read (pure_doms doms.now) }
{
    for dom in doms {
        if dom_reads(dom) {
            return true;
        }
    }
    false
}
