// A type that refers to itself through rows and boxes.
ghost use Rattle.std.specs.Prelude.{◌≡◌, IfOk};

use crate::shown::put;
use ess_rows::{Boxed, NoMemory, Row, Text};
use std::alloc::Global;

#[derive(Drop, PartialEq)]
enum Tree {
    Leaf(Text),
    Not(Boxed<Tree>),
    All(Row<Tree>),
    Maybe(Option<Boxed<Tree>>),
}

impl Tree {
    #[cycle(copy)]
    fn copy(&self, alloc: Global) -> Result<Tree, NoMemory>
        ensures { IfOk result (λ t. t ≡ self.now) }
    {
        match self {
            Tree::Leaf(text) => Ok(Tree::Leaf(text.copy(alloc)?)),
            Tree::Not(tree) => Ok(Tree::Not(Boxed::new(alloc, tree.get().copy(alloc)?)?)),
            Tree::All(trees) => Ok(Tree::All(copy_trees(alloc, trees)?)),
            Tree::Maybe(None) => Ok(Tree::Maybe(None)),
            Tree::Maybe(Some(tree)) => {
                Ok(Tree::Maybe(Some(Boxed::new(alloc, tree.get().copy(alloc)?)?)))
            }
        }
    }
}

#[cycle(copy)]
fn copy_trees(alloc: Global, trees: &Row<Tree>) -> Result<Row<Tree>, NoMemory>
    ensures { IfOk result (λ ts. ts ≡ trees.now) }
{
    let mut copies = Row::with_capacity(alloc, trees.len())?;
    for tree in trees.as_slice() {
        copies.push(tree.copy(alloc)?)?;
    }
    Ok(copies)
}

/// A leaf with a name, and some other trees.
fn sample(alloc: Global, name: &str) -> Result<Row<Tree>, NoMemory> {
    let mut trees = Row::new(alloc);
    trees.push(Tree::Leaf(Text::from_str(alloc, name)?))?;
    trees.push(Tree::Maybe(None))?;
    let b = Boxed::new(alloc, Tree::Leaf(Text::from_str(alloc, "b")?))?;
    let not = Boxed::new(alloc, Tree::Not(b))?;
    trees.push(Tree::Maybe(Some(not)))?;
    Ok(trees)
}

/// The tree of a sample.
fn tree_of(alloc: Global, name: &str) -> Result<Boxed<Tree>, NoMemory> {
    let trees = sample(alloc, name)?;
    Boxed::new(alloc, Tree::All(trees))
}

/// Puts a name in the place of the first tree, where it is a leaf.
fn rename(trees: &mut Tree, name: Text) {
    match trees {
        Tree::All(trees) => match trees.get_mut(0) {
            Some(Tree::Leaf(leaf)) => *leaf = name,
            _ => {}
        },
        _ => {}
    }
}

/// Whether a tree is equal to its copy and to another one, and whether its copy, changed, is equal to that.
pub(crate) fn copied(alloc: Global, out: &mut String) -> Result<(), NoMemory> {
    let (a, c) = (tree_of(alloc, "a")?, tree_of(alloc, "c")?);
    let mut copied = Boxed::new(alloc, a.get().copy(alloc)?)?;
    put(out, &(copied == a))?;
    put(out, &(copied == c))?;
    rename(copied.get_mut(), Text::from_str(alloc, "c")?);
    put(out, &(copied == c))
}
