//! The parts of small trees, and how they are replaced and edited in place.
use super::samples::{comprehension, name, sum, view};
use ess_core::{Boxed, Ex, NoMemory, Text};
use ess_core_parts::{Edit, child, edit_at, focus, put, replace_at};
use std::alloc::Global;
use std::test::Fail;

/// An editor that makes each expression `false` where it has memory. It keeps whether it was asked.
#[derive(Drop)]
struct Falsify {
    memory: bool,
    asked: bool,
}

impl Edit for Falsify {
    ghost use Rattle.std.specs.Prelude.{◌≡◌, true, false, IfOk, IfErr};
    ghost use Rattle.ess_core_parts.specs.Parts.{hole};

    ghost step = { λ f e a g d. (g.memory ≡ f.memory) × (g.asked ≡ true)
        × IfOk a (λ b. (b ≡ true) × (f.memory ≡ true) × (d ≡ hole)) × IfErr a (λ no. (f.memory ≡ false) × (d ≡ e)) };

    fn edit(&mut self, ex: &mut Ex) -> Result<bool, NoMemory> {
        self.asked = true;
        if self.memory {
            drop(put(ex, Ex::Truth(false)));
            Ok(true)
        } else {
            Err(NoMemory)
        }
    }
}

#[derive(Clone, Copy)]
enum Tree {
    Sum,
    Comprehension,
    View,
}

/// What is done at a path.
#[derive(Clone, Copy)]
enum Change {
    Nothing,
    /// The name `new` is put there.
    Put,
    /// The editor makes it `false`.
    Falsify,
    /// The editor has no memory.
    Refuse,
}

/// A name or `false`, and `*` for all else.
fn spelled(ex: &Ex) -> &str {
    match ex {
        Ex::Name(name) => name.as_str(),
        Ex::Truth(false) => "false",
        _ => "*",
    }
}

fn told(alloc: Global, word: &str, ex: Ex) -> Result<Text, NoMemory> {
    let text = match Text::from_str(alloc, word) {
        Ok(mut text) => match text.push_str(spelled(&ex)) {
            Ok(()) => Ok(text),
            Err(no) => Err(no),
        },
        Err(no) => Err(no),
    };
    drop(ex);
    text
}

fn put_new(alloc: Global, tree: &mut Ex, path: &[u32]) -> Result<Text, NoMemory> {
    match replace_at(tree, path, name(alloc, "new")?) {
        Ok(was) => told(alloc, "was ", was),
        Err(back) => told(alloc, "back ", back),
    }
}

fn edited(alloc: Global, tree: &mut Ex, path: &[u32], memory: bool) -> Result<Text, NoMemory> {
    let mut falsify = Falsify {
        memory,
        asked: false,
    };
    let answer = match edit_at(tree, path, &mut falsify) {
        None => "nothing, ",
        Some(Ok(true)) => "done, ",
        Some(Ok(false)) => "not done, ",
        Some(Err(_)) => "no memory, ",
    };
    let mut text = Text::from_str(alloc, answer)?;
    text.push_str(if falsify.asked { "asked" } else { "not asked" })?;
    Ok(text)
}

fn changed(alloc: Global, tree: &mut Ex, change: Change, path: &[u32]) -> Result<Text, NoMemory> {
    match change {
        Change::Nothing => Text::from_str(alloc, "as built"),
        Change::Put => put_new(alloc, tree, path),
        Change::Falsify => edited(alloc, tree, path, true),
        Change::Refuse => edited(alloc, tree, path, false),
    }
}

fn built(alloc: Global, tree: Tree) -> Result<Boxed<Ex>, NoMemory> {
    match tree {
        Tree::Sum => sum(alloc),
        Tree::Comprehension => comprehension(alloc),
        Tree::View => view(alloc),
    }
}

/// What a change at a path answers, and then the direct parts up to the first that there isn't, and the parts of the second.
fn shown(alloc: Global, tree: Tree, change: Change, path: &[u32]) -> Result<Text, NoMemory> {
    let mut tree = built(alloc, tree)?;
    let mut text = changed(alloc, tree.get_mut(), change, path)?;
    text.push_str(":")?;
    for k in 0..6 {
        text.push_str(" ")?;
        text.push_str(child(tree.get(), k).map_or("-", spelled))?;
    }
    for k in 0..2 {
        text.push_str(" ")?;
        text.push_str(focus(tree.get(), &[1, k]).map_or("-", spelled))?;
    }
    Ok(text)
}

#[test]
fn parts_are_numbered_in_the_order_of_the_text_and_changed_in_place(
    rt: HostRuntime,
) -> Result<(), Fail> {
    for (tree, change, path, want) in [
        (
            Tree::Sum,
            Change::Nothing,
            &[][..],
            "as built: a * - - - - b c",
        ),
        (Tree::Sum, Change::Put, &[1, 0], "was b: a * - - - - new c"),
        (Tree::Sum, Change::Put, &[2], "back new: a * - - - - b c"),
        (
            Tree::Sum,
            Change::Falsify,
            &[2],
            "nothing, not asked: a * - - - - b c",
        ),
        (
            Tree::Sum,
            Change::Falsify,
            &[1, 0],
            "done, asked: a * - - - - false c",
        ),
        (
            Tree::Sum,
            Change::Refuse,
            &[1, 0],
            "no memory, asked: a * - - - - b c",
        ),
        (
            Tree::Comprehension,
            Change::Nothing,
            &[],
            "as built: x n low high test - - -",
        ),
        (
            Tree::Comprehension,
            Change::Put,
            &[1],
            "was n: x new low high test - - -",
        ),
        (
            Tree::View,
            Change::Nothing,
            &[],
            "as built: n low high i - - - -",
        ),
        (
            Tree::View,
            Change::Put,
            &[3],
            "was i: n low high new - - - -",
        ),
    ] {
        let out = shown(rt.alloc(), tree, change, path)?;
        assert!(rt; out.as_str() == want);
    }
    Ok(())
}
