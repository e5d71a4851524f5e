//! What stands at a path in an expression, to be read, replaced and edited in place.
ghost use Rattle.std.specs.Prelude.{◌≡◌, Bool, Result, is_some, IfOk, IfErr};
ghost use Rattle.std.specs.Option.{option_copied};
ghost use Rattle.ess_core.specs.declared.expressions.Ex.{Ex};
ghost use Rattle.ess_core_parts.specs.Parts.{part, with_part, hole, at, with_at, Steps, filled};
ghost use Rattle.ess_rows.specs.declared.memory.NoMemory.{NoMemory};

use crate::expressions::{own_part, put_own_part};
use ess_core::{Ex, NoMemory};
use std::mem;

/// The direct part number `k` of an expression, counted from 0 in the order of the text, if there is one. Parts inside
/// domains, generators, attributes, ranges and views count. The body of a comprehension comes first, in a view the parts of
/// its domain, and a record's parts come in the order in which they are kept.
pub fn child(ex: &Ex, k: u32) -> Option<&Ex>
    ensures { option_copied result ≡ part ex.now k }
{
    match own_part(ex, k) {
        Ok(part) => Some(part),
        Err(_) => None,
    }
}

/// The part at a path, if the path stays in the expression: each number of the path names a direct part of the last.
pub fn focus<'a>(ex: &'a Ex, path: &[u32]) -> Option<&'a Ex>
    ensures { option_copied result ≡ at ex.now path.now }
{
    match path.split_first() {
        None => Some(ex),
        Some((k, rest)) => focus(child(ex, *k)?, rest),
    }
}

/// Puts `new` in place of an expression, and answers what it was.
pub fn put(ex: &mut Ex, new: Ex) -> Ex
    ensures was { result ≡ ex.old }
    ensures after { ex.new ≡ new }
{
    mem::replace(ex, new)
}

/// Puts `new` in place of the part at a path, and answers what stood there. Where the path leaves the expression, nothing
/// changes, and `new` comes back as the error.
pub fn replace_at(ex: &mut Ex, path: &[u32], new: Ex) -> Result<Ex, Ex>
    ensures after { ex.new ≡ with_at ex.old path.now new }
    ensures was { IfOk result (λ was. at ex.old path.now ≡ Some was) }
    ensures outside { IfErr result (λ back. at ex.old path.now ≡ None) }
    ensures back { IfErr result (λ back. back ≡ new) }
    ensures unchanged { IfErr result (λ back. ex.new ≡ ex.old) }
{
    match path.split_first() {
        None => Ok(put(ex, new)),
        Some((k, rest)) => match take_part(ex, *k) {
            Some(mut part) => {
                let answer = replace_at(&mut part, rest, new);
                put_back(ex, *k, part);
                answer
            }
            None => Err(new),
        },
    }
}

/// A change of one expression, which may be refused for want of memory.
pub trait Edit {
    /// What a step says: of the editor and the expression before it, of the answer, and of the editor and the expression
    /// after it. So it says what stands after a refusal too.
    ghost step: { Self → Ex → Result Bool NoMemory → Self → Ex → Type 0 };

    /// Changes an expression in place, and answers what the editor likes to tell.
    fn edit(&mut self, ex: &mut Ex) -> Result<bool, NoMemory>
        ensures { step self.old ex.old result self.new ex.new };
}

/// Lends the part at a path to an editor, which makes one step there, and answers what the step answers: the expression is
/// then the old one with the part at the path as the step left it. Where the path leaves the expression, the answer is
/// `None`, and neither the expression nor the editor is changed.
pub fn edit_at<E: Edit>(ex: &mut Ex, path: &[u32], edit: &mut E) -> Option<Result<bool, NoMemory>>
    ensures within { is_some result ≡ is_some (at ex.old path.now) }
    ensures step { Steps E.step edit.old (at ex.old path.now) result edit.new (at ex.new path.now) }
    ensures filled { ex.new ≡ filled ex.old path.now (at ex.new path.now) }
{
    match path.split_first() {
        None => Some(edit.edit(ex)),
        Some((k, rest)) => match take_part(ex, *k) {
            Some(mut part) => {
                let answer = edit_at(&mut part, rest, edit);
                put_back(ex, *k, part);
                answer
            }
            None => None,
        },
    }
}

/// Takes the direct part number `k` out of an expression, if there is one. `false` stands there until it is put back.
fn take_part(ex: &mut Ex, k: u32) -> Option<Ex>
    ensures part { result ≡ part ex.old k }
    ensures after { ex.new ≡ with_part ex.old k hole }
{
    match put_own_part(ex, k, Ex::Truth(false)) {
        Ok(part) => Some(part),
        Err((_, back)) => {
            drop(back);
            None
        }
    }
}

/// Puts a part that was taken out, and maybe changed, in its place.
fn put_back(ex: &mut Ex, k: u32, part: Ex)
    ensures { ex.new ≡ with_part ex.old k part }
{
    match put_own_part(ex, k, part) {
        Ok(was) => drop(was),
        Err((_, back)) => drop(back),
    }
}
