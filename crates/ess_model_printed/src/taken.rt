//! The names that are taken, and the printed names, none of which is.
ghost use Rattle.std.specs.Prelude.{◌≡◌, ◌++◌, ◌+◌, codes, decimal, IfOk, length};
ghost use Rattle.ess_semantics.specs.Names.{is_among};
ghost use Rattle.conjure_model_laws.specs.Printed.{printed_name};
ghost use Rattle.ess_model_printed.specs.PrintedNames.{passed};

use ess_bound_names::BoundNames;
use ess_rows::{NoMemory, Text};
use std::alloc::Global;
use std::marker::Model;

/// Names that are taken: no printed name is one of them.
pub struct Taken {
    names: BoundNames,
    count: usize,
}

// They are let go in one step.
impl Drop for Taken {
    fn drop(self) {
        let Taken { names, count } = self;
        let _count = count;
        drop(names);
    }
}

impl Model for Taken {
    ghost use Rattle.std.specs.Prelude.{◌≡◌, List, length};
    ghost use Rattle.ess_semantics.specs.Values as values;

    ghost Value = { List values.Text };

    ghost view = { λ t. t.names };

    ghost invariant = { λ t. t.count ≡ length t.names };
}

impl Taken {
    /// These names. `NoMemory` where there is no room for them.
    pub fn from_names(alloc: Global, names: &[Text]) -> Result<Taken, NoMemory>
        ensures { IfOk result (λ t. t ≡ names.now) }
    {
        let count = names.len();
        let names = bound_names(alloc, names)?;
        Ok(Taken { names, count })
    }

    /// Whether a name is taken.
    pub fn has(&self, name: &Text) -> bool
        ensures { result ≡ is_among self.now name.now }
    {
        self.names.has(name)
    }

    /// How many names are taken.
    pub fn len(&self) -> usize
        ensures { result ≡ length self.now }
    {
        self.count
    }

    /// The printed name of a binder under so many others: the first of q1, q2, .. that isn't taken, where as many of those are left
    /// out first. `NoMemory` where there is no room for it.
    #[tactic(auto, using(crate::proofs::PrintedNames::found_first, crate::proofs::PrintedNames::found_on, crate::proofs::PrintedNames::found_is, crate::proofs::PrintedNames::found_none))]
    pub fn printed_name(&self, alloc: Global, depth: usize) -> Result<Text, NoMemory>
        ensures { IfOk result (λ t. t ≡ printed_name self.now depth) }
    {
        let last = behind_last(depth, self.count)?;
        let mut left = depth;
        for number in 1..last {
            let name = q_name(alloc, number)?;
            match passed(self.has(&name), left) {
                Some(fewer) => left = fewer,
                None => return Ok(name),
            }
        }
        Ok(Text::new(alloc))
    }
}

/// The names of a slice.
fn bound_names(alloc: Global, names: &[Text]) -> Result<BoundNames, NoMemory>
    ensures { IfOk result (λ r. r ≡ names.now) }
{
    let mut bound = BoundNames::new(alloc);
    for name in names {
        bound = bound.with(alloc, name)?;
    }
    Ok(bound)
}

/// The number behind the last of the names that are asked: as many as the sum, and one more. `NoMemory` where it can't be counted.
fn behind_last(depth: usize, count: usize) -> Result<u64, NoMemory>
    ensures { IfOk result (λ n. n ≡ depth + count + 2) }
{
    match depth.checked_add(count) {
        Some(sum) => match sum.checked_add(2) {
            Some(last) => Ok(last as u64),
            None => Err(NoMemory),
        },
        None => Err(NoMemory),
    }
}

/// How many are left out behind a name, where it isn't the one.
#[tactic(auto, using(crate::proofs::PrintedNames::passed_less))]
fn passed(is_taken: bool, left: usize) -> Option<usize>
    ensures { result ≡ passed is_taken left }
{
    if is_taken {
        return Some(left);
    }
    if left == 0 {
        return None;
    }
    Some(left - 1)
}

/// The name q with a number.
fn q_name(alloc: Global, number: u64) -> Result<Text, NoMemory>
    ensures { IfOk result (λ t. t ≡ codes "q" ++ decimal number) }
{
    let mut name = Text::new(alloc);
    name.push_byte(b'q')?;
    name.push_u64(number)?;
    Ok(name)
}
