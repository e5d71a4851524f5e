ghost use Rattle.std.specs.Prelude.{◌≡◌, IfOk, IfSome, Some, true, map};
ghost use Rattle.std.specs.Option.{option_copied};
ghost use Rattle.ess_semantics.specs.Names.{look};
ghost use Rattle.ess_core.specs.ValueViews.{pure_val};
ghost use Rattle.ess_core.specs.TableViews.{pure_bindings};
ghost use Rattle.ess_values_lookups.specs.Rising.{has_rising_items};
ghost use Rattle.ess_eval.specs.Flags.{flags_hold};

use crate::names::same_name;
use ess_core::{Binding, Env, Ex, NoMemory, Row, Text, Val};
use ess_values_lookups::is_rising;
use std::alloc::Global;
use std::marker::Model;

/// An env with what is known of its values: a flag in an entry's place, where it is set, says that the items of its value
/// rise, so that they can be looked for by halves. Where there is no flag nothing is known.
#[derive(Drop)]
pub(crate) struct Risen<'a> {
    env: &'a Env,
    flags: Row<bool>,
}

impl<'a> Model for Risen<'a> {
    ghost use Rattle.std.specs.Prelude.{◌≡◌, true};
    ghost use Rattle.ess_core.specs.declared.tables.Env.{Env};
    ghost use Rattle.ess_core.specs.contracts.tables.Env as env_type;
    ghost use Rattle.ess_eval.specs.Flags.{flags_hold};

    ghost Value = { Env };

    ghost coded = { env_type.the_row.coded };

    ghost view = { λ r. r.env.now };

    ghost invariant = { λ r. flags_hold r.flags r.env.now.vals ≡ true };
}

impl<'a> Risen<'a> {
    /// The env.
    pub(crate) fn env(&self) -> &Env
        ensures { result.now ≡ self.now }
    {
        self.env
    }

    /// The newest value of a name, where its items are known to rise.
    pub(crate) fn newest_rising(&self, name: &Text) -> Option<&Val>
        ensures found { IfSome (option_copied result) (λ v. look (pure_bindings self.now.vals) name.now ≡ Some (pure_val v)) }
        ensures rises { IfSome (option_copied result) (λ v. has_rising_items (pure_val v) ≡ true) }
    {
        newest_flagged(self.env.vals.as_slice(), self.flags.as_slice(), name)
    }
}

/// The env with nothing known of its values.
#[tactic(auto, using(crate::proofs::Flags::no_flags))]
pub(crate) fn unread<'a>(alloc: Global, env: &'a Env) -> Risen<'a>
    ensures { result ≡ env.entry.now }
{
    Risen {
        env,
        flags: Row::new(alloc),
    }
}

/// The env with what its values show. `NoMemory` where there is no room for the flags.
#[tactic(auto, using(crate::proofs::Flags::flags_read))]
fn read<'a>(alloc: Global, env: &'a Env) -> Result<Risen<'a>, NoMemory>
    ensures { IfOk result (λ r. r ≡ env.entry.now) }
{
    let flags = flags_of(alloc, env.vals.as_slice())?;
    Ok(Risen { env, flags })
}

/// The env with what is worth knowing of its values to evaluate an expression: one that runs over bindings may look often.
pub(crate) fn read_for<'a>(alloc: Global, ex: &Ex, env: &'a Env) -> Result<Risen<'a>, NoMemory>
    ensures { IfOk result (λ r. r ≡ env.entry.now) }
{
    if runs_over_bindings(ex, 200) {
        read(alloc, env)
    } else {
        Ok(unread(alloc, env))
    }
}

/// Whether a comprehension stands in the expression, or may stand below this depth. It only decides what is made ready, so
/// nothing is promised.
fn runs_over_bindings(ex: &Ex, depth: u64) -> bool {
    if depth == 0 {
        return true;
    }
    match ex {
        Ex::Comp(_, _) => true,
        Ex::One(_, a) => runs_over_bindings(a.get(), depth - 1),
        Ex::Two(_, a, b) => {
            runs_over_bindings(a.get(), depth - 1) || runs_over_bindings(b.get(), depth - 1)
        }
        Ex::Call(_, _, args) => match args.as_slice().split_first() {
            Some((a, rest)) => rest.len() > 0 || runs_over_bindings(a, depth - 1),
            None => false,
        },
        _ => false,
    }
}

/// Whether the items of each value rise.
fn flags_of(alloc: Global, vals: &[Binding]) -> Result<Row<bool>, NoMemory>
    ensures { IfOk result (λ flags. flags ≡ map (λ b. has_rising_items (pure_val b.val)) vals.now) }
{
    let mut flags = Row::with_capacity(alloc, vals.len())?;
    for binding in vals {
        flags.push(is_rising(&binding.val))?;
    }
    Ok(flags)
}

/// The newest value of a name, where the flag in its place is set.
#[tactic(auto, using(crate::proofs::Flags::flagged))]
fn newest_flagged<'a>(vals: &'a [Binding], flags: &[bool], name: &Text) -> Option<&'a Val>
    requires { flags_hold flags.now vals.now ≡ true }
    ensures found { IfSome (option_copied result) (λ v. look (pure_bindings vals.now) name.now ≡ Some (pure_val v)) }
    ensures rises { IfSome (option_copied result) (λ v. has_rising_items (pure_val v) ≡ true) }
{
    let mut place: usize = vals.len();
    'newest: while place > 0 {
        place -= 1;
        if same_name(&vals[place].name, name) {
            if place < flags.len() && flags[place] {
                return Some(&vals[place].val);
            }
            return None;
        }
    }
    None
}
