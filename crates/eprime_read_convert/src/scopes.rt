ghost use Rattle.std.specs.Prelude.{◌≡◌, [], ◌++◌, List, IfOk, reverse};
ghost use Rattle.std.specs.List.{list_any};
ghost use Rattle.ess_semantics.specs.Values as values;
ghost use Rattle.ess_semantics.specs.Names.{is_among};
ghost use Rattle.eprime_read_convert.specs.Scopes.{newest_first};

use ess_bound_names::BoundNames;
use ess_rows::{NoMemory, Row, Text};
use std::alloc::Global;
use std::marker::Model;

/// The names that the comprehensions bind inside which an expression stands, the innermost first.
#[derive(Drop)]
pub struct Scopes<'a> {
    scopes: Row<&'a BoundNames>,
}

impl<'a> Model for Scopes<'a> {
    ghost Value = { List values.Text };

    ghost view = { λ s. newest_first s.scopes };
}

impl<'a> Scopes<'a> {
    /// No names. Nothing is allocated.
    pub fn new(alloc: Global) -> Scopes<'a>
        ensures { result ≡ [] }
    {
        Scopes {
            scopes: Row::new(alloc),
        }
    }

    /// These names inside the others. `NoMemory` where there is no room.
    #[tactic(auto, using(crate::proofs::ScopeLaws::scope_more))]
    pub fn inside<'b>(&self, alloc: Global, names: &'b BoundNames) -> Result<Scopes<'b>, NoMemory>
    where
        'a: 'b,
        ensures { IfOk result (λ s. s ≡ reverse names.now ++ self.now) }
    {
        let mut scopes = Row::from_slice(alloc, self.scopes.as_slice())?;
        scopes.push(names)?;
        Ok(Scopes { scopes })
    }

    /// Whether a name is among them.
    pub fn has(&self, name: &Text) -> bool
        ensures { result ≡ is_among self.now name.now }
    {
        is_in(self.scopes.as_slice(), name)
    }
}

/// Whether a scope has the name.
fn is_in(scopes: &[&BoundNames], name: &Text) -> bool
    ensures { result ≡ list_any (λ scope. is_among scope.now name.now) scopes.now }
{
    scopes.iter().any(|scope| scope.has(name))
}
