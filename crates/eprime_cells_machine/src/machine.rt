ghost use Rattle.std.specs.Prelude.{◌≡◌, IfOk};
ghost use Rattle.std.specs.Option.{option_map};
ghost use Rattle.std.specs.Str.{IsAscii};
ghost use Rattle.ess_semantics.specs.Values.{Text};
ghost use Rattle.ess_grammar.specs.Kinds.{token};
ghost use Rattle.ess_lex.specs.Lexing.{IsNatural};
ghost use Rattle.eprime_read_cells_laws.specs.CellMachine.{step_letting_wanted, step_nothing_read, step_name, step_be, cells_step_at, cells_step, cells_finish, cells_start};
ghost use Rattle.eprime_cells_machine.specs.ValueViews.{pure_lettings};
ghost use Rattle.eprime_cells_machine.specs.MachineViews.{view_state, view_wanted, view_machine};

use crate::stages::{Begun, Stage, State, Wanted};
use crate::steps::step_value;
use crate::values::CellLetting;
use ess_lex::Kind;
use ess_rows::{NoMemory, Row, Text};
use std::alloc::Global;

/// Reads a text of cells token by token.
pub struct Machine {
    state: State,
}

// It is let go in one step, as a letting under way is.
impl Drop for Machine {
    fn drop(self) {
        let Machine { state } = self;
        drop(state);
    }
}

impl Machine {
    /// A machine that has read nothing.
    pub fn new(alloc: Global) -> Machine
        ensures { view_machine result ≡ cells_start }
    {
        Machine {
            state: State::Outside(Row::new(alloc), Wanted::Anything),
        }
    }

    /// Takes a token. None where no text of cells goes on with it. `NoMemory` for want of memory.
    pub fn step(self, alloc: Global, kind: Kind, text: &[u8]) -> Result<Option<Machine>, NoMemory>
        requires ascii { IsAscii text.now }
        requires natural { IsNatural kind }
        ensures { IfOk result (λ next. cells_step (token kind text.now) (view_machine self) ≡ option_map view_machine next) }
    {
        let Machine { state } = self;
        match step_state(alloc, kind, text, state)? {
            Some(state) => Ok(Some(Machine { state })),
            None => Ok(None),
        }
    }

    /// The lettings that were read, in their order, where the text may end. None where it may not.
    pub fn finish(self) -> Option<Row<CellLetting>>
        ensures { cells_finish (view_machine self) ≡ option_map pure_lettings result }
    {
        let Machine { state } = self;
        match state {
            State::Outside(done, Wanted::Anything | Wanted::Letting) => Some(done),
            other => {
                drop(other);
                None
            }
        }
    }
}

/// The state behind a token where a letting may begin.
fn letting_wanted(kind: Kind, done: Row<CellLetting>) -> Option<State>
    ensures { (bytes : Text) → step_letting_wanted (token kind bytes) (pure_lettings done) ≡ option_map view_state result }
{
    match kind {
        Kind::Letting => Some(State::Unnamed(done)),
        _ => None,
    }
}

/// The state behind the first token.
fn anything_wanted(kind: Kind, done: Row<CellLetting>) -> Option<State>
    ensures { (bytes : Text) → step_nothing_read (token kind bytes) (pure_lettings done) ≡ option_map view_state result }
{
    match kind {
        Kind::Language => Some(State::Outside(done, Wanted::Prime)),
        _ => letting_wanted(kind, done),
    }
}

/// The state behind a token outside of values and names.
fn step_outside(kind: Kind, done: Row<CellLetting>, wanted: Wanted) -> Option<State>
    ensures { (bytes : Text) → cells_step_at (token kind bytes) (pure_lettings done) (view_wanted wanted) ≡ option_map view_state result }
{
    match wanted {
        Wanted::Anything => anything_wanted(kind, done),
        Wanted::Letting => letting_wanted(kind, done),
        Wanted::Prime => match kind {
            Kind::PrimeWord => Some(State::Outside(done, Wanted::Major)),
            _ => None,
        },
        Wanted::Major => match kind {
            Kind::Num(_) => Some(State::Outside(done, Wanted::Dot)),
            _ => None,
        },
        Wanted::Dot => match kind {
            Kind::Dot => Some(State::Outside(done, Wanted::Minor)),
            _ => None,
        },
        Wanted::Minor => match kind {
            Kind::Num(_) => Some(State::Outside(done, Wanted::Letting)),
            _ => None,
        },
    }
}

/// The state behind a token where the name of a letting is wanted.
fn name_wanted(
    alloc: Global,
    kind: Kind,
    text: &[u8],
    done: Row<CellLetting>,
) -> Result<Option<State>, NoMemory>
    requires { IsAscii text.now }
    ensures { IfOk result (λ next. step_name (token kind text.now) (pure_lettings done) ≡ option_map view_state next) }
{
    match kind {
        Kind::Name => Ok(Some(State::Named(done, Text::from_ascii(alloc, text)?))),
        _ => Ok(None),
    }
}

/// The state behind a token that stands behind the name of a letting.
fn be_wanted(alloc: Global, kind: Kind, done: Row<CellLetting>, name: Text) -> Option<State>
    ensures { (bytes : Text) → step_be (token kind bytes) (pure_lettings done) name ≡ option_map view_state result }
{
    match kind {
        Kind::Be => {
            let lists = Row::new(alloc);
            Some(State::InValue(Begun { done, name, lists }, Stage::ValueWanted))
        }
        _ => None,
    }
}

/// The state behind a token.
fn step_state(
    alloc: Global,
    kind: Kind,
    text: &[u8],
    state: State,
) -> Result<Option<State>, NoMemory>
    requires ascii { IsAscii text.now }
    requires natural { IsNatural kind }
    ensures { IfOk result (λ next. cells_step (token kind text.now) (view_state state) ≡ option_map view_state next) }
{
    match state {
        State::Outside(done, wanted) => Ok(step_outside(kind, done, wanted)),
        State::Unnamed(done) => name_wanted(alloc, kind, text, done),
        State::Named(done, name) => Ok(be_wanted(alloc, kind, done, name)),
        State::InValue(begun, stage) => step_value(alloc, kind, begun, stage),
    }
}
