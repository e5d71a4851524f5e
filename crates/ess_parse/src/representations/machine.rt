ghost use Rattle.std.specs.Prelude.{◌≡◌, IfOk};
ghost use Rattle.std.specs.Option.{option_map};
ghost use Rattle.ess_core.specs.TreeViews.{pure_repr};
ghost use Rattle.ess_semantics.specs.Trees.{repr, no_reprs};
ghost use Rattle.ess_grammar.specs.Kinds.{token};
ghost use Rattle.ess_grammar.specs.Words.{symbol, comma, close_square};
ghost use Rattle.ess_parse_laws.specs.RepresentationMachine.{repr_then, step_kind_wanted, step_kind_read};
ghost use Rattle.ess_parse.specs.Machines.{step_representation, finish_representation, start_representation};
ghost use Rattle.ess_parse.specs.RepresentationViews.{view_frames, view_machine};

use super::kinds::kind_of;
use ess_core::{NoMemory, Repr, ReprKind, Row};
use ess_lex::Kind;
use std::alloc::Global;

/// A kind whose children are under way, and those that are read.
#[derive(Drop)]
pub(super) struct Frame {
    kind: ReprKind,
    children: Row<Repr>,
}

/// What is wanted next, or what was just read.
#[derive(Drop)]
pub(super) enum Mode {
    /// The name of a kind is wanted.
    KindWanted,
    /// The name of a kind was read.
    KindRead(ReprKind),
    /// A representation was read with its brackets.
    ReprRead(Repr),
}

/// Reads a representation token by token.
#[derive(Drop)]
pub(super) struct Machine {
    /// The kinds whose children are under way, the innermost last.
    frames: Row<Frame>,
    mode: Mode,
}

impl Machine {
    /// A machine that has read nothing.
    pub(super) fn new(alloc: Global) -> Machine
        ensures { view_machine result ≡ start_representation }
    {
        Machine {
            frames: Row::new(alloc),
            mode: Mode::KindWanted,
        }
    }

    /// Takes a token. None where no representation goes on with it.
    pub(super) fn step(
        self,
        alloc: Global,
        kind: Kind,
        text: &[u8],
    ) -> Result<Option<Machine>, NoMemory>
        ensures { IfOk result (λ next. step_representation (token kind text.now) (view_machine self) ≡ option_map view_machine next) }
    {
        let Machine { frames, mode } = self;
        match mode {
            Mode::KindWanted => Ok(take_name(kind, text, frames)),
            Mode::KindRead(read) => step_behind_name(alloc, kind, text, read, frames),
            Mode::ReprRead(repr) => step_behind_repr(kind, text, repr, frames),
        }
    }

    /// The representation that was read, if it is whole.
    pub(super) fn finish(self, alloc: Global) -> Option<Repr>
        ensures { finish_representation (view_machine self) ≡ option_map pure_repr result }
    {
        let Machine { frames, mode } = self;
        if !frames.is_empty() {
            return None;
        }
        match mode {
            Mode::KindWanted => None,
            Mode::KindRead(kind) => Some(childless(alloc, kind)),
            Mode::ReprRead(repr) => Some(repr),
        }
    }
}

/// A representation without children.
fn childless(alloc: Global, kind: ReprKind) -> Repr
    ensures { pure_repr result ≡ repr kind no_reprs }
{
    Repr {
        kind,
        children: Row::new(alloc),
    }
}

/// Takes the name of a kind.
fn take_name(kind: Kind, text: &[u8], frames: Row<Frame>) -> Option<Machine>
    ensures { step_kind_wanted (token kind text.now) (view_frames frames) ≡ option_map view_machine result }
{
    match kind {
        Kind::Name => {
            let read = kind_of(text)?;
            Some(Machine {
                frames,
                mode: Mode::KindRead(read),
            })
        }
        _ => None,
    }
}

/// Takes a token behind the name of a kind.
fn step_behind_name(
    alloc: Global,
    kind: Kind,
    text: &[u8],
    read: ReprKind,
    frames: Row<Frame>,
) -> Result<Option<Machine>, NoMemory>
    ensures { IfOk result (λ next. step_kind_read (token kind text.now) read (view_frames frames) ≡ option_map view_machine next) }
{
    match kind {
        Kind::OpenSquare => {
            let mut frames = frames;
            frames.push(Frame {
                kind: read,
                children: Row::new(alloc),
            })?;
            Ok(Some(Machine {
                frames,
                mode: Mode::KindWanted,
            }))
        }
        _ => step_behind_repr(kind, text, childless(alloc, read), frames),
    }
}

/// Takes a token behind a whole representation.
fn step_behind_repr(
    kind: Kind,
    text: &[u8],
    repr: Repr,
    frames: Row<Frame>,
) -> Result<Option<Machine>, NoMemory>
    ensures { IfOk result (λ next. repr_then (token kind text.now) (pure_repr repr) (view_frames frames) ≡ option_map view_machine next) }
{
    match kind {
        Kind::Comma => begin_next_child(repr, frames),
        Kind::CloseSquare => close_children(repr, frames),
        _ => Ok(None),
    }
}

/// Goes on with the next child behind a comma.
fn begin_next_child(repr: Repr, frames: Row<Frame>) -> Result<Option<Machine>, NoMemory>
    ensures { IfOk result (λ next. repr_then (symbol comma) (pure_repr repr) (view_frames frames) ≡ option_map view_machine next) }
{
    let mut frames = frames;
    let Some(Frame { kind, mut children }) = frames.pop() else {
        return Ok(None);
    };
    children.push(repr)?;
    frames.push(Frame { kind, children })?;
    Ok(Some(Machine {
        frames,
        mode: Mode::KindWanted,
    }))
}

/// Ends the children behind the bracket that closes them.
fn close_children(repr: Repr, frames: Row<Frame>) -> Result<Option<Machine>, NoMemory>
    ensures { IfOk result (λ next. repr_then (symbol close_square) (pure_repr repr) (view_frames frames) ≡ option_map view_machine next) }
{
    let mut frames = frames;
    let Some(Frame { kind, mut children }) = frames.pop() else {
        return Ok(None);
    };
    children.push(repr)?;
    Ok(Some(Machine {
        frames,
        mode: Mode::ReprRead(Repr { kind, children }),
    }))
}
