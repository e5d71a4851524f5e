//! Where statements end, and the words behind which they begin.
#![tactic(auto, using(crate::proofs::RowLaws::stms_push, crate::proofs::RowLaws::names_none))]

ghost use Rattle.std.specs.Prelude.{◌≡◌, IfOk, List, ◌∷◌, None};
ghost use Rattle.std.specs.Option.{option_map};
ghost use Rattle.ess_core.specs.StatementViews.{pure_stm};
ghost use Rattle.ess_core.specs.TreeViews.{pure_dom, pure_ex};
ghost use Rattle.ess_grammar.specs.Kinds.{token};
ghost use Rattle.ess_parse_laws.specs.Frames as machine;
ghost use Rattle.ess_semantics.specs.Trees as pure;
ghost use Rattle.ess_semantics.specs.Values.{Text};
ghost use Rattle.ess_parse_laws.specs.StatementEnds.{stated, declared, declarations};
ghost use Rattle.ess_parse_frames.specs.Rows.{back_names, back_stms};
ghost use Rattle.ess_parse_frames.specs.Views.{Steps, view_frame, is_given};
ghost use Rattle.ess_parse_frames.specs.Statements.{begin_with, begin_behind, one_declared, statements_of, given_domain};

use crate::rows::with_statement;
use crate::stack::{alone, outside};
use crate::{Declaring, Frame, Mode, Sense, State};
use ess_core::{Dom, Ex, Stm};
use ess_grammar::Kind;
use ess_rows::{Boxed, NoMemory, Row, Text};
use std::alloc::Global;

/// Behind a word that begins a statement; None at any other token. `NoMemory` where there is no room.
pub fn begin(alloc: Global, kind: Kind, stms: Row<Stm>) -> Result<Option<State>, NoMemory>
    ensures { IfOk result (λ p. (bytes : Text) → Steps (begin_with (token kind bytes) (back_stms stms)) p) }
{
    match kind {
        Kind::Given => Ok(outside(
            alloc,
            Mode::NamesWanted(Declaring::Given, Row::new(alloc), stms),
        )),
        Kind::Find => Ok(outside(
            alloc,
            Mode::NamesWanted(Declaring::Find, Row::new(alloc), stms),
        )),
        Kind::Letting => Ok(outside(alloc, Mode::LettingWanted(stms))),
        Kind::Where => alone(alloc, Mode::OperandWanted, Frame::Where(stms)),
        Kind::Such => Ok(outside(alloc, Mode::SuchRead(stms))),
        Kind::Minimising => alone(
            alloc,
            Mode::OperandWanted,
            Frame::Objective(Sense::Minimising, stms),
        ),
        Kind::Maximising => alone(
            alloc,
            Mode::OperandWanted,
            Frame::Objective(Sense::Maximising, stms),
        ),
        _ => Ok(None),
    }
}

/// Lets statements go.
pub fn let_statements_go(stms: Row<Stm>) {
    drop(stms);
}

/// No text goes on so behind these statements.
pub fn no_state_behind(stms: Row<Stm>) -> Option<State>
    ensures { result ≡ None }
{
    drop(stms);
    None
}

/// A statement that has ended, behind those before it.
#[derive(Drop)]
struct Ended {
    stms: Row<Stm>,
    stm: Stm,
}

/// The statement that this expression ends, where its innermost frame is a part of a statement.
fn with_expression(frame: Frame, expression: Boxed<Ex>) -> Option<Ended>
    ensures { (fs : List machine.Frame) → stated (view_frame frame ∷ fs) (pure_ex expression) ≡ option_map statements_of result }
{
    Some(match frame {
        Frame::Letting(name, stms) => Ended {
            stms,
            stm: Stm::LetEx(name, expression),
        },
        Frame::Unnamed(name, stms) => Ended {
            stms,
            stm: Stm::LetUnnamed(name, expression),
        },
        Frame::Where(stms) => Ended {
            stms,
            stm: Stm::Needs(expression),
        },
        Frame::SuchThat(stms) => Ended {
            stms,
            stm: Stm::SuchThat(expression),
        },
        Frame::Objective(Sense::Maximising, stms) => Ended {
            stms,
            stm: Stm::Maximise(expression),
        },
        Frame::Objective(Sense::Minimising, stms) => Ended {
            stms,
            stm: Stm::Minimise(expression),
        },
        other => {
            drop(other);
            drop(expression);
            return None;
        }
    })
}

/// The statements with the one that this expression ends, where its innermost frame is a part of a statement.
pub fn stated(frame: Frame, expression: Boxed<Ex>) -> Result<Option<Row<Stm>>, NoMemory>
    ensures { IfOk result (λ ss. (fs : List machine.Frame) → stated (view_frame frame ∷ fs) (pure_ex expression) ≡ option_map back_stms ss) }
{
    match with_expression(frame, expression) {
        Some(Ended { stms, stm }) => Ok(Some(with_statement(stms, stm)?)),
        None => Ok(None),
    }
}

/// One given, or one find, of this name.
fn declaration(word: Declaring, name: Text, domain: Boxed<Dom>) -> Stm
    ensures { pure_stm result ≡ one_declared (is_given word) name (pure_dom domain) }
{
    match word {
        Declaring::Given => Stm::Given(name, domain),
        Declaring::Find => Stm::Find(name, domain),
    }
}

/// The same of copies. `NoMemory` where there is no room for them.
fn declaration_copy(
    alloc: Global,
    word: Declaring,
    name: &Text,
    domain: &Dom,
) -> Result<Stm, NoMemory>
    ensures { IfOk result (λ s. pure_stm s ≡ one_declared (is_given word) name.now (pure_dom domain.now)) }
{
    let domain = Boxed::new(alloc, domain.copy(alloc)?)?;
    let name = name.copy(alloc)?;
    Ok(declaration(word, name, domain))
}

/// The statements with one given, or one find, of copies for each of these names. `NoMemory` where there is no room.
#[tactic(auto, using(crate::proofs::Declarations::declared_none, crate::proofs::Declarations::declared_more, crate::proofs::RowLaws::stms_push))]
fn declaration_copies(
    alloc: Global,
    word: Declaring,
    names: &[Text],
    domain: &Dom,
    stms: Row<Stm>,
) -> Result<Row<Stm>, NoMemory>
    ensures { IfOk result (λ ss. back_stms ss ≡ declarations (is_given word) (back_names names.now) (pure_dom domain.now) (back_stms stms)) }
{
    let mut stms = stms;
    for name in names {
        stms.push(declaration_copy(alloc, word, name, domain)?)?;
    }
    Ok(stms)
}

/// The statements with one given, or one find, for each of these names. `NoMemory` where there is no room.
#[tactic(auto, using(crate::proofs::Declarations::declared_one, crate::proofs::Declarations::declared_none))]
pub fn declarations(
    alloc: Global,
    word: Declaring,
    names: Row<Text>,
    domain: Boxed<Dom>,
    stms: Row<Stm>,
) -> Result<Row<Stm>, NoMemory>
    ensures { IfOk result (λ ss. back_stms ss ≡ declarations (is_given word) (back_names names) (pure_dom domain) (back_stms stms)) }
{
    let mut names = names;
    let Some(last) = names.pop() else {
        return Ok(stms);
    };
    let stms = declaration_copies(alloc, word, names.as_slice(), domain.get(), stms)?;
    with_statement(stms, declaration(word, last, domain))
}

/// A part of a statement that a domain ends.
#[derive(Drop)]
enum Wanting {
    /// Names behind a declaring word, and the statements before them.
    Names(Declaring, Row<Text>, Row<Stm>),
    /// The name of a letting, and the statements before it.
    Letting(Text, Row<Stm>),
}

/// The part of a statement that wants a domain, where the frame is one.
fn before_domain(frame: Frame) -> Option<Wanting>
    ensures { (fs : List machine.Frame) (d : pure.Dom) → declared (view_frame frame ∷ fs) d ≡ option_map (given_domain d) result }
{
    match frame {
        Frame::Declaration(word, names, stms) => Some(Wanting::Names(word, names, stms)),
        Frame::LettingDomain(name, stms) => Some(Wanting::Letting(name, stms)),
        other => {
            drop(other);
            None
        }
    }
}

/// The statements with those that this domain ends, where its innermost frame is a part of a statement.
pub fn declared(
    alloc: Global,
    frame: Frame,
    domain: Boxed<Dom>,
) -> Result<Option<Row<Stm>>, NoMemory>
    ensures { IfOk result (λ ss. (fs : List machine.Frame) → declared (view_frame frame ∷ fs) (pure_dom domain) ≡ option_map back_stms ss) }
{
    match before_domain(frame) {
        Some(Wanting::Names(word, names, stms)) => Ok(Some(declarations(
            alloc, word, names, domain, stms,
        )?)),
        Some(Wanting::Letting(name, stms)) => Ok(Some(with_statement(
            stms,
            Stm::LetDom(name, domain),
        )?)),
        None => Ok(None),
    }
}

/// Behind statements that have ended, where they have: a word begins the next one.
pub fn begin_after(
    alloc: Global,
    kind: Kind,
    ended: Option<Row<Stm>>,
) -> Result<Option<State>, NoMemory>
    ensures { IfOk result (λ p. (bytes : Text) → Steps (begin_behind (token kind bytes) (option_map back_stms ended)) p) }
{
    match ended {
        Some(stms) => begin(alloc, kind, stms),
        None => Ok(None),
    }
}
