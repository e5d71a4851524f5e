ghost use Rattle.std.specs.Prelude.{◌≡◌, [], ◌∷◌, ◌++◌, ◌||◌, not, List, IfOk, option_map};
ghost use Rattle.ess_semantics.specs.Lists.{is_some_and};
ghost use Rattle.ess_semantics.specs.Names.{look, is_among};
ghost use Rattle.eprime_read_convert.specs.Lines.{scope_of, Indexes};
ghost use Rattle.eprime_read_convert.specs.declared.lines.Line.{Line};

use ess_rows::{NoMemory, Row, Text};
use std::alloc::Global;
use std::collections::BTreeMap;
use std::marker::Model;

/// What a line of a model declares: a name, whether its cells are truth values, and whether it is found.
#[derive(Drop)]
pub struct Line {
    pub name: Text,
    pub truth: bool,
    pub found: bool,
}

/// What lines declare of a name: whether the cells of the newest one are truth values, and whether one of them is a find.
#[derive(Clone, Copy)]
pub(crate) struct Known {
    truth: bool,
    found: bool,
}

/// What the lines of a model declare, in their order. Each name is looked up in an ordered map.
#[derive(Drop)]
pub struct Lines {
    list: Row<Line>,
    index: BTreeMap<Text, Known>,
}

impl Model for Lines {
    ghost Value = { List Line };

    ghost view = { λ s. s.list };

    ghost invariant = { λ s. Indexes s.list s.index };
}

impl Lines {
    /// No lines.
    #[tactic(auto, using(crate::proofs::LineLaws::no_lines))]
    pub fn new(alloc: Global) -> Lines
        ensures { result ≡ [] }
    {
        Lines {
            list: Row::new(alloc),
            index: BTreeMap::new(alloc),
        }
    }

    /// These lines, and one more behind them. `NoMemory` where there is no room for it.
    pub fn with(self, alloc: Global, line: Line) -> Result<Lines, NoMemory>
        ensures { IfOk result (λ ls. ls ≡ self ++ line ∷ []) }
    {
        let name = line.name.copy(alloc)?;
        let known = known_with(&self, &line);
        let Lines { list, index } = self;
        let mut list = list;
        let mut index = index;
        index.insert(name, known)?;
        list.push(line)?;
        Ok(Lines { list, index })
    }
}

/// What the lines declare of a name, where one of them declares it.
fn known_of(lines: &Lines, name: &Text) -> Option<Known>
    ensures truth { option_map (λ d. d.truth) result ≡ look (scope_of lines.now).tables name.now }
    ensures found { is_some_and result (λ d. d.found) ≡ is_among (scope_of lines.now).finds name.now }
{
    lines.index.get(name).copied()
}

/// What lines and one more line declare of the name of that line.
fn known_with(lines: &Lines, line: &Line) -> Known
    ensures truth { result.truth ≡ line.now.truth }
    ensures found { result.found ≡ (line.now.found || is_among (scope_of lines.now).finds line.now.name) }
{
    Known {
        truth: line.truth,
        found: line.found || is_found(lines, &line.name),
    }
}

/// Whether the cells of a declared name are truth values.
pub fn truth_of(lines: &Lines, name: &Text) -> Option<bool>
    ensures { result ≡ look (scope_of lines.now).tables name.now }
{
    match known_of(lines, name) {
        Some(found) => Some(found.truth),
        None => None,
    }
}

/// Whether a line declares the name as a find.
pub fn is_found(lines: &Lines, name: &Text) -> bool
    ensures { result ≡ is_among (scope_of lines.now).finds name.now }
{
    match known_of(lines, name) {
        Some(found) => found.found,
        None => false,
    }
}

/// Whether the name may stand where finds may stand or not.
pub fn may_stand(lines: &Lines, finds: bool, name: &Text) -> bool
    ensures { result ≡ (finds || not (is_among (scope_of lines.now).finds name.now)) }
{
    finds || !is_found(lines, name)
}
