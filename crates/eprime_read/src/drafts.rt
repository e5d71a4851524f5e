ghost use Rattle.std.specs.Prelude.{◌≡◌, true, IfOk, map};
ghost use Rattle.ess_grammar.specs.Words.{given_word, find_word};
ghost use Rattle.ess_grammar.specs.Models.{Scope, is_readable_model};
ghost use Rattle.ess_semantics.specs.Meaning.{is_bool_dom};
ghost use Rattle.std.specs.Option.{option_map};
ghost use Rattle.eprime_tree.specs.Views.{pure_dom, pure_decl, pure_ex, pure_goal, pure_model};
ghost use Rattle.eprime_read_convert.specs.Lines.{scope_of};
ghost use Rattle.eprime_read.specs.Drafts.{IsSound, Fits, given_on, find_on, goal_on, rules_on};

use eprime_read_convert::{Line, Lines};
use eprime_tree::{PDecl, PDom, PEx, PGoal, PModel};
use ess_rows::{NoMemory, Row};
use std::alloc::Global;
use std::mem;

/// A model as it is read so far, with what its lines declare.
pub(crate) struct Draft {
    /// The model. Its header isn't read.
    pub(crate) model: PModel,
    /// What its lines declare, in their order.
    pub(crate) lines: Lines,
    ghost sound: { IsSound model lines },
}

// A draft is let go in one step: with a derived `Drop` each function that lets one go would go through the trees of its goal.
impl Drop for Draft {
    fn drop(self) {
        let Draft { model, lines } = self;
        drop(model);
        drop(lines);
    }
}

impl Draft {
    ghost use Rattle.eprime_read.specs.Views.{view_draft};

    /// Its model.
    pub(crate) fn into_model(self) -> PModel
        ensures { pure_model result ≡ view_draft self }
    {
        let Draft { model, lines } = self;
        drop(lines);
        model
    }

    /// The model of a draft, where there is one.
    pub(crate) fn model_in(draft: Option<Draft>) -> Option<PModel>
        ensures { option_map pure_model result ≡ option_map view_draft draft }
    {
        match draft {
            Some(draft) => Some(draft.into_model()),
            None => None,
        }
    }
}

/// Is it the domain of truth values?
fn is_bool(dom: &PDom) -> bool
    ensures { (s : Scope) → result ≡ is_bool_dom (pure_dom s dom.now) }
{
    matches!(dom, PDom::Bool)
}

/// What a declaration declares.
fn line_of(alloc: Global, decl: &PDecl, found: bool) -> Result<Line, NoMemory>
    ensures name { IfOk result (λ l. l.name ≡ decl.now.name) }
    ensures truth { IfOk result (λ l. (s : Scope) → l.truth ≡ is_bool_dom (pure_dom s decl.now.cell)) }
    ensures found { IfOk result (λ l. l.found ≡ found) }
{
    Ok(Line {
        name: decl.name.copy(alloc)?,
        truth: is_bool(&decl.cell),
        found,
    })
}

impl Draft {
    ghost use Rattle.eprime_read.specs.Views.{view_draft};

    /// The model with this given more.
    #[tactic(auto, using(crate::proofs::Growth::given_more, crate::proofs::Growth::given_sound))]
    pub(crate) fn push_given(self, alloc: Global, decl: PDecl) -> Result<Draft, NoMemory>
        requires fits { Fits given_word self.model }
        requires readable { is_readable_model (given_on (view_draft self) (pure_decl (scope_of self.lines) decl)) ≡ true }
        ensures model { IfOk result (λ d. view_draft d ≡ given_on (view_draft self) (pure_decl (scope_of self.lines) decl)) }
        ensures fits { IfOk result (λ d. Fits given_word d.model) }
    {
        let line = line_of(alloc, &decl, false)?;
        let Draft { model, lines } = self;
        let mut model = model;
        model.givens.push(decl)?;
        let lines = lines.with(alloc, line)?;
        Ok(Draft { model, lines })
    }

    /// The model with this find more.
    #[tactic(auto, using(crate::proofs::Growth::find_more, crate::proofs::Growth::find_sound))]
    pub(crate) fn push_find(self, alloc: Global, decl: PDecl) -> Result<Draft, NoMemory>
        requires fits { Fits find_word self.model }
        requires readable { is_readable_model (find_on (view_draft self) (pure_decl (scope_of self.lines) decl)) ≡ true }
        ensures model { IfOk result (λ d. view_draft d ≡ find_on (view_draft self) (pure_decl (scope_of self.lines) decl)) }
        ensures fits { IfOk result (λ d. Fits find_word d.model) }
    {
        let line = line_of(alloc, &decl, true)?;
        let Draft { model, lines } = self;
        let mut model = model;
        model.finds.push(decl)?;
        let lines = lines.with(alloc, line)?;
        Ok(Draft { model, lines })
    }

    /// The model with this objective.
    #[tactic(auto, using(crate::proofs::Growth::goal_more, crate::proofs::Growth::goal_sound))]
    pub(crate) fn with_goal(self, goal: PGoal) -> Draft
        requires { is_readable_model (goal_on (view_draft self) (pure_goal (scope_of self.lines) goal)) ≡ true }
        ensures { view_draft result ≡ goal_on (view_draft self) (pure_goal (scope_of self.lines) goal) }
    {
        let Draft { model, lines } = self;
        let mut model = model;
        drop(mem::replace(&mut model.goal, goal));
        Draft { model, lines }
    }

    /// The model with these constraints.
    #[tactic(auto, using(crate::proofs::Growth::rules_more, crate::proofs::Growth::rules_sound))]
    pub(crate) fn with_rules(self, rules: Row<PEx>) -> Draft
        requires { is_readable_model (rules_on (view_draft self) (map (pure_ex (scope_of self.lines)) rules)) ≡ true }
        ensures { view_draft result ≡ rules_on (view_draft self) (map (pure_ex (scope_of self.lines)) rules) }
    {
        let Draft { model, lines } = self;
        let mut model = model;
        model.rules = rules;
        Draft { model, lines }
    }
}
