ghost use Rattle.std.specs.Prelude.{◌≡◌, IfOk};

use crate::{PDecl, PDom, PEx, PGoal, PModel};
use ess_rows::{NoMemory, Row, Text};
use std::alloc::Global;

impl PDecl {
    /// A copy, which equals this declaration. `NoMemory` where there is no room for it.
    pub fn copy(&self, alloc: Global) -> Result<PDecl, NoMemory>
        ensures { IfOk result (λ d. d ≡ self.now) }
    {
        let mut axes = Row::with_capacity(alloc, self.axes.len())?;
        for axis in self.axes.as_slice() {
            axes.push(axis.copy(alloc)?)?;
        }
        Ok(PDecl {
            name: self.name.copy(alloc)?,
            axes,
            cell: self.cell.copy(alloc)?,
        })
    }
}

impl PGoal {
    /// A copy, which equals this objective. `NoMemory` where there is no room for it.
    pub fn copy(&self, alloc: Global) -> Result<PGoal, NoMemory>
        ensures { IfOk result (λ g. g ≡ self.now) }
    {
        match self {
            PGoal::Free => Ok(PGoal::Free),
            PGoal::Minimise(ex) => Ok(PGoal::Minimise(ex.copy(alloc)?)),
            PGoal::Maximise(ex) => Ok(PGoal::Maximise(ex.copy(alloc)?)),
        }
    }
}

impl PModel {
    /// A copy, which equals this model. `NoMemory` where there is no room for it.
    pub fn copy(&self, alloc: Global) -> Result<PModel, NoMemory>
        ensures { IfOk result (λ m. m ≡ self.now) }
    {
        let head = copy_lines(alloc, &self.head)?;
        let givens = copy_decls(alloc, &self.givens)?;
        let finds = copy_decls(alloc, &self.finds)?;
        let rules = copy_rules(alloc, &self.rules)?;
        Ok(PModel {
            head,
            givens,
            finds,
            goal: self.goal.copy(alloc)?,
            rules,
        })
    }
}

fn copy_lines(alloc: Global, lines: &Row<Text>) -> Result<Row<Text>, NoMemory>
    ensures { IfOk result (λ ls. ls ≡ lines.now) }
{
    let mut copies = Row::with_capacity(alloc, lines.len())?;
    for line in lines.as_slice() {
        copies.push(line.copy(alloc)?)?;
    }
    Ok(copies)
}

fn copy_decls(alloc: Global, decls: &Row<PDecl>) -> Result<Row<PDecl>, NoMemory>
    ensures { IfOk result (λ ds. ds ≡ decls.now) }
{
    let mut copies = Row::with_capacity(alloc, decls.len())?;
    for decl in decls.as_slice() {
        copies.push(decl.copy(alloc)?)?;
    }
    Ok(copies)
}

fn copy_rules(alloc: Global, rules: &Row<PEx>) -> Result<Row<PEx>, NoMemory>
    ensures { IfOk result (λ es. es ≡ rules.now) }
{
    let mut copies = Row::with_capacity(alloc, rules.len())?;
    for rule in rules.as_slice() {
        copies.push(rule.copy(alloc)?)?;
    }
    Ok(copies)
}
