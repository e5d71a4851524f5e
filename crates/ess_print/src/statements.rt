ghost use Rattle.std.specs.Prelude.{◌≡◌, [], ◌∷◌, ◌++◌, IfOk, OnOk};
ghost use Rattle.ess_grammar.specs.Tokens.{lexed, first_outside};
ghost use Rattle.ess_grammar.specs.Statements.{Statement};
ghost use Rattle.ess_grammar.specs.Readable.{ReadableStm};
ghost use Rattle.ess_grammar.specs.Texts.{Reads, ReadsSpecification};
ghost use Rattle.ess_core.specs.StatementViews.{pure_stm};
ghost use Rattle.ess_core.specs.TreeViews.{pure_dom, pure_ex};
ghost use Rattle.ess_print_laws.specs.Parts.{commas, name_printers};
ghost use Rattle.ess_print_laws.specs.Texts.{stm_text};
ghost use Rattle.ess_print_laws.specs.Expressions.{ex_pieces, dom_pieces};
ghost use Rattle.ess_print_laws.specs.Statements.{stm_pieces, declared, let_be};
ghost use Rattle.ess_print.specs.Written.{Puts};

use crate::domains::put_dom;
use crate::expressions::put_ex;
use crate::parts::put_comma;
use ess_core::{Dom, Ex, NoMemory, Stm, Text};
use std::alloc::Global;

/// The text of a statement, as the Essence paper's grammar has it. Where the statement is one that some text has, this text is
/// derived by the grammar's rules for exactly that statement, alone and as a specification of it, and no word of it stands
/// outside the subset. `NoMemory` where there is no room for the text.
pub fn print_stm(alloc: Global, stm: &Stm) -> Result<Text, NoMemory>
    ensures text { IfOk result (λ t. t ≡ stm_text (pure_stm stm.now)) }
    ensures statement { ReadableStm (pure_stm stm.now) → IfOk result (λ t. Reads t (λ ts. Statement (pure_stm stm.now ∷ []) ts [])) }
    ensures specification { ReadableStm (pure_stm stm.now) → IfOk result (λ t. ReadsSpecification t (pure_stm stm.now ∷ [])) }
    ensures subset { ReadableStm (pure_stm stm.now) → IfOk result (λ t. first_outside (lexed t) ≡ None) }
{
    let mut out = Text::new(alloc);
    put_stm(&mut out, stm)?;
    Ok(out)
}

/// Writes a statement.
fn put_stm(out: &mut Text, stm: &Stm) -> Result<(), NoMemory>
    ensures { OnOk result (Puts out.old out.new (stm_pieces (pure_stm stm.now))) }
{
    match stm {
        Stm::Given(name, dom) => {
            out.push_str("given ")?;
            put_declared(out, name, dom.get())
        }
        Stm::GivenEnum(name) => {
            out.push_str("given ")?;
            out.push_str(name.as_str())?;
            out.push_str(" new type enum")
        }
        Stm::LetEx(name, ex) => {
            put_let(out, name)?;
            put_ex(out, ex.get())
        }
        Stm::LetDom(name, dom) => {
            put_let(out, name)?;
            out.push_str("domain ")?;
            put_dom(out, dom.get())
        }
        Stm::LetEnum(name, values) => {
            put_let(out, name)?;
            out.push_str("new type enum {")?;
            put_names(out, values.as_slice())?;
            out.push_str("}")
        }
        Stm::LetUnnamed(name, size) => {
            put_let(out, name)?;
            out.push_str("new type of size ")?;
            put_ex(out, size.get())
        }
        Stm::Needs(ex) => put_behind(out, "where ", ex.get()),
        Stm::Find(name, dom) => {
            out.push_str("find ")?;
            put_declared(out, name, dom.get())
        }
        Stm::SuchThat(ex) => put_behind(out, "such that ", ex.get()),
        Stm::Minimise(ex) => put_behind(out, "minimising ", ex.get()),
        Stm::Maximise(ex) => put_behind(out, "maximising ", ex.get()),
    }
}

/// Writes a name with its domain.
fn put_declared(out: &mut Text, name: &Text, dom: &Dom) -> Result<(), NoMemory>
    ensures { OnOk result (Puts out.old out.new (declared name.now (dom_pieces (pure_dom dom.now)))) }
{
    out.push_str(name.as_str())?;
    out.push_str(" : ")?;
    put_dom(out, dom)
}

/// Writes the beginning of a letting of this name.
fn put_let(out: &mut Text, name: &Text) -> Result<(), NoMemory>
    ensures { OnOk result (Puts out.old out.new (let_be name.now)) }
{
    out.push_str("letting ")?;
    out.push_str(name.as_str())?;
    out.push_str(" be ")
}

/// Writes names with commas between.
fn put_names(out: &mut Text, names: &[Text]) -> Result<(), NoMemory>
    ensures { OnOk result (Puts out.old out.new (commas (name_printers names.now))) }
{
    for (index, name) in names.iter().enumerate() {
        put_comma(out, index)?;
        out.push_str(name.as_str())?;
    }
    Ok(())
}

/// Writes an expression behind words.
fn put_behind(out: &mut Text, words: &str, ex: &Ex) -> Result<(), NoMemory>
    ensures { OnOk result (Puts (out.old ++ words.now) out.new (ex_pieces (pure_ex ex.now))) }
{
    out.push_str(words)?;
    put_ex(out, ex)
}
