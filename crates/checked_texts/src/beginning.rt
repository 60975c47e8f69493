//! From a text to the tree that is checked, before any interface is read.
ghost use Rattle.std.specs.Prelude.{◌≡◌, ◌≢◌, IfErr, IfOk};
ghost use Rattle.module_checker.specs.check_state.specs.Gives.{GivesOnly};
ghost use Rattle.syntax_trees.specs.PlainSyntax as plain;
ghost use Rattle.checked_texts.specs.Asked as spec;
ghost use Rattle.checked_texts.specs.Texts.{Begins, HasEarlyFault, HasNoTree};
ghost use Rattle.written_trees.specs.Laws.{IsTreeOf};

use crate::file_names::names_file;
use crate::purpose::Purpose;
use crate::text_fault::TextFault;
use check_rules::{Cause, CheckFault};
use held_trees::both;
use mesa_grammar::module;
use mesa_lexer::tokens;
use std::alloc::Global;
use syntax_trees::Module;
use syntax_trees::syntax::{DirectoryItem, ModuleKind};

/// Whether the text has a stamp where its kind asks for one, and none where it doesn't.
fn fits(purpose: Purpose, kind: &ModuleKind) -> Result<(), CheckFault>
    ensures { GivesOnly (λ _. tt) (spec.fits purpose (plain.kind kind.now)) result }
{
    match kind {
        ModuleKind::Program { place, .. } => match purpose {
            Purpose::Program => Ok(()),
            Purpose::Interface(_) => Err(CheckFault::At(Cause::StampUnwanted, *place)),
        },
        ModuleKind::Interface { place, .. } => match purpose {
            Purpose::Program => Err(CheckFault::At(Cause::StampMissing, *place)),
            Purpose::Interface(_) => Ok(()),
        },
    }
}

/// Whether each item takes the built-in interface or names a file.
fn name_files(directory: &[DirectoryItem]) -> Result<(), CheckFault>
    ensures { GivesOnly (λ _. tt) (spec.name_files directory.now) result }
{
    for item in directory {
        if !names_file(item) {
            return Err(CheckFault::At(Cause::UnknownName, item.file_place));
        }
    }
    Ok(())
}

/// First the stamp, then the FROM texts.
fn before_files(purpose: Purpose, tree: &Module) -> Result<(), CheckFault>
    ensures { GivesOnly (λ _. tt) (spec.before_files purpose (plain.syntax tree.now)) result }
{
    fits(purpose, &tree.kind)?;
    name_files(tree.directory.as_slice())
}

/// The syntax tree of a text, or its first lexical fault, or else its syntax fault.
pub fn tree_of(alloc: Global, text: &[u8]) -> Result<Module, TextFault>
    ensures tree { IfOk result (IsTreeOf text.now) }
    ensures fault { IfErr result (λ why. why ≢ TextFault.Memory → HasNoTree text.now why) }
{
    let tokens = tokens(alloc, text)?;
    Ok(module(alloc, &tokens)?)
}

/// The syntax tree of a text that is compiled for this purpose, or its first fault before any interface is read. A lexical fault comes
/// before a syntax fault; then StampMissing for definitions without a stamp and StampUnwanted for a program under one, at the word of
/// the kind; then UnknownName at the first FROM text that is no base of a file, of an item that is not IODefs.
pub fn begun(alloc: Global, text: &[u8], purpose: Purpose) -> Result<Module, TextFault>
    ensures begins { IfOk result (λ tree. Begins text.now purpose tree) }
    ensures fault { IfErr result (λ why. why ≢ TextFault.Memory → HasEarlyFault text.now purpose why) }
{
    let tree = tree_of(alloc, text)?;
    let allowed = before_files(purpose, &tree);
    let (tree, _) = both(tree, allowed)?;
    Ok(tree)
}
