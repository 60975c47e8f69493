//! The rows of a module.
ghost use Rattle.std.specs.Prelude.{◌≡◌, map, IfOk};
ghost use Rattle.file_forms.specs.Forms.{list, at_least};
ghost use Rattle.file_forms.specs.Reads.{ReadsAs};
ghost use Rattle.object_readers.specs.Rows.{body_parts, body_form, module_part, AreEntered, BodyFits, RowsFit};
ghost use Rattle.object_rules.specs.ModuleForms as form;
ghost use Rattle.object_rules.specs.Parts.{procedure_part, link_codes};

use crate::export_rows::exports;
use crate::import_rows::imports;
use crate::link_rows::links;
use code_forms::{CodeLinks, CodeProcedures, CodeSignals};
use file_forms::{FileCursor, Stopped};
use held_objects::{Body, ModuleRows};
use held_trees::both;
use mesa_base::OutOfMemory;
use mesa_base::limits::GLOBAL_WORDS;
use mesa_types::Imports;
use module_readers::{procedures, signals, strings, words_up_to};
use std::alloc::Global;

fn links_of(alloc: Global, imports: &Imports) -> Result<CodeLinks, OutOfMemory>
    ensures { IfOk result (λ made. made ≡ link_codes imports.now) }
{
    links(alloc, imports.as_slice())
}

fn procedures_with(
    alloc: Global,
    input: &mut FileCursor<'_>,
    signals: &CodeSignals,
    links: &CodeLinks,
) -> Result<CodeProcedures, Stopped>
    ensures read { ReadsAs (map procedure_part) ((list (at_least 1) (form.procedure signals.now links.now)).read input.old.rest.now) result input.new.rest.now }
    ensures order { IfOk result AreEntered }
{
    procedures(alloc, input, signals.as_slice(), links.as_slice())
}

#[tactic(auto, unfolding(crate::specs::Rows::body_form))]
fn body(
    alloc: Global,
    input: &mut FileCursor<'_>,
    version: u8,
    imports: &Imports,
) -> Result<Body, Stopped>
    ensures read { ReadsAs body_parts ((body_form version imports.now).read input.old.rest.now) result input.new.rest.now }
    ensures whole { IfOk result (BodyFits imports.now) }
{
    let global_words = words_up_to(input, GLOBAL_WORDS)?;
    let signals = signals(alloc, input)?;
    let strings = strings(alloc, input)?;
    let links = links_of(alloc, imports)?;
    let procedures = procedures_with(alloc, input, &signals, &links)?;
    let exports = exports(alloc, input, version, &signals, &procedures)?;
    Ok(Body {
        global_words,
        signals,
        strings,
        links,
        procedures,
        exports,
    })
}

/// A module.
#[tactic(auto, unfolding(object_rules::specs::ModuleForms::module_form, crate::specs::Rows::body_form))]
pub fn module_rows(
    alloc: Global,
    input: &mut FileCursor<'_>,
    version: u8,
) -> Result<ModuleRows, Stopped>
    ensures read { ReadsAs module_part ((form.module_form version).read input.old.rest.now) result input.new.rest.now }
    ensures whole { IfOk result RowsFit }
{
    let name = input.name(alloc)?;
    let imports = imports(alloc, input, version)?;
    let body = body(alloc, input, version, &imports);
    let (imports, body) = both(imports, body)?;
    Ok(ModuleRows {
        name,
        imports,
        body,
    })
}
