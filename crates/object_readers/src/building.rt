//! An object of the rows of its file.
ghost use Rattle.std.specs.Prelude.{◌≡◌, ◌≢◌, length, IfErr, IfOk};
ghost use Rattle.code_forms.specs.Ranges.{KeepsRanges};
ghost use Rattle.object_readers.specs.Built.{IsCodeOf, HasBadCode, HasFault};
ghost use Rattle.object_readers.specs.Rows.{module_part, RowsFit};
ghost use Rattle.object_rules.specs.Parts.{parts_of, IsWhole};

use code_forms::{CodeLinks, CodeProcedures, CodeSignals, ModuleCode, ValidCode, validate};
use held_objects::{Body, ModuleRows};
use held_trees::LetGo;
use mesa_base::{Name, Texts};
use mesa_types::Shape;
use object_files::Object;
use object_rules::ObjectFault;
use std::alloc::Global;

fn checked(number: u32, code: ModuleCode) -> Result<ValidCode, ObjectFault>
    ensures made { IfOk result (IsCodeOf code.name code.global_words code.signals code.strings code.links code.procedures) }
    ensures fault { IfErr result (λ e. HasBadCode number code.global_words (length code.strings) code.signals code.links code.procedures e) }
{
    match validate(code) {
        Ok(code) => Ok(code),
        Err(bad) => Err(ObjectFault::Code(number, bad.procedure, bad.fault)),
    }
}

fn code_of(
    alloc: Global,
    number: u32,
    name: &Name,
    global_words: u16,
    signals: CodeSignals,
    strings: Texts,
    links: CodeLinks,
    procedures: CodeProcedures,
) -> Result<ValidCode, ObjectFault>
    requires { KeepsRanges global_words signals strings links procedures }
    ensures made { IfOk result (IsCodeOf name.now global_words signals strings links procedures) }
    ensures fault { IfErr result (λ e. e ≢ ObjectFault.Memory → HasBadCode number global_words (length strings) signals links procedures e) }
{
    let name = match name.copy(alloc) {
        Ok(name) => name,
        Err(_) => return Err(ObjectFault::Memory),
    };
    checked(
        number,
        ModuleCode {
            name,
            global_words,
            signals,
            strings,
            links,
            procedures,
        },
    )
}

/// The object of these rows, which is the module of this number of its file. Code: the first fault of its code.
pub fn object(alloc: Global, number: u32, rows: ModuleRows) -> Result<Object, ObjectFault>
    requires rows { RowsFit rows }
    requires ranges { KeepsRanges rows.body.global_words rows.body.signals rows.body.strings rows.body.links rows.body.procedures }
    ensures made { IfOk result (λ o. (parts_of o ≡ module_part rows) × IsWhole o) }
    ensures fault { IfErr result (λ e. e ≢ ObjectFault.Memory → HasFault number (module_part rows) e) }
{
    let ModuleRows {
        name,
        imports,
        body,
    } = rows;
    let Body {
        global_words,
        signals,
        strings,
        links,
        procedures,
        exports,
    } = body;
    match code_of(
        alloc,
        number,
        &name,
        global_words,
        signals,
        strings,
        links,
        procedures,
    ) {
        Ok(code) => {
            let shape = Shape {
                name,
                imports,
                exports,
            };
            Ok(Object { shape, code })
        }
        Err(fault) => {
            imports.let_go();
            exports.let_go();
            Err(fault)
        }
    }
}
