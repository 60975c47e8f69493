//! Copies of a checked module: they own its statements together.

ghost use Rattle.std.specs.Prelude.{◌≡◌, IfOk};

use crate::faces::{copy_exports, copy_imports, copy_items};
use crate::typed_tree::{TypedBody, TypedModule, TypedProcedure, TypedProcedures};
use crate::types::copy_fields;
use held_trees::mesa_base::{List, OutOfMemory, Texts};
use std::alloc::Global;

fn copy_strings(alloc: Global, strings: &Texts) -> Result<Texts, OutOfMemory>
    ensures { IfOk result (λ copy. copy ≡ strings.now) }
{
    let mut copy = List::new(alloc);
    for text in strings.as_slice() {
        copy.push(List::from_slice(alloc, text.as_slice())?)?;
    }
    Ok(copy)
}

impl TypedBody {
    pub fn copy(&self, alloc: Global) -> Result<TypedBody, OutOfMemory>
        ensures { IfOk result (λ copy. copy ≡ self.now) }
    {
        Ok(TypedBody {
            variables: copy_fields(alloc, &self.variables)?,
            does: self.does.share()?,
        })
    }
}

impl TypedProcedure {
    pub fn copy(&self, alloc: Global) -> Result<TypedProcedure, OutOfMemory>
        ensures { IfOk result (λ copy. copy ≡ self.now) }
    {
        Ok(TypedProcedure {
            head: self.head.copy(alloc)?,
            body: self.body.copy(alloc)?,
        })
    }
}

fn copy_procedures(
    alloc: Global,
    procedures: &TypedProcedures,
) -> Result<TypedProcedures, OutOfMemory>
    ensures { IfOk result (λ copy. copy ≡ procedures.now) }
{
    let mut copy = List::new(alloc);
    for procedure in procedures.as_slice() {
        copy.push(procedure.copy(alloc)?)?;
    }
    Ok(copy)
}

impl TypedModule {
    /// The same module. Its statements get one more owner, whatever their number.
    pub fn copy(&self, alloc: Global) -> Result<TypedModule, OutOfMemory>
        ensures { IfOk result (λ copy. copy ≡ self.now) }
    {
        Ok(TypedModule {
            name: self.name.copy(alloc)?,
            imports: copy_imports(alloc, &self.imports)?,
            exports: copy_exports(alloc, &self.exports)?,
            globals: copy_fields(alloc, &self.globals)?,
            signals: copy_items(alloc, &self.signals)?,
            strings: copy_strings(alloc, &self.strings)?,
            procedures: copy_procedures(alloc, &self.procedures)?,
            body: self.body.copy(alloc)?,
        })
    }
}
