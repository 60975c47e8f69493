//! What was gone through of the statements of a configuration.
ghost use Rattle.std.specs.Prelude.{◌≡◌, [], ◌∷◌, ◌++◌, OnOk};
ghost use Rattle.config_templates.specs.Going.{IsNamed, exports_of, own_name};

use crate::known::note;
use crate::template::{TemplatePart, TemplateParts};
use check_scopes::Index;
use held_trees::put;
use mesa_base::{List, Name, OutOfMemory};
use std::alloc::Global;

/// The parts, in text order, with an index of the instances' names.
#[derive(Drop)]
pub struct SoFar {
    pub names: Index<()>,
    pub parts: TemplateParts,
}

/// The name of the instance.
pub fn own_name(part: &TemplatePart) -> &Name
    ensures { result.now ≡ own_name part.now }
{
    match part {
        TemplatePart::Module(part, _) | TemplatePart::Nested(part, _) => &part.name,
    }
}

/// The records to which the instance exports.
pub fn exports_of(part: &TemplatePart) -> &[Name]
    ensures { result.now ≡ exports_of part.now }
{
    match part {
        TemplatePart::Module(part, _) | TemplatePart::Nested(part, _) => part.exports.as_slice(),
    }
}

impl SoFar {
    /// Nothing. It takes no memory.
    pub fn new(alloc: Global) -> SoFar
        ensures named { IsNamed result }
        ensures none { result.parts ≡ [] }
    {
        SoFar {
            names: Index::new(alloc),
            parts: List::new(alloc),
        }
    }

    /// One part more.
    pub fn add(&mut self, alloc: Global, part: TemplatePart) -> Result<(), OutOfMemory>
        requires { IsNamed self.old }
        ensures named { OnOk result (IsNamed self.new) }
        ensures parts { OnOk result (self.new.parts ≡ self.old.parts ++ part ∷ []) }
    {
        note(alloc, &mut self.names, own_name(&part))?;
        put(&mut self.parts, part)?;
        Ok(())
    }
}
