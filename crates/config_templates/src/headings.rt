//! The heading of a configuration against what stands under it.
ghost use Rattle.std.specs.Prelude.{◌≡◌, ℕ, List, [], ◌∷◌, ◌++◌, OnOk, IfOk};
ghost use Rattle.check_scopes.specs.Scopes.{has};
ghost use Rattle.config_rules.specs.Template.{exported, instance_names};
ghost use Rattle.config_rules.specs.Through as spec;
ghost use Rattle.config_templates.specs.Answers.{IsAnswer};
ghost use Rattle.config_templates.specs.Going.{IsNamed, fits, if_same};
ghost use Rattle.config_templates.specs.Known.{Knows};
ghost use Rattle.config_templates.specs.Shown.{chained};

use crate::copies::heading;
use crate::known::{is_known, note};
use crate::so_far::{SoFar, exports_of};
use crate::template::{Template, TemplatePart};
use check_scopes::Index;
use cmesa_grammar::Heading;
use config_rules::{TreeCause, TreeFault};
use mesa_base::{Identifier, Name, OutOfMemory};
use std::alloc::Global;

fn note_all(alloc: Global, known: &mut Index<()>, names: &[Name]) -> Result<(), OutOfMemory>
    ensures { OnOk result ((before : List (List ℕ)) → Knows known.old before → Knows known.new (names.now ++ before)) }
{
    for name in names {
        note(alloc, known, name)?;
    }
    Ok(())
}

/// The records to which the parts export.
fn records_of(alloc: Global, parts: &[TemplatePart]) -> Result<Index<()>, OutOfMemory>
    ensures { IfOk result (λ records. Knows records (exported (chained parts.now))) }
{
    let mut records = Index::new(alloc);
    for part in parts {
        note_all(alloc, &mut records, exports_of(part))?;
    }
    Ok(records)
}

/// The names of a list in order: none stands twice, and each is wrong where `if_exported` says whether it is a record of these.
fn each_name(
    list: &[Identifier],
    alloc: Global,
    records: &Index<()>,
    if_exported: bool,
    cause: TreeCause,
) -> Result<(), TreeFault>
    ensures { (all : List (List ℕ)) → Knows records.now all → IsAnswer (λ one. one) (spec.each_name (λ r. if_same if_exported (has r all)) cause [] list.now) result }
{
    let mut before = Index::new(alloc);
    for one in list {
        if is_known(&before, &one.name) {
            return Err(TreeFault::At(TreeCause::TwiceNamed, one.place));
        }
        if is_known(records, &one.name) == if_exported {
            return Err(TreeFault::At(cause, one.place));
        }
        note(alloc, &mut before, &one.name)?;
    }
    Ok(())
}

/// Each name of CONTROL is an instance of the scope.
fn each_control(list: &[Identifier], names: &Index<()>) -> Result<(), TreeFault>
    ensures { (all : List (List ℕ)) → Knows names.now all → IsAnswer (λ one. one) (spec.each_control all list.now) result }
{
    for one in list {
        if !is_known(names, &one.name) {
            return Err(TreeFault::At(TreeCause::UnknownControl, one.place));
        }
    }
    Ok(())
}

/// The IMPORTS, then the EXPORTS, then CONTROL.
fn fits(heading: &Heading, alloc: Global, so_far: &SoFar) -> Result<(), TreeFault>
    requires { IsNamed so_far.now }
    ensures { IsAnswer (λ one. one) (fits heading.now (chained so_far.now.parts)) result }
{
    let records = records_of(alloc, so_far.parts.as_slice())?;
    let imports = heading.imports.as_slice();
    each_name(imports, alloc, &records, true, TreeCause::RecordClash)?;
    let exports = heading.exports.as_slice();
    each_name(exports, alloc, &records, false, TreeCause::UnknownRecord)?;
    each_control(heading.control.as_slice(), &so_far.names)
}

/// The configuration of this heading and these statements, if they fit.
pub fn headed(written: &Heading, alloc: Global, so_far: SoFar) -> Result<Template, TreeFault>
    requires { IsNamed so_far }
    ensures { IsAnswer (λ template. template) (spec.headed written.now (chained so_far.parts)) result }
{
    fits(written, alloc, &so_far)?;
    let SoFar { names: _, parts } = so_far;
    Ok(Template::new(heading(alloc, written)?, parts))
}
