//! Instances: of what, under which name, with which records.
ghost use Rattle.std.specs.Prelude.{◌≡◌, ℕ, List};
ghost use Rattle.check_scopes.specs.Shows.{shows};
ghost use Rattle.config_rules.specs.Through as spec;
ghost use Rattle.config_templates.specs.Answers.{IsAnswer};
ghost use Rattle.config_templates.specs.Found.{found_of, made_from, made_of, modules_of};
ghost use Rattle.config_templates.specs.Known.{Knows};
ghost use Rattle.config_templates.specs.Modules.{IsIndexed};

use crate::copies::names_in;
use crate::found::{Found, Thing, look_up};
use crate::known::is_known;
use crate::modules::Modules;
use crate::template::{Part, Template, TemplatePart};
use check_scopes::{Index, Scopes};
use cmesa_grammar::Instantiation;
use config_rules::{TreeCause, TreeFault};
use mesa_base::{Identifier, Shared};
use mesa_types::Names;
use std::alloc::Global;

/// The records of an explicit list, one for each of these names; without one, or with an empty one, the names themselves. CountDiffers at
/// the first record where there are more or fewer.
fn listed(records: &[Identifier], alloc: Global, names: Names) -> Result<Names, TreeFault>
    ensures { IsAnswer (λ all. all) (spec.listed records.now names) result }
{
    let Some(first) = records.first() else {
        return Ok(names);
    };
    if records.len() != names.len() {
        return Err(TreeFault::At(TreeCause::CountDiffers, first.place));
    }
    Ok(names_in(alloc, records)?)
}

/// The name that the instance is given, or the component's.
fn name_in(instance: &Instantiation) -> &Identifier
    ensures { result.now ≡ spec.name_in instance.now }
{
    match &instance.name {
        Some(name) => name,
        None => &instance.component,
    }
}

/// The instance of what was found. TwiceNamed where an instance of the scope has its name; then the records of the left list are counted,
/// and then those of the right one.
fn made_from(
    found: Found,
    alloc: Global,
    instance: &Instantiation,
    names: &Index<()>,
) -> Result<TemplatePart, TreeFault>
    ensures { (all : List (List ℕ)) → Knows names.now all → IsAnswer made_of (made_from all instance.now (found_of found)) result }
{
    let name = name_in(instance);
    if is_known(names, &name.name) {
        return Err(TreeFault::At(TreeCause::TwiceNamed, name.place));
    }
    let Found {
        thing,
        imports,
        exports,
    } = found;
    let exports = listed(instance.records.as_slice(), alloc, exports)?;
    let imports = listed(instance.arguments.as_slice(), alloc, imports)?;
    let part = Part {
        name: name.name.copy(alloc)?,
        imports,
        exports,
        place: instance.place,
    };
    match thing {
        Thing::OfModule(component) => Ok(TemplatePart::Module(part, component)),
        Thing::OfNested(template) => Ok(TemplatePart::Nested(part, template)),
    }
}

/// The instance that a statement makes in a scope where instances have these names.
pub fn instance(
    instance: &Instantiation,
    alloc: Global,
    modules: &Modules,
    nested: &Scopes<Shared<Template>>,
    names: &Index<()>,
) -> Result<TemplatePart, TreeFault>
    requires { IsIndexed modules.now }
    ensures { (all : List (List ℕ)) → Knows names.now all → IsAnswer made_of (spec.instance (modules_of modules.now) (shows nested.now) all instance.now) result }
{
    let found = look_up(&instance.component, alloc, modules, nested)?;
    made_from(found, alloc, instance, names)
}
