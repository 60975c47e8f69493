//! Of what a statement makes an instance.
ghost use Rattle.std.specs.Prelude.{◌≡◌, IfOk};
ghost use Rattle.check_scopes.specs.Shows.{shows};
ghost use Rattle.config_rules.specs.Through as spec;
ghost use Rattle.config_templates.specs.Answers.{IsAnswer};
ghost use Rattle.config_templates.specs.Found.{found_of, modules_of, of_template};
ghost use Rattle.config_templates.specs.Modules.{IsIndexed};

use crate::copies::{exported, imported, names_in};
use crate::modules::Modules;
use crate::template::Template;
use check_scopes::Scopes;
use config_rules::TreeFault;
use mesa_base::{Identifier, OutOfMemory, Shared};
use mesa_types::Names;
use std::alloc::Global;

/// A module, by the component's number, or a nested configuration.
#[derive(Drop)]
pub enum Thing {
    OfModule(u32),
    OfNested(Shared<Template>),
}

/// Of what a statement makes an instance, with the names of its imports and exports.
#[derive(Drop)]
pub struct Found {
    pub thing: Thing,
    pub imports: Names,
    pub exports: Names,
}

fn module(component: &Identifier, alloc: Global, modules: &Modules) -> Result<Found, TreeFault>
    requires { IsIndexed modules.now }
    ensures { IsAnswer found_of (spec.found_module 0 (modules_of modules.now) component.now) result }
{
    let (place, shape) = modules.shape(component)?;
    let Ok(number) = u32::try_from(place) else {
        return Err(TreeFault::Memory);
    };
    Ok(Found {
        thing: Thing::OfModule(number),
        imports: imported(alloc, shape.imports.as_slice())?,
        exports: exported(alloc, shape.exports.as_slice())?,
    })
}

fn nested_one(alloc: Global, template: &Shared<Template>) -> Result<Found, OutOfMemory>
    ensures { IfOk result (λ found. found_of found ≡ of_template template.now) }
{
    let heading = template.get().heading();
    Ok(Found {
        thing: Thing::OfNested(template.share()?),
        imports: names_in(alloc, heading.imports.as_slice())?,
        exports: names_in(alloc, heading.exports.as_slice())?,
    })
}

/// The nested configuration that is declared in the innermost scope, else the module; UnknownComponent where there is neither.
pub fn look_up(
    component: &Identifier,
    alloc: Global,
    modules: &Modules,
    nested: &Scopes<Shared<Template>>,
) -> Result<Found, TreeFault>
    requires { IsIndexed modules.now }
    ensures { IsAnswer found_of (spec.found (modules_of modules.now) (shows nested.now) component.now) result }
{
    match nested.find(component.name.bytes()) {
        Some(template) => Ok(nested_one(alloc, template)?),
        None => module(component, alloc, modules),
    }
}
