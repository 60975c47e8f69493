//! From a template to the tree.
ghost use Rattle.std.specs.Prelude.{◌≡◌, ◌≢◌, length, IfOk};
ghost use Rattle.config_rules.specs.Grown as spec;
ghost use Rattle.config_tree.specs.Ended.{IsEnded};
ghost use Rattle.config_tree.specs.Growing.{Within, nameless};

use crate::differing::first_to_differ;
use crate::growing::grow;
use crate::growth::Growth;
use crate::late_faults::{too_many, too_nested};
use crate::records::outermost;
use config_rules::{Component, Tree, TreeCause, TreeFault};
use config_templates::Template;
use held_trees::both;
use mesa_base::{List, OutOfMemory};
use mesa_types::Shape;
use std::alloc::Global;

fn grown(alloc: Global, shapes: &[Shape], template: &Template) -> Result<Tree, OutOfMemory>
    requires { Within (length shapes.now) template.now }
    ensures { IfOk result (λ tree. tree ≡ spec.grown (nameless shapes.now) template.now) }
{
    let scope = outermost(alloc, template.heading())?;
    let mut growth = Growth {
        scopes: List::of(alloc, scope)?,
        instances: List::new(alloc),
    };
    let control = grow(alloc, shapes, &[], 0, template, &mut growth);
    let (growth, control) = both(growth, control)?;
    let Growth { scopes, instances } = growth;
    Ok(Tree {
        scopes,
        instances,
        control,
    })
}

/// The tree of a template, or the first of the faults that are looked for once all statements were gone through.
pub fn finished(
    alloc: Global,
    components: &[Component],
    shapes: &[Shape],
    template: &Template,
) -> Result<Tree, TreeFault>
    requires one_each { length shapes.now ≡ length components.now }
    requires within { Within (length shapes.now) template.now }
    ensures { result ≢ Err TreeFault.Memory → IsEnded components.now shapes.now template.now result }
{
    if let Some(place) = too_nested(template.parts()) {
        return Err(TreeFault::At(TreeCause::TooNested, place));
    }
    if let Some(place) = too_many(template.parts()) {
        return Err(TreeFault::At(TreeCause::TooManyInstances, place));
    }
    if let Some(n) = first_to_differ(alloc, shapes)? {
        let place = components[n].place;
        return Err(TreeFault::At(TreeCause::InterfaceDiffers, place));
    }
    Ok(grown(alloc, shapes, template)?)
}
