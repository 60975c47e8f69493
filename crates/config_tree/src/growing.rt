//! The scopes and the instances of a template, in tree order: depth first, in text order. A number is that of what was grown
//! before, so nothing is counted again.
ghost use Rattle.std.specs.Prelude.{◌≡◌, ◌<◌, ◌∷◌, [], length, IfOk};
ghost use Rattle.config_rules.specs.Grown as grown;
ghost use Rattle.config_rules.specs.Template as spec;
ghost use Rattle.config_templates.specs.Shown.{before, part_of};
ghost use Rattle.config_tree.specs.Growing.{Grows, PartGrows, PartsWithin, Within, instance_of, name_in, nameless};

use crate::control::control;
use crate::growth::Growth;
use crate::records::{copy_names, path_to, scope_for};
use check_scopes::Index;
use config_rules::TreeInstance;
use config_templates::{Part, Template, TemplatePart};
use held_trees::put;
use mesa_base::{List, Name, Numbers, OutOfMemory};
use mesa_types::Shape;
use std::alloc::Global;

fn number_of(count: usize) -> Result<u32, OutOfMemory>
    ensures { IfOk result (λ number. number ≡ count) }
{
    match u32::try_from(count) {
        Ok(number) => Ok(number),
        Err(_) => Err(OutOfMemory),
    }
}

fn name_of(part: &TemplatePart) -> &Name
    ensures { result.now ≡ name_in part.now }
{
    match part {
        TemplatePart::Module(part, _) => &part.name,
        TemplatePart::Nested(part, _) => &part.name,
    }
}

fn shape_of(alloc: Global, shapes: &[Shape], component: u32) -> Result<Shape, OutOfMemory>
    requires { component < length shapes.now }
    ensures { IfOk result (λ shape. shape ≡ grown.shape_of (nameless shapes.now) component) }
{
    let at = component as usize;
    shapes[at].copy(alloc)
}

fn instance(
    alloc: Global,
    shapes: &[Shape],
    path: &[Name],
    scope: u32,
    part: &Part,
    component: u32,
) -> Result<TreeInstance, OutOfMemory>
    requires { component < length shapes.now }
    ensures { IfOk result (λ instance. instance ≡ instance_of shapes.now path.now scope part.now component) }
{
    Ok(TreeInstance {
        path: path_to(alloc, path, &part.name)?,
        component,
        scope,
        imports: copy_names(alloc, part.imports.as_slice())?,
        exports: copy_names(alloc, part.exports.as_slice())?,
        shape: shape_of(alloc, shapes, component)?,
    })
}

fn grow_module(
    alloc: Global,
    shapes: &[Shape],
    path: &[Name],
    scope: u32,
    part: &Part,
    component: u32,
    growth: &mut Growth,
) -> Result<Numbers, OutOfMemory>
    requires { component < length shapes.now }
    ensures { IfOk result (λ started. PartGrows shapes.now path.now scope growth.old growth.new (TemplatePart.Module part.now component) started) }
{
    let number = number_of(growth.instances.len())?;
    let started = List::of(alloc, number)?;
    let instance = instance(alloc, shapes, path, scope, part, component)?;
    put(&mut growth.instances, instance)?;
    Ok(started)
}

#[cycle(growing)]
fn grow_part(
    alloc: Global,
    shapes: &[Shape],
    path: &[Name],
    scope: u32,
    part: &TemplatePart,
    growth: &mut Growth,
) -> Result<Numbers, OutOfMemory>
    requires { PartsWithin (length shapes.now) (before part.now spec.NoParts) }
    ensures { IfOk result (λ started. PartGrows shapes.now path.now scope growth.old growth.new part.now started) }
{
    match part {
        TemplatePart::Module(part, component) => {
            grow_module(alloc, shapes, path, scope, part, *component, growth)
        }
        TemplatePart::Nested(part, nested) => {
            let inside = number_of(growth.scopes.len())?;
            let path = path_to(alloc, path, &part.name)?;
            let scope = scope_for(alloc, scope, part, nested.get().heading())?;
            growth.scopes.push(scope)?;
            grow(alloc, shapes, path.as_slice(), inside, nested.get(), growth)
        }
    }
}

/// Puts the scopes and the instances that the template makes in this scope and under this path behind the others, and says what its
/// CONTROL list starts. Where memory runs out some of them stand there.
#[cycle(growing)]
pub fn grow(
    alloc: Global,
    shapes: &[Shape],
    path: &[Name],
    scope: u32,
    template: &Template,
    growth: &mut Growth,
) -> Result<Numbers, OutOfMemory>
    requires { Within (length shapes.now) template.now }
    ensures { IfOk result (λ control. Grows shapes.now path.now scope growth.old growth.new template.now control) }
{
    let mut starts = Index::new(alloc);
    let mut rest = template.parts();
    'parts: while let Some((part, more)) = rest.split_first() {
        let started = grow_part(alloc, shapes, path, scope, part, growth)?;
        starts.declare_first(alloc, name_of(part).bytes(), started)?;
        rest = more;
    }
    control(alloc, &starts, template.heading().control.as_slice())
}
