//! The modules of a configuration by their names.
ghost use Rattle.std.specs.Prelude.{◌≡◌, IfOk, MatchResult};
ghost use Rattle.check_scopes.specs.Shows.{listed};
ghost use Rattle.config_rules.specs.Through as spec;
ghost use Rattle.config_rules.specs.Tree.{modules_with};
ghost use Rattle.config_templates.specs.Found.{modules_of};
ghost use Rattle.config_templates.specs.Modules.{IsIndexed, of_shape};
ghost use Rattle.config_templates.specs.Places.{place_in, names_of_components};

use check_scopes::Index;
use config_rules::{Component, TreeCause, TreeFault};
use mesa_base::{Identifier, OutOfMemory};
use mesa_types::Shape;
use std::alloc::Global;

/// The components with their shapes, and an index of their names.
#[derive(Drop)]
pub struct Modules<'a> {
    pub places: Index<usize>,
    pub components: &'a [Component],
    pub shapes: &'a [Shape],
}

/// Which component has a name first.
fn component_places(alloc: Global, components: &[Component]) -> Result<Index<usize>, OutOfMemory>
    ensures { IfOk result (λ places. listed places ≡ place_in (names_of_components components.now)) }
{
    let mut places = Index::new(alloc);
    for (at, component) in components.iter().enumerate() {
        places.declare_first(alloc, component.name.bytes(), at)?;
    }
    Ok(places)
}

impl<'a> Modules<'a> {
    pub fn new(
        alloc: Global,
        components: &'a [Component],
        shapes: &'a [Shape],
    ) -> Result<Modules<'a>, OutOfMemory>
        ensures indexed { IfOk result IsIndexed }
        ensures modules { IfOk result (λ made. modules_of made ≡ modules_with components.now shapes.now) }
    {
        Ok(Modules {
            places: component_places(alloc, components)?,
            components,
            shapes,
        })
    }

    /// The number and the shape of a module; UnknownComponent where there is none, or where its file has a module of another name.
    pub fn shape(&self, component: &Identifier) -> Result<(usize, &Shape), TreeFault>
        requires { IsIndexed self.now }
        ensures { MatchResult result (λ found. spec.found_module 0 (modules_of self.now) component.now ≡ Ok (of_shape found.0 found.1.now)) (λ fault. spec.found_module 0 (modules_of self.now) component.now ≡ Err fault) }
    {
        let unknown = TreeFault::At(TreeCause::UnknownComponent, component.place);
        let name = component.name.bytes();
        let Some(place) = self.places.get(name).copied() else {
            return Err(unknown);
        };
        let Some(shape) = self.shapes.get(place) else {
            return Err(unknown);
        };
        if shape.name.bytes() != name {
            return Err(unknown);
        }
        Ok((place, shape))
    }
}
