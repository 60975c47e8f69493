//! Templates: configurations in which each statement is looked up, with counts of what they make.
ghost use Rattle.std.specs.Prelude.{◌≡◌};
ghost use Rattle.config_rules.specs.Template as spec;
ghost use Rattle.config_templates.specs.Shown.{chained};
ghost use Rattle.config_templates.specs.Clipped.{clipped};

use crate::counts::{depth_below, modules_below, scopes_below};
use cmesa_grammar::Heading;
use mesa_base::{List, Name, Place, Shared};
use mesa_types::Names;
use std::marker::Model;

/// An instance, at its first token: its name, and the records of its scope that each import and each export takes, in text order.
#[derive(Drop)]
pub struct Part {
    pub name: Name,
    pub imports: Names,
    pub exports: Names,
    pub place: Place,
}

/// An instance of a module, by the component's number, or of a nested configuration.
#[cycle(template)]
#[derive(Drop)]
pub enum TemplatePart {
    Module(Part, u32),
    Nested(Part, Shared<Template>),
}

pub type TemplateParts = List<TemplatePart>;

/// A configuration in which each statement is looked up, which contracts see as `config_rules` defines it. Its nested ones are shared.
/// Beside it stand how many instances and scopes it makes and the most names of a path, each clipped (`clipped`).
#[cycle(template)]
#[derive(Drop)]
pub struct Template {
    heading: Heading,
    parts: TemplateParts,
    modules: u32,
    scopes: u32,
    depth: u32,
}

impl Model for Template {
    ghost use Rattle.config_rules.specs.Template as spec;

    ghost Value = { spec.Template };

    ghost use Rattle.config_templates.specs.Coding.{template_coded};

    ghost coded = { template_coded };

    ghost use Rattle.config_templates.specs.Shown.{shown, IsCounted};

    ghost view = { shown };

    ghost invariant = { IsCounted };

    ghost use Rattle.config_templates.specs.Size.{nodes};

    ghost size = { nodes };

    ghost use Rattle.config_templates.specs.Falls.{parts_fall};

    ghost size_decreases = { λ a h. parts_fall a };
}

impl Template {
    /// The template of this heading and these parts.
    pub fn new(heading: Heading, parts: TemplateParts) -> Template
        ensures { result ≡ spec.Gone heading (chained parts) }
    {
        let modules = modules_below(parts.as_slice());
        let scopes = scopes_below(parts.as_slice());
        let depth = depth_below(parts.as_slice());
        Template {
            heading,
            parts,
            modules,
            scopes,
            depth,
        }
    }

    pub fn heading(&self) -> &Heading
        ensures { result.now ≡ spec.heading_in self.now }
    {
        &self.heading
    }

    /// The instances, in text order.
    pub fn parts(&self) -> &[TemplatePart]
        ensures { chained result.now ≡ spec.parts_in self.now }
    {
        self.parts.as_slice()
    }

    /// How many instances of modules there will be; 1,025 stands for all that are more than 1,024.
    pub fn modules(&self) -> u32
        ensures { result ≡ clipped (spec.modules_of self.now) }
    {
        self.modules
    }

    /// And how many of nested configurations, each with its scope.
    pub fn scopes(&self) -> u32
        ensures { result ≡ clipped (spec.scopes_of self.now) }
    {
        self.scopes
    }

    /// The most names of a path.
    pub fn depth(&self) -> u32
        ensures { result ≡ clipped (spec.depth_of self.now) }
    {
        self.depth
    }
}
